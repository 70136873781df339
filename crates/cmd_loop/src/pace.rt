/// How fast a loop goes, and how far.
#[derive(Clone, Copy, Debug, PartialEq, Eq)]
pub struct Pace {
    /// The time from one tick to the next, and the time that one receive waits, in milliseconds, at least 1.
    pub tick_ms: u32,
    /// How often the link is asked for a datagram at most, up to `MOST_TURNS`.
    pub turns: u64,
}
