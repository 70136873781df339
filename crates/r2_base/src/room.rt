/// How much an object in memory may still take: bytes, and calls.
#[derive(Clone, Copy, Debug, PartialEq, Eq)]
pub struct Room {
    pub bytes: u64,
    pub calls: u64,
}
