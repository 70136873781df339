/// What is counted of a world. Each number stays at 2^64 - 1 once it is there.
#[derive(Clone, Copy, Debug, PartialEq, Eq)]
pub struct Counts {
    /// The events that happened.
    pub events: u64,
    /// The requests that the client sent.
    pub requests: u64,
    /// How many of these a reply was sent to.
    pub replied: u64,
    /// All replies that members sent.
    pub replies: u64,
    /// The greatest index of an entry that a member applied.
    pub passed: u64,
    /// The greatest term of a member, up or down.
    pub terms: u64,
    /// The crashes of members.
    pub crashes: u64,
}
