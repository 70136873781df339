use hc_replier::Bounds;

/// What is simulated.
#[derive(Debug, Drop)]
pub struct Plan {
    /// The seed of all that is drawn.
    pub seed: u64,
    /// How many members the group has, 1 to 7.
    pub members: u8,
    /// How many requests the client sends, at most 60,000, one in each round.
    pub requests: u32,
    /// How many of 100 packets are lost, at most 90.
    pub loss: u8,
    /// How many of 100 packets that aren't lost come again, at most 90.
    pub repeat: u8,
    /// How many of 1,000 times a member crashes in a round, at most 500.
    pub crash: u16,
    /// For each member, how many requests it may be given to answer that it hasn't reported applied.
    pub bounds: Bounds,
    /// Whether the group has an aggregator.
    pub aggregator: bool,
}
