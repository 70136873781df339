use hc_replier::Bounds;
use r2_base::{Addr, Addrs};

/// Who a replica is, and how its group runs.
#[derive(Debug, Drop)]
pub struct Setup {
    /// The members' addresses, 1 to 7, all distinct.
    pub members: Addrs,
    /// The place of this replica among the members, counted from 0.
    pub me: u8,
    /// Where the group's aggregator is, if it has one. No member has its address.
    pub aggregator: Option<Addr>,
    /// For each member, how many requests it may be given to answer that it hasn't reported applied.
    pub bounds: Bounds,
    /// After how many ticks without word from a leader the first member stands for election, 1 to 1,000.
    pub election: u32,
}
