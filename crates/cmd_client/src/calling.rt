use hc_text::Policy;
use r2_base::{Addr, Addrs};

/// Who a client is, whom it calls, and how.
#[derive(Debug, Drop)]
pub struct Calling {
    /// The address at which it listens for replies.
    pub listen: Addr,
    /// The addresses that it sends to, 1 to 7: a server or a router, or the members of a group.
    pub to: Addrs,
    pub policy: Policy,
    /// How many ticks it waits for a reply before it sends again, at least 1.
    pub wait: u32,
    /// How often it sends a request at most, at least 1.
    pub tries: u32,
}
