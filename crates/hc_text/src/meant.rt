use crate::name::Name;
use crate::policy::Policy;
use hc_replier::Bounds;
use r2_base::{Addr, Addrs};

/// What the words of a command line ask for.
///
/// Ticks are given in milliseconds, waits and elections in ticks.
#[derive(Debug, PartialEq, Eq, Drop)]
pub enum Meant {
    /// One member of a group, which keeps its records in a journal.
    Replica {
        members: Addrs,
        me: u8,
        journal: Name,
        aggregator: Option<Addr>,
        /// For each member, how many entries it may have to answer at a time.
        bounds: Bounds,
        election: u32,
        tick_ms: u32,
        turns: u64,
    },
    /// A router of requests before some servers.
    Router {
        listen: Addr,
        servers: Addrs,
        /// How many requests a server may hold.
        n: u8,
        workers: u8,
        tick_ms: u32,
        turns: u64,
    },
    /// An aggregator, which commits for the leader of a group.
    Aggregator {
        listen: Addr,
        members: Addrs,
        turns: u64,
    },
    /// The key-value service on one server.
    Server {
        listen: Addr,
        router: Option<Addr>,
        tick_ms: u32,
        turns: u64,
    },
    /// Calls, one for each line.
    Client {
        listen: Addr,
        to: Addrs,
        policy: Policy,
        /// Ticks from one sending to the next.
        wait: u32,
        /// How often a call is sent at most.
        tries: u32,
        tick_ms: u32,
        turns: u64,
    },
    /// One member of a group, run from a script.
    Replay {
        members: Addrs,
        me: u8,
        aggregator: Option<Addr>,
        /// For each member, how many entries it may have to answer at a time.
        bounds: Bounds,
        election: u32,
    },
    /// A group with a client, simulated between a generator of packets' ways and of crashes.
    Simulate {
        /// What the generator begins with.
        seed: u64,
        /// How many members the group has.
        members: u8,
        /// How many requests the client sends.
        requests: u32,
        /// How many of 100 packets are lost.
        loss: u8,
        /// How many of 100 packets come again.
        repeat: u8,
        /// How often of 1,000 times a member crashes in a round.
        crash: u16,
        /// For each member, how many entries it may have to answer at a time.
        bounds: Bounds,
        /// Whether the group has an aggregator.
        aggregator: bool,
    },
}
