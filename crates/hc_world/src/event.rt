use r2_base::{Bytes, Kind};

/// What happens in a world. A member is named by its place in the group, counted from 0, and a packet by its number: the packets that
/// were ever sent are numbered from 0 in the order of their sending.
#[derive(Debug, Drop)]
pub enum WorldEvent {
    /// The client sends a request for the first time. Its ids are 0, 1, 2 and so on.
    ClientSend {
        kind: Kind,
        body: Bytes,
    },
    /// A packet comes where it was sent to: to a member or to the aggregator.
    Deliver {
        packet: u64,
    },
    /// Time goes on by one tick at a member.
    Tick {
        member: u8,
    },
    /// Nothing comes to a member.
    Quiet {
        member: u8,
    },
    /// A member stops between two turns. All is lost of it but the records of its turns.
    Crash {
        member: u8,
    },
    /// A member that is down begins again from its records.
    Restart {
        member: u8,
    },
    /// A member stops within a turn, at a packet or, where none is named, at a tick, before anything is sent. What the turn stores is
    /// kept or lost.
    CrashInTurn {
        member: u8,
        packet: Option<u64>,
        kept: bool,
    },
    /// The aggregator forgets what it counted.
    Forget,
}
