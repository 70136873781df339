use r2_base::{Bytes, Kind, Metas};

/// What one replica says to another, or to the aggregator (Raft's messages, of the extended version, in the form that
/// HovercRaft gives them: bodies travel apart from their order).
#[derive(Debug, PartialEq, Eq, Drop)]
pub enum Msg {
    /// A candidate asks for a vote (Raft, section 5.2).
    VoteReq {
        term: u64,
        member: u8,
        last_index: u64,
        last_term: u64,
    },
    /// The answer to a candidate.
    Vote {
        term: u64,
        member: u8,
        granted: bool,
    },
    /// A leader orders entries after the one at `prev_index` (Raft's AppendEntries, without bodies).
    Order {
        term: u64,
        leader: u8,
        prev_index: u64,
        prev_term: u64,
        /// The index of the first entry of the leader's term.
        term_start: u64,
        commit: u64,
        /// Whether it goes through the aggregator.
        via: bool,
        metas: Metas,
    },
    /// A member has the leader's log up to `index`, and has applied its own up to `applied`.
    Ack {
        term: u64,
        member: u8,
        index: u64,
        applied: u64,
    },
    /// A member can't take an Order; its log may agree with the leader's up to `hint`.
    Nack {
        term: u64,
        member: u8,
        hint: u64,
    },
    /// The aggregator found a majority (HovercRaft, on the aggregator).
    AggCommit {
        term: u64,
        index: u64,
    },
    /// A member lacks the body of a request.
    RecoverAsk {
        member: u8,
    },
    /// The body of a request, for a member that asked.
    RecoverBody {
        kind: Kind,
        body: Bytes,
    },
}
