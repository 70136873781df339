use crate::Entries;
use r2_base::{Duplicate, NoMemory};
use std::alloc::Global;

/// What changed of a replica's durable state in one turn (Raft, figure 2: current term, vote and log).
#[derive(Debug, PartialEq, Eq, Drop)]
pub struct Record {
    pub term: u64,
    /// The member that the replica voted for in this term.
    pub vote: Option<u8>,
    /// How many of the log's first entries are kept.
    pub keep: u64,
    /// The entries after those.
    pub entries: Entries,
}

impl Duplicate for Record {
    fn duplicate(&self, alloc: Global) -> Result<Self, NoMemory> {
        Ok(Record {
            term: self.term,
            vote: self.vote,
            keep: self.keep,
            entries: self.entries.copy(alloc)?,
        })
    }
}
