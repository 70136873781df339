use r2_base::{Bytes, Duplicate, Kind, Listed, NoMemory, Rid};
use std::alloc::Global;

/// The answer to the request of an entry, for its client.
#[derive(Debug, PartialEq, Eq, Drop)]
pub struct Answer {
    pub index: u64,
    pub rid: Rid,
    /// Write or Read.
    pub kind: Kind,
    /// The payload of the reply: the index in eight bytes, the status, and the value.
    pub payload: Bytes,
}

impl Duplicate for Answer {
    fn duplicate(&self, alloc: Global) -> Result<Self, NoMemory> {
        Ok(Answer {
            index: self.index,
            rid: self.rid,
            kind: self.kind,
            payload: self.payload.copy(alloc)?,
        })
    }
}

pub type Answers = Listed<Answer>;
