use r2_base::{Bytes, Duplicate, Entry, Listed, NoMemory};
use std::alloc::Global;

/// An entry of the log with its request's body, which is empty for a Blank entry.
#[derive(Debug, PartialEq, Eq, Drop)]
pub struct Stored {
    pub entry: Entry,
    pub body: Bytes,
}

impl Duplicate for Stored {
    fn duplicate(&self, alloc: Global) -> Result<Self, NoMemory> {
        Ok(Stored {
            entry: self.entry,
            body: self.body.copy(alloc)?,
        })
    }
}

pub type Entries = Listed<Stored>;
