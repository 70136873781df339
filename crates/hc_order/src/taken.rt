use r2_base::{Metas, Rids};

/// What became of an Order's entries.
#[derive(Debug, PartialEq, Eq, Drop)]
pub struct Taken {
    /// How many entries of the old log stand.
    pub keep: u64,
    /// The entries that were appended after them.
    pub entries: Metas,
    /// The index up to which the log has the Order's entries.
    pub upto: u64,
    /// The requests that the log lacks a body for, each once, in the order of their entries.
    pub missing: Rids,
}
