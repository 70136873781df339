use crate::Key;
use crate::part_count::PartCount;
use crate::pieces::Pieces;

/// A message some of whose parts came.
#[derive(Debug, Drop)]
pub struct Unfinished {
    pub key: Key,
    /// What the parts that came say of the count of parts.
    pub count: PartCount,
    pub pieces: Pieces,
}
