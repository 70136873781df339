use r2_base::{Bytes, Kind, Rid};

/// A request that waits to be ordered.
#[derive(Debug, PartialEq, Eq, Drop)]
pub struct Request {
    pub rid: Rid,
    /// Write or Read.
    pub kind: Kind,
    pub body: Bytes,
}
