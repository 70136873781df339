use crate::Key;
use r2_base::Addr;

/// What each datagram of a message holds beside the body.
#[derive(Clone, Copy, Debug, PartialEq, Eq)]
pub struct PartSpec {
    pub key: Key,
    pub from: Addr,
    pub to: Addr,
    /// Whether the headers carry the client's address.
    pub extended: bool,
}
