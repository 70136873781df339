use crate::Addr;

/// The name of a request for good: the client's own number for it, and the client's address
/// (R2P2, on the header: request id, source address and source port).
#[derive(Clone, Copy, Debug, PartialEq, Eq, PartialOrd, Ord, Hash)]
pub struct Rid {
    pub id: u16,
    pub client: Addr,
}
