use crate::Packet;
use r2_base::Addr;

/// What a packet says before its payload.
#[derive(Clone, Copy, Debug, PartialEq, Eq)]
pub struct Header {
    pub packet: Packet,
    /// `FIXED`, `JBSQ`, `REPLICATED` or `REPLICATED_READ`, of the module `policy`.
    pub policy: u8,
    /// Whether this is the first part of its message.
    pub first: bool,
    /// Whether this is the last part of its message.
    pub last: bool,
    /// The client's own number for the request.
    pub id: u16,
    /// The count of parts in a first part, else the part's number, counted from 0.
    pub number: u16,
    /// The client's address, where the packet carries it.
    pub client: Option<Addr>,
}
