use crate::{Addr, Bytes};

/// One UDP datagram.
#[derive(Debug, PartialEq, Eq, Drop)]
pub struct Datagram {
    pub from: Addr,
    pub to: Addr,
    pub bytes: Bytes,
}
