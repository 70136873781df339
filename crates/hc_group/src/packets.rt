//! The packets of a client and the replies to it, byte by byte.

use crate::addresses::{AGGREGATOR, CLIENT};
use r2_base::{Addr, Bytes, Datagram, NoMemory};
use std::alloc::Global;

/// What the client asks for. Each write has a number of its own.
#[derive(Clone, Copy)]
pub(crate) enum Request {
    /// The first request: put the key `a` to `1`.
    Put1,
    /// The second request: set the key `a` to `2` where it is `1`.
    From1To2,
    /// The third request: set the key `a` to `3` where it is `2`.
    From2To3,
    /// A request with this number: get the value of the key `a`.
    Get(u8),
}

/// The packet of a request.
pub(crate) fn packet(alloc: Global, request: Request) -> Result<Vec<u8>, NoMemory> {
    let bytes = match request {
        Request::Put1 => b"\x52\x08\x02\xC0\x00\x01\x00\x01\x50\x00\x01a1".to_vec(alloc)?,
        Request::From1To2 => {
            b"\x52\x08\x02\xC0\x00\x02\x00\x01\x43\x00\x01a\x00\x0112".to_vec(alloc)?
        }
        Request::From2To3 => {
            b"\x52\x08\x02\xC0\x00\x03\x00\x01\x43\x00\x01a\x00\x0123".to_vec(alloc)?
        }
        Request::Get(id) => [0x52, 0x08, 0x03, 0xC0, 0, id, 0, 1, 0x47, 0, 1, 0x61].to_vec(alloc)?,
    };
    Ok(bytes)
}

/// The reply to a write that was done as the entry at an index.
pub(crate) fn written(alloc: Global, from: Addr, id: u8, index: u8) -> Result<Datagram, NoMemory> {
    let reply = [
        0x52, 0x08, 0x12, 0xC0, 0, id, 0, 1, 0, 0, 0, 0, 0, 0, 0, index, 0,
    ];
    datagram(alloc, from, CLIENT, &reply)
}

/// The reply to a read that found a value of one byte, as the entry at an index.
pub(crate) fn found(
    alloc: Global,
    from: Addr,
    id: u8,
    index: u8,
    value: u8,
) -> Result<Datagram, NoMemory> {
    let reply = [
        0x52, 0x08, 0x13, 0xC0, 0, id, 0, 1, 0, 0, 0, 0, 0, 0, 0, index, 0, value,
    ];
    datagram(alloc, from, CLIENT, &reply)
}

/// What the aggregator tells a member: in a term, an index is committed.
pub(crate) fn committed(
    alloc: Global,
    to: Addr,
    term: u8,
    index: u8,
) -> Result<Datagram, NoMemory> {
    let told = [
        0x52, 0x08, 0x62, 0xC0, 0, 0, 0, 1, 6, 0, 0, 0, 0, 0, 0, 0, term, 0, 0, 0, 0, 0, 0, 0,
        index,
    ];
    datagram(alloc, AGGREGATOR, to, &told)
}

pub(crate) fn datagram(
    alloc: Global,
    from: Addr,
    to: Addr,
    bytes: &[u8],
) -> Result<Datagram, NoMemory> {
    Ok(Datagram {
        from,
        to,
        bytes: Bytes::from_vec(Vec::from_slice(alloc, bytes)?),
    })
}
