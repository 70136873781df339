ghost use Rattle.std.specs.Prelude.{◌≡◌, ℕ, ◌<◌, ◌≤◌, List, IfOk, length};
ghost use Rattle.r2_base.specs.Limits.{most_reply};
ghost use Rattle.r2_header.specs.Header.{IsValid};
ghost use Rattle.r2_frag.specs.Parts.{IsSendable, most_parts, part_count, part_datagram, part_header, part_type, parts_of, piece};

use crate::limits::PIECE_SIZE;
use crate::{Class, PartSpec};
use r2_base::{Bytes, Datagram, Datagrams, NoMemory};
use r2_header::{HEADER_ROOM, Header, Packet, write};
use std::alloc::Global;

/// The datagrams of a body in parts, in order.
///
/// A body has at most 61,440 bytes in a request, 65,536 in a reply and 61,442 in a RECOVER. An empty body gives one datagram,
/// of a header alone.
#[tactic(auto, using(crate::proofs::Headers::datagram_steps), unfolding(crate::specs::Parts::parts_of))]
pub fn parts(alloc: Global, spec: &PartSpec, body: &[u8]) -> Result<Datagrams, NoMemory>
    requires { IsSendable spec.now body.now }
    ensures { IfOk result (λ datagrams. datagrams ≡ parts_of spec.now body.now) }
{
    let count = part_count(body);
    let mut datagrams = Vec::with_capacity(alloc, usize::from(count))?;
    'parts: for n in 0..count {
        datagrams.push(part_datagram(alloc, spec, body, count, n)?)?;
    }
    Ok(Datagrams::from_vec(datagrams))
}

/// How many pieces a body has.
#[tactic(auto, unfolding(crate::specs::Parts::part_count))]
fn part_count(body: &[u8]) -> u16
    requires { length body.now ≤ most_reply }
    ensures { result ≡ part_count body.now }
{
    let pieces = body.len().div_ceil(PIECE_SIZE).max(1);
    pieces as u16
}

/// The piece of a body with this number.
#[tactic(auto, unfolding(crate::specs::Parts::piece))]
fn piece(body: &[u8], n: u16) -> &[u8]
    ensures { result.now ≡ piece body.now n }
{
    let start = (usize::from(n) * PIECE_SIZE).min(body.len());
    let end = (start + PIECE_SIZE).min(body.len());
    &body[start..end]
}

/// The type of packet of the part with this number.
fn part_type(class: Class, n: u16) -> Packet
    ensures { result ≡ part_type class n }
{
    match class {
        Class::Request => { if n == 0 { Packet::Req0 } else { Packet::ReqN } }
        Class::Reply => Packet::Reply,
        Class::Recover => Packet::Recover,
    }
}

/// The header of one of so many parts.
#[tactic(auto, unfolding(crate::specs::Parts::part_header))]
fn part_header(spec: &PartSpec, count: u16, n: u16) -> Header
    requires { n < most_parts }
    ensures { result ≡ part_header spec.now count n }
{
    Header {
        packet: part_type(spec.key.class, n),
        policy: spec.key.policy,
        first: n == 0,
        last: n + 1 == count,
        id: spec.key.rid.id,
        number: if n == 0 { count } else { n },
        client: if spec.extended {
            Some(spec.key.rid.client)
        } else {
            None
        },
    }
}

/// The datagram of a part.
#[tactic(auto, unfolding(crate::specs::Parts::part_datagram))]
fn part_datagram(
    alloc: Global,
    spec: &PartSpec,
    body: &[u8],
    count: u16,
    n: u16,
) -> Result<Datagram, NoMemory>
    requires sendable { IsSendable spec.now body.now }
    requires counted { count ≡ part_count body.now }
    requires number { n < count }
    ensures { IfOk result (λ d. d ≡ part_datagram spec.now body.now n) }
{
    let mut room = [0; HEADER_ROOM];
    let size = write(&part_header(spec, count, n), &mut room);
    let piece = piece(body, n);
    let mut bytes = Vec::with_capacity(alloc, size + piece.len())?;
    bytes.extend_from_slice(&room[..size])?;
    bytes.extend_from_slice(piece)?;
    Ok(Datagram {
        from: spec.from,
        to: spec.to,
        bytes: Bytes::from_vec(bytes),
    })
}
