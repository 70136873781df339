//! What the datagrams that are sent tell of replies.
ghost use Rattle.std.specs.Prelude.{◌≡◌, ◌<◌, ◌+◌, ◌++◌, [], ◌∷◌, cond, true, false, length, OnOk};
ghost use Rattle.r2_base.specs.Limits.{id_limit};
ghost use Rattle.r2_header.specs.Reading.{header_at};
ghost use Rattle.hc_world.specs.Notes.{answered_in, begun_id, capped, id_begun, is_reply, replies_in};
ghost use Rattle.hc_world.specs.Steps.{AreSent, either, marked};

use crate::CLIENT;
use r2_base::{Datagram, Datagrams, NoMemory};
use r2_header::{Header, Packet, read};

/// Whether a packet is one of a reply.
fn is_reply(packet: Packet) -> bool
    ensures { result ≡ is_reply packet }
{
    match packet {
        Packet::Reply => true,
        _ => false,
    }
}

/// The id in a header, where it is that of a reply's first part.
fn id_begun(header: &Header) -> Option<u16>
    ensures { result ≡ id_begun header.now }
{
    if !is_reply(header.packet) {
        return None;
    }
    if !header.first {
        return None;
    }
    Some(header.id)
}

/// The id in the header of a reply's first part, where the datagram begins a reply.
#[tactic(auto, unfolding(crate::specs::Notes::begun_id))]
fn begun_id(datagram: &Datagram) -> Option<u16>
    ensures { result ≡ begun_id datagram.now }
{
    match read(datagram.bytes.as_slice()) {
        Ok((header, _)) => id_begun(&header),
        Err(_) => None,
    }
}

/// Marks an id.
fn mark(id: u16, is_clients: bool, answered: &mut Vec<bool>)
    requires { length answered.old.items ≡ id_limit }
    ensures marked { answered.new.items ≡ marked is_clients id answered.old.items }
    ensures fits { id < id_limit }
{
    if is_clients {
        answered[usize::from(id)] = true;
    }
}

/// One more, where it is one more.
fn counted(before: u64, is_more: bool) -> u64
    ensures { result ≡ capped (before + cond is_more 1 0) }
{
    if is_more {
        return before.saturating_add(1);
    }
    before
}

/// Notes a datagram that is sent, where it begins a reply: one reply more and, where it goes to the client, that the request with its
/// id is answered.
fn note(datagram: &Datagram, answered: &mut Vec<bool>, replies: &mut u64)
    requires { length answered.old.items ≡ id_limit }
    ensures answered { answered.new.items ≡ either answered.old.items (answered_in (datagram.now ∷ [])) }
    ensures replies { replies.new ≡ capped (replies.old + replies_in (datagram.now ∷ [])) }
{
    let begun = begun_id(datagram);
    *replies = counted(*replies, begun.is_some());
    match begun {
        Some(id) => mark(id, datagram.to == CLIENT, answered),
        None => {}
    }
}

/// Puts datagrams after those that were sent before, and notes the replies among them.
pub(crate) fn send_all(
    sends: Datagrams,
    datagrams: &mut Vec<Datagram>,
    answered: &mut Vec<bool>,
    replies: &mut u64,
) -> Result<(), NoMemory>
    requires { length answered.old.items ≡ id_limit }
    ensures { OnOk result (AreSent sends datagrams.old.items answered.old.items replies.old datagrams.new.items answered.new.items replies.new) }
{
    let _before = *replies;
    'sends: for datagram in sends.into_vec() {
        note(&datagram, answered, replies);
        datagrams.push(datagram)?;
    }
    Ok(())
}
