//! What an event says to a replica.
ghost use Rattle.std.specs.Prelude.{◌≡◌, Some, Ok, IfOk, OnOk};
ghost use Rattle.r2_frag.specs.Keys.{class_of, key_at};
ghost use Rattle.r2_header.specs.Header.{IsValid};
ghost use Rattle.r2_header.specs.Reading.{header_at};
ghost use Rattle.hc_message.specs.Reading.{decode_message};
ghost use Rattle.r2_base.specs.Numbers.{AreBytes};
ghost use Rattle.hc_member.specs.Laws.{HasBytes};
ghost use Rattle.hc_member.specs.Heard.{kind_under, message_said, receive, receive_packet, receive_part, receive_read, receive_request, recovery_heard, recovery_said, request_said, single_said};

use hc_member::Heard;
use hc_message::{Msg, MsgFault};
use hc_pool::Request;
use r2_base::{Addr, Datagram, Event, Kind, NoMemory, Rid};
use r2_frag::{Added, Assembly, Class, Key, key_of};
use r2_header::policy::{REPLICATED, REPLICATED_READ};
use r2_header::{Header, Packet, read};
use std::alloc::Global;

/// The kind of the requests that come under a policy.
fn kind_under(policy: u8) -> Option<Kind>
    ensures { result ≡ kind_under policy }
{
    if policy == REPLICATED {
        return Some(Kind::Write);
    }
    if policy == REPLICATED_READ {
        return Some(Kind::Read);
    }
    None
}

/// The request that is whole now, if it is.
fn request_said(kind: Kind, rid: Rid, added: Added) -> Heard
    ensures { result ≡ request_said kind rid added }
{
    match added {
        Added::Whole(body) => Heard::Whole(Request { rid, kind, body }),
        Added::More | Added::Repeat | Added::Bad(_) | Added::Dropped(_) => Heard::Nothing,
    }
}

/// A part of a request.
fn receive_request(
    unfinished: &mut Assembly,
    key: Key,
    header: &Header,
    payload: &[u8],
) -> Result<Heard, NoMemory>
    requires valid { IsValid header.now }
    requires class { class_of header.now.packet ≡ Some key.class }
    ensures said { IfOk result (λ said. said ≡ (receive_request unfinished.old header.now payload.now key (kind_under key.policy)).said) }
    ensures unfinished { OnOk result (unfinished.new ≡ (receive_request unfinished.old header.now payload.now key (kind_under key.policy)).unfinished) }
{
    let Some(kind) = kind_under(key.policy) else {
        return Ok(Heard::Nothing);
    };
    let added = unfinished.add(key, header, payload)?;
    Ok(request_said(kind, key.rid, added))
}

/// The message that these bytes encode, or why they encode none.
fn read_message(alloc: Global, bytes: &[u8]) -> Result<Result<Msg, MsgFault>, NoMemory>
    ensures { IfOk result (λ message. message ≡ decode_message bytes.now) }
{
    match hc_message::read(alloc, bytes) {
        Err(MsgFault::Memory) => Err(NoMemory),
        message => Ok(message),
    }
}

/// A message about the body of a request: it is asked for, or given.
fn recovery_said(from: Addr, rid: Rid, message: Result<Msg, MsgFault>) -> Heard
    ensures { result ≡ recovery_said from rid message }
{
    match message {
        Ok(message @ (Msg::RecoverAsk { .. } | Msg::RecoverBody { .. })) => {
            Heard::Recovered(from, rid, message)
        }
        _ => Heard::Nothing,
    }
}

/// Such a message, where it is whole now.
fn recovery_heard(alloc: Global, from: Addr, rid: Rid, added: Added) -> Result<Heard, NoMemory>
    ensures { IfOk result (λ said. said ≡ recovery_heard from rid added) }
{
    match added {
        Added::Whole(bytes) => {
            let message = read_message(alloc, bytes.as_slice())?;
            Ok(recovery_said(from, rid, message))
        }
        Added::More | Added::Repeat | Added::Bad(_) | Added::Dropped(_) => Ok(Heard::Nothing),
    }
}

/// A part of a message. Replies aren't for a replica.
fn receive_part(
    alloc: Global,
    unfinished: &mut Assembly,
    from: Addr,
    key: Key,
    header: &Header,
    payload: &[u8],
) -> Result<Heard, NoMemory>
    requires valid { IsValid header.now }
    requires class { class_of header.now.packet ≡ Some key.class }
    ensures said { IfOk result (λ said. said ≡ (receive_part unfinished.old from header.now payload.now key key.class).said) }
    ensures unfinished { OnOk result (unfinished.new ≡ (receive_part unfinished.old from header.now payload.now key key.class).unfinished) }
{
    match key.class {
        Class::Request => receive_request(unfinished, key, header, payload),
        Class::Reply => Ok(Heard::Nothing),
        Class::Recover => {
            let added = unfinished.add(key, header, payload)?;
            recovery_heard(alloc, from, key.rid, added)
        }
    }
}

/// A message that travels in one datagram; those about a body don't.
fn message_said(from: Addr, message: Result<Msg, MsgFault>) -> Heard
    ensures { result ≡ message_said from message }
{
    match message {
        Ok(Msg::RecoverAsk { .. } | Msg::RecoverBody { .. }) => Heard::Nothing,
        Ok(message) => Heard::Told(from, message),
        Err(_) => Heard::Nothing,
    }
}

/// A packet that is no part of several.
fn single_said(alloc: Global, from: Addr, payload: &[u8], packet: Packet) -> Result<Heard, NoMemory>
    ensures { IfOk result (λ said. said ≡ single_said from payload.now packet) }
{
    match packet {
        Packet::Ordering => {
            let message = read_message(alloc, payload)?;
            Ok(message_said(from, message))
        }
        _ => Ok(Heard::Nothing),
    }
}

/// The bytes themselves. What stands in a slice of bytes is below 256, which a contract of other types doesn't see.
fn fitting(bytes: &[u8]) -> &[u8]
    ensures told { result.now ≡ bytes.now }
    ensures fits { AreBytes bytes.now }
{
    bytes
}

/// The bytes of a datagram.
fn bytes_of(datagram: &Datagram) -> &[u8]
    ensures told { result.now ≡ datagram.now.bytes }
    ensures fits { AreBytes datagram.now.bytes }
{
    fitting(datagram.bytes.as_slice())
}

fn receive_datagram(
    alloc: Global,
    unfinished: &mut Assembly,
    datagram: &Datagram,
) -> Result<Heard, NoMemory>
    ensures said { IfOk result (λ said. said ≡ (receive_read unfinished.old datagram.now (header_at datagram.now.bytes)).said) }
    ensures unfinished { OnOk result (unfinished.new ≡ (receive_read unfinished.old datagram.now (header_at datagram.now.bytes)).unfinished) }
    ensures bytes { OnOk result (AreBytes datagram.now.bytes) }
{
    let bytes = bytes_of(datagram);
    let from = datagram.from;
    let Ok((header, size)) = read(bytes) else {
        return Ok(Heard::Nothing);
    };
    match key_of(datagram, &header) {
        Some(key) => receive_part(alloc, unfinished, from, key, &header, &bytes[size..]),
        None => single_said(alloc, from, &bytes[size..], header.packet),
    }
}

/// What an event says to a replica with these unfinished messages, which take up the part that comes with it.
#[tactic(auto, unfolding(hc_member::specs::Heard::receive))]
pub(crate) fn receive(
    alloc: Global,
    unfinished: &mut Assembly,
    event: &Event,
) -> Result<Heard, NoMemory>
    ensures said { IfOk result (λ said. said ≡ (receive unfinished.old event.now).said) }
    ensures unfinished { OnOk result (unfinished.new ≡ (receive unfinished.old event.now).unfinished) }
    ensures bytes { OnOk result (HasBytes event.now) }
{
    match event {
        Event::Datagram(datagram) => receive_datagram(alloc, unfinished, datagram),
        Event::Tick => Ok(Heard::Time),
        Event::Quiet => Ok(Heard::Nothing),
    }
}
