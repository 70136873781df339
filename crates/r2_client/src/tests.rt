//! Conversations of a client with servers and members.

ghost use Rattle.std.specs.Prelude.{◌<◌, ◌^◌, length};

use crate::{BeginFault, CallEnd, ClientStep, Session};
use r2_base::{Addr, Addrs, Bytes, Datagram, Datagrams};
use std::alloc::Global;
use std::test::Fail;

const CLIENT: Addr = Addr {
    ip: 0x0A00_0009,
    port: 7001,
};

const SERVER: Addr = Addr {
    ip: 0x0A00_0001,
    port: 9000,
};

const OTHER: Addr = Addr {
    ip: 0x0A00_0002,
    port: 9000,
};

/// A request for the value of `a`.
const GET: &[u8] = b"G\x00\x01a";

/// What a session is given.
#[derive(Clone, Copy)]
enum Input<'a> {
    /// A call with this policy and the body `GET`.
    Get(u8),
    /// A call with this policy and a body of so many bytes, which sets `a`.
    Put(u8, usize),
    /// A datagram from this address.
    Packet(Addr, &'a [u8]),
    Tick,
}

/// How a call fares.
#[derive(Clone, Copy)]
enum Fate<'a> {
    GoesOn,
    Refused(BeginFault),
    Replied(&'a [u8]),
    Rejected,
    TimedOut,
}

/// What a session is given, and what comes of it: to whom it sends, and the first 12 bytes of each datagram.
#[derive(Clone, Copy)]
struct Line<'a> {
    input: Input<'a>,
    to: &'a [Addr],
    bytes: &'a [u8],
    fate: Fate<'a>,
}

/// A body of so many bytes, which sets `a`.
fn put(alloc: Global, len: usize) -> Result<Vec<u8>, Fail> {
    let mut body = b"P\x00\x01a".to_vec(alloc)?;
    body.resize(len, b'.')?;
    Ok(body)
}

fn packet(alloc: Global, from: Addr, bytes: &[u8]) -> Result<Datagram, Fail> {
    Ok(Datagram {
        from,
        to: CLIENT,
        bytes: Bytes::from_vec(bytes.to_vec(alloc)?),
    })
}

/// Whether these are datagrams of the client to these addresses, and these are their first 12 bytes together.
fn are_sent(alloc: Global, sends: &Datagrams, to: &[Addr], bytes: &[u8]) -> Result<bool, Fail> {
    let mut addresses = Vec::new(alloc);
    let mut joined = Vec::new(alloc);
    for d in sends.as_slice().iter() {
        if d.from != CLIENT {
            return Ok(false);
        }
        addresses.push(d.to)?;
        let front = d.bytes.as_slice();
        joined.extend_from_slice(front.get(..12).unwrap_or(front))?;
    }
    Ok(addresses.as_slice() == to && joined.as_slice() == bytes)
}

fn is_refused(fault: BeginFault, fate: Fate) -> bool {
    match fate {
        Fate::Refused(expected) => fault == expected,
        _ => false,
    }
}

fn is_fate(end: &Option<CallEnd>, fate: Fate) -> bool {
    match (end, fate) {
        (None, Fate::GoesOn) => true,
        (Some(CallEnd::Reply(payload)), Fate::Replied(expected)) => payload.as_slice() == expected,
        (Some(CallEnd::Rejected), Fate::Rejected) => true,
        (Some(CallEnd::TimedOut), Fate::TimedOut) => true,
        _ => false,
    }
}

/// Whether a call begins as the line says.
fn begins(
    alloc: Global,
    session: &mut Session,
    policy: u8,
    body: &[u8],
    line: Line,
) -> Result<bool, Fail> {
    match session.begin(policy.min(3), body) {
        Ok(sends) => are_sent(alloc, &sends, line.to, line.bytes),
        Err(fault) => Ok(is_refused(fault, line.fate)),
    }
}

/// Whether the step is the line's.
fn is_step(alloc: Global, step: &ClientStep, line: Line) -> Result<bool, Fail> {
    if !is_fate(&step.end, line.fate) {
        return Ok(false);
    }
    are_sent(alloc, &step.sends, line.to, line.bytes)
}

/// Whether what the line says comes of its input.
fn holds(alloc: Global, session: &mut Session, line: Line) -> Result<bool, Fail> {
    match line.input {
        Input::Get(policy) => begins(alloc, session, policy, GET, line),
        Input::Put(policy, len) => {
            let body = put(alloc, len)?;
            begins(alloc, session, policy, body.as_slice(), line)
        }
        Input::Packet(from, bytes) => {
            let datagram = packet(alloc, from, bytes)?;
            let step = session.on_datagram(&datagram)?;
            is_step(alloc, &step, line)
        }
        Input::Tick => {
            let step = session.on_tick()?;
            is_step(alloc, &step, line)
        }
    }
}

/// A session that sends to these, waits for one tick, and sends twice at most.
fn session(alloc: Global, targets: [Addr; 2]) -> Result<Session, Fail> {
    let targets = Addrs::from_vec(targets.to_vec(alloc)?);
    Ok(Session::new(alloc, CLIENT, targets, 1, 2))
}

/// A session to one server that sends three times at most, and whose first id is the greatest.
fn last_call(alloc: Global) -> Result<Session, Fail> {
    let targets = Addrs::from_vec([SERVER].to_vec(alloc)?);
    Ok(Session::starting(alloc, CLIENT, targets, 1, 3, u16::MAX))
}

/// The first line that doesn't hold.
fn first_wrong(alloc: Global, targets: [Addr; 2], lines: &[Line]) -> Result<Option<usize>, Fail>
    requires { length lines.now < 2 ^ 32 }
{
    let mut session = session(alloc, targets)?;
    'lines: for i in 0..lines.len() {
        if !holds(alloc, &mut session, lines[i])? {
            return Ok(Some(i));
        }
    }
    Ok(None)
}

#[test]
fn a_get_is_one_datagram_and_sent_twice(rt: HostRuntime) -> Result<(), Fail> {
    let get = b"\x52\x08\x00\xC0\x00\x00\x00\x01G\x00\x01a";
    let outstanding = Fate::Refused(BeginFault::Outstanding);
    let lines = [
        Line {
            input: Input::Get(0),
            to: &[SERVER],
            bytes: get,
            fate: Fate::GoesOn,
        },
        Line {
            input: Input::Get(0),
            to: &[],
            bytes: b"",
            fate: outstanding,
        },
        Line {
            input: Input::Tick,
            to: &[SERVER],
            bytes: get,
            fate: Fate::GoesOn,
        },
        Line {
            input: Input::Tick,
            to: &[],
            bytes: b"",
            fate: Fate::TimedOut,
        },
        Line {
            input: Input::Tick,
            to: &[],
            bytes: b"",
            fate: Fate::GoesOn,
        },
    ];
    assert_eq!(rt; first_wrong(rt.alloc(), [SERVER, OTHER], &lines)?, None);
    Ok(())
}

#[test]
fn a_body_of_61441_bytes_is_too_long(rt: HostRuntime) -> Result<(), Fail> {
    let first = b"\x52\x08\x00\x80\x00\x00\x00\x3CP\x00\x01a";
    let too_long = Fate::Refused(BeginFault::TooLong);
    let lines = [
        Line {
            input: Input::Put(0, 61_441),
            to: &[],
            bytes: b"",
            fate: too_long,
        },
        Line {
            input: Input::Put(0, 61_440),
            to: &[SERVER],
            bytes: first,
            fate: Fate::GoesOn,
        },
    ];
    assert_eq!(rt; first_wrong(rt.alloc(), [SERVER, OTHER], &lines)?, None);
    Ok(())
}

#[test]
fn the_second_part_goes_to_the_server_that_calls_for_it(rt: HostRuntime) -> Result<(), Fail> {
    let first = b"\x52\x08\x00\x80\x00\x00\x00\x02P\x00\x01a";
    let ready = Input::Packet(SERVER, b"\x52\x08\x20\xC0\x00\x00\x00\x01");
    let second = b"\x52\x08\x30\x40\x00\x00\x00\x01.";
    let reply = Input::Packet(
        SERVER,
        b"\x52\x08\x10\xC0\x00\x00\x00\x01\x00\x00\x00\x00\x00\x00\x00\x01\x00",
    );
    let replied = Fate::Replied(b"\x00\x00\x00\x00\x00\x00\x00\x01\x00");
    let lines = [
        Line {
            input: Input::Put(0, 1025),
            to: &[OTHER],
            bytes: first,
            fate: Fate::GoesOn,
        },
        Line {
            input: ready,
            to: &[SERVER],
            bytes: second,
            fate: Fate::GoesOn,
        },
        Line {
            input: reply,
            to: &[],
            bytes: b"",
            fate: replied,
        },
        Line {
            input: reply,
            to: &[],
            bytes: b"",
            fate: Fate::GoesOn,
        },
    ];
    assert_eq!(rt; first_wrong(rt.alloc(), [OTHER, SERVER], &lines)?, None);
    Ok(())
}

#[test]
fn each_member_gets_all_parts_and_one_may_reject(rt: HostRuntime) -> Result<(), Fail> {
    let parts =
        b"\x52\x08\x02\x80\x00\x00\x00\x02P\x00\x01a\x52\x08\x32\x40\x00\x00\x00\x01.\x52\x08\x02\x80\x00\x00\x00\x02P\x00\x01a\x52\x08\x32\x40\x00\x00\x00\x01.";
    let reject = Input::Packet(OTHER, b"\x52\x08\x52\xC0\x00\x00\x00\x01");
    let get =
        b"\x52\x08\x03\xC0\x00\x01\x00\x01G\x00\x01a\x52\x08\x03\xC0\x00\x01\x00\x01G\x00\x01a";
    let reject_read = Input::Packet(SERVER, b"\x52\x08\x53\xC0\x00\x01\x00\x01");
    let lines = [
        Line {
            input: Input::Put(2, 1025),
            to: &[SERVER, SERVER, OTHER, OTHER],
            bytes: parts,
            fate: Fate::GoesOn,
        },
        Line {
            input: reject,
            to: &[],
            bytes: b"",
            fate: Fate::Rejected,
        },
        Line {
            input: Input::Get(3),
            to: &[SERVER, OTHER],
            bytes: get,
            fate: Fate::GoesOn,
        },
        Line {
            input: reject_read,
            to: &[],
            bytes: b"",
            fate: Fate::Rejected,
        },
    ];
    assert_eq!(rt; first_wrong(rt.alloc(), [SERVER, OTHER], &lines)?, None);
    Ok(())
}

#[test]
fn a_call_is_sent_three_times_and_uses_the_last_id(rt: HostRuntime) -> Result<(), Fail> {
    let alloc = rt.alloc();
    let get = b"\x52\x08\x00\xC0\xFF\xFF\x00\x01G\x00\x01a";
    let mut session = last_call(alloc)?;
    let first = session.begin(0, GET)?;
    assert!(rt; are_sent(alloc, &first, &[SERVER], get)?);
    for _ in 0..2 {
        let again = session.on_tick()?;
        assert!(rt; are_sent(alloc, &again.sends, &[SERVER], get)?);
    }
    assert_eq!(rt; session.on_tick()?.end, Some(CallEnd::TimedOut));
    assert_eq!(rt; session.begin(0, GET), Err(BeginFault::IdsUsed));
    Ok(())
}

#[test]
fn after_65536_calls_the_ids_are_used(rt: HostRuntime) -> Result<(), Fail> {
    let alloc = rt.alloc();
    let mut session = session(alloc, [SERVER, OTHER])?;
    'calls: for id in 0..=u16::MAX {
        let sends = session.begin(0, GET)?;
        let first = sends.as_slice().first().ok_or("nothing is sent")?;
        assert_eq!(rt;
            first.bytes.as_slice().get(4..6),
            Some(id.to_be_bytes().as_slice())
        );
        let _again = session.on_tick()?;
        assert_eq!(rt; session.on_tick()?.end.is_some(), true);
    }
    assert_eq!(rt; session.begin(0, GET), Err(BeginFault::IdsUsed));
    Ok(())
}
