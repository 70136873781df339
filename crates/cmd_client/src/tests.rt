ghost use Rattle.std.specs.Prelude.{◌≡◌, length, IfOk};

use crate::{Calling, call_client};
use cmd_loop::Pace;
use cmd_status::Status;
use hc_text::Policy;
use r2_base::{Addr, Addrs, Bytes, Datagram, NoMemory, Numbers, Room};
use r2_link::{Item, Items, Lane, Lanes, MemClock, MemLink, MemSink, MemSource};
use std::alloc::Global;
use std::test::Fail;

const CLIENT: Addr = Addr {
    ip: 0x0a00_0009,
    port: 7001,
};

const SERVER: Addr = Addr {
    ip: 0x0a00_0001,
    port: 9000,
};

const ROOM: Room = Room {
    bytes: 1_000,
    calls: 100,
};

fn calling(alloc: Global) -> Result<Calling, NoMemory>
    ensures to { IfOk result (λ c. length c.to ≡ 1) }
    ensures wait { IfOk result (λ c. c.wait ≡ 1) }
    ensures tries { IfOk result (λ c. c.tries ≡ 2) }
{
    let mut to = Vec::new(alloc);
    to.push(SERVER)?;
    Ok(Calling {
        listen: CLIENT,
        to: Addrs::from_vec(to),
        policy: Policy::Fixed,
        wait: 1,
        tries: 2,
    })
}

fn reply(alloc: Global, bytes: &[u8]) -> Result<Item, NoMemory> {
    Ok(Item::Datagram(Datagram {
        from: SERVER,
        to: CLIENT,
        bytes: Bytes::from_vec(Vec::from_slice(alloc, bytes)?),
    }))
}

// The replies to a PUT and to a GET of the value 7.
fn replies(alloc: Global) -> Result<Items, NoMemory> {
    let mut items = Vec::new(alloc);
    items.push(reply(
        alloc,
        b"\x52\x08\x10\xC0\x00\x00\x00\x01\0\0\0\0\0\0\0\x01\0",
    )?)?;
    items.push(reply(
        alloc,
        b"\x52\x08\x10\xC0\x00\x01\x00\x01\0\0\0\0\0\0\0\x02\07",
    )?)?;
    Ok(Items::from_vec(items))
}

// The bytes of each datagram that was sent, and a dot after each.
fn sent(alloc: Global, link: &MemLink) -> Result<Vec<u8>, NoMemory> {
    let all = link.sent(alloc)?;
    let mut bytes = Vec::new(alloc);
    'all: for datagram in all.as_slice() {
        bytes.extend_from_slice(datagram.bytes.as_slice())?;
        bytes.push(b'.')?;
    }
    Ok(bytes)
}

#[derive(Drop)]
struct Outcome {
    status: Status,
    printed: Vec<u8>,
    sent: Vec<u8>,
}

// A client's run over a link that brings these items, with a clock that gives these moments.
fn run_script(
    alloc: Global,
    script: &[u8],
    items: Items,
    moments: &[u64],
) -> Result<Outcome, NoMemory> {
    let own = Lane {
        items,
        room: ROOM,
        fails: Numbers::new(alloc),
    };
    let mut link = MemLink::new(alloc, own, Lanes::new(alloc))?;
    let script = Bytes::from_vec(Vec::from_slice(alloc, script)?);
    let mut source = MemSource::new(script, Numbers::new(alloc));
    let mut sink = MemSink::new(alloc, ROOM, Numbers::new(alloc))?;
    let moments = Numbers::from_vec(Vec::from_slice(alloc, moments)?);
    let mut clock = MemClock::new(moments, Numbers::new(alloc));
    let pace = Pace {
        tick_ms: 10,
        turns: 9,
    };
    let calling = calling(alloc)?;
    let status = call_client(
        alloc,
        calling,
        &mut source,
        &mut sink,
        &mut link,
        &mut clock,
        pace,
    );
    Ok(Outcome {
        status,
        printed: Vec::from_slice(alloc, sink.written())?,
        sent: sent(alloc, &link)?,
    })
}

#[test]
fn calls_are_made_one_after_another(rt: HostRuntime) -> Result<(), Fail> {
    let alloc = rt.alloc();
    let put: &[u8] = b"\x52\x08\x00\xC0\x00\x00\x00\x01P\x00\x01a7.";
    let both: &[u8] =
        b"\x52\x08\x00\xC0\x00\x00\x00\x01P\x00\x01a7.\x52\x08\x00\xC0\x00\x01\x00\x01G\x00\x01a.";
    let twice: &[u8] =
        b"\x52\x08\x00\xC0\x00\x00\x00\x01G\x00\x01a.\x52\x08\x00\xC0\x00\x00\x00\x01G\x00\x01a.";

    let got = run_script(alloc, b"get a", Items::new(alloc), &[0, 10, 20])?;
    assert_eq!(rt; got.status, Status::TimedOut);
    assert_eq!(rt; got.printed.as_slice(), b"timedout\n".as_slice());
    assert_eq!(rt; got.sent.as_slice(), twice);

    let got = run_script(alloc, b"put a 7\n\nget a\n", replies(alloc)?, &[0])?;
    assert_eq!(rt; got.status, Status::Done);
    assert_eq!(rt;
        got.printed.as_slice(),
        b"reply 1 0 -\nreply 2 0 37\n".as_slice()
    );
    assert_eq!(rt; got.sent.as_slice(), both);

    let got = run_script(alloc, b"put a 7\nfly\nget a\n", replies(alloc)?, &[0])?;
    assert_eq!(rt; got.status, Status::BadScript { line: 2 });
    assert_eq!(rt; got.printed.as_slice(), b"reply 1 0 -\n".as_slice());
    assert_eq!(rt; got.sent.as_slice(), put);
    Ok(())
}
