//! Runs of a plain server between a link and a clock in memory.

use crate::serve_plain;
use cmd_loop::Pace;
use cmd_status::Status;
use hc_store::Kv;
use r2_base::{Addr, Bytes, Datagram, NoMemory, Numbers, Room};
use r2_link::{Item, Items, Lane, Lanes, MemClock, MemLink};
use std::alloc::Global;
use std::test::Fail;

const SERVER: Addr = Addr {
    ip: 0x0A00_0001,
    port: 9000,
};

const CLIENT: Addr = Addr {
    ip: 0x0A00_0009,
    port: 7001,
};

const GET: &[u8] = b"\x52\x08\x00\xC0\x00\x07\x00\x01G\x00\x01a";

const GOT: &[u8] = b"\x52\x08\x10\xC0\x00\x07\x00\x01\x00\x00\x00\x00\x00\x00\x00\x01\x01";

/// The second part of a put, with the last byte of its value.
const LAST: &[u8] = b"\x52\x08\x30\x40\x00\x00\x00\x01.";

/// The call for the second part, and the reply.
const CALLED_AND_PUT: &[u8] =
    b"\x52\x08\x20\xC0\x00\x00\x00\x01\x52\x08\x10\xC0\x00\x00\x00\x01\x00\x00\x00\x00\x00\x00\x00\x01\x00";

/// The numbers of the calls that fail, where 0 is none.
#[derive(Clone, Copy)]
struct Fails {
    link: u64,
    clock: u64,
}

const NONE: Fails = Fails { link: 0, clock: 0 };

fn item(alloc: Global, bytes: &[u8]) -> Result<Item, NoMemory> {
    Ok(Item::Datagram(Datagram {
        from: CLIENT,
        to: SERVER,
        bytes: Bytes::from_vec(bytes.to_vec(alloc)?),
    }))
}

fn numbers(alloc: Global, items: &[u64]) -> Result<Numbers, NoMemory> {
    Ok(Numbers::from_vec(Vec::from_slice(alloc, items)?))
}

/// A get, with quiet before and after it.
fn get(alloc: Global) -> Result<Items, NoMemory> {
    let mut items = Vec::new(alloc);
    items.push(Item::Quiet)?;
    items.push(item(alloc, GET)?)?;
    items.push(Item::Quiet)?;
    items.push(Item::Quiet)?;
    Ok(Items::from_vec(items))
}

/// A put in two parts, with quiet between.
fn put(alloc: Global) -> Result<Items, NoMemory> {
    let mut first = b"\x52\x08\x00\x80\x00\x00\x00\x02P\x00\x01a".to_vec(alloc)?;
    first.extend_from_slice(&[b'.'; 1020])?;
    let mut items = Vec::new(alloc);
    items.push(Item::Quiet)?;
    items.push(item(alloc, first.as_slice())?)?;
    items.push(Item::Quiet)?;
    items.push(item(alloc, LAST)?)?;
    Ok(Items::from_vec(items))
}

/// Whether a new server that hears these items ends so, and sends that to the client.
fn is_right(
    alloc: Global,
    items: Items,
    fails: Fails,
    turns: u8,
    status: Status,
    bytes: &[u8],
) -> Result<bool, Fail> {
    let lane = Lane {
        items,
        room: Room {
            bytes: 2_000,
            calls: 100,
        },
        fails: numbers(alloc, &[fails.link])?,
    };
    let mut link = MemLink::new(alloc, lane, Lanes::from_vec(Vec::new(alloc)))?;
    let moments = numbers(alloc, &[5, 14, 15, 40, 40])?;
    let mut clock = MemClock::new(moments, numbers(alloc, &[fails.clock])?);
    let pace = Pace {
        tick_ms: 10,
        turns: u64::from(turns),
    };
    let ended = serve_plain(
        alloc,
        SERVER,
        None,
        Kv::new(alloc),
        &mut link,
        &mut clock,
        pace,
    );
    let mut sent = Vec::new(alloc);
    for datagram in link.sent(alloc)?.as_slice() {
        if datagram.from != SERVER || datagram.to != CLIENT {
            return Ok(false);
        }
        sent.extend_from_slice(datagram.bytes.as_slice())?;
    }
    Ok(ended == status && sent.as_slice() == bytes)
}

#[test]
fn a_server_answers_until_its_link_ends(rt: HostRuntime) -> Result<(), Fail> {
    let alloc = rt.alloc();
    assert!(rt; is_right(alloc, put(alloc)?, NONE, 9, Status::Done, CALLED_AND_PUT)?);
    assert!(rt; is_right(alloc, get(alloc)?, NONE, 9, Status::Done, GOT)?);
    assert!(rt; is_right(alloc, get(alloc)?, NONE, 1, Status::TurnsSpent, b"")?);
    Ok(())
}

#[test]
fn a_fault_ends_a_server(rt: HostRuntime) -> Result<(), Fail> {
    let alloc = rt.alloc();
    let third = Fails { link: 3, clock: 0 };
    let fourth = Fails { link: 4, clock: 0 };
    let moment = Fails { link: 0, clock: 3 };
    assert!(rt; is_right(alloc, get(alloc)?, third, 9, Status::LinkFault, b"")?);
    assert!(rt; is_right(alloc, get(alloc)?, fourth, 9, Status::LinkFault, GOT)?);
    assert!(rt; is_right(alloc, get(alloc)?, moment, 9, Status::ClockFault, GOT)?);
    Ok(())
}
