//! Runs of an aggregator on a link in memory.

ghost use Rattle.std.specs.Prelude.{◌≤◌};
ghost use Rattle.r2_base.specs.Limits.{most_turns};

use crate::serve_aggregator;
use cmd_status::Status;
use r2_base::{Addr, Addrs, Bytes, Datagram, Failed, NoMemory, Numbers, Room};
use r2_link::{Got, Item, Items, Lane, Lanes, Link, LinkFault, MemLink};
use std::alloc::Global;
use std::test::Fail;

const AGGREGATOR: Addr = Addr {
    ip: 0x0A00_0064,
    port: 9100,
};

const MEMBERS: [Addr; 3] = [
    Addr {
        ip: 0x0A00_0001,
        port: 9000,
    },
    Addr {
        ip: 0x0A00_0002,
        port: 9000,
    },
    Addr {
        ip: 0x0A00_0003,
        port: 9000,
    },
];

/// An Order of term 3 by member 0, whose first own entry is at index 3, after the entry at index 1: a Write of term 1, and a Blank.
const ORDER: &[u8] = b"\x52\x08\x62\xC0\0\0\0\x01\
    \x03\0\0\0\0\0\0\0\x03\0\0\0\0\0\0\0\0\x01\0\0\0\0\0\0\0\x01\0\0\0\0\0\0\0\x03\0\0\0\0\0\0\0\x01\x01\x02\
    \0\0\0\0\0\0\0\x01\x01\x0A\0\0\x09\x1B\x59\0\x07\x01\
    \0\0\0\0\0\0\0\x03\0\0\0\0\0\0\0\0\0\xFF";

/// Member 1 has the leader's log up to index 2, and up to index 3.
const ACK_2: &[u8] = b"\x52\x08\x62\xC0\0\0\0\x01\
    \x04\0\0\0\0\0\0\0\x03\x01\0\0\0\0\0\0\0\x02\0\0\0\0\0\0\0\x01";

const ACK_3: &[u8] = b"\x52\x08\x62\xC0\0\0\0\x01\
    \x04\0\0\0\0\0\0\0\x03\x01\0\0\0\0\0\0\0\x03\0\0\0\0\0\0\0\x01";

/// Index 3 of term 3 is committed.
const COMMIT: &[u8] = b"\x52\x08\x62\xC0\0\0\0\x01\
    \x06\0\0\0\0\0\0\0\x03\0\0\0\0\0\0\0\x03";

/// A run over quiet, the Order and the two Acks.
#[derive(Clone, Copy)]
struct Run {
    /// The receives that are made at most.
    turns: u8,
    /// The call of the link that fails, where 0 is none.
    fails: u64,
    status: Status,
    /// How many datagrams are sent.
    sent: usize,
}

const RUNS: [Run; 4] = [
    Run {
        turns: 9,
        fails: 0,
        status: Status::Done,
        sent: 5,
    },
    Run {
        turns: 3,
        fails: 0,
        status: Status::TurnsSpent,
        sent: 2,
    },
    // The third receive fails.
    Run {
        turns: 9,
        fails: 5,
        status: Status::LinkFault,
        sent: 2,
    },
    // The second send fails.
    Run {
        turns: 9,
        fails: 4,
        status: Status::LinkFault,
        sent: 1,
    },
];

fn item(alloc: Global, from: Addr, bytes: &[u8]) -> Result<Item, NoMemory> {
    Ok(Item::Datagram(Datagram {
        from,
        to: AGGREGATOR,
        bytes: Bytes::from_vec(bytes.to_vec(alloc)?),
    }))
}

fn link(alloc: Global, fails: u64) -> Result<MemLink, NoMemory> {
    let mut items = Vec::new(alloc);
    items.push(Item::Quiet)?;
    items.push(item(alloc, MEMBERS[0], ORDER)?)?;
    items.push(item(alloc, MEMBERS[1], ACK_2)?)?;
    items.push(item(alloc, MEMBERS[1], ACK_3)?)?;
    let lane = Lane {
        items: Items::from_vec(items),
        room: Room {
            bytes: 2_000,
            calls: 20,
        },
        fails: Numbers::from_vec(Vec::from_slice(alloc, &[fails])?),
    };
    MemLink::new(alloc, lane, Lanes::from_vec(Vec::new(alloc)))
}

/// Whether the datagrams are the first of those that a whole run sends: the Order to members 1 and 2, then the commit to all three.
fn are_first(sent: &[Datagram]) -> bool {
    let to = [MEMBERS[1], MEMBERS[2], MEMBERS[0], MEMBERS[1], MEMBERS[2]];
    let bytes = [ORDER, ORDER, COMMIT, COMMIT, COMMIT];
    'sent: for (i, datagram) in sent.iter().enumerate() {
        if i >= 5 || datagram.from != AGGREGATOR || datagram.to != to[i] {
            return false;
        }
        if datagram.bytes.as_slice() != bytes[i] {
            return false;
        }
    }
    true
}

/// A link in memory that receives nothing where it is to wait for another time than a second.
#[derive(Drop)]
struct Patient {
    inner: MemLink,
}

impl Link for Patient {
    ghost use Rattle.r2_link.specs.Memory.{told_by};

    ghost told = { λ l. told_by l.inner };

    ghost faults = { λ l. l.inner.faults };

    fn bind(&mut self, me: Addr) -> Result<(), Failed> {
        self.inner.bind(me)
    }

    fn receive(&mut self, alloc: Global, wait_ms: u64) -> Result<Got, LinkFault> {
        if wait_ms != 1_000 {
            return Err(LinkFault::Memory);
        }
        self.inner.receive(alloc, wait_ms)
    }

    fn send(&mut self, d: &Datagram) -> Result<(), Failed> {
        self.inner.send(d)
    }
}

/// Runs an aggregator of the three members.
fn serve(alloc: Global, link: &mut Patient, turns: u64) -> Result<Status, NoMemory>
    requires { turns ≤ most_turns }
{
    let members = Addrs::from_vec(Vec::from_slice(alloc, &MEMBERS)?);
    Ok(serve_aggregator(alloc, AGGREGATOR, members, link, turns))
}

#[test]
fn an_aggregator_runs_until_its_link_ends(rt: HostRuntime) -> Result<(), Fail> {
    let alloc = rt.alloc();
    for run in RUNS {
        let inner = link(alloc, run.fails)?;
        let mut link = Patient { inner };
        let turns = u64::from(run.turns);
        let ended = serve(alloc, &mut link, turns)?;
        let sent = link.inner.sent(alloc)?;
        assert!(rt; ended == run.status);
        assert_eq!(rt; sent.len(), run.sent);
        assert!(rt; are_first(sent.as_slice()));
    }
    Ok(())
}
