//! Runs of a replica in a group of one, between a link, a clock and a journal in memory: at its first tick it leads its group, and a
//! request that it hears after that is answered in the next turn.
ghost use Rattle.std.specs.Prelude.{◌+◌, IfOk};
ghost use Rattle.hc_member.specs.Setup.{IsSetup};

use crate::serve_replica;
use cmd_loop::Pace;
use cmd_status::Status;
use hc_journal::{MemJournal, Records};
use hc_log::{Durable, Entries, Record, Stored};
use hc_node::Setup;
use hc_replier::Bounds;
use hc_service::Kv;
use r2_base::{Addr, Addrs, Bytes, Datagram, Entry, Failed, Kind, NoMemory, Numbers, Rid, Room};
use r2_link::{Got, Item, Items, Lane, Lanes, Link, LinkFault, MemClock, MemLink};
use std::alloc::Global;
use std::test::Fail;

const MEMBER: Addr = Addr {
    ip: 0x0A00_0001,
    port: 9000,
};

const CLIENT: Addr = Addr {
    ip: 0x0A00_0009,
    port: 7001,
};

/// A request to read the key `a`, which isn't there, and the reply.
const GET: &[u8] = b"\x52\x08\x03\xC0\x00\x07\x00\x01G\x00\x01a";

const ABSENT: &[u8] = b"\x52\x08\x13\xC0\x00\x07\x00\x01\x00\x00\x00\x00\x00\x00\x00\x02\x01";

/// How long a tick takes.
const TICK_MS: u32 = 10;

/// A group of one, whose member stands for election at its first tick.
fn group_of_one(alloc: Global) -> Result<Setup, NoMemory>
    ensures { IfOk result IsSetup }
{
    let mut members = Addrs::new(alloc);
    members.push(MEMBER)?;
    let mut bounds = Bounds::new(alloc);
    bounds.push(64)?;
    Ok(Setup {
        members,
        me: 0,
        aggregator: None,
        bounds,
        election: 1,
    })
}

/// A link that fails at a receive that is to wait for another time than expected.
#[derive(Drop)]
struct Expecting {
    inner: MemLink,
    /// For how long the receives are to wait, the first one at the end.
    waits: Vec<u64>,
    unexpected: u64,
}

impl Link for Expecting {
    ghost use Rattle.std.specs.Prelude.{◌+◌};
    ghost use Rattle.r2_link.specs.Memory.{told_by};

    ghost told = { λ l. told_by l.inner };

    ghost faults = { λ l. l.inner.faults + l.unexpected };

    fn bind(&mut self, me: Addr) -> Result<(), Failed> {
        self.inner.bind(me)
    }

    fn receive(&mut self, alloc: Global, wait_ms: u64) -> Result<Got, LinkFault> {
        if self.waits.pop() != Some(wait_ms) {
            self.unexpected = self.unexpected.saturating_add(1);
            return Err(LinkFault::Failed);
        }
        self.inner.receive(alloc, wait_ms)
    }

    fn send(&mut self, d: &Datagram) -> Result<(), Failed> {
        self.inner.send(d)
    }
}

/// A run over one quiet moment, a request and the end, or over quiet moments alone.
#[derive(Clone, Copy)]
struct Row {
    quiets: u8,
    asks: bool,
    moments: [u64; 3],
    /// The calls of the link and of the journal that fail, where 0 is none.
    link_fails: u64,
    journal_fails: u64,
    turns: u8,
    /// For how long the receives are to wait, the first one at the end.
    waits: &'static [u64],
    status: Status,
    sent: &'static [u8],
    /// How many records are stored.
    records: usize,
}

/// A tick is due after the quiet moment, which makes the leader, and one after the request, in whose turn it is answered.
const WHOLE: Row = Row {
    quiets: 1,
    asks: true,
    moments: [0, 10, 20],
    link_fails: 0,
    journal_fails: 0,
    turns: 9,
    waits: &[10, 0, 10],
    status: Status::Done,
    sent: ABSENT,
    records: 2,
};

const ROWS: [Row; 7] = [
    WHOLE,
    // No tick is due after the request: it is answered after the end of the link.
    Row {
        moments: [0, 10, 15],
        waits: &[0, 0, 10],
        ..WHOLE
    },
    Row {
        moments: [0, 10, 15],
        waits: &[0, 0, 10],
        link_fails: 4,
        status: Status::LinkFault,
        sent: b"",
        ..WHOLE
    },
    Row {
        link_fails: 2,
        waits: &[0, 10],
        status: Status::LinkFault,
        sent: b"",
        records: 1,
        ..WHOLE
    },
    Row {
        journal_fails: 1,
        waits: &[10],
        status: Status::DiskFault,
        sent: b"",
        records: 0,
        ..WHOLE
    },
    Row {
        journal_fails: 2,
        waits: &[0, 10],
        status: Status::DiskFault,
        sent: b"",
        records: 1,
        ..WHOLE
    },
    // The blank entry of the leader is applied in the turn after it, and then nothing is pending.
    Row {
        quiets: 4,
        asks: false,
        turns: 3,
        waits: &[10, 0, 10],
        status: Status::TurnsSpent,
        sent: b"",
        records: 1,
        ..WHOLE
    },
];

fn numbers(alloc: Global, items: &[u64]) -> Result<Numbers, NoMemory> {
    Ok(Numbers::from_vec(Vec::from_slice(alloc, items)?))
}

fn link(alloc: Global, row: &Row) -> Result<Expecting, NoMemory> {
    let mut items = Items::new(alloc);
    for _ in 0..row.quiets {
        items.push(Item::Quiet)?;
    }
    if row.asks {
        items.push(Item::Datagram(Datagram {
            from: CLIENT,
            to: MEMBER,
            bytes: Bytes::from_vec(GET.to_vec(alloc)?),
        }))?;
    }
    let lane = Lane {
        items,
        room: Room {
            bytes: 100,
            calls: 10,
        },
        fails: numbers(alloc, &[row.link_fails])?,
    };
    Ok(Expecting {
        inner: MemLink::new(alloc, lane, Lanes::new(alloc))?,
        waits: row.waits.to_vec(alloc)?,
        unexpected: 0,
    })
}

/// What came of a row.
#[derive(Drop)]
struct Outcome {
    status: Status,
    sent: Vec<u8>,
    journal: MemJournal,
}

fn run(alloc: Global, row: &Row) -> Result<Outcome, NoMemory> {
    let mut link = link(alloc, row)?;
    let mut clock = MemClock::new(numbers(alloc, &row.moments)?, Numbers::new(alloc));
    let mut journal = MemJournal::new(alloc, numbers(alloc, &[row.journal_fails])?);
    let pace = Pace {
        tick_ms: TICK_MS,
        turns: u64::from(row.turns),
    };
    let status = serve_replica(
        alloc,
        group_of_one(alloc)?,
        Durable::begin(alloc),
        Kv::new(alloc),
        &mut journal,
        &mut link,
        &mut clock,
        pace,
    );
    let mut sent = Vec::new(alloc);
    for datagram in link.inner.sent(alloc)?.as_slice() {
        sent.extend_from_slice(datagram.bytes.as_slice())?;
    }
    Ok(Outcome {
        status,
        sent,
        journal,
    })
}

#[test]
fn a_replica_stores_and_answers_until_its_link_ends(rt: HostRuntime) -> Result<(), Fail> {
    let alloc = rt.alloc();
    for row in &ROWS {
        let outcome = run(alloc, row)?;
        assert_eq!(rt; outcome.status, row.status);
        assert_eq!(rt; outcome.sent.as_slice(), row.sent);
        assert_eq!(rt; outcome.journal.records().len(), row.records);
    }
    Ok(())
}

/// The record of one entry of the first term, in which the member voted for itself.
fn record_of(alloc: Global, keep: u64, entry: Entry, body: &[u8]) -> Result<Record, NoMemory> {
    let mut entries = Entries::new(alloc);
    entries.push(Stored {
        entry,
        body: Bytes::from_vec(body.to_vec(alloc)?),
    })?;
    Ok(Record {
        term: 1,
        vote: Some(0),
        keep,
        entries,
    })
}

#[test]
fn a_leader_stores_its_blank_entry_and_then_the_request(rt: HostRuntime) -> Result<(), Fail> {
    let alloc = rt.alloc();
    let blank = Entry {
        term: 1,
        kind: Kind::Blank,
        rid: Rid {
            id: 0,
            client: Addr { ip: 0, port: 0 },
        },
        replier: 255,
    };
    let read = Entry {
        term: 1,
        kind: Kind::Read,
        rid: Rid {
            id: 7,
            client: CLIENT,
        },
        replier: 0,
    };
    let mut records = Records::new(alloc);
    records.push(record_of(alloc, 0, blank, b"")?)?;
    records.push(record_of(alloc, 1, read, b"G\x00\x01a")?)?;
    let outcome = run(alloc, &WHOLE)?;
    assert_eq!(rt; outcome.journal.records().as_slice(), records.as_slice());
    Ok(())
}
