ghost use Rattle.std.specs.Prelude.{◌≡◌, ◌<◌, ◌≤◌, true, IfOk};

use crate::{Durable, Entries, FollowFault, Log, Record, Stored};
use r2_base::{Addr, Bytes, Entry, Kind, NoMemory, Rid};
use std::alloc::Global;
use std::test::Fail;

/// An entry: its term, its kind, the number in its request id, its replier, and how many bytes its body has.
pub(crate) type Line = (u64, Kind, u16, u8, usize);

const BLANK: Line = (1, Kind::Blank, 0, 255, 0);

/// A blank entry of term 1, and two requests with the numbers 1 and 2.
const FIRST: [Line; 3] = [BLANK, (1, Kind::Write, 1, 0, 4), (1, Kind::Read, 2, 6, 0)];

pub(crate) fn rid(id: u16) -> Rid {
    let ip = if id == 0 { 0 } else { 0x0a00_0009 };
    let port = if id == 0 { 0 } else { 7_001 };
    Rid {
        id,
        client: Addr { ip, port },
    }
}

fn stored(alloc: Global, line: &Line) -> Result<Stored, NoMemory> {
    let (term, kind, id, replier, size) = *line;
    Ok(Stored {
        entry: Entry {
            term,
            kind,
            rid: rid(id),
            replier,
        },
        body: Bytes::from_vec(vec![in alloc; 0x47; size]?),
    })
}

pub(crate) fn record(
    alloc: Global,
    term: u64,
    vote: Option<u8>,
    keep: u64,
    lines: &[Line],
) -> Result<Record, NoMemory> {
    let mut entries = Entries::new(alloc);
    for line in lines {
        entries.push(stored(alloc, line)?)?;
    }
    Ok(Record {
        term,
        vote,
        keep,
        entries,
    })
}

/// The first entries, in term 1 with a vote for member 0.
fn begun(alloc: Global) -> Result<Durable, FollowFault>
    ensures { IfOk result (λ d. d.whole ≡ true) }
{
    let mut durable = Durable::begin(alloc);
    let first = record(alloc, 1, Some(0), 0, &FIRST[..1])?;
    durable.follow(&first)?;
    let second = record(alloc, 1, Some(0), 1, &FIRST[1..])?;
    durable.follow(&second)?;
    Ok(durable)
}

#[test]
fn a_log_is_read(rt: HostRuntime) -> Result<(), Fail> {
    let (term, vote, log) = begun(rt.alloc())?.into_parts();
    assert_eq!(rt; (term, vote, log.last()), (1, Some(0), 3));
    assert_eq!(rt; (log.requests(), log.body_bytes()), (2, 4));
    assert_eq!(rt;
        (log.place_of(&rid(2)), log.place_of(&rid(0))),
        (Some(3), None)
    );
    assert_eq!(rt; (log.term_at(0), log.term_at(3)), (0, 1));
    assert_eq!(rt; (log.entry(2).rid, log.entry(3).kind), (rid(1), Kind::Read));
    assert_eq!(rt; (log.body(1).len(), log.body(2).len()), (0, 4));
    assert_eq!(rt; log.has_room(b"G"), true);
    Ok(())
}

#[test]
fn a_log_is_cut(rt: HostRuntime) -> Result<(), Fail> {
    let (_, _, mut log) = begun(rt.alloc())?.into_parts();
    assert_eq!(rt; log.last(), 3);
    let metas = log.slice(2, 1)?;
    assert_eq!(rt; metas.as_slice(), [log.entry(2)].as_slice());
    assert_eq!(rt; log.slice(4, 64)?.len(), 0);
    let others = log.cut(1)?;
    let want = record(rt.alloc(), 1, None, 0, &FIRST[1..])?.entries;
    assert_eq!(rt; others, want);
    assert_eq!(rt; (log.last(), log.requests(), log.body_bytes()), (1, 0, 0));
    Ok(())
}

#[test]
fn a_later_term_replaces_entries(rt: HostRuntime) -> Result<(), Fail> {
    let mut durable = begun(rt.alloc())?;
    let lines = [(3, Kind::Blank, 0, 255, 0), (3, Kind::Write, 2, 1, 9)];
    let replacing = record(rt.alloc(), 4, None, 2, &lines)?;
    assert_eq!(rt; durable.follow(&replacing), Ok(()));
    assert_eq!(rt;
        (durable.term(), durable.vote(), durable.log().last()),
        (4, None, 4)
    );
    assert_eq!(rt; durable.log().place_of(&rid(2)), Some(4));
    let voting = record(rt.alloc(), 4, Some(5), 4, &[])?;
    assert_eq!(rt; durable.follow(&voting), Ok(()));
    assert_eq!(rt; (durable.vote(), durable.whole()), (Some(5), true));
    Ok(())
}

/// What is wrong, and a record's term, vote, keep and entries.
type Wrong = (&'static str, u64, Option<u8>, u64, &'static [Line]);

const WRONG: [Wrong; 3] = [
    ("a second vote in one term", 1, Some(1), 3, &[]),
    ("a keep past the log", 1, Some(0), 4, &[]),
    (
        "an id of the log",
        1,
        Some(0),
        3,
        &[(1, Kind::Write, 1, 0, 0)],
    ),
];

#[test]
fn other_records_are_unfit(rt: HostRuntime) -> Result<(), Fail> {
    let mut durable = begun(rt.alloc())?;
    for (what, term, vote, keep, lines) in WRONG {
        let wrong = record(rt.alloc(), term, vote, keep, lines)?;
        assert_eq!(rt; durable.follow(&wrong), Err(FollowFault::Unfit), "{what}");
    }
    assert_eq!(rt; (durable.log().last(), durable.whole()), (3, true));
    Ok(())
}

/// The id of one of many requests.
fn many(n: u32) -> Rid
    requires { n < 16777216 }
{
    let client = Addr {
        ip: 0x0a00_0000 + n / 65_536,
        port: 7_001,
    };
    Rid {
        id: (n % 65_536) as u16,
        client,
    }
}

/// The record of 50 writes after so many others.
fn writes(alloc: Global, before: u32) -> Result<Record, NoMemory>
    requires { before ≤ 200000 }
{
    let mut entries = Entries::new(alloc);
    for i in 0..50 {
        let entry = Entry {
            term: 1,
            kind: Kind::Write,
            rid: many(before + i),
            replier: 0,
        };
        let body = Bytes::from_vec(vec![in alloc; 0x47; 1]?);
        entries.push(Stored { entry, body })?;
    }
    Ok(Record {
        term: 1,
        vote: None,
        keep: u64::from(before),
        entries,
    })
}

/// The state after 4,000 records of 50 writes each.
fn grown(alloc: Global) -> Result<Durable, FollowFault> {
    let mut durable = Durable::begin(alloc);
    for i in 0..4_000 {
        durable.follow(&writes(alloc, 50 * i)?)?;
    }
    Ok(durable)
}

/// The first of the requests of `grown` that isn't at its place.
fn misplaced(log: &Log) -> Option<u32> {
    for n in 0..200_000 {
        if log.place_of(&many(n)) != Some(u64::from(n) + 1) {
            return Some(n);
        }
    }
    None
}

#[test]
fn a_log_of_200000_entries_finds_each(rt: HostRuntime) -> Result<(), Fail> {
    let durable = grown(rt.alloc())?;
    let log = durable.log();
    assert_eq!(rt;
        (log.last(), log.requests(), log.body_bytes()),
        (200_000, 200_000, 200_000)
    );
    assert_eq!(rt; misplaced(log), None);
    assert_eq!(rt; log.entries_after(199_990)?.len(), 10);
    Ok(())
}

#[test]
fn records_are_replayed(rt: HostRuntime) -> Result<(), Fail> {
    let first = record(rt.alloc(), 1, Some(0), 0, &FIRST)?;
    let keeping = record(rt.alloc(), 1, None, 1, &[])?;
    let refused = Durable::replay(rt.alloc(), &[keeping]).err();
    assert_eq!(rt; refused, Some(FollowFault::Unfit));
    let durable = Durable::replay(rt.alloc(), &[first])?;
    assert_eq!(rt; durable.log().last(), 3);
    Ok(())
}
