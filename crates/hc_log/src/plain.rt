//! A log as a plain list of its entries, looked through from its beginning, and tests that a log answers the same.
ghost use Rattle.std.specs.Prelude.{◌≡◌, true, IfOk};

use crate::tests::{Line, record, rid};
use crate::{Durable, FollowFault, Log, Stored};
use r2_base::{Kind, Rid, is_request};
use std::alloc::Global;
use std::test::Fail;

/// How many entries come before the first that is of the request with this id.
fn position_of(entries: &[Stored], rid: &Rid) -> Option<usize> {
    entries
        .iter()
        .position(|s| is_request(s.entry.kind) && s.entry.rid == *rid)
}

/// The index of the request with this id.
fn place_of(entries: &[Stored], rid: &Rid) -> Option<u64> {
    let before = position_of(entries, rid)?;
    Some((before as u64).saturating_add(1))
}

/// Whether a log tells the places of the requests with these numbers as its entries do.
fn tells_places(log: &Log, entries: &[Stored], ids: u16) -> bool {
    for id in 0..ids {
        let rid = rid(id);
        if log.place_of(&rid) != place_of(entries, &rid) {
            return false;
        }
    }
    true
}

/// Whether a log tells the terms of its entries.
fn tells_terms(log: &Log, entries: &[Stored]) -> bool {
    for (i, s) in entries.iter().enumerate() {
        let index = i as u64 + 1;
        if index > log.last() || log.term_at(index) != s.entry.term {
            return false;
        }
    }
    true
}

/// A write of this term with this number.
fn write(term: u64, id: u16) -> Line {
    (term, Kind::Write, id, 0, 3)
}

/// Writes of the terms 1, 1, 2 and 4.
const FOUR_TERMS: [Line; 4] = [
    (1, Kind::Write, 1, 0, 3),
    (1, Kind::Write, 2, 0, 3),
    (2, Kind::Write, 3, 0, 3),
    (4, Kind::Write, 4, 0, 3),
];

fn four_terms(alloc: Global) -> Result<Durable, FollowFault>
    ensures { IfOk result (λ d. d.whole ≡ true) }
{
    let mut durable = Durable::begin(alloc);
    let first = record(alloc, 4, None, 0, &FOUR_TERMS)?;
    durable.follow(&first)?;
    Ok(durable)
}

#[test]
fn a_log_tells_what_its_entries_do(rt: HostRuntime) -> Result<(), Fail> {
    let mut durable = four_terms(rt.alloc())?;
    for (keep, id) in [(4, 5), (2, 3), (3, 6), (1, 2), (0, 7)] {
        let changed = record(rt.alloc(), 5, None, keep, &[write(5, id)])?;
        durable.follow(&changed)?;
        let log = durable.log();
        let entries = log.entries_after(0)?;
        assert_eq!(rt; entries.len() as u64, log.last());
        assert!(rt; tells_places(log, entries.as_slice(), 9));
        assert!(rt; tells_terms(log, entries.as_slice()));
    }
    Ok(())
}

#[test]
fn a_cut_ends_terms_and_places(rt: HostRuntime) -> Result<(), Fail> {
    let (_, _, mut log) = four_terms(rt.alloc())?.into_parts();
    assert_eq!(rt; log.last(), 4);
    let others = log.cut(2)?;
    let want = record(rt.alloc(), 4, None, 2, &FOUR_TERMS[2..])?.entries;
    assert_eq!(rt; others, want);
    assert_eq!(rt; log.last(), 2);
    assert_eq!(rt; log.term_at(2), 1);
    assert_eq!(rt; log.place_of(&rid(3)), None);
    Ok(())
}

#[test]
fn a_term_begins_after_a_cut(rt: HostRuntime) -> Result<(), Fail> {
    let mut durable = four_terms(rt.alloc())?;
    let replacing = record(rt.alloc(), 4, None, 2, &[write(3, 5)])?;
    assert_eq!(rt; durable.follow(&replacing), Ok(()));
    let log = durable.log();
    assert_eq!(rt; log.last(), 3);
    assert_eq!(rt; (log.term_at(2), log.term_at(3)), (1, 3));
    assert_eq!(rt; log.place_of(&rid(5)), Some(3));
    Ok(())
}
