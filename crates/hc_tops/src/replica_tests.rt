//! The command of a replica over a file of the system, for a group of one that stands for election at its first tick: what its
//! journal holds afterwards, and what is refused before its link is bound.

use crate::in_memory::{clock, link, sink, source, words};
use crate::{Status, run};
use hc_disk::{Disk, FileDisk};
use r2_base::{Failed, NoMemory};
use r2_link::{Item, MemSink};
use std::fs::remove_file;
use std::sync::Wait;
use std::test::Fail;
use std::thread::Threads;

/// In the folder that a test runs in, under a name that nothing else has.
const NAME: &str = "./hc_tops_replica_test";

/// A journal of the record that the group's first leader stores: its term, its vote for itself, and a blank entry.
const FIRST: &[u8] =
    b"\x5A\0\0\0\x27\x01\0\0\0\0\0\0\0\x01\0\0\0\0\0\0\0\0\0\x01\0\0\0\0\0\0\0\x01\0\0\0\0\0\0\0\0\0\xFF\0\0\0";

/// The same with an open gate where no record comes.
const OPEN: &[u8] =
    b"\x5A\0\0\0\x27\x01\0\0\0\0\0\0\0\x01\0\0\0\0\0\0\0\0\0\x01\0\0\0\0\0\0\0\x01\0\0\0\0\0\0\0\0\0\xFF\0\0\x5A\0";

/// The same with other bytes after the closed gate.
const LONGER: &[u8] =
    b"\x5A\0\0\0\x27\x01\0\0\0\0\0\0\0\x01\0\0\0\0\0\0\0\0\0\x01\0\0\0\0\0\0\0\x01\0\0\0\0\0\0\0\0\0\xFF\0\0\0\x5A\x5A";

/// A run over a file of these bytes.
#[derive(Clone, Copy)]
struct Row {
    file: &'static [u8],
    /// How many quiet moments the link has before its end. A tick is due after the first.
    quiets: u8,
    /// The call of the link that fails, where 0 is none. The first one binds it.
    fails: u64,
    status: Status,
    line: &'static [u8],
    after: &'static [u8],
}

const WHOLE: Row = Row {
    file: b"",
    quiets: 0,
    fails: 0,
    status: Status::Done,
    line: b"",
    after: b"\0",
};

const LINK_FAILED: &[u8] = b"r2p2_suite: the link failed\n";

const DAMAGED: &[u8] = b"r2p2_suite: journal damaged at 44\n";

const ROWS: [Row; 7] = [
    WHOLE,
    Row {
        quiets: 1,
        after: FIRST,
        ..WHOLE
    },
    Row {
        file: FIRST,
        after: FIRST,
        ..WHOLE
    },
    Row {
        file: LONGER,
        after: FIRST,
        ..WHOLE
    },
    // The journal is recovered before the link is bound.
    Row {
        file: LONGER,
        fails: 1,
        status: Status::LinkFault,
        line: LINK_FAILED,
        after: FIRST,
        ..WHOLE
    },
    // And where it can't be, the link isn't bound.
    Row {
        file: OPEN,
        fails: 1,
        status: Status::JournalDamaged { at: 44 },
        line: DAMAGED,
        after: OPEN,
        ..WHOLE
    },
    Row {
        file: OPEN,
        status: Status::JournalDamaged { at: 44 },
        line: DAMAGED,
        after: OPEN,
        ..WHOLE
    },
];

/// How a run over the disk ends, and what it wrote to its errors.
fn ended<R: Threads + Wait + Sync + AllocGlobal, D: Disk>(
    rt: &R,
    disk: &mut D,
    row: &Row,
) -> Result<(Status, MemSink), NoMemory> {
    let alloc = rt.alloc();
    let line = [
        "replica",
        "--members=10.0.0.1:9000",
        "--me=0",
        "--election=1",
        "--journal",
        NAME,
    ];
    let mut items = Vec::new(alloc);
    for _ in 0..row.quiets {
        items.push(Item::Quiet)?;
    }
    let mut errors = sink(alloc, 0)?;
    let status = run(
        rt,
        alloc,
        words(alloc, &line)?.as_slice(),
        &mut source(alloc, b"", 0)?,
        &mut sink(alloc, 0)?,
        &mut errors,
        &mut link(alloc, items, row.fails)?,
        disk,
        &mut clock(alloc)?,
    );
    Ok((status, errors))
}

/// Makes the selected file one of these bytes.
fn fill<D: Disk>(disk: &mut D, bytes: &[u8]) -> Result<(), Failed> {
    disk.cut(0)?;
    disk.write_at(0, bytes)
}

#[test]
fn a_replica_runs_from_what_its_journal_holds(rt: HostRuntime) -> Result<(), Fail> {
    for row in &ROWS {
        let mut disk = FileDisk::new(&rt);
        assert_eq!(rt; disk.select(NAME), Ok(()));
        assert_eq!(rt; fill(&mut disk, row.file), Ok(()));
        let (status, errors) = ended(&rt, &mut disk, row)?;
        assert_eq!(rt; status, row.status);
        assert_eq!(rt; errors.written(), row.line);
        let mut file = [0; 64];
        assert_eq!(rt; disk.read_at(0, &mut file), Ok(row.after.len()));
        assert!(rt; file.starts_with(row.after));
        remove_file(&rt, NAME)?;
    }
    Ok(())
}
