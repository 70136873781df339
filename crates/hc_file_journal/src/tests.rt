ghost use Rattle.std.specs.Prelude.{◌≡◌, ◌≤◌, IfOk, IfSome, Ok};
ghost use Rattle.hc_log.specs.Durable.{replay};

use crate::{FileJournal, RecoverFault};
use hc_disk::{Disk, Files, MemDisk, StoredFile};
use hc_journal::{First, Journal, JournalFault};
use hc_log::{Durable, Entries, Record, Stored};
use r2_base::{Addr, Bytes, Entry, Kind, NoMemory, Numbers, Rid, Room};
use std::alloc::{AllocError, Global};
use std::test::Fail;

const ROOM: Room = Room {
    bytes: 4_096,
    calls: 512,
};

/// The bytes of a leader's blank entry of term 1 with the vote 0, as a record.
const R: [u8; 39] = [
    1, 0, 0, 0, 0, 0, 0, 0, 1, 0, 0, 0, 0, 0, 0, 0, 0, 0, 1, 0, 0, 0, 0, 0, 0, 0, 1, 0, 0, 0, 0, 0,
    0, 0, 0, 0, 0xFF, 0, 0,
];

/// An open gate and the length of `R`.
const BEFORE: [u8; 5] = [0x5A, 0, 0, 0, 39];

fn joined(alloc: Global, parts: &[&[u8]]) -> Result<Vec<u8>, AllocError> {
    let mut out = Vec::new(alloc);
    for part in parts.iter() {
        out.extend_from_slice(part)?;
    }
    Ok(out)
}

/// A disk whose file without a name, which is selected first, has these bytes.
fn disk_with(alloc: Global, bytes: &[u8], fails: &[u64]) -> Result<MemDisk, NoMemory> {
    let mut files = Files::new(alloc);
    files.push(StoredFile {
        name: Bytes::new(alloc),
        bytes: Bytes::from_vec(bytes.to_vec(alloc)?),
    })?;
    MemDisk::new(alloc, files, ROOM, Numbers::from_vec(fails.to_vec(alloc)?))
}

fn content(alloc: Global, disk: &mut MemDisk) -> Result<Vec<u8>, Fail> {
    let mut into = [0; 128];
    let count = disk.read_at(0, &mut into)?;
    Ok(into[..count].to_vec(alloc)?)
}

/// How long the log is that a file's records lead to, or why it is no journal.
fn recovered(alloc: Global, bytes: &[u8]) -> Result<Result<u64, RecoverFault>, Fail> {
    let disk = disk_with(alloc, bytes, &[])?;
    match FileJournal::recover(alloc, disk) {
        Ok((_, durable)) => Ok(Ok(durable.log().last())),
        Err(refused) => Ok(Err(refused.fault)),
    }
}

#[test]
fn files_are_journals_or_damaged_at_a_place(rt: HostRuntime) -> Result<(), Fail> {
    let alloc = rt.alloc();
    let one = joined(alloc, &[&BEFORE, &R, &[0]])?;
    let longer = joined(alloc, &[&BEFORE, &R, &[0, 0x5A, 1, 2, 3]])?;
    let open = joined(alloc, &[&BEFORE, &R, &[0x5A, 0]])?;
    let none = joined(alloc, &[&BEFORE, &R])?;
    let twice = joined(alloc, &[&BEFORE, &R, &BEFORE, &R, &[0]])?;
    assert_eq!(rt; recovered(alloc, &one)?, Ok(1));
    assert_eq!(rt; recovered(alloc, &longer)?, Ok(1));
    assert_eq!(rt;
        recovered(alloc, &open)?,
        Err(RecoverFault::Damaged { at: 44 })
    );
    assert_eq!(rt;
        recovered(alloc, &none)?,
        Err(RecoverFault::Damaged { at: 44 })
    );
    assert_eq!(rt; recovered(alloc, &[])?, Ok(0));
    assert_eq!(rt; recovered(alloc, &[0x5A])?, Ok(0));
    assert_eq!(rt;
        recovered(alloc, &[0x5A, 0])?,
        Err(RecoverFault::Damaged { at: 0 })
    );
    // The second of two equal records keeps no entry of the first, and is a next one.
    assert_eq!(rt; recovered(alloc, &twice)?, Ok(1));
    Ok(())
}

/// A leader's blank entry, as the record of a member that has this many entries and voted for member 0.
fn blank(alloc: Global, term: u64, keep: u64) -> Result<Record, NoMemory> {
    let rid = Rid {
        id: 0,
        client: Addr { ip: 0, port: 0 },
    };
    let entry = Entry {
        term,
        kind: Kind::Blank,
        rid,
        replier: 255,
    };
    let body = Bytes::new(alloc);
    let mut entries = Entries::new(alloc);
    entries.push(Stored { entry, body })?;
    Ok(Record {
        term,
        vote: Some(0),
        keep,
        entries,
    })
}

/// Stores the record, which leads from the state that the journal's records lead to.
fn store(
    journal: &mut FileJournal<MemDisk>,
    durable: &mut Durable,
    alloc: Global,
    r: &Record,
) -> Result<Result<(), JournalFault>, Fail>
    requires { IfSome (⟦<FileJournal<MemDisk> as Journal>⟧.records journal.old) (λ records. durable.old.state ≡ replay records) }
    ensures { result ≡ Ok (Ok tt) → IfSome (⟦<FileJournal<MemDisk> as Journal>⟧.records journal.new) (λ records. durable.new.state ≡ replay records) }
{
    durable.follow(r)?;
    Ok(journal.append(alloc, r))
}

#[test]
fn append_puts_the_record_after_the_gate(rt: HostRuntime) -> Result<(), Fail> {
    let alloc = rt.alloc();
    let disk = disk_with(alloc, &[], &[])?;
    let (mut journal, mut durable) = match FileJournal::recover(alloc, disk) {
        Ok(found) => found,
        Err(refused) => return Err(refused.fault.into()),
    };
    let r = blank(alloc, 1, 0)?;
    assert_eq!(rt; store(&mut journal, &mut durable, alloc, &r)?, Ok(()));
    let mut disk = journal.into_disk();
    let wanted = joined(alloc, &[&BEFORE, &R, &[0]])?;
    assert_eq!(rt; content(alloc, &mut disk)?.as_slice(), wanted.as_slice());
    Ok(())
}

/// The answers to a record that is to be stored three times.
fn store_thrice(
    journal: &mut FileJournal<MemDisk>,
    durable: &mut Durable,
    alloc: Global,
    r: &Record,
) -> Result<[Result<(), JournalFault>; 3], Fail>
    requires { IfSome (⟦<FileJournal<MemDisk> as Journal>⟧.records journal.old) (λ records. durable.old.state ≡ replay records) }
{
    durable.follow(r)?;
    let first = journal.append(alloc, r);
    if first.is_ok() {
        return Err("a record that was stored".into());
    }
    let second = journal.append(alloc, r);
    let third = if second.is_ok() {
        second
    } else {
        journal.append(alloc, r)
    };
    Ok([first, second, third])
}

#[test]
fn failed_append_ends_the_journal(rt: HostRuntime) -> Result<(), Fail> {
    let alloc = rt.alloc();
    // Six calls recover an empty disk; the ninth is the third of the first append.
    let disk = disk_with(alloc, &[], &[9])?;
    let (mut journal, mut durable) = match FileJournal::recover(alloc, disk) {
        Ok(found) => found,
        Err(refused) => return Err(refused.fault.into()),
    };
    let r = blank(alloc, 1, 0)?;
    let ended = Err(JournalFault::Ended(First::Disk));
    let wanted = [Err(JournalFault::Disk), ended, ended];
    assert_eq!(rt;
        store_thrice(&mut journal, &mut durable, alloc, &r)?,
        wanted
    );
    Ok(())
}

/// How many records of `records` are acknowledged where call `k` of the disk fails, whether that ended the journal, and the disk.
fn run_until(alloc: Global, k: u64, records: u64) -> Result<(u64, bool, MemDisk), Fail>
    ensures { IfOk result (λ p. p.0 ≤ records) }
{
    let disk = disk_with(alloc, &[], &[k])?;
    let (mut journal, mut durable) = match FileJournal::recover(alloc, disk) {
        Ok(found) => found,
        Err(refused) => return Ok((0, true, refused.disk)),
    };
    'records: for i in 0..records {
        let r = blank(alloc, i + 1, i)?;
        match store(&mut journal, &mut durable, alloc, &r)? {
            Ok(()) => {}
            Err(_) => return Ok((i, true, journal.into_disk())),
        }
    }
    Ok((records, false, journal.into_disk()))
}

#[test]
fn crash_at_each_call_loses_no_acknowledged_record(rt: HostRuntime) -> Result<(), Fail> {
    let alloc = rt.alloc();
    'calls: for k in 1..200 {
        let (acknowledged, failed, disk) = run_until(alloc, k, 40)?;
        'picks: for pick in [0, 1, 90] {
            let left = disk.after_crash(alloc, pick)?;
            let found = match FileJournal::recover(alloc, left) {
                Ok((_, durable)) => durable.log().last(),
                Err(refused) => return Err(refused.fault.into()),
            };
            assert!(rt;
                found == acknowledged || found == acknowledged + 1,
                "at {k}, {pick}"
            );
        }
        if !failed {
            return Ok(());
        }
    }
    Ok(())
}
