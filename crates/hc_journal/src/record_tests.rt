use super::*;
use hc_log::{Entries, Record, Stored};
use r2_base::{Addr, Bytes, Entry, Kind, Rid};
use std::alloc::{AllocError, Global};
use std::test::Fail;

const ONE: [u8; 8] = [0, 0, 0, 0, 0, 0, 0, 1];

const ZERO: [u8; 8] = [0; 8];

/// A blank entry's bytes, all but the length of its body.
const BLANK: [u8; 18] = [0, 0, 0, 0, 0, 0, 0, 1, 0, 0, 0, 0, 0, 0, 0, 0, 0, 0xFF];

/// A read by 10.0.0.9:7001 that member 0 answers, with its body's length and body.
const READ: [u8; 24] = [
    0, 0, 0, 0, 0, 0, 0, 1, 2, 10, 0, 0, 9, 0x1B, 0x59, 0, 7, 0, 0, 4, 0x47, 0, 1, 0x61,
];

fn joined(alloc: Global, parts: &[&[u8]]) -> Result<Vec<u8>, AllocError> {
    let mut out = Vec::new(alloc);
    for part in parts.iter() {
        out.extend_from_slice(part)?;
    }
    Ok(out)
}

/// The record of term 1 and the vote 0 that has this entry, and keeps so many entries before it.
fn record_with(alloc: Global, keep: u64, stored: Stored) -> Result<Record, AllocError> {
    let mut entries = Vec::new(alloc);
    entries.push(stored)?;
    Ok(Record {
        term: 1,
        vote: Some(0),
        keep,
        entries: Entries::from_vec(entries),
    })
}

/// Whether the bytes read as the record, and the record is written as the bytes.
fn are_bytes_of(alloc: Global, record: &Record, bytes: &[u8]) -> Result<bool, RecordFault> {
    let found = read_record(alloc, bytes)?;
    let written = record_bytes(alloc, &found)?;
    Ok(found == *record && written.as_slice() == bytes)
}

#[test]
fn a_record_has_its_bytes(rt: HostRuntime) -> Result<(), Fail> {
    let alloc = rt.alloc();
    let blank = Entry {
        term: 1,
        kind: Kind::Blank,
        rid: Rid {
            id: 0,
            client: Addr { ip: 0, port: 0 },
        },
        replier: 255,
    };
    let body = Bytes::new(alloc);
    let record = record_with(alloc, 0, Stored { entry: blank, body })?;
    let bytes = joined(alloc, &[&[1], &ONE, &[0], &ZERO, &[1], &BLANK, &[0, 0]])?;
    assert_eq!(rt; bytes.len(), 39);
    assert!(rt; are_bytes_of(alloc, &record, bytes.as_slice())?);
    let client = Addr {
        ip: 0x0A00_0009,
        port: 7001,
    };
    let read = Entry {
        term: 1,
        kind: Kind::Read,
        rid: Rid { id: 7, client },
        replier: 0,
    };
    let body = Bytes::from_vec([0x47, 0, 1, 0x61].to_vec(alloc)?);
    let record = record_with(alloc, 1, Stored { entry: read, body })?;
    let bytes = joined(alloc, &[&[1], &ONE, &[0], &ONE, &[1], &READ])?;
    assert!(rt; are_bytes_of(alloc, &record, bytes.as_slice())?);
    Ok(())
}

#[test]
fn bytes_of_no_record_are_refused(rt: HostRuntime) -> Result<(), Fail> {
    let alloc = rt.alloc();
    let table: [(&[&[u8]], RecordFault); 13] = [
        (&[], RecordFault::Short),
        (&[&[2]], RecordFault::Version),
        (&[&[0], &ZERO], RecordFault::Version),
        (&[&[1]], RecordFault::Short),
        (&[&[1], &ZERO], RecordFault::Range),
        (&[&[1], &ONE, &[7]], RecordFault::Range),
        (&[&[1], &ONE, &[0xFF], &ZERO, &[65]], RecordFault::Range),
        (&[&[1], &ONE, &[0xFF], &ZERO, &[0, 0]], RecordFault::Extra),
        (
            &[&[1], &ONE, &[0], &ZERO, &[1], &BLANK, &[0, 1]],
            RecordFault::Range,
        ),
        (
            &[&[1], &ONE, &[0], &ZERO, &[1], &BLANK, &[0, 0, 0]],
            RecordFault::Extra,
        ),
        (
            &[&[1], &ONE, &[0], &ZERO, &[2], &BLANK, &[0, 0]],
            RecordFault::Short,
        ),
        (
            &[&[1], &ONE, &[0], &ZERO, &[1], &READ[..18], &[0xF0, 1]],
            RecordFault::Range,
        ),
        (
            &[&[1], &ONE, &[0], &ZERO, &[1], &READ[..18], &[0xF0, 0]],
            RecordFault::Short,
        ),
    ];
    for (parts, fault) in table {
        let bytes = joined(alloc, parts)?;
        assert_eq!(rt; read_record(alloc, bytes.as_slice()), Err(fault));
    }
    Ok(())
}

#[test]
fn a_record_has_64_entries_with_the_longest_bodies(rt: HostRuntime) -> Result<(), Fail> {
    let alloc = rt.alloc();
    let body = vec![in alloc; 0x47; 61_440]?;
    let mut bytes = joined(alloc, &[&[1], &ONE, &[0], &ZERO, &[64]])?;
    for _ in 0..64 {
        bytes.extend_from_slice(&READ[..18])?;
        bytes.extend_from_slice(&[0xF0, 0])?;
        bytes.extend_from_slice(body.as_slice())?;
    }
    assert_eq!(rt; bytes.len(), 3_933_459);
    let record = read_record(alloc, bytes.as_slice())?;
    assert!(rt; are_bytes_of(alloc, &record, bytes.as_slice())?);
    Ok(())
}

#[test]
fn a_fault_is_told_in_words(rt: HostRuntime) -> Result<(), Fail> {
    let text = format!(in rt.alloc(); "{}", RecordFault::Version)?;
    assert_eq!(rt; text.as_str(), "no such version of a record");
    Ok(())
}
