use super::*;
use r2_base::{Addr, Bytes, Entry, Kind, Metas, Rid};
use std::alloc::{AllocError, Global};
use std::test::Fail;

/// The greatest term and index, and the number after it.
const GREATEST: [u8; 8] = [0x40, 0, 0, 0, 0, 0, 0, 0];

const TOO_GREAT: [u8; 8] = [0x40, 0, 0, 0, 0, 0, 0, 1];

const ONE: [u8; 8] = [0, 0, 0, 0, 0, 0, 0, 1];

const ZERO: [u8; 8] = [0; 8];

fn joined(alloc: Global, parts: &[&[u8]]) -> Result<Vec<u8>, AllocError> {
    let mut out = Vec::new(alloc);
    for part in parts.iter() {
        out.extend_from_slice(part)?;
    }
    Ok(out)
}

/// A blank entry's bytes, and those of a write by 10.0.0.9:7001 that member 6 answers.
const BLANK: [u8; 18] = [0, 0, 0, 0, 0, 0, 0, 1, 0, 0, 0, 0, 0, 0, 0, 0, 0, 0xFF];

const WRITE: [u8; 18] = [0, 0, 0, 0, 0, 0, 0, 3, 1, 10, 0, 0, 9, 0x1B, 0x59, 0, 7, 6];

/// An Order of term 3 by member 0, with a blank entry of term 1 and a write of term 3: all but its count and entries.
const ORDER: [u8; 43] = [
    3, 0, 0, 0, 0, 0, 0, 0, 3, 0, 0, 0, 0, 0, 0, 0, 0, 1, 0, 0, 0, 0, 0, 0, 0, 1, 0, 0, 0, 0, 0, 0,
    0, 3, 0, 0, 0, 0, 0, 0, 0, 1, 1,
];

fn order(alloc: Global) -> Result<Msg, AllocError> {
    let client = Addr {
        ip: 0x0A00_0009,
        port: 7001,
    };
    let blank = Entry {
        term: 1,
        kind: Kind::Blank,
        rid: Rid {
            id: 0,
            client: Addr { ip: 0, port: 0 },
        },
        replier: 255,
    };
    let write = Entry {
        term: 3,
        kind: Kind::Write,
        rid: Rid { id: 7, client },
        replier: 6,
    };
    let metas = Metas::from_vec([blank, write].to_vec(alloc)?);
    Ok(Msg::Order {
        term: 3,
        leader: 0,
        prev_index: 1,
        prev_term: 1,
        term_start: 3,
        commit: 1,
        via: true,
        metas,
    })
}

#[test]
fn bytes_of_no_message_are_refused(rt: HostRuntime) -> Result<(), Fail> {
    let alloc = rt.alloc();
    let table: [(&[&[u8]], MsgFault); 12] = [
        (&[], MsgFault::Short),
        (&[&[0]], MsgFault::Tag),
        (&[&[9]], MsgFault::Tag),
        (&[&[6], &ZERO], MsgFault::Range),
        (&[&[6], &ONE, &TOO_GREAT], MsgFault::Range),
        (&[&[6], &ONE, &ONE, &[0]], MsgFault::Extra),
        (&[&[7, 7]], MsgFault::Range),
        (&[&[8, 3]], MsgFault::Range),
        (&[&ORDER, &[65]], MsgFault::Range),
        (&[&ORDER, &[1], &BLANK[..16], &[1, 0xFF]], MsgFault::Range),
        (&[&ORDER, &[2], &WRITE, &BLANK], MsgFault::Range),
        (&[&ORDER, &[2], &BLANK, &WRITE[..17], &[7]], MsgFault::Range),
    ];
    for (parts, fault) in table {
        let bytes = joined(alloc, parts)?;
        assert_eq!(rt; read(alloc, bytes.as_slice()), Err(fault));
    }
    Ok(())
}

/// Whether the bytes read as the message, and the message is written as the bytes.
fn are_bytes_of(alloc: Global, message: &Msg, bytes: &[u8]) -> Result<bool, MsgFault> {
    let found = read(alloc, bytes)?;
    let written = write(alloc, &found).map_err(|_| MsgFault::Memory)?;
    Ok(found == *message && written.as_slice() == bytes)
}

#[test]
fn each_message_has_its_bytes(rt: HostRuntime) -> Result<(), Fail> {
    let alloc = rt.alloc();
    let bytes = joined(alloc, &[&[1], &ONE, &[0], &ZERO, &ZERO])?;
    let message = Msg::VoteReq {
        term: 1,
        member: 0,
        last_index: 0,
        last_term: 0,
    };
    assert!(rt; are_bytes_of(alloc, &message, bytes.as_slice())?);
    let bytes = joined(alloc, &[&[2], &GREATEST, &[1, 1]])?;
    let message = Msg::Vote {
        term: 1 << 62,
        member: 1,
        granted: true,
    };
    assert!(rt; are_bytes_of(alloc, &message, bytes.as_slice())?);
    let bytes = joined(alloc, &[&[4], &ONE, &[1], &ONE, &ZERO])?;
    let message = Msg::Ack {
        term: 1,
        member: 1,
        index: 1,
        applied: 0,
    };
    assert!(rt; are_bytes_of(alloc, &message, bytes.as_slice())?);
    let bytes = joined(alloc, &[&[5], &ONE, &[6], &GREATEST])?;
    let message = Msg::Nack {
        term: 1,
        member: 6,
        hint: 1 << 62,
    };
    assert!(rt; are_bytes_of(alloc, &message, bytes.as_slice())?);
    let bytes = joined(alloc, &[&[6], &ONE, &ZERO])?;
    let message = Msg::AggCommit { term: 1, index: 0 };
    assert!(rt; are_bytes_of(alloc, &message, bytes.as_slice())?);
    assert!(rt; are_bytes_of(alloc, &Msg::RecoverAsk { member: 1 }, &[7, 1])?);
    let body = Bytes::from_vec([0x50, 0, 1, 0x61].to_vec(alloc)?);
    let message = Msg::RecoverBody {
        kind: Kind::Write,
        body,
    };
    assert!(rt; are_bytes_of(alloc, &message, &[8, 1, 0x50, 0, 1, 0x61])?);
    Ok(())
}

#[test]
fn an_order_has_its_bytes(rt: HostRuntime) -> Result<(), Fail> {
    let alloc = rt.alloc();
    let bytes = joined(alloc, &[&ORDER, &[2], &BLANK, &WRITE])?;
    assert_eq!(rt; bytes.len(), 80);
    assert!(rt; are_bytes_of(alloc, &order(alloc)?, bytes.as_slice())?);
    Ok(())
}

#[test]
fn an_order_has_64_entries_in_1196_bytes(rt: HostRuntime) -> Result<(), Fail> {
    let alloc = rt.alloc();
    let mut bytes = joined(alloc, &[&ORDER, &[64]])?;
    for _ in 0..64 {
        bytes.extend_from_slice(&BLANK)?;
    }
    assert_eq!(rt; bytes.len(), 1_196);
    let message = read(alloc, bytes.as_slice())?;
    assert!(rt; are_bytes_of(alloc, &message, bytes.as_slice())?);
    Ok(())
}

#[test]
fn a_fault_is_told_in_words(rt: HostRuntime) -> Result<(), Fail> {
    let alloc = rt.alloc();
    let text = format!(in alloc; "{}, {}", MsgFault::Extra, FieldFault::Range)?;
    assert_eq!(rt;
        text.as_str(),
        "bytes stand behind the message, a field is out of its range"
    );
    Ok(())
}
