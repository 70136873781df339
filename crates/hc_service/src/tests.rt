use super::*;
use hc_log::{Durable, Entries, FollowFault, Log, Record, Stored};
use r2_base::{Addr, Bytes, Entry, Kind, NoMemory, Rid};
use std::alloc::Global;
use std::test::Fail;

/// Sets the key a to 1, and to 2.
const PUT_1: [u8; 5] = [b'P', 0, 1, b'a', 1];

const PUT_2: [u8; 5] = [b'P', 0, 1, b'a', 2];

const GET: [u8; 4] = [b'G', 0, 1, b'a'];

fn rid(id: u16) -> Rid {
    let ip = if id == 0 { 0 } else { 0x0A00_0009 };
    let port = if id == 0 { 0 } else { 7_001 };
    Rid {
        id,
        client: Addr { ip, port },
    }
}

/// An entry of term 1.
fn stored(
    alloc: Global,
    kind: Kind,
    id: u16,
    replier: u8,
    body: &[u8],
) -> Result<Stored, NoMemory> {
    Ok(Stored {
        entry: Entry {
            term: 1,
            kind,
            rid: rid(id),
            replier,
        },
        body: Bytes::from_vec(body.to_vec(alloc)?),
    })
}

/// A blank entry, the key a set to 1 for member 0, read for member 2, and set to 2 for member 1.
fn four_entries(alloc: Global) -> Result<Log, FollowFault> {
    let mut entries = Entries::new(alloc);
    entries.push(stored(alloc, Kind::Blank, 0, 255, &[])?)?;
    entries.push(stored(alloc, Kind::Write, 1, 0, &PUT_1)?)?;
    entries.push(stored(alloc, Kind::Read, 2, 2, &GET)?)?;
    entries.push(stored(alloc, Kind::Write, 3, 1, &PUT_2)?)?;
    let mut durable = Durable::begin(alloc);
    durable.follow(&Record {
        term: 1,
        vote: Some(0),
        keep: 0,
        entries,
    })?;
    let (_, _, log) = durable.into_parts();
    Ok(log)
}

/// Whether a member gives just this answer to the four entries.
fn answers_one(alloc: Global, me: u8, index: u64, payload: &[u8]) -> Result<bool, Fail> {
    let log = four_entries(alloc)?;
    if me > 6 {
        return Ok(false);
    }
    if log.last() != 4 {
        return Ok(false);
    }
    let mut service = Kv::new(alloc);
    let answers = run_batch(alloc, &mut service, &log, me, 1, 4)?;
    let first = answers.as_slice().first().ok_or("no answer")?;
    let told = first.index == index && first.payload.as_slice() == payload;
    Ok(told && answers.len() == 1 && service.pairs() == 1)
}

#[test]
fn each_member_answers_its_own(rt: HostRuntime) -> Result<(), Fail> {
    let alloc = rt.alloc();
    assert!(rt; answers_one(alloc, 2, 3, &[0, 0, 0, 0, 0, 0, 0, 3, 0, 1])?);
    assert!(rt; answers_one(alloc, 0, 2, &[0, 0, 0, 0, 0, 0, 0, 2, 0])?);
    assert!(rt; answers_one(alloc, 1, 4, &[0, 0, 0, 0, 0, 0, 0, 4, 0])?);
    Ok(())
}
