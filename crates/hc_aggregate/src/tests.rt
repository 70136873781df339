//! The conversation of a leader, two followers and their aggregator.

use crate::Aggregator;
use r2_base::{Addr, Addrs, Bytes, Datagram, Datagrams, Event, NoMemory};
use std::alloc::Global;
use std::test::Fail;

const AGGREGATOR: Addr = Addr {
    ip: 0x0A00_0064,
    port: 9100,
};

const MEMBERS: [Addr; 3] = [
    Addr {
        ip: 0x0A00_0001,
        port: 9000,
    },
    Addr {
        ip: 0x0A00_0002,
        port: 9000,
    },
    Addr {
        ip: 0x0A00_0003,
        port: 9000,
    },
];

/// An Order of term 3 by member 0, whose first own entry is at index 3, after the entry at index 1: a Write of term 1, and a Blank.
const FIRST_ORDER: &[u8] = b"\x52\x08\x62\xC0\0\0\0\x01\
    \x03\0\0\0\0\0\0\0\x03\0\0\0\0\0\0\0\0\x01\0\0\0\0\0\0\0\x01\0\0\0\0\0\0\0\x03\0\0\0\0\0\0\0\x01\x01\x02\
    \0\0\0\0\0\0\0\x01\x01\x0A\0\0\x09\x1B\x59\0\x07\x01\
    \0\0\0\0\0\0\0\x03\0\0\0\0\0\0\0\0\0\xFF";

/// The next one, after the entry at index 3: a Write of term 3.
const SECOND_ORDER: &[u8] = b"\x52\x08\x62\xC0\0\0\0\x01\
    \x03\0\0\0\0\0\0\0\x03\0\0\0\0\0\0\0\0\x03\0\0\0\0\0\0\0\x03\0\0\0\0\0\0\0\x03\0\0\0\0\0\0\0\x01\x01\x01\
    \0\0\0\0\0\0\0\x03\x01\x0A\0\0\x09\x1B\x59\0\x08\x01";

/// In term 3 member 1 has the leader's log up to index 2, 3 and 4, and member 2 up to index 3.
const ACK_1_2: &[u8] = b"\x52\x08\x62\xC0\0\0\0\x01\
    \x04\0\0\0\0\0\0\0\x03\x01\0\0\0\0\0\0\0\x02\0\0\0\0\0\0\0\x01";

const ACK_1_3: &[u8] = b"\x52\x08\x62\xC0\0\0\0\x01\
    \x04\0\0\0\0\0\0\0\x03\x01\0\0\0\0\0\0\0\x03\0\0\0\0\0\0\0\x01";

const ACK_1_4: &[u8] = b"\x52\x08\x62\xC0\0\0\0\x01\
    \x04\0\0\0\0\0\0\0\x03\x01\0\0\0\0\0\0\0\x04\0\0\0\0\0\0\0\x01";

const ACK_2_3: &[u8] = b"\x52\x08\x62\xC0\0\0\0\x01\
    \x04\0\0\0\0\0\0\0\x03\x02\0\0\0\0\0\0\0\x03\0\0\0\0\0\0\0\x01";

/// In term 2 member 1 had that leader's log up to index 3.
const OLD_ACK: &[u8] = b"\x52\x08\x62\xC0\0\0\0\x01\
    \x04\0\0\0\0\0\0\0\x02\x01\0\0\0\0\0\0\0\x03\0\0\0\0\0\0\0\x01";

/// Index 3 of term 3 is committed, and index 4.
const COMMIT_3: &[u8] = b"\x52\x08\x62\xC0\0\0\0\x01\
    \x06\0\0\0\0\0\0\0\x03\0\0\0\0\0\0\0\x03";

const COMMIT_4: &[u8] = b"\x52\x08\x62\xC0\0\0\0\x01\
    \x06\0\0\0\0\0\0\0\x03\0\0\0\0\0\0\0\x04";

fn aggregator(alloc: Global) -> Result<Aggregator, NoMemory> {
    let members = Addrs::from_vec(Vec::from_slice(alloc, &MEMBERS)?);
    Aggregator::new(alloc, AGGREGATOR, members)
}

fn datagram(alloc: Global, from: Addr, to: Addr, bytes: &[u8]) -> Result<Datagram, NoMemory> {
    Ok(Datagram {
        from,
        to,
        bytes: Bytes::from_vec(bytes.to_vec(alloc)?),
    })
}

/// What an aggregator sends when these bytes come from an address.
fn sent(
    alloc: Global,
    aggregator: &mut Aggregator,
    from: Addr,
    bytes: &[u8],
) -> Result<Datagrams, NoMemory> {
    let datagram = datagram(alloc, from, AGGREGATOR, bytes)?;
    aggregator.turn(&Event::Datagram(datagram))
}

/// These bytes from the aggregator to each of these members.
fn to_each(alloc: Global, members: &[Addr], bytes: &[u8]) -> Result<Datagrams, NoMemory> {
    let mut sends = Datagrams::new(alloc);
    'members: for member in members {
        sends.push(datagram(alloc, AGGREGATOR, *member, bytes)?)?;
    }
    Ok(sends)
}

#[test]
fn a_majority_commits_from_the_leaders_own_entry_on(rt: HostRuntime) -> Result<(), Fail> {
    let alloc = rt.alloc();
    let mut aggregator = aggregator(alloc)?;
    let sends = sent(alloc, &mut aggregator, MEMBERS[0], FIRST_ORDER)?;
    assert_eq!(rt; sends, to_each(alloc, &MEMBERS[1..], FIRST_ORDER)?);
    let sends = sent(alloc, &mut aggregator, MEMBERS[1], ACK_1_2)?;
    assert!(rt; sends.is_empty());
    assert_eq!(rt; aggregator.committed(), 0);
    let sends = sent(alloc, &mut aggregator, MEMBERS[1], ACK_1_3)?;
    assert_eq!(rt; sends, to_each(alloc, &MEMBERS, COMMIT_3)?);
    assert_eq!(rt; aggregator.committed(), 3);
    Ok(())
}

#[test]
fn what_is_forgotten_is_not_counted(rt: HostRuntime) -> Result<(), Fail> {
    let alloc = rt.alloc();
    let mut aggregator = aggregator(alloc)?;
    sent(alloc, &mut aggregator, MEMBERS[0], FIRST_ORDER)?;
    sent(alloc, &mut aggregator, MEMBERS[1], ACK_1_3)?;
    aggregator.forget();
    let sends = sent(alloc, &mut aggregator, MEMBERS[2], ACK_2_3)?;
    assert!(rt; sends.is_empty());
    let sends = sent(alloc, &mut aggregator, MEMBERS[0], SECOND_ORDER)?;
    assert_eq!(rt; sends, to_each(alloc, &MEMBERS[1..], SECOND_ORDER)?);
    let sends = sent(alloc, &mut aggregator, MEMBERS[1], ACK_1_4)?;
    assert_eq!(rt; sends, to_each(alloc, &MEMBERS, COMMIT_4)?);
    Ok(())
}

#[test]
fn what_others_say_is_not_counted(rt: HostRuntime) -> Result<(), Fail> {
    let alloc = rt.alloc();
    let mut aggregator = aggregator(alloc)?;
    let sends = sent(alloc, &mut aggregator, MEMBERS[1], FIRST_ORDER)?;
    assert!(rt; sends.is_empty());
    sent(alloc, &mut aggregator, MEMBERS[0], FIRST_ORDER)?;
    let sends = sent(alloc, &mut aggregator, MEMBERS[2], ACK_1_3)?;
    assert!(rt; sends.is_empty());
    let sends = sent(alloc, &mut aggregator, MEMBERS[1], OLD_ACK)?;
    assert!(rt; sends.is_empty());
    assert!(rt; aggregator.turn(&Event::Quiet)?.is_empty());
    Ok(())
}
