use super::*;
use hc_message::Msg;
use r2_base::{Addr, Bytes};
use std::test::Fail;

const AGGREGATOR: Addr = Addr {
    ip: 0x0A00_0064,
    port: 9100,
};

const MEMBER: Addr = Addr {
    ip: 0x0A00_0001,
    port: 9000,
};

/// The word of the aggregator that index 3 of term 3 is committed.
const COMMIT: &[u8] = b"\x52\x08\x62\xC0\0\0\0\x01\x06\0\0\0\0\0\0\0\x03\0\0\0\0\0\0\0\x03";

#[test]
fn a_message_goes_and_comes(rt: HostRuntime) -> Result<(), Fail> {
    let alloc = rt.alloc();
    let message = Msg::AggCommit { term: 3, index: 3 };
    let datagram = message_datagram(alloc, AGGREGATOR, MEMBER, &message)?;
    assert_eq!(rt; datagram.bytes, Bytes::from_vec(COMMIT.to_vec(alloc)?));
    assert_eq!(rt; message_in(alloc, COMMIT)?, Some(message));
    Ok(())
}

#[test]
fn other_bytes_carry_no_message(rt: HostRuntime) -> Result<(), Fail> {
    let table: [&[u8]; 5] = [
        b"",
        &COMMIT[..8],
        &COMMIT[..24],
        b"\x52\x08\x03\xC0\0\x07\0\x01G\0\x01a",
        b"\x53\x08\x62\xC0\0\0\0\x01\x06\0\0\0\0\0\0\0\x03\0\0\0\0\0\0\0\x03",
    ];
    for bytes in table {
        assert_eq!(rt; message_in(rt.alloc(), bytes)?, None);
    }
    Ok(())
}
