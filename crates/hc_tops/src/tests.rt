use crate::in_memory::{Ended, Given, clock, link, ran, sink, source, unfailing, words};
use crate::{Status, run_plain};
use r2_base::{Addr, Bytes, Datagram, NoMemory};
use r2_link::Item;
use std::alloc::Global;
use std::sync::Wait;
use std::test::Fail;
use std::thread::Threads;

/// A leader by itself, and a request for an absent key.
const SCRIPT: &[u8] = b"tick\nin 10.0.0.9:7001 520803C00007000147000161\n";

const FIRST_RECORD: &[u8] =
    b"rec 010000000000000001000000000000000000010000000000000001000000000000000000FF0000\n";

const BOTH_RECORDS: &[u8] =
    b"rec 010000000000000001000000000000000000010000000000000001000000000000000000FF0000\n\
rec 010000000000000001000000000000000001010000000000000001020A0000091B59000700000447000161\n";

const PRINTED: &[u8] =
    b"rec 010000000000000001000000000000000000010000000000000001000000000000000000FF0000\n\
rec 010000000000000001000000000000000001010000000000000001020A0000091B59000700000447000161\n\
out 10.0.0.9:7001 520813C000070001000000000000000201\n";

const WORDS: [&str; 7] = [
    "replay",
    "--members",
    "10.0.0.1:9000",
    "--me",
    "0",
    "--election",
    "1",
];

/// Whether a run ended so, and printed and wrote to its errors just these.
fn is_right(ended: &Ended, status: Status, printed: &[u8], errors: &[u8]) -> bool {
    ended.status == status
        && ended.printed.as_slice() == printed
        && ended.errors.as_slice() == errors
}

#[test]
fn a_byte_a_call_changes_nothing(rt: HostRuntime) -> Result<(), Fail> {
    let ended = ran(&rt, unfailing(&WORDS, SCRIPT))?;
    assert!(rt; is_right(&ended, Status::Done, PRINTED, b""));
    Ok(())
}

#[test]
fn a_failing_source_or_sink_ends_the_run(rt: HostRuntime) -> Result<(), Fail> {
    let at_the_end = Given {
        source_fails: SCRIPT.len() as u64 + 1,
        ..unfailing(&WORDS, SCRIPT)
    };
    let ended = ran(&rt, at_the_end)?;
    assert!(rt;
        is_right(
            &ended,
            Status::SourceFault,
            BOTH_RECORDS,
            b"r2p2_suite: the source failed\n"
        )
    );
    let after_a_record = Given {
        sink_fails: FIRST_RECORD.len() as u64 + 1,
        ..unfailing(&WORDS, SCRIPT)
    };
    let ended = ran(&rt, after_a_record)?;
    assert!(rt;
        is_right(
            &ended,
            Status::SinkFault,
            FIRST_RECORD,
            b"r2p2_suite: the sink failed\n"
        )
    );
    Ok(())
}

#[test]
fn failing_errors_change_no_status(rt: HostRuntime) -> Result<(), Fail> {
    let all_fail = Given {
        source_fails: 1,
        sink_fails: 1,
        errors_fail: 1,
        ..unfailing(&[], SCRIPT)
    };
    let ended = ran(&rt, all_fail)?;
    assert!(rt; is_right(&ended, Status::BadWords, b"", b""));
    Ok(())
}

#[test]
fn a_bound_of_1_lets_one_request_wait_for_its_reply(rt: HostRuntime) -> Result<(), Fail> {
    let script = b"in 10.0.0.9:7001 520803C00001000147000161\n\
in 10.0.0.9:7001 520803C00002000147000161\n\
in 10.0.0.9:7001 520803C00003000147000161\n\
tick\nquiet\nquiet\nquiet\n";
    let want: &[u8] =
        b"rec 010000000000000001000000000000000000020000000000000001000000000000000000FF00000000000000000001020A0000091B59000100000447000161\n\
rec 010000000000000001000000000000000002010000000000000001020A0000091B59000200000447000161\n\
out 10.0.0.9:7001 520813C000010001000000000000000201\n\
rec 010000000000000001000000000000000003010000000000000001020A0000091B59000300000447000161\n\
out 10.0.0.9:7001 520813C000020001000000000000000301\n\
out 10.0.0.9:7001 520813C000030001000000000000000401\n";
    let words = [
        "replay",
        "--members=10.0.0.1:9000",
        "--me=0",
        "--election=1",
        "--bound=1",
    ];
    let ended = ran(&rt, unfailing(&words, script))?;
    assert!(rt; is_right(&ended, Status::Done, want, b""));
    Ok(())
}

const FAILED: &[u8] = b"r2p2_suite: the link failed\n";

/// Whether a run of these words over a link that brings nothing prints this, where no call fails, and where one of its first two
/// fails ends by that.
fn needs_two_calls<R: Threads + Wait + Sync + AllocGlobal>(
    rt: &R,
    words: &[&str],
    printed: &[u8],
) -> Result<bool, Fail> {
    let calm = ran(rt, unfailing(words, b""))?;
    let first = ran(
        rt,
        Given {
            link_fails: 1,
            ..unfailing(words, b"")
        },
    )?;
    let second = ran(
        rt,
        Given {
            link_fails: 2,
            ..unfailing(words, b"")
        },
    )?;
    Ok(
        is_right(&calm, Status::Done, printed, b"")
            && is_right(&first, Status::LinkFault, b"", FAILED)
            && is_right(&second, Status::LinkFault, b"", FAILED),
    )
}

#[test]
fn a_server_binds_its_link_and_then_receives(rt: HostRuntime) -> Result<(), Fail> {
    let server = ["server", "--listen", "10.0.0.1:9000"];
    assert!(rt; needs_two_calls(&rt, &server, b"")?);
    Ok(())
}

#[test]
fn an_aggregator_binds_its_link_and_then_receives(rt: HostRuntime) -> Result<(), Fail> {
    let aggregator = [
        "aggregator",
        "--listen=10.0.0.8:9100",
        "--members=10.0.0.1:9000",
    ];
    assert!(rt; needs_two_calls(&rt, &aggregator, b"")?);
    Ok(())
}

#[test]
fn a_replica_selects_its_file_before_it_binds_its_link(rt: HostRuntime) -> Result<(), Fail> {
    let replica = [
        "replica",
        "--members=10.0.0.1:9000",
        "--me=0",
        "--journal=kept",
    ];
    let first = Given {
        link_fails: 1,
        ..unfailing(&replica, b"")
    };
    let ended = ran(&rt, first)?;
    assert!(rt;
        is_right(
            &ended,
            Status::DiskFault,
            b"",
            b"r2p2_suite: the disk failed\n"
        )
    );
    Ok(())
}

#[test]
fn a_router_binds_its_link_and_then_makes_a_twin(rt: HostRuntime) -> Result<(), Fail> {
    let router = [
        "router",
        "--listen=10.0.0.8:9050",
        "--servers=10.0.0.1:9000",
    ];
    let totals = b"turns 0 accepted 0 forwarded 0 answered 0\n";
    assert!(rt; needs_two_calls(&rt, &router, totals)?);
    Ok(())
}

/// Each command that has ticks and uses a link, with a tick of 30 ms.
const TICKING: [&[&str]; 3] = [
    &["server", "--listen=10.0.0.9:7001", "--tick-ms=30"],
    &[
        "router",
        "--listen=10.0.0.9:7001",
        "--servers=10.0.0.1:9000",
        "--tick-ms=30",
    ],
    &[
        "client",
        "--listen=10.0.0.9:7001",
        "--to=10.0.0.1:9000",
        "--policy=fixed",
        "--tick-ms=30",
        "--turns=2",
    ],
];

#[test]
fn a_receive_waits_for_a_tick(rt: HostRuntime) -> Result<(), Fail> {
    for line in TICKING {
        let ended = ran(&rt, unfailing(line, b"get a\n"))?;
        assert_eq!(rt; ended.waited, Some(30));
    }
    Ok(())
}

const SERVER: Addr = Addr {
    ip: 0x0A00_0001,
    port: 9000,
};

const CLIENT: Addr = Addr {
    ip: 0x0A00_0009,
    port: 7001,
};

/// The reply to a client's first request: the key is absent.
const REPLY: &[u8] = b"\x52\x08\x10\xC0\x00\x00\x00\x01\x00\x00\x00\x00\x00\x00\x00\x01\x01";

/// The datagram that comes to the client from the server.
fn reply(alloc: Global) -> Result<Item, NoMemory> {
    Ok(Item::Datagram(Datagram {
        from: SERVER,
        to: CLIENT,
        bytes: Bytes::from_vec(Vec::from_slice(alloc, REPLY)?),
    }))
}

#[test]
fn a_client_asks_for_a_key_that_is_absent(rt: HostRuntime) -> Result<(), Fail> {
    let alloc = rt.alloc();
    let client = words(
        alloc,
        &[
            "client",
            "--listen=10.0.0.9:7001",
            "--to=10.0.0.1:9000",
            "--policy=fixed",
        ],
    )?;
    let mut given = source(alloc, b"get a\n", 0)?;
    let mut printed = sink(alloc, 0)?;
    let mut errors = sink(alloc, 0)?;
    let mut items = Vec::new(alloc);
    items.push(reply(alloc)?)?;
    let mut lane = link(alloc, items, 0)?;
    let mut moments = clock(alloc)?;
    let status = run_plain(
        alloc,
        client.as_slice(),
        &mut given,
        &mut printed,
        &mut errors,
        &mut lane,
        &mut moments,
    );
    assert!(rt; status == Status::Done);
    assert!(rt; printed.written() == b"reply 1 1 -\n".as_slice());
    Ok(())
}
