//! Examples: what lines and words mean, and what is printed.

use crate::{Meant, Name, Policy, TextFault, client_line, end_text, meaning, policy_of};
use hc_replier::Bounds;
use r2_base::{Addr, Addrs, Bytes, NoMemory};
use r2_client::CallEnd;
use std::alloc::{AllocError, Global};
use std::test::Fail;

#[test]
fn lines_of_a_client(rt: HostRuntime) -> Result<(), Fail> {
    let alloc = rt.alloc();
    let table: [(&[u8], bool, &[u8]); 13] = [
        (b"get a", true, b"\x47\x00\x01\x61"),
        (b"get x:", true, b"\x47\x00\x00"),
        (b"put a x:", false, b"\x50\x00\x01\x61"),
        (b"put a 1", false, b"\x50\x00\x01\x61\x31"),
        (b"put ~ !x:", false, b"\x50\x00\x01\x7e\x21\x78\x3a"),
        (b"put x:610A x:00fF", false, b"\x50\x00\x02\x61\x0a\x00\xff"),
        (b"del b", false, b"\x44\x00\x01\x62"),
        (
            b"cas a x:01 x:02",
            false,
            b"\x43\x00\x01\x61\x00\x01\x01\x02",
        ),
        (b"scan x: 10", true, b"\x53\x00\x00\x00\x0a"),
        (b"scan a 65535", true, b"\x53\x00\x01\x61\xff\xff"),
        (b"count", true, b"\x4e"),
        (b"raw r x:4E", true, b"\x4e"),
        (b"raw w N", false, b"\x4e"),
    ];
    for (line, read, body) in table {
        match client_line(alloc, line) {
            Ok(call) => {
                assert!(rt; call.read == read);
                assert!(rt; call.body.as_slice() == body);
            }
            Err(_) => assert!(rt; false),
        }
    }
    Ok(())
}

#[test]
fn other_lines_of_a_client(rt: HostRuntime) {
    let table: [&[u8]; 20] = [
        b"",
        b"get",
        b"get ",
        b"get a ",
        b"get  a",
        b" get a",
        b"get a b",
        b"get x:0",
        b"get x:0g",
        b"get \x7f",
        b"GET a",
        b"put a",
        b"put a ",
        b"cas a b",
        b"scan a 65536",
        b"scan a 01",
        b"scan a x:31",
        b"count ",
        b"raw x a",
        b"raw r",
    ];
    for line in table {
        assert!(rt; client_line(rt.alloc(), line) == Err(TextFault::Outside));
    }
}

fn replied(alloc: Global, payload: &[u8]) -> Result<CallEnd, AllocError> {
    Ok(CallEnd::Reply(Bytes::from_vec(payload.to_vec(alloc)?)))
}

#[test]
fn ends_of_calls(rt: HostRuntime) -> Result<(), Fail> {
    let alloc = rt.alloc();
    let table: [(&[u8], &[u8]); 6] = [
        (b"\0\0\0\0\0\0\0\x01\0", b"reply 1 0 -\n"),
        (b"\0\0\0\0\0\0\0\x0a\0\0", b"reply 10 0 00\n"),
        (b"\0\0\0\0\0\0\x01\0\x02\xab\xcd", b"reply 256 2 ABCD\n"),
        (
            b"\xff\xff\xff\xff\xff\xff\xff\xff\xff",
            b"reply 18446744073709551615 255 -\n",
        ),
        (b"\0\0\0\0\0\0\0\x01", b"short 0000000000000001\n"),
        (b"", b"short -\n"),
    ];
    for (payload, line) in table {
        let end = replied(alloc, payload)?;
        assert!(rt; end_text(alloc, &end)?.as_slice() == line);
    }
    assert!(rt; end_text(alloc, &CallEnd::Rejected)?.as_slice() == b"rejected\n".as_slice());
    assert!(rt; end_text(alloc, &CallEnd::TimedOut)?.as_slice() == b"timedout\n".as_slice());
    Ok(())
}

#[test]
fn policies_of_calls(rt: HostRuntime) {
    let table = [
        (Policy::Fixed, 0, 0),
        (Policy::Jbsq, 1, 1),
        (Policy::Replicated, 2, 3),
    ];
    for (policy, write, read) in table {
        assert!(rt; policy_of(policy, false) == write);
        assert!(rt; policy_of(policy, true) == read);
    }
}

const SERVER: Addr = Addr {
    ip: 0x0a00_0001,
    port: 9000,
};

const CLIENT: Addr = Addr {
    ip: 0x0a00_0009,
    port: 7001,
};

const OTHER: Addr = Addr {
    ip: 0x0a00_0001,
    port: 9001,
};

/// What the words of the line mean, with one space between words.
fn meant(alloc: Global, line: &str) -> Result<Result<Meant, TextFault>, NoMemory> {
    let mut words = Vec::new(alloc);
    for word in line.split(' ') {
        words.push(String::from_str(alloc, word)?)?;
    }
    Ok(meaning(alloc, words.as_slice()))
}

fn addrs(alloc: Global, items: &[Addr]) -> Result<Addrs, AllocError> {
    Ok(Addrs::from_vec(items.to_vec(alloc)?))
}

#[test]
fn words_of_a_router(rt: HostRuntime) -> Result<(), Fail> {
    let alloc = rt.alloc();
    let plain = Meant::Router {
        listen: CLIENT,
        servers: addrs(alloc, &[SERVER])?,
        n: 2,
        workers: 1,
        tick_ms: 100,
        turns: 72_057_594_037_927_936,
    };
    let line = "router --listen 10.0.0.9:7001 --servers 10.0.0.1:9000";
    assert!(rt; meant(alloc, line)? == Ok(plain));
    let full = Meant::Router {
        listen: SERVER,
        servers: addrs(alloc, &[CLIENT, SERVER])?,
        n: 16,
        workers: 16,
        tick_ms: 1_000,
        turns: 1,
    };
    let line =
        "router --servers=10.0.0.9:7001,10.0.0.1:9000 --n 16 --workers=16 --turns 1 --tick-ms 1000 --listen=10.0.0.1:9000";
    assert!(rt; meant(alloc, line)? == Ok(full));
    Ok(())
}

#[test]
fn words_of_an_aggregator(rt: HostRuntime) -> Result<(), Fail> {
    let alloc = rt.alloc();
    let plain = Meant::Aggregator {
        listen: CLIENT,
        members: addrs(alloc, &[SERVER])?,
        turns: 72_057_594_037_927_936,
    };
    let line = "aggregator --listen 10.0.0.9:7001 --members 10.0.0.1:9000";
    assert!(rt; meant(alloc, line)? == Ok(plain));
    let full = Meant::Aggregator {
        listen: OTHER,
        members: addrs(alloc, &[CLIENT, SERVER])?,
        turns: 1,
    };
    let line = "aggregator --turns=1 --members=10.0.0.9:7001,10.0.0.1:9000 --listen=10.0.0.1:9001";
    assert!(rt; meant(alloc, line)? == Ok(full));
    Ok(())
}

#[test]
fn words_of_a_server(rt: HostRuntime) -> Result<(), Fail> {
    let alloc = rt.alloc();
    let plain = Meant::Server {
        listen: SERVER,
        router: None,
        tick_ms: 10,
        turns: 72_057_594_037_927_936,
    };
    assert!(rt; meant(alloc, "server --listen 10.0.0.1:9000")? == Ok(plain));
    let full = Meant::Server {
        listen: SERVER,
        router: Some(CLIENT),
        tick_ms: 1_000,
        turns: 1,
    };
    assert!(rt;
        meant(
            alloc,
            "server --turns=1 --tick-ms 1000 --router=10.0.0.9:7001 --listen=10.0.0.1:9000"
        )? == Ok(full)
    );
    Ok(())
}

#[test]
fn words_of_a_client(rt: HostRuntime) -> Result<(), Fail> {
    let alloc = rt.alloc();
    let plain = Meant::Client {
        listen: CLIENT,
        to: addrs(alloc, &[SERVER])?,
        policy: Policy::Fixed,
        wait: 1,
        tries: 2,
        tick_ms: 10,
        turns: 72_057_594_037_927_936,
    };
    let line = "client --listen 10.0.0.9:7001 --to 10.0.0.1:9000 --policy fixed --wait 1 --tries 2";
    assert!(rt; meant(alloc, line)? == Ok(plain));
    let full = Meant::Client {
        listen: CLIENT,
        to: addrs(alloc, &[SERVER, CLIENT])?,
        policy: Policy::Replicated,
        wait: 20,
        tries: 5,
        tick_ms: 10,
        turns: 7,
    };
    let line =
        "client --to 10.0.0.1:9000,10.0.0.9:7001 --policy replicated --listen 10.0.0.9:7001 --turns 7";
    assert!(rt; meant(alloc, line)? == Ok(full));
    Ok(())
}

fn bounds(alloc: Global, items: &[u16]) -> Result<Bounds, AllocError> {
    Ok(Bounds::from_vec(items.to_vec(alloc)?))
}

#[test]
fn words_of_a_replay(rt: HostRuntime) -> Result<(), Fail> {
    let alloc = rt.alloc();
    let alone = Meant::Replay {
        members: addrs(alloc, &[SERVER])?,
        me: 0,
        aggregator: None,
        bounds: bounds(alloc, &[64])?,
        election: 1,
    };
    assert!(rt; meant(alloc, "replay --members 10.0.0.1:9000 --me 0 --election 1")? == Ok(alone));
    let one_bound = Meant::Replay {
        members: addrs(alloc, &[SERVER, CLIENT])?,
        me: 1,
        aggregator: Some(OTHER),
        bounds: bounds(alloc, &[1_024, 1_024])?,
        election: 1_000,
    };
    let line =
        "replay --members 10.0.0.1:9000,10.0.0.9:7001 --me 1 --aggregator=10.0.0.1:9001 --bound 1024 --election 1000";
    assert!(rt; meant(alloc, line)? == Ok(one_bound));
    let a_bound_each = Meant::Replay {
        members: addrs(alloc, &[SERVER, CLIENT, OTHER])?,
        me: 2,
        aggregator: None,
        bounds: bounds(alloc, &[0, 1_024, 3])?,
        election: 10,
    };
    let line = "replay --members 10.0.0.1:9000,10.0.0.9:7001,10.0.0.1:9001 --me 2 --bound=0,1024,3";
    assert!(rt; meant(alloc, line)? == Ok(a_bound_each));
    Ok(())
}

#[test]
fn words_of_a_replica(rt: HostRuntime) -> Result<(), Fail> {
    let alloc = rt.alloc();
    let alone = Meant::Replica {
        members: addrs(alloc, &[SERVER])?,
        me: 0,
        journal: Name::new(String::from_str(alloc, "a")?),
        aggregator: None,
        bounds: bounds(alloc, &[64])?,
        election: 10,
        tick_ms: 10,
        turns: 72_057_594_037_927_936,
    };
    let line = "replica --members 10.0.0.1:9000 --me 0 --journal a";
    assert!(rt; meant(alloc, line)? == Ok(alone));
    let full = Meant::Replica {
        members: addrs(alloc, &[SERVER, CLIENT])?,
        me: 1,
        journal: Name::new(String::from_str(alloc, "/tmp/=-1")?),
        aggregator: Some(OTHER),
        bounds: bounds(alloc, &[0, 3])?,
        election: 1_000,
        tick_ms: 1,
        turns: 7,
    };
    let line =
        "replica --turns=7 --tick-ms 1 --members=10.0.0.1:9000,10.0.0.9:7001 --me 1 --aggregator=10.0.0.1:9001 --bound 0,3 --journal=/tmp/=-1 --election 1000";
    assert!(rt; meant(alloc, line)? == Ok(full));
    Ok(())
}

#[test]
fn words_of_a_simulation(rt: HostRuntime) -> Result<(), Fail> {
    let alloc = rt.alloc();
    let plain = Meant::Simulate {
        seed: 1,
        members: 3,
        requests: 100,
        loss: 0,
        repeat: 0,
        crash: 0,
        bounds: bounds(alloc, &[64, 64, 64])?,
        aggregator: false,
    };
    assert!(rt; meant(alloc, "simulate")? == Ok(plain));
    let full = Meant::Simulate {
        seed: 18_446_744_073_709_551_615,
        members: 2,
        requests: 60_000,
        loss: 90,
        repeat: 90,
        crash: 500,
        bounds: bounds(alloc, &[0, 1_024])?,
        aggregator: true,
    };
    let line =
        "simulate --aggregator --seed 18446744073709551615 --members=2 --requests 60000 --loss 90 --repeat 90 --crash=500 --bound 0,1024";
    assert!(rt; meant(alloc, line)? == Ok(full));
    Ok(())
}

#[test]
fn other_words(rt: HostRuntime) -> Result<(), Fail> {
    let table = [
        "fly",
        "",
        "serve --listen 10.0.0.1:9000",
        "replay --members 10.0.0.1 --me 0",
        "replay --members 10.0.0.1:9000 --me 1",
        "replay --members 10.0.0.1:9000 --me 00",
        "replay --members 10.0.0.1:9000 --me +0",
        "replay --members 10.0.0.1:9000 --me 0 --bound 0",
        "replay --members 10.0.0.1:9000 --me 0 --bound 1025",
        "replay --members 10.0.0.1:9000 --me 0 --election 1001",
        "replay --members 10.0.0.1:9000 --me 0 --aggregator 10.0.0.1:9000",
        "replay --members 10.0.0.1:9000,10.0.0.2:9000 --me 2",
        "replay --members 10.0.0.1:9000,10.0.0.2:9000 --me 0 --bound 0",
        "replay --members 10.0.0.1:9000,10.0.0.2:9000 --me 0 --bound 0,0",
        "replay --members 10.0.0.1:9000,10.0.0.2:9000 --me 0 --bound 1,1025",
        "replay --members 10.0.0.1:9000,10.0.0.2:9000 --me 0 --bound 1,2,3",
        "replay --members 10.0.0.1:9000,10.0.0.2:9000 --me 0 --bound 1,",
        "replay --members 10.0.0.1:9000,10.0.0.2:9000 --me 0 --bound=",
        "replica --members 10.0.0.1:9000 --me 0",
        "replica --members 10.0.0.1:9000 --me 0 --journal=",
        "replica --members 10.0.0.1:9000 --me 0 --journal a --journal b",
        "replica --members 10.0.0.1:9000 --me 1 --journal a",
        "replica --members 10.0.0.1:9000 --me 0 --journal a --listen 10.0.0.1:9000",
        "replica --members 10.0.0.1:9000 --me 0 --journal a --bound 1,2",
        "replica --members 10.0.0.1:9000 --me 0 --journal a --tick-ms 0",
        "replica --members 10.0.0.1:9000 --me 0 --journal a --aggregator 10.0.0.1:9000",
        "router --listen 10.0.0.9:7001",
        "router --servers 10.0.0.1:9000",
        "router --listen 10.0.0.9:7001 --servers 10.0.0.1:9000,10.0.0.1:9000",
        "router --listen 10.0.0.9:7001 --servers 10.0.0.1:9000 --n 0",
        "router --listen 10.0.0.9:7001 --servers 10.0.0.1:9000 --n 17",
        "router --listen 10.0.0.9:7001 --servers 10.0.0.1:9000 --workers 0",
        "router --listen 10.0.0.9:7001 --servers 10.0.0.1:9000 --workers 17",
        "router --listen 10.0.0.9:7001 --servers 10.0.0.1:9000 --tick-ms 1001",
        "aggregator --listen 10.0.0.9:7001",
        "aggregator --members 10.0.0.1:9000",
        "aggregator --listen 10.0.0.1:9000 --members 10.0.0.1:9000",
        "aggregator --listen 10.0.0.9:7001 --members 10.0.0.1:9000,10.0.0.9:7001",
        "aggregator --listen 10.0.0.9:7001 --members 10.0.0.1:9000,10.0.0.1:9000",
        "aggregator --listen 10.0.0.9:7001 --members 10.0.0.1:9000 --tick-ms 10",
        "server --listen=",
        "server --listen 10.0.0.1:9000 --router=",
        "server --listen 10.0.0.1:9000 --tick-ms 010",
        "server --listen 10.0.0.1:9000 --tick-ms=-1",
        "server --listen 10.0.0.1:9000 --turns 72057594037927937",
        "server --lis 10.0.0.1:9000",
        "server -- --listen 10.0.0.1:9000",
        "simulate --seed 18446744073709551616",
        "simulate --seed 01",
        "simulate --members 0",
        "simulate --members 8",
        "simulate --requests 60001",
        "simulate --loss 91",
        "simulate --repeat 91",
        "simulate --crash 501",
        "simulate --bound 1,2",
        "simulate --aggregator=true",
        "simulate --aggregator --aggregator",
        "simulate --aggregator 10.0.0.9:7001",
        "client --listen 10.0.0.9:7001 --to 10.0.0.1:9000",
        "client --listen 10.0.0.9:7001 --to 10.0.0.1:9000 --policy Fixed",
        "client --listen 10.0.0.9:7001 --to 10.0.0.1:9000,10.0.0.1:9000 --policy fixed",
        "client --listen 10.0.0.9:7001 --to 10.0.0.1:9000, --policy fixed",
        "client --listen 10.0.0.9:7001 --to 10.0.0.1:1,10.0.0.1:2,10.0.0.1:3,10.0.0.1:4,10.0.0.1:5,10.0.0.1:6,10.0.0.1:7,10.0.0.1:8 --policy fixed",
    ];
    for line in table {
        assert!(rt;
            meant(rt.alloc(), line)? == Err(TextFault::Outside),
            "{line}"
        );
    }
    assert!(rt; meaning(rt.alloc(), &[]) == Err(TextFault::Outside));
    Ok(())
}
