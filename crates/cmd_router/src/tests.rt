//! Runs of a router between a link and a clock in memory.

use crate::routing::serve_alone;
use crate::serve_router;
use cmd_loop::Pace;
use cmd_status::Status;
use r2_base::{Addr, Addrs, Bytes, Datagram, NoMemory, Numbers, Room};
use r2_link::{Item, Items, Lane, Lanes, MemClock, MemLink, MemSink};
use std::alloc::Global;
use std::sync::Wait;
use std::test::Fail;
use std::thread::Threads;

const ROUTER: Addr = Addr {
    ip: 0x0A00_0008,
    port: 9050,
};

const CLIENT: Addr = Addr {
    ip: 0x0A00_0009,
    port: 7001,
};

const SERVERS: [Addr; 2] = [
    Addr {
        ip: 0x0A00_0001,
        port: 9000,
    },
    Addr {
        ip: 0x0A00_0002,
        port: 9000,
    },
];

/// A run over five requests of a client, at a router of two servers that hold two requests each.
#[derive(Clone, Copy)]
struct Run {
    /// The receives that are made at most.
    turns: u8,
    /// What the clock tells after the fifth request; until then it stands still.
    moment: u64,
    /// The calls of the link, of its twin and of the clock that fail, where 0 is none.
    link_fails: u64,
    twin_fails: u64,
    clock_fails: u64,
    /// The bytes that may be printed.
    room: u64,
    status: Status,
    printed: &'static [u8],
    /// How many datagrams are sent.
    sent: usize,
}

const WHOLE: Run = Run {
    turns: 9,
    moment: 0,
    link_fails: 0,
    twin_fails: 0,
    clock_fails: 0,
    room: 100,
    status: Status::Done,
    printed: b"turns 5 accepted 5 forwarded 4 answered 0\n",
    sent: 4,
};

const RUNS: [Run; 7] = [
    WHOLE,
    // At a tick each server gets its oldest request again.
    Run {
        moment: 100,
        printed: b"turns 6 accepted 5 forwarded 4 answered 0\n",
        sent: 6,
        ..WHOLE
    },
    Run {
        turns: 3,
        status: Status::TurnsSpent,
        printed: b"turns 3 accepted 3 forwarded 3 answered 0\n",
        sent: 3,
        ..WHOLE
    },
    Run {
        link_fails: 1,
        status: Status::LinkFault,
        printed: b"",
        sent: 0,
        ..WHOLE
    },
    Run {
        twin_fails: 4,
        status: Status::LinkFault,
        printed: b"",
        sent: 1,
        ..WHOLE
    },
    Run {
        clock_fails: 3,
        status: Status::ClockFault,
        printed: b"",
        sent: 2,
        ..WHOLE
    },
    Run {
        room: 10,
        status: Status::SinkFault,
        printed: b"turns 5",
        ..WHOLE
    },
];

fn numbers(alloc: Global, items: &[u64]) -> Result<Numbers, NoMemory> {
    Ok(Numbers::from_vec(Vec::from_slice(alloc, items)?))
}

/// Requests of the client with ids from the first one on, up to the end.
fn requests(alloc: Global, first: u8, end: u8) -> Result<Items, NoMemory> {
    let mut items = Vec::new(alloc);
    for id in first..end {
        let bytes = [0x52, 8, 0x01, 0xC0, 0, id, 0, 1, b'G', 0, 1, b'a'];
        items.push(Item::Datagram(Datagram {
            from: CLIENT,
            to: ROUTER,
            bytes: Bytes::from_vec(bytes.to_vec(alloc)?),
        }))?;
    }
    Ok(Items::from_vec(items))
}

/// A link whose only lane for a twin has the five requests.
fn link(alloc: Global, run: &Run) -> Result<MemLink, NoMemory> {
    let room = Room {
        bytes: 1_000,
        calls: 20,
    };
    let own = Lane {
        items: Items::from_vec(Vec::new(alloc)),
        room,
        fails: numbers(alloc, &[run.link_fails])?,
    };
    let mut lanes = Vec::new(alloc);
    lanes.push(Lane {
        items: requests(alloc, 1, 6)?,
        room,
        fails: numbers(alloc, &[run.twin_fails])?,
    })?;
    MemLink::new(alloc, own, Lanes::from_vec(lanes))
}

/// Whether a router runs so.
fn is_right(alloc: Global, run: &Run) -> Result<bool, Fail> {
    let mut link = link(alloc, run)?;
    let moments = numbers(alloc, &[0, 0, 0, 0, 0, run.moment])?;
    let mut clock = MemClock::new(moments, numbers(alloc, &[run.clock_fails])?);
    let room = Room {
        bytes: run.room,
        calls: 20,
    };
    let mut sink = MemSink::new(alloc, room, Numbers::from_vec(Vec::new(alloc)))?;
    let servers = Addrs::from_vec(SERVERS.to_vec(alloc)?);
    let pace = Pace {
        tick_ms: 100,
        turns: u64::from(run.turns),
    };
    let ended = serve_alone(
        alloc, ROUTER, servers, 2, &mut sink, &mut link, &mut clock, pace,
    );
    Ok(ended == run.status && sink.written() == run.printed && link.sent(alloc)?.len() == run.sent)
}

#[test]
fn a_router_runs_until_its_twin_ends(rt: HostRuntime) -> Result<(), Fail> {
    for run in RUNS {
        assert!(rt; is_right(rt.alloc(), &run)?);
    }
    Ok(())
}

/// A run of two workers over one router: the first is brought four requests, and the second the fifth.
#[derive(Clone, Copy)]
struct SharedRun {
    /// The calls of the link and of the second worker's twin that fail, where 0 is none.
    link_fails: u64,
    second_fails: u64,
    status: Status,
    printed: &'static [u8],
    /// How many datagrams are sent to each server.
    sent: [usize; 2],
}

const SHARED_RUNS: [SharedRun; 3] = [
    SharedRun {
        link_fails: 0,
        second_fails: 0,
        status: Status::Done,
        printed: b"turns 5 accepted 5 forwarded 4 answered 0\n",
        sent: [2, 2],
    },
    // There is no twin for the second worker, and none is run.
    SharedRun {
        link_fails: 2,
        second_fails: 0,
        status: Status::LinkFault,
        printed: b"",
        sent: [0, 0],
    },
    // The second worker meets a fault, and the first goes on.
    SharedRun {
        link_fails: 0,
        second_fails: 1,
        status: Status::LinkFault,
        printed: b"",
        sent: [2, 2],
    },
];

/// A lane with these items, of which this call fails.
fn lane(alloc: Global, items: Items, fails: u64) -> Result<Lane, NoMemory> {
    Ok(Lane {
        items,
        room: Room {
            bytes: 1_000,
            calls: 20,
        },
        fails: numbers(alloc, &[fails])?,
    })
}

/// A link whose lanes for its first two twins have four requests and the fifth.
fn shared_link(alloc: Global, run: &SharedRun) -> Result<MemLink, NoMemory> {
    let own = lane(alloc, Items::from_vec(Vec::new(alloc)), run.link_fails)?;
    let mut lanes = Vec::new(alloc);
    lanes.push(lane(alloc, requests(alloc, 1, 5)?, 0)?)?;
    lanes.push(lane(alloc, requests(alloc, 5, 6)?, run.second_fails)?)?;
    MemLink::new(alloc, own, Lanes::from_vec(lanes))
}

/// How many of these datagrams go to the server at this place.
fn sent_to(datagrams: &[Datagram], server: Addr) -> usize {
    let mut count = 0usize;
    for d in datagrams {
        if d.to == server {
            count = count.saturating_add(1);
        }
    }
    count
}

/// Whether two workers run so.
fn is_shared<R: Threads + Wait + Sync>(
    rt: &R,
    alloc: Global,
    run: &SharedRun,
) -> Result<bool, Fail> {
    let mut link = shared_link(alloc, run)?;
    let mut clock = MemClock::new(numbers(alloc, &[0])?, numbers(alloc, &[0])?);
    let room = Room {
        bytes: 100,
        calls: 20,
    };
    let mut sink = MemSink::new(alloc, room, Numbers::from_vec(Vec::new(alloc)))?;
    let servers = Addrs::from_vec(SERVERS.to_vec(alloc)?);
    let pace = Pace {
        tick_ms: 100,
        turns: 9,
    };
    let ended = serve_router(
        rt, alloc, ROUTER, servers, 2, 2, &mut sink, &mut link, &mut clock, pace,
    );
    let sent = link.sent(alloc)?;
    let to_first = sent_to(sent.as_slice(), SERVERS[0]);
    let to_second = sent_to(sent.as_slice(), SERVERS[1]);
    Ok(
        ended == run.status
            && sink.written() == run.printed
            && to_first == run.sent[0]
            && to_second == run.sent[1],
    )
}

#[test]
fn two_workers_share_a_router(rt: HostRuntime) -> Result<(), Fail> {
    for run in SHARED_RUNS {
        assert!(rt; is_shared(&rt, rt.alloc(), &run)?);
    }
    Ok(())
}
