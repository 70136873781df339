//! Conversations of clients and servers with a router.

ghost use Rattle.std.specs.Prelude.{◌<◌, ◌^◌, length, IfOk};
ghost use Rattle.r2_jbsq.specs.State.{HadTurns};

use crate::Router;
use r2_base::{Addr, Addrs, Bytes, Datagram, Datagrams, Event};
use std::alloc::Global;
use std::test::Fail;

const ROUTER: Addr = Addr {
    ip: 0x0A00_0008,
    port: 9050,
};

const CLIENT: Addr = Addr {
    ip: 0x0A00_0009,
    port: 7001,
};

const SECOND_CLIENT: Addr = Addr {
    ip: 0x0A00_000A,
    port: 7001,
};

const SERVERS: [Addr; 2] = [
    Addr {
        ip: 0x0A00_0001,
        port: 9000,
    },
    Addr {
        ip: 0x0A00_0002,
        port: 9000,
    },
];

/// What comes to the router. A server is named by its place in the list.
#[derive(Clone, Copy)]
enum Comes {
    /// A request of the client.
    Request(u8),
    /// A server's feedback on a request of the client.
    Feedback(usize, u8),
    Tick,
    Quiet,
    /// Other bytes of a server.
    Bytes(usize, &'static [u8]),
}

use Comes::{Bytes as Other, Feedback, Quiet, Request, Tick};

/// The forwards that are sent for it, each a server and a request.
type Sent = &'static [(usize, u8)];

/// How many requests were accepted, forwarded and answered, and how many wait.
type Counts = (u64, u64, u64, u32);

/// A router of two servers that hold two requests each.
const LINES: [(Comes, Sent, Counts); 20] = [
    (Request(1), &[(0, 1)], (1, 1, 0, 0)),
    (Request(2), &[(1, 2)], (2, 2, 0, 0)),
    (Request(3), &[(0, 3)], (3, 3, 0, 0)),
    (Request(4), &[(1, 4)], (4, 4, 0, 0)),
    (Request(5), &[], (5, 4, 0, 1)),
    // Repeats of an open request and of one that waits.
    (Request(1), &[], (5, 4, 0, 1)),
    (Request(5), &[], (5, 4, 0, 1)),
    // Under another policy; with the client's address in a request; a request under policy 0; no header.
    (
        Other(
            1,
            b"\x52\x10\x42\xC0\x00\x02\x00\x01\x0A\x00\x00\x09\x1B\x59\x00\x00",
        ),
        &[],
        (5, 4, 0, 1),
    ),
    (
        Other(
            1,
            b"\x52\x10\x01\xC0\x00\x07\x00\x01\x0A\x00\x00\x09\x1B\x59\x00\x00G\x00\x01a",
        ),
        &[],
        (5, 4, 0, 1),
    ),
    (
        Other(1, b"\x52\x08\x00\xC0\x00\x07\x00\x01G\x00\x01a"),
        &[],
        (5, 4, 0, 1),
    ),
    (Other(1, b"\x53\x08"), &[], (5, 4, 0, 1)),
    (Feedback(1, 2), &[(1, 5)], (5, 5, 1, 0)),
    // The same again, on a request that was never made, and by a server at which the request isn't open.
    (Feedback(1, 2), &[], (5, 5, 1, 0)),
    (Feedback(1, 9), &[], (5, 5, 1, 0)),
    (Feedback(1, 1), &[], (5, 5, 1, 0)),
    (Tick, &[(0, 1), (1, 4)], (5, 5, 1, 0)),
    (Quiet, &[], (5, 5, 1, 0)),
    (Feedback(0, 1), &[], (5, 5, 2, 0)),
    // An answered request that comes again is a new one.
    (Request(1), &[(0, 1)], (6, 6, 2, 0)),
    (Tick, &[(0, 3), (1, 4)], (6, 6, 2, 0)),
];

/// A datagram comes to the router.
fn datagram(alloc: Global, from: Addr, bytes: &[u8]) -> Result<Event, Fail> {
    Ok(Event::Datagram(Datagram {
        from,
        to: ROUTER,
        bytes: Bytes::from_vec(bytes.to_vec(alloc)?),
    }))
}

/// A request of one part comes from an address.
fn request(alloc: Global, from: Addr, id: u16) -> Result<Event, Fail> {
    let [high, low] = id.to_be_bytes();
    let bytes = [0x52, 8, 0x01, 0xC0, high, low, 0, 1, b'G', 0, 1, b'a'];
    datagram(alloc, from, &bytes)
}

fn event(alloc: Global, comes: Comes) -> Result<Event, Fail> {
    match comes {
        Request(id) => request(alloc, CLIENT, u16::from(id)),
        Feedback(server, id) => {
            let bytes = [
                0x52, 16, 0x41, 0xC0, 0, id, 0, 1, 10, 0, 0, 9, 0x1B, 0x59, 0, 0,
            ];
            datagram(alloc, SERVERS[server % 2], &bytes)
        }
        Tick => Ok(Event::Tick),
        Quiet => Ok(Event::Quiet),
        Other(server, bytes) => datagram(alloc, SERVERS[server % 2], bytes),
    }
}

/// Whether the request goes to the server, with the client's address in its packet.
fn is_forward(d: &Datagram, server: usize, id: u8) -> bool {
    let bytes = [
        0x52, 16, 0x01, 0xC0, 0, id, 0, 1, 10, 0, 0, 9, 0x1B, 0x59, 0, 0, b'G', 0, 1, b'a',
    ];
    d.from == ROUTER && d.to == SERVERS[server % 2] && d.bytes.as_slice() == bytes.as_slice()
}

/// Whether these forwards are sent, and no others.
fn are_sent(sends: &Datagrams, sent: Sent) -> bool {
    sends.len() == sent.len()
        && sends
            .as_slice()
            .iter()
            .zip(sent)
            .all(|(d, (server, id))| is_forward(d, *server, *id))
}

/// Whether a router sends and counts all that.
fn is_right(alloc: Global, lines: &[(Comes, Sent, Counts)]) -> Result<bool, Fail>
    requires { length lines.now < 2 ^ 32 }
{
    let servers = Addrs::from_vec(SERVERS.to_vec(alloc)?);
    let mut router = Router::new(alloc, ROUTER, servers, 2)?;
    'lines: for i in 0..lines.len() {
        let (comes, sent, wanted) = lines[i];
        let event = event(alloc, comes)?;
        let would_be = router.would_send(&event)?;
        let sends = router.turn(&event)?;
        if would_be != sends || !are_sent(&sends, sent) || counts(&router) != wanted {
            return Ok(false);
        }
    }
    Ok(router.held(0) == 2 && router.held(1) == 2)
}

#[test]
fn requests_go_to_the_freest_server(rt: HostRuntime) -> Result<(), Fail> {
    assert!(rt; is_right(rt.alloc(), &LINES)?);
    Ok(())
}

/// A router of one server that holds one request, to which a client made 65,536 requests and a second client one.
fn crowded(alloc: Global) -> Result<Router, Fail>
    ensures { IfOk result (λ router. HadTurns 65537 router) }
{
    let mut servers = Vec::new(alloc);
    servers.push(SERVERS[0])?;
    let mut router = Router::new(alloc, ROUTER, Addrs::from_vec(servers), 1)?;
    'ids: for id in 0..65_536u32 {
        let _sends = router.turn(&request(alloc, CLIENT, id as u16)?)?;
    }
    let _sends = router.turn(&request(alloc, SECOND_CLIENT, 0)?)?;
    Ok(router)
}

fn counts(router: &Router) -> Counts {
    (
        router.accepted(),
        router.forwarded(),
        router.answered(),
        router.waiting(),
    )
}

/// Whether the second client's request 1 is refused.
fn is_refused(sends: &Datagrams) -> bool {
    let [d] = sends.as_slice() else {
        return false;
    };
    let bytes = b"\x52\x08\x51\xC0\x00\x01\x00\x01";
    d.from == ROUTER && d.to == SECOND_CLIENT && d.bytes.as_slice() == bytes.as_slice()
}

#[test]
fn a_request_is_refused_where_65536_wait(rt: HostRuntime) -> Result<(), Fail> {
    let mut router = crowded(rt.alloc())?;
    assert!(rt; counts(&router) == (65_537, 1, 0, 65_536));
    let sends = router.turn(&request(rt.alloc(), SECOND_CLIENT, 1)?)?;
    assert!(rt; is_refused(&sends));
    assert!(rt; counts(&router) == (65_537, 1, 0, 65_536));
    Ok(())
}
