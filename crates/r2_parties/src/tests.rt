//! Two sessions, a router and a server, over the datagrams that they give each other.

use hc_store::Kv;
use r2_base::{Addr, Addrs, Datagram, Duplicate, Event};
use r2_client::{CallEnd, Session};
use r2_jbsq::Router;
use r2_server::Server;
use std::alloc::Global;
use std::test::Fail;

const ROUTER: Addr = Addr {
    ip: 0x0A00_0008,
    port: 9050,
};

const SERVER: Addr = Addr {
    ip: 0x0A00_0001,
    port: 9000,
};

const CLIENT: Addr = Addr {
    ip: 0x0A00_0009,
    port: 7001,
};

const OTHER: Addr = Addr {
    ip: 0x0A00_000A,
    port: 7001,
};

/// The second reply of a server: the key is absent.
const REPLY: &[u8] = b"\x00\x00\x00\x00\x00\x00\x00\x02\x01";

fn one(alloc: Global, addr: Addr) -> Result<Addrs, Fail> {
    let mut addrs = Vec::new(alloc);
    addrs.push(addr)?;
    Ok(Addrs::from_vec(addrs))
}

/// A new session that sends to the router.
fn session(alloc: Global, me: Addr) -> Result<Session, Fail> {
    let targets = one(alloc, ROUTER)?;
    if targets.len() != 1 {
        return Err(Fail::from("no target"));
    }
    Ok(Session::new(alloc, me, targets, 20, 5))
}

/// What a session sends for a read of a key.
fn asks(alloc: Global, session: &mut Session, sent: &mut Vec<Datagram>) -> Result<(), Fail> {
    match session.begin(1, b"G\x00\x01a") {
        Ok(sends) => append(alloc, sends.as_slice(), sent),
        Err(_) => Err(Fail::from("no call")),
    }
}

fn append(alloc: Global, sends: &[Datagram], sent: &mut Vec<Datagram>) -> Result<(), Fail> {
    for d in sends {
        sent.push(d.duplicate(alloc)?)?;
    }
    Ok(())
}

/// What a new router sends for these datagrams, before one server that may hold one request.
fn routed(alloc: Global, heard: &[Datagram]) -> Result<Vec<Datagram>, Fail> {
    let servers = one(alloc, SERVER)?;
    if servers.len() != 1 || heard.len() > 100 {
        return Err(Fail::from("no server, or too many datagrams"));
    }
    let mut router = Router::new(alloc, ROUTER, servers, 1)?;
    let mut sent = Vec::new(alloc);
    'heard: for i in 0..heard.len() {
        let event = Event::Datagram(heard[i].duplicate(alloc)?);
        let sends = router.turn(&event)?;
        append(alloc, sends.as_slice(), &mut sent)?;
    }
    Ok(sent)
}

/// What a new server, reached through the router, sends for these datagrams.
fn served(alloc: Global, heard: &[Datagram]) -> Result<Vec<Datagram>, Fail> {
    if heard.len() > 100 {
        return Err(Fail::from("too many datagrams"));
    }
    let mut server = Server::new(alloc, SERVER, Some(ROUTER), Kv::new(alloc))?;
    let mut sent = Vec::new(alloc);
    'heard: for i in 0..heard.len() {
        let event = Event::Datagram(heard[i].duplicate(alloc)?);
        let sends = server.turn(&event)?;
        append(alloc, sends.as_slice(), &mut sent)?;
    }
    Ok(sent)
}

/// Whether the datagrams go to these, in this order.
fn go_to(sent: &[Datagram], to: &[Addr]) -> bool {
    if sent.len() != to.len() {
        return false;
    }
    'sent: for i in 0..sent.len() {
        if sent[i].to != to[i] {
            return false;
        }
    }
    true
}

/// Whether the session's call ends with that reply by one of these datagrams.
fn is_answered(session: &mut Session, sent: &[Datagram]) -> Result<bool, Fail> {
    for d in sent {
        if d.to == OTHER {
            let step = session.on_datagram(d)?;
            if let Some(CallEnd::Reply(payload)) = &step.end {
                return Ok(payload.as_slice() == REPLY);
            }
        }
    }
    Ok(false)
}

/// Appends what goes to the router.
fn append_feedback(
    alloc: Global,
    sends: &[Datagram],
    heard: &mut Vec<Datagram>,
) -> Result<(), Fail> {
    for d in sends {
        if d.to == ROUTER {
            heard.push(d.duplicate(alloc)?)?;
        }
    }
    Ok(())
}

/// What the router sends on, and what the server sends at that.
#[derive(Drop)]
struct Sent {
    forwards: Vec<Datagram>,
    answers: Vec<Datagram>,
}

/// What a new router and a new server send where the router gets these.
fn sent_at(alloc: Global, heard: &[Datagram]) -> Result<Sent, Fail> {
    let forwards = routed(alloc, heard)?;
    let answers = served(alloc, forwards.as_slice())?;
    Ok(Sent { forwards, answers })
}

/// Whether these were sent on, and these answered.
fn is_sent(sent: &Sent, forwards: &[Addr], answers: &[Addr]) -> bool {
    go_to(sent.forwards.as_slice(), forwards) && go_to(sent.answers.as_slice(), answers)
}

/// What a second request is answered, which waits until the server is done with the first: nothing where that isn't what happens.
fn answers(alloc: Global, mut heard: Vec<Datagram>) -> Result<Vec<Datagram>, Fail> {
    let first = sent_at(alloc, heard.as_slice())?;
    if !is_sent(&first, &[SERVER], &[CLIENT, ROUTER]) {
        return Ok(Vec::new(alloc));
    }
    append_feedback(alloc, first.answers.as_slice(), &mut heard)?;
    let both = sent_at(alloc, heard.as_slice())?;
    if !is_sent(&both, &[SERVER, SERVER], &[CLIENT, ROUTER, OTHER, ROUTER]) {
        return Ok(Vec::new(alloc));
    }
    Ok(both.answers)
}

/// What two new sessions send for a read of a key: of the second, the session too.
fn asked(alloc: Global, sent: &mut Vec<Datagram>) -> Result<Session, Fail> {
    let mut first = session(alloc, CLIENT)?;
    asks(alloc, &mut first, sent)?;
    let mut second = session(alloc, OTHER)?;
    asks(alloc, &mut second, sent)?;
    Ok(second)
}

/// Whether a second request waits until the server is done with the first, and both are answered.
fn both_are_answered(alloc: Global) -> Result<bool, Fail> {
    let mut heard = Vec::new(alloc);
    let mut second = asked(alloc, &mut heard)?;
    let answers = answers(alloc, heard)?;
    is_answered(&mut second, answers.as_slice())
}

#[test]
fn sessions_are_answered_through_a_router(rt: HostRuntime) -> Result<(), Fail> {
    assert!(rt; both_are_answered(rt.alloc())?);
    Ok(())
}
