//! Conversations of a plain server with clients and its router.

ghost use Rattle.std.specs.Prelude.{◌<◌, ◌^◌, length};

use crate::Server;
use hc_store::Kv;
use r2_base::{Addr, Addrs, Bytes, Datagram, Datagrams, Event};
use std::alloc::Global;
use std::test::Fail;

const CLIENT: Addr = Addr {
    ip: 0x0A00_0009,
    port: 7001,
};

const SERVER: Addr = Addr {
    ip: 0x0A00_0001,
    port: 9000,
};

const ROUTER: Addr = Addr {
    ip: 0x0A00_0008,
    port: 9050,
};

/// An event, and what is sent for it: to whom, and the bytes of all the datagrams.
#[derive(Drop)]
struct Line {
    event: Event,
    to: Addrs,
    bytes: Bytes,
}

/// What comes to a server, in its order, and what it sends for it.
#[derive(Drop)]
struct Talk {
    alloc: Global,
    lines: Vec<Line>,
}

impl Talk {
    fn new(alloc: Global) -> Talk {
        Talk {
            alloc,
            lines: Vec::new(alloc),
        }
    }

    fn push(&mut self, event: Event, to: &[Addr], bytes: &[u8]) -> Result<(), Fail> {
        let to = Addrs::from_vec(to.to_vec(self.alloc)?);
        let bytes = Bytes::from_vec(bytes.to_vec(self.alloc)?);
        self.lines.push(Line { event, to, bytes })?;
        Ok(())
    }

    /// A datagram comes from this address.
    fn hears(&mut self, from: Addr, heard: &[u8], to: &[Addr], bytes: &[u8]) -> Result<(), Fail> {
        let heard = Bytes::from_vec(heard.to_vec(self.alloc)?);
        let event = Event::Datagram(Datagram {
            from,
            to: SERVER,
            bytes: heard,
        });
        self.push(event, to, bytes)
    }

    /// A datagram comes with these bytes and then 1,024 bytes of a put.
    fn hears_put(
        &mut self,
        from: Addr,
        head: &[u8],
        to: &[Addr],
        bytes: &[u8],
    ) -> Result<(), Fail> {
        let mut heard = head.to_vec(self.alloc)?;
        heard.extend_from_slice(b"P\x00\x01a")?;
        heard.extend_from_slice(&[b'.'; 1020])?;
        self.hears(from, heard.as_slice(), to, bytes)
    }

    /// So many ticks come, for which nothing is sent.
    fn waits(&mut self, ticks: u16) -> Result<(), Fail> {
        for _ in 0..ticks {
            self.push(Event::Tick, &[], b"")?;
        }
        Ok(())
    }

    /// Whether a new server sends all that.
    fn is_right(&self, router: Option<Addr>) -> Result<bool, Fail> {
        let lines = self.lines.as_slice();
        if lines.len() > 1000 {
            return Err(Fail::from("too long a talk"));
        }
        is_sent_by(self.alloc, router, lines)
    }
}

/// Whether these are datagrams of the server to these addresses, with these bytes together.
fn are_sent(alloc: Global, sends: &Datagrams, to: &Addrs, bytes: &Bytes) -> Result<bool, Fail> {
    let mut joined = Vec::new(alloc);
    let mut addresses = Vec::new(alloc);
    for d in sends.as_slice().iter() {
        if d.from != SERVER {
            return Ok(false);
        }
        addresses.push(d.to)?;
        joined.extend_from_slice(d.bytes.as_slice())?;
    }
    Ok(addresses.as_slice() == to.as_slice() && joined.as_slice() == bytes.as_slice())
}

/// Whether a new server sends all that.
fn is_sent_by(alloc: Global, router: Option<Addr>, lines: &[Line]) -> Result<bool, Fail>
    requires { length lines.now < 2 ^ 32 }
{
    let mut server = Server::new(alloc, SERVER, router, Kv::new(alloc))?;
    'lines: for i in 0..lines.len() {
        let line = &lines[i];
        let sends = server.turn(&line.event)?;
        if !are_sent(alloc, &sends, &line.to, &line.bytes)? {
            return Ok(false);
        }
    }
    Ok(!server.spent())
}

#[test]
fn a_put_of_two_parts_is_called_for_and_served(rt: HostRuntime) -> Result<(), Fail> {
    let call = b"\x52\x08\x20\xC0\x00\x00\x00\x01";
    let reply = b"\x52\x08\x10\xC0\x00\x00\x00\x01\x00\x00\x00\x00\x00\x00\x00\x01\x00";
    let mut talk = Talk::new(rt.alloc());
    talk.hears_put(CLIENT, b"\x52\x08\x00\x80\x00\x00\x00\x02", &[CLIENT], call)?;
    talk.hears(
        CLIENT,
        b"\x52\x08\x30\x40\x00\x00\x00\x01.",
        &[CLIENT],
        reply,
    )?;
    assert!(rt; talk.is_right(None)?);
    Ok(())
}

#[test]
fn the_router_is_told_of_a_request_that_was_answered(rt: HostRuntime) -> Result<(), Fail> {
    let get = b"\x52\x10\x01\xC0\x00\x01\x00\x01\x0A\x00\x00\x09\x1B\x59\x00\x00G\x00\x01a";
    let both =
        b"\x52\x08\x11\xC0\x00\x01\x00\x01\x00\x00\x00\x00\x00\x00\x00\x01\x01\x52\x10\x41\xC0\x00\x01\x00\x01\x0A\x00\x00\x09\x1B\x59\x00\x00";
    let mut talk = Talk::new(rt.alloc());
    talk.hears(ROUTER, get, &[CLIENT, ROUTER], both)?;
    talk.hears(ROUTER, get, &[CLIENT, ROUTER], both)?;
    assert!(rt; talk.is_right(Some(ROUTER))?);
    Ok(())
}

#[test]
fn what_is_not_for_a_plain_server_changes_nothing(rt: HostRuntime) -> Result<(), Fail> {
    let get = b"\x52\x10\x01\xC0\x00\x01\x00\x01\x0A\x00\x00\x09\x1B\x59\x00\x00G\x00\x01a";
    let mut talk = Talk::new(rt.alloc());
    talk.hears(CLIENT, get, &[], b"")?;
    talk.hears(
        ROUTER,
        b"\x52\x08\x01\xC0\x00\x01\x00\x01G\x00\x01a",
        &[],
        b"",
    )?;
    talk.hears(
        CLIENT,
        b"\x52\x08\x02\xC0\x00\x01\x00\x01G\x00\x01a",
        &[],
        b"",
    )?;
    talk.hears(CLIENT, b"\x52\x08\x10\xC0\x00\x01\x00\x01", &[], b"")?;
    talk.hears(CLIENT, b"\x53\x08", &[], b"")?;
    assert!(rt; talk.is_right(Some(ROUTER))?);
    let mut alone = Talk::new(rt.alloc());
    alone.hears(ROUTER, get, &[], b"")?;
    assert!(rt; alone.is_right(None)?);
    Ok(())
}

#[test]
fn a_kept_reply_goes_out_again_under_its_own_policy(rt: HostRuntime) -> Result<(), Fail> {
    let get = b"\x52\x08\x00\xC0\x00\x07\x00\x01G\x00\x01a";
    let routed = b"\x52\x10\x01\xC0\x00\x07\x00\x01\x0A\x00\x00\x09\x1B\x59\x00\x00G\x00\x01a";
    let other = b"\x52\x08\x00\xC0\x00\x08\x00\x01G\x00\x01a";
    let reply = b"\x52\x08\x10\xC0\x00\x07\x00\x01\x00\x00\x00\x00\x00\x00\x00\x01\x01";
    let both =
        b"\x52\x08\x10\xC0\x00\x07\x00\x01\x00\x00\x00\x00\x00\x00\x00\x01\x01\x52\x10\x41\xC0\x00\x07\x00\x01\x0A\x00\x00\x09\x1B\x59\x00\x00";
    let next = b"\x52\x08\x10\xC0\x00\x08\x00\x01\x00\x00\x00\x00\x00\x00\x00\x02\x01";
    let mut talk = Talk::new(rt.alloc());
    talk.hears(CLIENT, get, &[CLIENT], reply)?;
    talk.hears(CLIENT, get, &[CLIENT], reply)?;
    talk.hears(ROUTER, routed, &[CLIENT, ROUTER], both)?;
    talk.hears(CLIENT, other, &[CLIENT], next)?;
    assert!(rt; talk.is_right(Some(ROUTER))?);
    Ok(())
}

#[test]
fn a_request_is_given_up_at_its_200th_tick(rt: HostRuntime) -> Result<(), Fail> {
    let first = b"\x52\x10\x01\x80\x00\x01\x00\x02\x0A\x00\x00\x09\x1B\x59\x00\x00";
    let call = b"\x52\x08\x21\xC0\x00\x01\x00\x01";
    let feedback = b"\x52\x10\x41\xC0\x00\x01\x00\x01\x0A\x00\x00\x09\x1B\x59\x00\x00";
    let mut talk = Talk::new(rt.alloc());
    talk.waits(1)?;
    talk.hears_put(ROUTER, first, &[CLIENT], call)?;
    talk.waits(199)?;
    talk.push(Event::Tick, &[ROUTER], feedback)?;
    talk.hears(CLIENT, b"\x52\x08\x31\x40\x00\x01\x00\x01.", &[], b"")?;
    talk.waits(199)?;
    talk.push(Event::Tick, &[ROUTER], feedback)?;
    talk.waits(1)?;
    assert!(rt; talk.is_right(Some(ROUTER))?);
    Ok(())
}

#[test]
fn the_first_of_257_requests_is_given_up_behind_the_call(rt: HostRuntime) -> Result<(), Fail> {
    let mut talk = Talk::new(rt.alloc());
    for id in 0..256u16 {
        let [high, low] = id.to_be_bytes();
        let head = [
            0x52, 16, 0x01, 0x80, high, low, 0, 2, 0x0A, 0, 0, 9, 0x1B, 0x59, 0, 0,
        ];
        talk.hears_put(
            ROUTER,
            &head,
            &[CLIENT],
            &[0x52, 8, 0x21, 0xC0, high, low, 0, 1],
        )?;
    }
    let last = b"\x52\x10\x01\x80\x01\x00\x00\x02\x0A\x00\x00\x09\x1B\x59\x00\x00";
    let both =
        b"\x52\x08\x21\xC0\x01\x00\x00\x01\x52\x10\x41\xC0\x00\x00\x00\x01\x0A\x00\x00\x09\x1B\x59\x00\x00";
    talk.hears_put(ROUTER, last, &[CLIENT, ROUTER], both)?;
    assert!(rt; talk.is_right(Some(ROUTER))?);
    Ok(())
}
