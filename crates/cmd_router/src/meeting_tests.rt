//! Two workers that receive at once.

ghost use Rattle.r2_link.specs.Links.{tells_address};

use crate::serve_router;
use cmd_loop::Pace;
use cmd_status::Status;
use r2_base::{Addr, Addrs, Datagram, Failed, Numbers, Room};
use r2_link::{Got, Link, LinkFault, MemClock, MemSink, Twin};
use std::alloc::Global;
use std::sync::Wait;
use std::sync::atomic::{AtomicU64, Ordering};
use std::test::Fail;
use std::thread::Threads;

/// A link that ends at its first receive, which waits until two of its twins have begun theirs.
#[derive(Drop)]
struct MeetingLink<'a> {
    /// How many receives were begun, and how many of them met another.
    begun: &'a AtomicU64,
    met: &'a AtomicU64,
    me: Option<Addr>,
}

impl<'a> Link for MeetingLink<'a> {
    ghost told = { λ l. tells_address l.me };

    ghost faults = { λ l. 0 };

    fn bind(&mut self, me: Addr) -> Result<(), Failed> {
        self.me = Some(me);
        Ok(())
    }

    fn receive(&mut self, _alloc: Global, _wait_ms: u64) -> Result<Got, LinkFault> {
        let _before = self.begun.fetch_add(1, Ordering::SeqCst);
        if meets(self.begun) {
            let _before = self.met.fetch_add(1, Ordering::SeqCst);
        }
        Ok(Got::End)
    }

    fn send(&mut self, _d: &Datagram) -> Result<(), Failed> {
        Ok(())
    }
}

impl<'a> Twin for MeetingLink<'a> {
    fn twin(&mut self, _alloc: Global) -> Result<Self, LinkFault> {
        Ok(MeetingLink {
            begun: self.begun,
            met: self.met,
            me: self.me,
        })
    }

    fn rejoin(&mut self, twin: Self) {
        drop(twin);
    }
}

/// Whether two have begun, within so many looks.
fn meets(begun: &AtomicU64) -> bool {
    'looks: for _look in 0..1_000_000_000u64 {
        if begun.load(Ordering::SeqCst) >= 2 {
            return true;
        }
    }
    false
}

/// How many receives met another, where two workers were run to their ends.
fn meetings<R: Threads + Wait + Sync>(rt: &R, alloc: Global) -> Result<u64, Fail> {
    let begun = AtomicU64::new(0);
    let met = AtomicU64::new(0);
    let mut link = MeetingLink {
        begun: &begun,
        met: &met,
        me: None,
    };
    let me = Addr {
        ip: 0x0A00_0008,
        port: 9050,
    };
    let server = Addr {
        ip: 0x0A00_0001,
        port: 9000,
    };
    let mut clock = MemClock::new(
        Numbers::from_vec([0].to_vec(alloc)?),
        Numbers::from_vec(Vec::new(alloc)),
    );
    let room = Room {
        bytes: 100,
        calls: 20,
    };
    let mut sink = MemSink::new(alloc, room, Numbers::from_vec(Vec::new(alloc)))?;
    let servers = Addrs::from_vec([server].to_vec(alloc)?);
    let pace = Pace {
        tick_ms: 100,
        turns: 1,
    };
    let ended = serve_router(
        rt, alloc, me, servers, 1, 2, &mut sink, &mut link, &mut clock, pace,
    );
    if ended != Status::Done {
        return Ok(0);
    }
    Ok(met.load(Ordering::SeqCst))
}

#[test]
fn two_workers_receive_at_once(rt: HostRuntime) -> Result<(), Fail> {
    assert_eq!(rt; meetings(&rt, rt.alloc())?, 2);
    Ok(())
}
