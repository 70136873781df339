//! How long a loop has its link wait, and a party that waits for others itself.
ghost use Rattle.std.specs.Prelude.{⊤};
ghost use Rattle.std.proofs.Common.{rules};

use crate::tests::{TICK_MS, Waits, requests};
use crate::{Pace, Plain, PlainParty, serve_without_journal};
use cmd_status::Status;
use r2_base::{Datagrams, Event, NoMemory, Numbers, Room};
use r2_link::{Lane, Lanes, MemClock, MemLink};
use std::alloc::Global;
use std::sync::{Mutex, Wait};
use std::test::Fail;
use std::thread;

/// A link that brings two requests, and sends nothing.
fn asking(alloc: Global) -> Result<MemLink, NoMemory> {
    let lane = Lane {
        items: requests(alloc, 0)?,
        room: Room { bytes: 0, calls: 0 },
        fails: Numbers::new(alloc),
    };
    MemLink::new(alloc, lane, Lanes::new(alloc))
}

/// It hears each event, and says nothing.
#[derive(Drop)]
struct Listener {
    alloc: Global,
}

impl PlainParty for Listener {
    ghost turned = { λ a events sends b. ⊤ };

    ghost had_turns = { λ n a. ⊤ };

    fn turn(&mut self, _event: &Event) -> Result<Datagrams, NoMemory> {
        Ok(Datagrams::new(self.alloc))
    }

    ghost begins = { λ a. Prim.search rules };
}

#[test]
fn a_plain_party_has_its_link_wait_for_a_tick(rt: HostRuntime) -> Result<(), Fail> {
    let alloc = rt.alloc();
    let mut link = Waits::new(asking(alloc)?);
    let mut clock = MemClock::new(Numbers::new(alloc), Numbers::new(alloc));
    let mut party = Plain {
        party: Listener { alloc },
    };
    let pace = Pace {
        tick_ms: TICK_MS,
        turns: 2,
    };
    let status = serve_without_journal(alloc, &mut party, &mut link, &mut clock, pace);
    assert_eq!(rt; status, Status::TurnsSpent);
    assert_eq!(rt; (link.hurried, link.patient), (0, 2));
    Ok(())
}

/// It counts each datagram in a book that it shares with others, for which it waits.
#[derive(Drop)]
struct Worker<'a, R: Wait> {
    rt: &'a R,
    alloc: Global,
    book: &'a Mutex<u64>,
}

impl<R: Wait> PlainParty for Worker<'_, R> {
    ghost turned = { λ a events sends b. ⊤ };

    ghost had_turns = { λ n a. ⊤ };

    fn turn(&mut self, event: &Event) -> Result<Datagrams, NoMemory> {
        if let Event::Datagram(_) = event {
            let mut counted = self.book.lock(self.rt);
            *counted = counted.saturating_add(1);
        }
        Ok(Datagrams::new(self.alloc))
    }

    ghost begins = { λ a. Prim.search rules };
}

/// Runs a worker over a link of its own that brings two requests.
fn work<R: Wait>(rt: &R, alloc: Global, book: &Mutex<u64>) -> Result<Status, NoMemory> {
    let mut link = asking(alloc)?;
    let mut clock = MemClock::new(Numbers::new(alloc), Numbers::new(alloc));
    let mut party = Plain {
        party: Worker { rt, alloc, book },
    };
    let pace = Pace {
        tick_ms: TICK_MS,
        turns: 9,
    };
    Ok(serve_without_journal(alloc, &mut party, &mut link, &mut clock, pace))
}

#[test]
fn workers_that_wait_for_each_other_are_run_side_by_side(rt: HostRuntime) -> Result<(), Fail> {
    let alloc = rt.alloc();
    let book = Mutex::new(0);
    let (first, second) = thread::join(&rt, || work(&rt, alloc, &book), || work(&rt, alloc, &book));
    assert_eq!(rt; first?, Status::Done);
    assert_eq!(rt; second?, Status::Done);
    assert_eq!(rt; book.into_inner(), 4);
    Ok(())
}
