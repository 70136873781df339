//! Turns of two passes on one desk.

ghost use Rattle.std.specs.Prelude.{◌≡◌, IfOk};
ghost use Rattle.r2_jbsq.specs.State.{begin};
ghost use Rattle.r2_desk.specs.Made.{IsBlankOf};

use crate::{CloseFault, Desk, MOST_PASS_TURNS, Pass, Step, Totals, Trail};
use r2_base::{Addr, Addrs, Bytes, Datagram, Datagrams, Event, NoMemory};
use r2_jbsq::Router;
use std::alloc::Global;
use std::marker::Brand;
use std::sync::Wait;
use std::sync::ledger::{Blank, Ledger};
use std::test::Fail;
use std::thread::{Threads, join_mut};

const ROUTER: Addr = Addr {
    ip: 0x0A00_0008,
    port: 9050,
};

const CLIENT: Addr = Addr {
    ip: 0x0A00_0009,
    port: 7001,
};

const SERVERS: [Addr; 2] = [
    Addr {
        ip: 0x0A00_0001,
        port: 9000,
    },
    Addr {
        ip: 0x0A00_0002,
        port: 9000,
    },
];

/// A client's request.
fn request(alloc: Global, id: u8) -> Result<Event, NoMemory> {
    let bytes = [0x52, 8, 0x01, 0xC0, 0, id, 0, 1, b'G', 0, 1, b'a'];
    Ok(Event::Datagram(Datagram {
        from: CLIENT,
        to: ROUTER,
        bytes: Bytes::from_vec(bytes.to_vec(alloc)?),
    }))
}

/// Whether the one datagram is the request as it goes to the server.
fn is_forward(sends: &Datagrams, server: usize, id: u8) -> bool {
    let [d] = sends.as_slice() else {
        return false;
    };
    let bytes = [
        0x52, 16, 0x01, 0xC0, 0, id, 0, 1, 10, 0, 0, 9, 0x1B, 0x59, 0, 0, b'G', 0, 1, b'a',
    ];
    d.from == ROUTER && d.to == SERVERS[server % 2] && d.bytes.as_slice() == bytes.as_slice()
}

/// Whether the step is that of the pass of this number, which brought the request of the next id to the server of its own number.
fn is_step(step: &Step, pass: u8) -> bool {
    let id = pass % 2 + 1;
    step.pass == pass
        && step.number == u64::from(id)
        && is_forward(&step.sends, usize::from(pass), id)
}

/// A new router of two servers that hold two requests each.
fn router(alloc: Global) -> Result<Router, Fail>
    ensures { IfOk result (λ router. router ≡ begin router.setup) }
{
    let servers = Addrs::from_vec(SERVERS.to_vec(alloc)?);
    Ok(Router::new(alloc, ROUTER, servers, 2)?)
}

/// Whether the first turns of two passes have the numbers 1 and 2, one pass is missing at `close` without the other, and the trail and
/// the totals are right once both are there.
fn two_requests<T: Ledger, S: Ledger, A: Ledger, F: Ledger, W: Ledger, R: Wait>(
    rt: &R,
    alloc: Global,
    router: Router,
    turns: Blank,
    slots: Blank,
    accepted: Blank,
    forwarded: Blank,
    answered: Blank,
) -> Result<bool, Fail>
    requires new { router ≡ begin router.setup }
    requires turns { IsBlankOf 2 turns.name turns.parts T.name T.parts }
    requires slots { IsBlankOf 2 slots.name slots.parts S.name S.parts }
    requires accepted { IsBlankOf 2 accepted.name accepted.parts A.name A.parts }
    requires forwarded { IsBlankOf 2 forwarded.name forwarded.parts F.name F.parts }
    requires answered { IsBlankOf 2 answered.name answered.parts W.name W.parts }
{
    let (desk, mut passes) = Desk::<T, S, A, F, W, 16>::make(
        alloc, router, 2, turns, slots, accepted, forwarded, answered,
    )?;
    let Some(mut second) = passes.pop() else {
        return Ok(false);
    };
    let Some(mut first) = passes.pop() else {
        return Ok(false);
    };
    let one = desk.turn(rt, &mut first, &request(alloc, 1)?)?;
    let two = desk.turn(rt, &mut second, &request(alloc, 2)?)?;
    if one.number != 1 || two.number != 2 {
        return Ok(false);
    }
    passes.push(first)?;
    let Err(fault) = desk.close(passes) else {
        return Ok(false);
    };
    let CloseFault::Missing {
        desk,
        mut passes,
        made,
        given,
    } = fault
    else {
        return Ok(false);
    };
    if made != 2 || given != 1 {
        return Ok(false);
    }
    passes.push(second)?;
    let Ok(closed) = desk.close(passes) else {
        return Ok(false);
    };
    Ok(is_right(closed.totals, &closed.trail))
}

/// Whether two requests were accepted and forwarded, the first by the first pass.
fn is_right(totals: Totals, trail: &Trail) -> bool {
    let wanted = Totals {
        turns: 2,
        accepted: 2,
        forwarded: 2,
        answered: 0,
    };
    let [first, second] = trail.as_slice() else {
        return false;
    };
    totals == wanted && is_step(first, 0) && is_step(second, 1)
}

#[test]
fn two_passes_make_a_turn_each(rt: HostRuntime) -> Result<(), Fail> {
    let alloc = rt.alloc();
    let router = router(alloc)?;
    let right = two_requests::<Brand, Brand, Brand, Brand, Brand, HostRuntime>(
        &rt,
        alloc,
        router,
        Blank::new(2),
        Blank::new(2),
        Blank::new(2),
        Blank::new(2),
        Blank::new(2),
    )?;
    assert!(rt; right);
    Ok(())
}

/// What is done on a thread.
trait Worker: Send {
    fn work(&mut self);
}

/// A worker over a desk with a trail of 64, which hands in a client's requests of three ids.
#[derive(Drop)]
struct Seat<
    'a,
    'b,
    R: Wait + Sync,
    T: Ledger + Send + Sync,
    S: Ledger + Send + Sync,
    A: Ledger + Send + Sync,
    F: Ledger + Send + Sync,
    W: Ledger + Send + Sync,
> {
    rt: &'a R,
    alloc: Global,
    desk: &'b Desk<T, S, A, F, W, 64>,
    pass: Pass<T, S, A, F, W, 64>,
    ids: [u8; 3],
    /// How many turns were made.
    turns: u8,
}

impl<
    'a,
    'b,
    R: Wait + Sync,
    T: Ledger + Send + Sync,
    S: Ledger + Send + Sync,
    A: Ledger + Send + Sync,
    F: Ledger + Send + Sync,
    W: Ledger + Send + Sync,
> Worker for Seat<'a, 'b, R, T, S, A, F, W> {
    fn work(&mut self) {
        for id in self.ids {
            if let Ok(true) = hand_in(self.rt, self.alloc, self.desk, &mut self.pass, id) {
                self.turns = self.turns.saturating_add(1);
            }
        }
    }
}

/// Hands in one request, where the pass may make a turn more.
fn hand_in<R: Wait, T: Ledger, S: Ledger, A: Ledger, F: Ledger, W: Ledger>(
    rt: &R,
    alloc: Global,
    desk: &Desk<T, S, A, F, W, 64>,
    pass: &mut Pass<T, S, A, F, W, 64>,
    id: u8,
) -> Result<bool, NoMemory> {
    if pass.made().turns >= MOST_PASS_TURNS {
        return Ok(false);
    }
    let event = request(alloc, id)?;
    let before = pass.seen();
    let turned = desk.turn(rt, pass, &event)?;
    Ok(before < turned.number)
}

/// Lets both work, each on a thread of its own.
fn work_both<R: Threads, V: Worker, U: Worker>(rt: &R, first: &mut V, second: &mut U) {
    join_mut(rt, &mut || first.work(), &mut || second.work());
}

/// The passes after three turns of each, made by two threads at once.
fn six_turns<
    T: Ledger + Send + Sync,
    S: Ledger + Send + Sync,
    A: Ledger + Send + Sync,
    F: Ledger + Send + Sync,
    W: Ledger + Send + Sync,
    R: Threads + Wait + Sync,
>(
    rt: &R,
    alloc: Global,
    desk: &Desk<T, S, A, F, W, 64>,
    first: Pass<T, S, A, F, W, 64>,
    second: Pass<T, S, A, F, W, 64>,
) -> Option<(Pass<T, S, A, F, W, 64>, Pass<T, S, A, F, W, 64>)> {
    let mut first = Seat {
        rt,
        alloc,
        desk,
        pass: first,
        ids: [1, 2, 3],
        turns: 0,
    };
    let mut second = Seat {
        rt,
        alloc,
        desk,
        pass: second,
        ids: [4, 5, 6],
        turns: 0,
    };
    work_both(rt, &mut first, &mut second);
    if first.turns != 3 || second.turns != 3 {
        return None;
    }
    let Seat { pass: one, .. } = first;
    let Seat { pass: other, .. } = second;
    Some((one, other))
}

/// Whether a desk with two passes closes well after three turns of each, made by two threads at once.
fn two_threads<
    T: Ledger + Send + Sync,
    S: Ledger + Send + Sync,
    A: Ledger + Send + Sync,
    F: Ledger + Send + Sync,
    W: Ledger + Send + Sync,
    R: Threads + Wait + Sync,
>(
    rt: &R,
    alloc: Global,
    router: Router,
    turns: Blank,
    slots: Blank,
    accepted: Blank,
    forwarded: Blank,
    answered: Blank,
) -> Result<bool, Fail>
    requires new { router ≡ begin router.setup }
    requires turns { IsBlankOf 2 turns.name turns.parts T.name T.parts }
    requires slots { IsBlankOf 2 slots.name slots.parts S.name S.parts }
    requires accepted { IsBlankOf 2 accepted.name accepted.parts A.name A.parts }
    requires forwarded { IsBlankOf 2 forwarded.name forwarded.parts F.name F.parts }
    requires answered { IsBlankOf 2 answered.name answered.parts W.name W.parts }
{
    let (desk, mut passes) = Desk::<T, S, A, F, W, 64>::make(
        alloc, router, 2, turns, slots, accepted, forwarded, answered,
    )?;
    let Some(second) = passes.pop() else {
        return Ok(false);
    };
    let Some(first) = passes.pop() else {
        return Ok(false);
    };
    let Some((first, second)) = six_turns(rt, alloc, &desk, first, second) else {
        return Ok(false);
    };
    passes.push(first)?;
    passes.push(second)?;
    let Ok(closed) = desk.close(passes) else {
        return Ok(false);
    };
    let wanted = Totals {
        turns: 6,
        accepted: 6,
        forwarded: 4,
        answered: 0,
    };
    Ok(closed.totals == wanted && closed.trail.len() == 6)
}

#[test]
fn two_threads_make_three_turns_each(rt: HostRuntime) -> Result<(), Fail> {
    let alloc = rt.alloc();
    let router = router(alloc)?;
    let right = two_threads::<Brand, Brand, Brand, Brand, Brand, HostRuntime>(
        &rt,
        alloc,
        router,
        Blank::new(2),
        Blank::new(2),
        Blank::new(2),
        Blank::new(2),
        Blank::new(2),
    )?;
    assert!(rt; right);
    Ok(())
}
