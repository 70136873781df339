//! Several workers over one router.

ghost use Rattle.std.specs.Prelude.{◌≡◌, ◌≤◌, List, [], IfOk, MatchResult, OnErr, length, map, vec_capacity, vec_len};
ghost use Rattle.std.specs.List.{All, find, list_any};
ghost use Rattle.r2_base.specs.Limits.{most_turns};
ghost use Rattle.r2_link.specs.Faults.{NoneFalls, Rose, calm};
ghost use Rattle.r2_link.specs.Lanes.{IsFault};
ghost use Rattle.r2_jbsq.specs.State.{begin, slots_of};
ghost use Rattle.r2_desk.specs.Limits.{most_workers};
ghost use Rattle.r2_desk.specs.Made.{IsBlankOf};
ghost use Rattle.r2_desk.specs.Closing.{Settles};
ghost use Rattle.r2_desk.specs.declared.step.Step.{Step};
ghost use Rattle.cmd_status.specs.Causes.{IsCaused};
ghost use Rattle.cmd_loop.specs.Ends.{Ends};
ghost use Rattle.cmd_loop.specs.Loop.{IsServed};
ghost use Rattle.cmd_router.specs.Desks.{WorkAtDesk};
ghost use Rattle.cmd_router.specs.Loops.{NoneRan, WorkersRan};
ghost use Rattle.cmd_router.specs.Routes.{IsWholeRun};
ghost use Rattle.cmd_router.specs.Workers.{IsWorkersEnd, end_of, is_fault, is_spent};
ghost use Rattle.cmd_router.specs.Works.{SharesRouter};

use crate::desk_party::DeskParty;
use crate::seat::Seat;
use crate::seating::{seat_all, unseat_all};
use crate::workers::run_all;
use cmd_loop::{Pace, PlainParty};
use cmd_status::Status;
use r2_desk::{CloseFault, Desk, Pass, Totals};
use r2_jbsq::Router;
use r2_link::{Clock, Link, LinkFault, Twin};
use std::alloc::Global;
use std::sync::Wait;
use std::sync::ledger::{Blank, Ledger};
use std::thread::Threads;

/// What workers over one router come to, and how they ended.
#[derive(Clone, Copy, Debug, PartialEq, Eq)]
pub(crate) struct Shared {
    pub(crate) totals: Totals,
    pub(crate) ended: Status,
}

/// Runs workers over one router, each on a twin of the link, and gives the link its twins back. The answer is what they came to, or why
/// there weren't twins or memory enough for all, and then none was run.
pub(crate) fn share_router<
    T: Ledger + Send + Sync,
    S: Ledger + Send + Sync,
    A: Ledger + Send + Sync,
    F: Ledger + Send + Sync,
    W: Ledger + Send + Sync,
    R: Threads + Wait + Sync,
    L: Twin + Send,
    C: Clock + Send,
>(
    rt: &R,
    alloc: Global,
    router: Router,
    workers: u8,
    link: &mut L,
    clock: &mut C,
    pace: Pace,
    turns: Blank,
    slots: Blank,
    accepted: Blank,
    forwarded: Blank,
    answered: Blank,
) -> Result<Shared, LinkFault>
    requires new { router ≡ begin router.setup }
    requires some_worker { 1 ≤ workers }
    requires few_workers { workers ≤ most_workers }
    requires turns { IsBlankOf workers turns.name turns.parts T.name T.parts }
    requires slots { IsBlankOf workers slots.name slots.parts S.name S.parts }
    requires accepted { IsBlankOf workers accepted.name accepted.parts A.name A.parts }
    requires forwarded { IsBlankOf workers forwarded.name forwarded.parts F.name F.parts }
    requires answered { IsBlankOf workers answered.name answered.parts W.name W.parts }
    requires tick { 1 ≤ pace.tick_ms }
    requires most { pace.turns ≤ most_turns }

    // Where all workers came to their ends.
    ensures shared { IfOk result (λ s. IsWholeRun s.ended → (o : Ends) → SharesRouter (slots_of router.setup) workers pace
        (record o { link = L.told link.old; clock = C.left clock.old }) (record o { link = L.told link.new; clock = C.left clock.new }) s.totals s.ended) }

    // However they ended; and where none was run.
    ensures ran { IfOk result (λ s. WorkersRan workers pace (L.told link.old) (L.told link.new) (C.left clock.old) (C.left clock.new) s.ended) }
    ensures none { OnErr result (NoneRan workers (L.told link.old) (L.told link.new)) }
    ensures still { OnErr result (C.left clock.new ≡ C.left clock.old) }

    ensures known { IfOk result (λ s. IsWorkersEnd s.ended) }
    ensures served { IfOk result (λ s. (Rose (L.faults link.old) (L.faults link.new) → ⊥) → (Rose (C.faults clock.old) (C.faults clock.new) → ⊥) → IsServed s.ended) }
    ensures caused { MatchResult result
        (λ s. IsCaused (record calm { link = L.faults link.old; clock = C.faults clock.old }) (record calm { link = L.faults link.new; clock = C.faults clock.new }) s.ended)
        (λ e. IsFault e → Rose (L.faults link.old) (L.faults link.new)) }
    ensures steady { NoneFalls (record calm { link = L.faults link.old; clock = C.faults clock.old }) (record calm { link = L.faults link.new; clock = C.faults clock.new }) }
{
    let made = Desk::<T, S, A, F, W, 0>::make(
        alloc, router, workers, turns, slots, accepted, forwarded, answered,
    );
    let Ok((desk, passes)) = made else {
        return Err(LinkFault::Memory);
    };
    let Ok(back) = Vec::with_capacity(alloc, passes.len()) else {
        return Err(LinkFault::Memory);
    };
    match work_at_desk(rt, alloc, &desk, passes, back, link, clock, pace) {
        Ok(worked) => Ok(Shared {
            totals: totals_of(desk, worked.passes),
            ended: worked.ended,
        }),
        Err(fault) => Err(fault),
    }
}

/// The passes of workers after their runs, and how these ended together.
#[derive(Drop)]
struct Worked<T: Ledger, S: Ledger, A: Ledger, F: Ledger, W: Ledger> {
    passes: Vec<Pass<T, S, A, F, W, 0>>,
    ended: Status,
}

/// Runs a worker for each of these passes, on a twin of the link. The passes are put into an empty list that has room for them.
fn work_at_desk<
    T: Ledger + Send + Sync,
    S: Ledger + Send + Sync,
    A: Ledger + Send + Sync,
    F: Ledger + Send + Sync,
    W: Ledger + Send + Sync,
    R: Threads + Wait + Sync,
    L: Twin + Send,
    C: Clock + Send,
>(
    rt: &R,
    alloc: Global,
    desk: &Desk<T, S, A, F, W, 0>,
    passes: Vec<Pass<T, S, A, F, W, 0>>,
    back: Vec<Pass<T, S, A, F, W, 0>>,
    link: &mut L,
    clock: &mut C,
    pace: Pace,
) -> Result<Worked<T, S, A, F, W>, LinkFault>
    requires fresh { All (λ p. p.made.turns ≡ 0) passes.items }
    requires some { 1 ≤ length passes.items }
    requires empty { back.items ≡ [] }
    requires none { vec_len back ≡ 0 }
    requires room { length passes.items ≤ vec_capacity back }
    requires tick { 1 ≤ pace.tick_ms }
    requires most { pace.turns ≤ most_turns }
    ensures worked { IfOk result (λ w. IsWholeRun w.ended → WorkAtDesk pace passes.items w.passes.items (L.told link.old) (L.told link.new) (C.left clock.old) (C.left clock.new) w.ended) }
    ensures as_many { IfOk result (λ w. length w.passes.items ≡ length passes.items) }
    ensures ran { IfOk result (λ w. WorkersRan (length passes.items) pace (L.told link.old) (L.told link.new) (C.left clock.old) (C.left clock.new) w.ended) }
    ensures none { OnErr result (NoneRan (length passes.items) (L.told link.old) (L.told link.new)) }
    ensures still { OnErr result (C.left clock.new ≡ C.left clock.old) }
    ensures known { IfOk result (λ w. IsWorkersEnd w.ended) }
    ensures served { IfOk result (λ w. (Rose (L.faults link.old) (L.faults link.new) → ⊥) → (Rose (C.faults clock.old) (C.faults clock.new) → ⊥) → IsServed w.ended) }
    ensures caused { MatchResult result
        (λ w. IsCaused (record calm { link = L.faults link.old; clock = C.faults clock.old }) (record calm { link = L.faults link.new; clock = C.faults clock.new }) w.ended)
        (λ e. IsFault e → Rose (L.faults link.old) (L.faults link.new)) }
    ensures steady { NoneFalls (record calm { link = L.faults link.old; clock = C.faults clock.old }) (record calm { link = L.faults link.new; clock = C.faults clock.new }) }
{
    let mut seats = match seat_all(rt, alloc, desk, passes, link, pace) {
        Ok(seats) => seats,
        Err(fault) => return Err(fault),
    };
    run_all(rt, seats.as_mut_slice(), clock);
    let ended = end_of(seats.as_slice());
    let mut passes = back;
    unseat_all(link, seats, &mut passes);
    Ok(Worked { passes, ended })
}

/// What all passes of a desk made.
fn totals_of<T: Ledger, S: Ledger, A: Ledger, F: Ledger, W: Ledger>(
    desk: Desk<T, S, A, F, W, 0>,
    passes: Vec<Pass<T, S, A, F, W, 0>>,
) -> Totals
    requires { desk.made.passes ≤ length passes.items }
    ensures { (trail : List Step) × Settles 0 passes.items result trail }
{
    let fault = match desk.close(passes) {
        Ok(closed) => return closed.totals,
        Err(fault) => fault,
    };
    match fault {
        CloseFault::Differs { totals, .. } => totals,
        CloseFault::Missing { .. } => unreachable!(),
    }
}

/// How these workers ended together.
fn end_of<P: PlainParty, L: Link>(seats: &[Seat<P, L>]) -> Status
    ensures { result ≡ end_of (map (λ s. s.ended) seats.now) }
{
    if let Some(fault) = first_fault(seats) {
        return fault;
    }
    if some_spent(seats) {
        Status::TurnsSpent
    } else {
        Status::Done
    }
}

/// How the lowest of these workers ended that met a fault or found no memory.
fn first_fault<P: PlainParty, L: Link>(seats: &[Seat<P, L>]) -> Option<Status>
    ensures { result ≡ find is_fault (map (λ s. s.ended) seats.now) }
{
    let [seat, others @ ..] = seats else {
        return None;
    };
    match seat.ended {
        Status::Done => first_fault(others),
        Status::TurnsSpent => first_fault(others),
        fault => Some(fault),
    }
}

/// Whether one of these workers made all of its receives.
fn some_spent<P: PlainParty, L: Link>(seats: &[Seat<P, L>]) -> bool
    ensures { result ≡ list_any is_spent (map (λ s. s.ended) seats.now) }
{
    let [seat, others @ ..] = seats else {
        return false;
    };
    match seat.ended {
        Status::TurnsSpent => true,
        _ => some_spent(others),
    }
}
