ghost use Rattle.std.specs.Prelude.{◌≡◌, ◌⊎◌, ◌≤◌, ◌*◌, length};
ghost use Rattle.std.specs.Io.KnownBytes.{Appends, Keeps};
ghost use Rattle.r2_base.specs.Limits.{most_turns};
ghost use Rattle.r2_jbsq.specs.Limits.{greatest_n, most_servers};
ghost use Rattle.r2_desk.specs.Limits.{most_workers};
ghost use Rattle.r2_link.specs.Faults.{NoneFalls, Rose, calm};
ghost use Rattle.r2_link.specs.Streams.{AppendsPrefix};
ghost use Rattle.cmd_status.specs.Causes.{IsCaused};
ghost use Rattle.cmd_status.specs.declared.status.Status.TheVariants.{SinkFault};
ghost use Rattle.cmd_loop.specs.Ends.{Ends};
ghost use Rattle.cmd_loop.specs.Loop.{IsServed};
ghost use Rattle.cmd_router.specs.Routes.{IsWholeRun, Routes};
ghost use Rattle.cmd_router.specs.Shares.{Shares};
ghost use Rattle.cmd_router.specs.Totals.{totals_line};

use crate::on_twin::serve_on_twin;
use crate::router_totals::write_totals;
use crate::routing_party::RoutingParty;
use crate::sharing::share_router;
use cmd_loop::{Pace, Plain};
use cmd_status::Status;
use r2_base::{Addr, Addrs};
use r2_desk::Totals;
use r2_jbsq::Router;
use r2_link::{Clock, LinkFault, Sink, Twin};
use std::alloc::Global;
use std::marker::Brand;
use std::sync::Wait;
use std::sync::ledger::Blank;
use std::thread::Threads;

/// Runs a new router at `me` before 1 to 64 servers, of which each may hold `n` requests, 1 to 16, with 1 to 16 workers, each on a twin
/// of its own of the link, until all twins end, something fails, or each worker made so many receives.
///
/// The twins are made first, in order; where one is refused no worker starts, and nothing is received or sent. The first worker alone
/// has the clock and the ticks. A worker that meets a fault ends, and the others go on. The run ends as the lowest worker that met a
/// fault or found no memory, by their order and not by the moment; where none did, by the last receive if some worker made all of its
/// receives, and else by the end.
///
/// Where no worker met a fault or found no memory, one line is printed: `turns A accepted B forwarded C answered D`, with the number
/// of datagrams, quiets and ticks, and of the requests that were accepted, forwarded and answered.
pub fn serve_router<R: Threads + Wait + Sync, K: Sink, L: Twin + Send, C: Clock + Send>(
    rt: &R,
    alloc: Global,
    me: Addr,
    servers: Addrs,
    n: u8,
    workers: u8,
    sink: &mut K,
    link: &mut L,
    clock: &mut C,
    pace: Pace,
) -> Status
    requires some_server { 1 ≤ length servers }
    requires few_servers { length servers ≤ most_servers }
    requires some_request { 1 ≤ n }
    requires few_requests { n ≤ greatest_n }
    requires some_worker { 1 ≤ workers }
    requires few_workers { workers ≤ most_workers }
    requires tick { 1 ≤ pace.tick_ms }
    requires turns { pace.turns ≤ most_turns }

    // What was received and sent, and what was printed: exactly, with one worker. With more, what they did together; where one of them
    // failed, by each one's loop, and where none was run, nothing.
    ensures ran { workers ≡ 1 → (o : Ends) → Routes (record { me = me; servers = servers; n = n }) pace
        (record o { written = K.written sink.old; link = L.told link.old; clock = C.left clock.old })
        (record o { written = K.written sink.new; link = L.told link.new; clock = C.left clock.new }) result }
    ensures shared { 2 ≤ workers → (o : Ends) → Shares (length servers * n) workers pace
        (record o { written = K.written sink.old; link = L.told link.old; clock = C.left clock.old })
        (record o { written = K.written sink.new; link = L.told link.new; clock = C.left clock.new }) result }

    // Where neither the link nor the clock nor the sink failed, the twin ended, all receives were made, or memory ran out.
    ensures complete { (Rose (L.faults link.old) (L.faults link.new) → ⊥) → (Rose (C.faults clock.old) (C.faults clock.new) → ⊥)
        → (Rose (K.faults sink.old) (K.faults sink.new) → ⊥) → IsServed result }

    ensures caused { IsCaused (record calm { sink = K.faults sink.old; link = L.faults link.old; clock = C.faults clock.old })
        (record calm { sink = K.faults sink.new; link = L.faults link.new; clock = C.faults clock.new }) result }
    ensures steady { NoneFalls (record calm { sink = K.faults sink.old; link = L.faults link.old; clock = C.faults clock.old })
        (record calm { sink = K.faults sink.new; link = L.faults link.new; clock = C.faults clock.new }) }
{
    if workers == 1 {
        return serve_alone(alloc, me, servers, n, sink, link, clock, pace);
    }
    serve_shared(rt, alloc, me, servers, n, workers, sink, link, clock, pace)
}

/// Runs a new router at `me` before 1 to 64 servers, of which each may hold `n` requests, 1 to 16, on one twin of a link, until the
/// twin ends, something fails, or so many receives were made. There is one worker.
///
/// Where the twin ended or all receives were made, one line is printed: `turns A accepted B forwarded C answered D`, with the number
/// of datagrams, quiets and ticks, and of the requests that were accepted, forwarded and answered.
pub(crate) fn serve_alone<K: Sink, L: Twin, C: Clock>(
    alloc: Global,
    me: Addr,
    servers: Addrs,
    n: u8,
    sink: &mut K,
    link: &mut L,
    clock: &mut C,
    pace: Pace,
) -> Status
    requires some_server { 1 ≤ length servers }
    requires few_servers { length servers ≤ most_servers }
    requires some_request { 1 ≤ n }
    requires few_requests { n ≤ greatest_n }
    requires tick { 1 ≤ pace.tick_ms }
    requires turns { pace.turns ≤ most_turns }

    // What was received and sent on the twin, and what was printed.
    ensures ran { (o : Ends) → Routes (record { me = me; servers = servers; n = n }) pace
        (record o { written = K.written sink.old; link = L.told link.old; clock = C.left clock.old })
        (record o { written = K.written sink.new; link = L.told link.new; clock = C.left clock.new }) result }

    // Where neither the link nor the clock nor the sink failed, the twin ended, all receives were made, or memory ran out.
    ensures complete { (Rose (L.faults link.old) (L.faults link.new) → ⊥) → (Rose (C.faults clock.old) (C.faults clock.new) → ⊥)
        → (Rose (K.faults sink.old) (K.faults sink.new) → ⊥) → IsServed result }

    ensures caused { IsCaused (record calm { sink = K.faults sink.old; link = L.faults link.old; clock = C.faults clock.old })
        (record calm { sink = K.faults sink.new; link = L.faults link.new; clock = C.faults clock.new }) result }
    ensures steady { NoneFalls (record calm { sink = K.faults sink.old; link = L.faults link.old; clock = C.faults clock.old })
        (record calm { sink = K.faults sink.new; link = L.faults link.new; clock = C.faults clock.new }) }
{
    let Ok(party) = RoutingParty::new(alloc, me, servers, n) else {
        return Status::Memory;
    };
    let mut party = Plain { party };
    match serve_on_twin(alloc, &mut party, link, clock, pace) {
        Ok(ended) => tell_end(sink, party.party.totals(), ended),
        Err(LinkFault::Failed) => Status::LinkFault,
        Err(LinkFault::Memory) => Status::Memory,
    }
}

/// Runs a router with several workers, which share it.
fn serve_shared<R: Threads + Wait + Sync, K: Sink, L: Twin + Send, C: Clock + Send>(
    rt: &R,
    alloc: Global,
    me: Addr,
    servers: Addrs,
    n: u8,
    workers: u8,
    sink: &mut K,
    link: &mut L,
    clock: &mut C,
    pace: Pace,
) -> Status
    requires some_server { 1 ≤ length servers }
    requires few_servers { length servers ≤ most_servers }
    requires some_request { 1 ≤ n }
    requires few_requests { n ≤ greatest_n }
    requires some_worker { 1 ≤ workers }
    requires few_workers { workers ≤ most_workers }
    requires tick { 1 ≤ pace.tick_ms }
    requires turns { pace.turns ≤ most_turns }
    ensures shared { (o : Ends) → Shares (length servers * n) workers pace
        (record o { written = K.written sink.old; link = L.told link.old; clock = C.left clock.old })
        (record o { written = K.written sink.new; link = L.told link.new; clock = C.left clock.new }) result }
    ensures complete { (Rose (L.faults link.old) (L.faults link.new) → ⊥) → (Rose (C.faults clock.old) (C.faults clock.new) → ⊥)
        → (Rose (K.faults sink.old) (K.faults sink.new) → ⊥) → IsServed result }
    ensures caused { IsCaused (record calm { sink = K.faults sink.old; link = L.faults link.old; clock = C.faults clock.old })
        (record calm { sink = K.faults sink.new; link = L.faults link.new; clock = C.faults clock.new }) result }
    ensures steady { NoneFalls (record calm { sink = K.faults sink.old; link = L.faults link.old; clock = C.faults clock.old })
        (record calm { sink = K.faults sink.new; link = L.faults link.new; clock = C.faults clock.new }) }
{
    let Ok(router) = Router::new(alloc, me, servers, n) else {
        return Status::Memory;
    };
    let parts = u64::from(workers);
    let shared = share_router::<Brand, Brand, Brand, Brand, Brand, R, L, C>(
        rt,
        alloc,
        router,
        workers,
        link,
        clock,
        pace,
        Blank::new(parts),
        Blank::new(parts),
        Blank::new(parts),
        Blank::new(parts),
        Blank::new(parts),
    );
    match shared {
        Ok(shared) => tell_end(sink, shared.totals, shared.ended),
        Err(LinkFault::Failed) => Status::LinkFault,
        Err(LinkFault::Memory) => Status::Memory,
    }
}

/// How a router's run ends whose loop ended so: where that was by the twin's end or the last turn, the totals are printed.
fn tell_end<K: Sink>(sink: &mut K, totals: Totals, ended: Status) -> Status
    ensures untold { (IsWholeRun ended → ⊥) → (result ≡ ended) × Keeps (K.written sink.old) (K.written sink.new) }
    ensures told { IsWholeRun ended
        → ((result ≡ ended) × Appends (K.written sink.old) (K.written sink.new) (totals_line totals.turns totals.accepted totals.forwarded totals.answered))
        ⊎ ((result ≡ SinkFault) × AppendsPrefix (K.written sink.old) (K.written sink.new) (totals_line totals.turns totals.accepted totals.forwarded totals.answered)) }
    ensures cause { (result ≡ ended) ⊎ ((result ≡ SinkFault) × Rose (K.faults sink.old) (K.faults sink.new)) }
    ensures steady { K.faults sink.old ≤ K.faults sink.new }
{
    match ended {
        Status::Done => {}
        Status::TurnsSpent => {}
        _ => return ended,
    }
    if let Err(_) = write_totals(sink, totals) {
        return Status::SinkFault;
    }
    ended
}
