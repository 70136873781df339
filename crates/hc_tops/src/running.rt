ghost use Rattle.std.specs.Prelude.{◌≡◌, Option, None, false};
ghost use Rattle.r2_link.specs.Faults.{NoneFalls};
ghost use Rattle.hc_disk.specs.Disk.{Moments};
ghost use Rattle.cmd_status.specs.Causes.{IsCaused};
ghost use Rattle.cmd_status.specs.declared.status.Status.TheVariants.{BadWords};
ghost use Rattle.hc_tops.specs.Commands.{Does, IsCalm, fault_counts, outside, row};

use crate::table::listens_at;
use cmd_aggregator::serve_aggregator;
use cmd_client::{Calling, call_client};
use cmd_loop::{Pace, bind_first};
use cmd_replay::{Setup, replay};
use cmd_replica::run_replica;
use cmd_router::serve_router;
use cmd_server::serve_plain;
use cmd_simulate::{Plan, simulate};
use cmd_status::Status;
use hc_disk::Disk;
use hc_store::Kv;
use hc_text::Meant;
use r2_link::{Clock, Link, Sink, Source, Twin};
use std::alloc::Global;
use std::sync::Wait;
use std::thread::Threads;

/// Runs a command that is plain, whose link is bound. What a disk tells beside it stays.
fn run_bound<S: Source, K: Sink, L: Link, C: Clock>(
    alloc: Global,
    meant: Meant,
    source: &mut S,
    sink: &mut K,
    link: &mut L,
    clock: &mut C,
) -> Status
    requires within { (row meant).is_within }
    requires plain { (row meant).is_plain }

    ensures did { (disk : Option Moments) → (row meant).runs (outside (S.left source.old) (K.written sink.old) (L.told link.old) (C.left clock.old) disk)
        (outside (S.left source.new) (K.written sink.new) (L.told link.new) (C.left clock.new) disk) result }
    ensures well { IsCalm (row meant).uses (fault_counts (S.faults source.old) (K.faults sink.old) (L.faults link.old) (C.faults clock.old) 0) (fault_counts (S.faults source.new) (K.faults sink.new) (L.faults link.new) (C.faults clock.new) 0) → (row meant).ends_well (S.left source.old) result }
    ensures known { result ≡ BadWords → ⊥ }
    ensures caused { IsCaused (fault_counts (S.faults source.old) (K.faults sink.old) (L.faults link.old) (C.faults clock.old) 0) (fault_counts (S.faults source.new) (K.faults sink.new) (L.faults link.new) (C.faults clock.new) 0) result }
    ensures steady { NoneFalls (fault_counts (S.faults source.old) (K.faults sink.old) (L.faults link.old) (C.faults clock.old) 0) (fault_counts (S.faults source.new) (K.faults sink.new) (L.faults link.new) (C.faults clock.new) 0) }

    ensures source_kept { (row meant).uses.source ≡ false → source.new ≡ source.old }
    ensures sink_kept { (row meant).uses.sink ≡ false → sink.new ≡ sink.old }
    ensures link_kept { (row meant).uses.link ≡ false → link.new ≡ link.old }
    ensures clock_kept { (row meant).uses.clock ≡ false → clock.new ≡ clock.old }
{
    match meant {
        Meant::Replica { .. } => unreachable!(),
        Meant::Router { .. } => unreachable!(),
        Meant::Aggregator { .. } => unreachable!(),
        Meant::Server { .. } => unreachable!(),
        Meant::Client {
            listen,
            to,
            policy,
            wait,
            tries,
            tick_ms,
            turns,
        } => {
            let calling = Calling {
                listen,
                to,
                policy,
                wait,
                tries,
            };
            let pace = Pace { tick_ms, turns };
            call_client(alloc, calling, source, sink, link, clock, pace)
        }
        Meant::Replay {
            members,
            me,
            aggregator,
            bounds,
            election,
        } => {
            let setup = Setup {
                members,
                me,
                aggregator,
                bounds,
                election,
            };
            replay(alloc, setup, source, sink)
        }
        Meant::Simulate {
            seed,
            members,
            requests,
            loss,
            repeat,
            crash,
            bounds,
            aggregator,
        } => {
            let plan = Plan {
                seed,
                members,
                requests,
                loss,
                repeat,
                crash,
                bounds,
                aggregator,
            };
            simulate(alloc, plan, sink)
        }
    }
}

/// Binds the link where a command listens, and runs the command, one that is plain. What a disk tells beside it stays.
pub(crate) fn run_plain_meant<S: Source, K: Sink, L: Link, C: Clock>(
    alloc: Global,
    meant: Meant,
    source: &mut S,
    sink: &mut K,
    link: &mut L,
    clock: &mut C,
) -> Status
    requires within { (row meant).is_within }
    requires plain { (row meant).is_plain }

    ensures did { (disk : Option Moments) → Does (row meant) (outside (S.left source.old) (K.written sink.old) (L.told link.old) (C.left clock.old) disk)
        (outside (S.left source.new) (K.written sink.new) (L.told link.new) (C.left clock.new) disk) result }
    ensures well { IsCalm (row meant).uses (fault_counts (S.faults source.old) (K.faults sink.old) (L.faults link.old) (C.faults clock.old) 0) (fault_counts (S.faults source.new) (K.faults sink.new) (L.faults link.new) (C.faults clock.new) 0) → (row meant).ends_well (S.left source.old) result }
    ensures known { result ≡ BadWords → ⊥ }
    ensures caused { IsCaused (fault_counts (S.faults source.old) (K.faults sink.old) (L.faults link.old) (C.faults clock.old) 0) (fault_counts (S.faults source.new) (K.faults sink.new) (L.faults link.new) (C.faults clock.new) 0) result }
    ensures steady { NoneFalls (fault_counts (S.faults source.old) (K.faults sink.old) (L.faults link.old) (C.faults clock.old) 0) (fault_counts (S.faults source.new) (K.faults sink.new) (L.faults link.new) (C.faults clock.new) 0) }

    ensures source_kept { (row meant).uses.source ≡ false → source.new ≡ source.old }
    ensures sink_kept { (row meant).uses.sink ≡ false → sink.new ≡ sink.old }
    ensures link_kept { (row meant).uses.link ≡ false → link.new ≡ link.old }
    ensures clock_kept { (row meant).uses.clock ≡ false → clock.new ≡ clock.old }
{
    if let Err(status) = bind_first(listens_at(&meant), link) {
        return status;
    }
    run_bound(alloc, meant, source, sink, link, clock)
}

/// Binds the link where a command listens, and runs the command.
pub(crate) fn run_meant<
    R: Threads + Wait + Sync,
    S: Source,
    K: Sink,
    L: Twin + Send,
    D: Disk,
    C: Clock + Send,
>(
    rt: &R,
    alloc: Global,
    meant: Meant,
    source: &mut S,
    sink: &mut K,
    link: &mut L,
    disk: &mut D,
    clock: &mut C,
) -> Status
    requires { (row meant).is_within }

    ensures did { Does (row meant) (outside (S.left source.old) (K.written sink.old) (L.told link.old) (C.left clock.old) (D.told disk.old))
        (outside (S.left source.new) (K.written sink.new) (L.told link.new) (C.left clock.new) (D.told disk.new)) result }
    ensures well { IsCalm (row meant).uses (fault_counts (S.faults source.old) (K.faults sink.old) (L.faults link.old) (C.faults clock.old) (D.faults disk.old)) (fault_counts (S.faults source.new) (K.faults sink.new) (L.faults link.new) (C.faults clock.new) (D.faults disk.new)) → (row meant).ends_well (S.left source.old) result }
    ensures known { result ≡ BadWords → ⊥ }
    ensures caused { IsCaused (fault_counts (S.faults source.old) (K.faults sink.old) (L.faults link.old) (C.faults clock.old) (D.faults disk.old)) (fault_counts (S.faults source.new) (K.faults sink.new) (L.faults link.new) (C.faults clock.new) (D.faults disk.new)) result }
    ensures steady { NoneFalls (fault_counts (S.faults source.old) (K.faults sink.old) (L.faults link.old) (C.faults clock.old) (D.faults disk.old)) (fault_counts (S.faults source.new) (K.faults sink.new) (L.faults link.new) (C.faults clock.new) (D.faults disk.new)) }

    ensures source_kept { (row meant).uses.source ≡ false → source.new ≡ source.old }
    ensures sink_kept { (row meant).uses.sink ≡ false → sink.new ≡ sink.old }
    ensures link_kept { (row meant).uses.link ≡ false → link.new ≡ link.old }
    ensures clock_kept { (row meant).uses.clock ≡ false → clock.new ≡ clock.old }
    ensures disk_kept { (row meant).uses.disk ≡ false → disk.new ≡ disk.old }
{
    match meant {
        Meant::Replica {
            members,
            me,
            journal,
            aggregator,
            bounds,
            election,
            tick_ms,
            turns,
        } => {
            let setup = Setup {
                members,
                me,
                aggregator,
                bounds,
                election,
            };
            let pace = Pace { tick_ms, turns };
            run_replica(
                alloc,
                setup,
                journal.as_str(),
                Kv::new(alloc),
                disk,
                link,
                clock,
                pace,
            )
        }
        Meant::Router {
            listen,
            servers,
            n,
            workers,
            tick_ms,
            turns,
        } => {
            if let Err(status) = bind_first(Some(listen), link) {
                return status;
            }
            let pace = Pace { tick_ms, turns };
            serve_router(
                rt, alloc, listen, servers, n, workers, sink, link, clock, pace,
            )
        }
        Meant::Aggregator {
            listen,
            members,
            turns,
        } => {
            if let Err(status) = bind_first(Some(listen), link) {
                return status;
            }
            serve_aggregator(alloc, listen, members, link, turns)
        }
        Meant::Server {
            listen,
            router,
            tick_ms,
            turns,
        } => {
            if let Err(status) = bind_first(Some(listen), link) {
                return status;
            }
            let pace = Pace { tick_ms, turns };
            serve_plain(alloc, listen, router, Kv::new(alloc), link, clock, pace)
        }
        plain => run_plain_meant(alloc, plain, source, sink, link, clock),
    }
}
