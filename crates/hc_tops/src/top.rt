ghost use Rattle.std.specs.Prelude.{◌≡◌, ◌≤◌, None, map};
ghost use Rattle.std.specs.String.{string_bytes};
ghost use Rattle.hc_text.specs.Words.{Means};
ghost use Rattle.cmd_status.specs.Stops.{Reports};
ghost use Rattle.cmd_status.specs.Texts.{error_text};
ghost use Rattle.hc_tops.specs.Commands.{Ran, Spares, fault_counts, outside, refusal_of, row};

use crate::running::{run_meant, run_plain_meant};
use crate::table::is_plain;
use cmd_status::{Status, report};
use hc_disk::Disk;
use hc_text::{TextFault, meaning};
use r2_link::{Clock, Link, Sink, Source, Twin};
use std::alloc::Global;
use std::sync::Wait;
use std::thread::Threads;

/// How a run ends whose words couldn't be read.
fn refusal(fault: TextFault) -> Status
    ensures { result ≡ refusal_of fault }
{
    match fault {
        TextFault::Outside => Status::BadWords,
        TextFault::Memory => Status::Memory,
    }
}

/// The commands that need no twin of the link and no disk and serve nobody: a client's calls, a replay and a simulation, and the line on `errors` where it
/// didn't go well.
///
/// A client's link is bound to its address first. A failing `errors` changes no status.
pub fn run_plain<S: Source, K: Sink, E: Sink, L: Link, C: Clock>(
    alloc: Global,
    words: &[String],
    source: &mut S,
    sink: &mut K,
    errors: &mut E,
    link: &mut L,
    clock: &mut C,
) -> Status
    // The words are refused where they mean nothing, a replica, a router, an aggregator or a server, and only there, or memory runs out first;
    // else the command ran that they mean.
    ensures ran { Ran (λ m. Means (map (λ w. string_bytes w) words.now) m × (row m).is_plain) (outside (S.left source.old) (K.written sink.old) (L.told link.old) (C.left clock.old) None)
        (outside (S.left source.new) (K.written sink.new) (L.told link.new) (C.left clock.new) None)
        (fault_counts (S.faults source.old) (K.faults sink.old) (L.faults link.old) (C.faults clock.old) 0)
        (fault_counts (S.faults source.new) (K.faults sink.new) (L.faults link.new) (C.faults clock.new) 0) result }

    // What the command doesn't use, or where there is none, is left as it was.
    ensures source_kept { Spares (λ m. Means (map (λ w. string_bytes w) words.now) m × (row m).is_plain) (λ u. u.source) → source.new ≡ source.old }
    ensures sink_kept { Spares (λ m. Means (map (λ w. string_bytes w) words.now) m × (row m).is_plain) (λ u. u.sink) → sink.new ≡ sink.old }
    ensures link_kept { Spares (λ m. Means (map (λ w. string_bytes w) words.now) m × (row m).is_plain) (λ u. u.link) → link.new ≡ link.old }
    ensures clock_kept { Spares (λ m. Means (map (λ w. string_bytes w) words.now) m × (row m).is_plain) (λ u. u.clock) → clock.new ≡ clock.old }

    // The errors gain exactly the line of the status, or a prefix of it where they failed.
    ensures told { Reports (E.written errors.old) (E.written errors.new) (E.faults errors.old) (E.faults errors.new) (error_text result) }
    ensures errors_steady { E.faults errors.old ≤ E.faults errors.new }
{
    let meant = match meaning(alloc, words) {
        Ok(meant) => meant,
        Err(fault) => {
            let status = refusal(fault);
            report(errors, status);
            return status;
        }
    };
    if !is_plain(&meant) {
        report(errors, Status::BadWords);
        return Status::BadWords;
    }
    let status = run_plain_meant(alloc, meant, source, sink, link, clock);
    report(errors, status);
    status
}

/// All that the program does: what the words ask for, and the line on `errors` where it didn't go well.
///
/// The link of a router, aggregator, server or client is bound to its address first. A replica's journal is recovered from its file,
/// and only then is its link bound. A router's workers beside the first are threads of `rt`; no other command begins one. A failing
/// `errors` changes no status.
pub fn run<
    R: Threads + Wait + Sync,
    S: Source,
    K: Sink,
    E: Sink,
    L: Twin + Send,
    D: Disk,
    C: Clock + Send,
>(
    rt: &R,
    alloc: Global,
    words: &[String],
    source: &mut S,
    sink: &mut K,
    errors: &mut E,
    link: &mut L,
    disk: &mut D,
    clock: &mut C,
) -> Status
    // The words are refused where they mean nothing, and only there, or memory runs out first; else the command ran that they mean.
    ensures ran { Ran (Means (map (λ w. string_bytes w) words.now)) (outside (S.left source.old) (K.written sink.old) (L.told link.old) (C.left clock.old) (D.told disk.old))
        (outside (S.left source.new) (K.written sink.new) (L.told link.new) (C.left clock.new) (D.told disk.new))
        (fault_counts (S.faults source.old) (K.faults sink.old) (L.faults link.old) (C.faults clock.old) (D.faults disk.old))
        (fault_counts (S.faults source.new) (K.faults sink.new) (L.faults link.new) (C.faults clock.new) (D.faults disk.new)) result }

    // What the command doesn't use, or where there is none, is left as it was.
    ensures source_kept { Spares (Means (map (λ w. string_bytes w) words.now)) (λ u. u.source) → source.new ≡ source.old }
    ensures sink_kept { Spares (Means (map (λ w. string_bytes w) words.now)) (λ u. u.sink) → sink.new ≡ sink.old }
    ensures link_kept { Spares (Means (map (λ w. string_bytes w) words.now)) (λ u. u.link) → link.new ≡ link.old }
    ensures clock_kept { Spares (Means (map (λ w. string_bytes w) words.now)) (λ u. u.clock) → clock.new ≡ clock.old }
    ensures disk_kept { Spares (Means (map (λ w. string_bytes w) words.now)) (λ u. u.disk) → disk.new ≡ disk.old }

    // The errors gain exactly the line of the status, or a prefix of it where they failed.
    ensures told { Reports (E.written errors.old) (E.written errors.new) (E.faults errors.old) (E.faults errors.new) (error_text result) }
    ensures errors_steady { E.faults errors.old ≤ E.faults errors.new }
{
    let meant = match meaning(alloc, words) {
        Ok(meant) => meant,
        Err(fault) => {
            let status = refusal(fault);
            report(errors, status);
            return status;
        }
    };
    let status = run_meant(rt, alloc, meant, source, sink, link, disk, clock);
    report(errors, status);
    status
}
