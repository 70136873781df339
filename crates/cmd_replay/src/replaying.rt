ghost use Rattle.std.specs.Prelude.{◌≡◌, ℕ, List, Some};
ghost use Rattle.r2_link.specs.Faults.{NoneFalls, Rose, calm};
ghost use Rattle.cmd_status.specs.Causes.{IsCaused};
ghost use Rattle.hc_member.specs.Member.{beginning};
ghost use Rattle.hc_member.specs.Setup.{IsSetup};
ghost use Rattle.cmd_replay.specs.Grammar.{IsScript};
ghost use Rattle.cmd_replay.specs.Replay.{IsComplete, IsReplay};
ghost use Rattle.cmd_replay.specs.Replica.{IsRunning, member_of};
ghost use Rattle.cmd_replay.specs.Running.{ClosesScript};
ghost use Rattle.cmd_replay.specs.Script.{last_text};

use crate::lines::close;
use crate::replica::Replica;
use crate::running::run_text;
use cmd_lines::{LINE_LIMIT, LineReader};
use cmd_status::Status;
use hc_node::Setup;
use r2_link::{Sink, Source};
use std::alloc::Global;

/// Runs the script line by line. A line that is known is run before more of the source is read.
fn run_lines<S: Source, K: Sink>(
    alloc: Global,
    replica: &mut Replica,
    source: &mut S,
    sink: &mut K,
) -> Status
    requires runs { IsRunning replica.old }
    requires begun { member_of replica.old ≡ beginning }

    ensures ran { IsReplay replica.old.setup (S.left source.old) (S.left source.new) (K.written sink.old) (K.written sink.new) result }

    ensures caused { IsCaused (record calm { source = S.faults source.old; sink = K.faults sink.old }) (record calm { source = S.faults source.new; sink = K.faults sink.new }) result }
    ensures steady { NoneFalls (record calm { source = S.faults source.old; sink = K.faults sink.old }) (record calm { source = S.faults source.new; sink = K.faults sink.new }) }
{
    let mut reader = LineReader::new(alloc, LINE_LIMIT);
    'lines: loop {
        let text = match reader.next_line(alloc, source) {
            Ok(Some(text)) => text,
            Ok(None) => return close_script(alloc, replica, sink),
            Err(fault) => return fault.status(reader.lines() + 1),
        };
        let number = reader.lines();
        if let Err(status) = run_text(alloc, replica, text.as_slice(), number, sink) {
            return status;
        }
    }
}

/// Prints what comes after the last line, and says how the run ended.
fn close_script<K: Sink>(alloc: Global, replica: &mut Replica, sink: &mut K) -> Status
    requires { IsRunning replica.old }

    ensures closed { ClosesScript (K.written sink.old) (K.written sink.new) (last_text replica.old.setup (member_of replica.old)) result }
    ensures caused { IsCaused (record calm { sink = K.faults sink.old }) (record calm { sink = K.faults sink.new }) result }
    ensures steady { NoneFalls (record calm { sink = K.faults sink.old }) (record calm { sink = K.faults sink.new }) }
{
    match close(alloc, replica, sink) {
        Ok(()) => Status::Done,
        Err(status) => status,
    }
}

/// Runs the script that `source` gives, one replica of a group, and writes what it prints to `sink`.
///
/// Lines that are known run before more of the source is read; of a turn the record is printed before the datagrams.
/// Whether the source or the sink failed is reported by the status alone: both stay as their last call left them.
pub fn replay<S: Source, K: Sink>(
    alloc: Global,
    setup: Setup,
    source: &mut S,
    sink: &mut K,
) -> Status
    requires { IsSetup setup }

    ensures ran { IsReplay setup (S.left source.old) (S.left source.new) (K.written sink.old) (K.written sink.new) result }

    // A script in its grammar, where neither the source nor the sink failed, is run to its end, or ends at 2^56 bytes or
    // where memory runs out.
    ensures complete { (script : List ℕ) → S.left source.old ≡ Some script → IsScript script
        → (Rose (S.faults source.old) (S.faults source.new) → ⊥) → (Rose (K.faults sink.old) (K.faults sink.new) → ⊥) → IsComplete result }

    ensures caused { IsCaused (record calm { source = S.faults source.old; sink = K.faults sink.old }) (record calm { source = S.faults source.new; sink = K.faults sink.new }) result }
    ensures steady { NoneFalls (record calm { source = S.faults source.old; sink = K.faults sink.old }) (record calm { source = S.faults source.new; sink = K.faults sink.new }) }
{
    let Ok(mut replica) = Replica::begin(alloc, setup) else {
        return Status::Memory;
    };
    run_lines(alloc, &mut replica, source, sink)
}
