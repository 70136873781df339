ghost use Rattle.std.specs.Prelude.{◌≤◌, IfErr, OnOk};
ghost use Rattle.cmd_replay.specs.Replica.{IsRunning, Runs, member_of};
ghost use Rattle.r2_link.specs.Faults.{calm};
ghost use Rattle.cmd_status.specs.Causes.{IsCaused};
ghost use Rattle.cmd_replay.specs.Running.{Ran, StopsText};

use crate::lines::run_line;
use crate::replica::Replica;
use cmd_script::{TextFault, replay_line};
use cmd_status::Status;
use r2_link::Sink;
use std::alloc::Global;

/// Runs the text of a line, the one with this number. An empty text does nothing.
pub(crate) fn run_text<K: Sink>(
    alloc: Global,
    replica: &mut Replica,
    text: &[u8],
    number: u64,
    sink: &mut K,
) -> Result<(), Status>
    requires { IsRunning replica.old }

    ensures ran { OnOk result (Ran replica.old.setup (member_of replica.old) (member_of replica.new) text.now (K.written sink.old) (K.written sink.new)) }
    ensures runs { OnOk result (Runs replica.old.setup (member_of replica.new) replica.new) }
    ensures stops { IfErr result (StopsText replica.old.setup (member_of replica.old) text.now number (K.written sink.old) (K.written sink.new)) }

    ensures caused { IfErr result (IsCaused (record calm { sink = K.faults sink.old }) (record calm { sink = K.faults sink.new })) }
    ensures steady { K.faults sink.old ≤ K.faults sink.new }
{
    if text.is_empty() {
        return Ok(());
    }
    let line = match replay_line(alloc, text) {
        Ok(line) => line,
        Err(TextFault::Memory) => return Err(Status::Memory),
        Err(TextFault::Outside) => return Err(Status::BadScript { line: number }),
    };
    if let Err(status) = run_line(alloc, replica, line, sink) {
        return Err(status);
    }
    Ok(())
}
