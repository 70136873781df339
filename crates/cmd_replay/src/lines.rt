//! What a line makes of a replica, and what it prints.
ghost use Rattle.std.specs.Prelude.{◌≡◌, ◌≤◌, ◌++◌, None, IfErr, IfSome, OnOk, OnErr};
ghost use Rattle.std.specs.Io.KnownBytes.{Appends};
ghost use Rattle.r2_link.specs.Streams.{AppendsPrefix};
ghost use Rattle.hc_log.specs.Ranges.{IsInRange};
ghost use Rattle.cmd_status.specs.Stops.{StopsBySink};
ghost use Rattle.hc_member.specs.Finish.{finished};
ghost use Rattle.hc_member.specs.Turn.{turned};
ghost use Rattle.cmd_replay.specs.Printed.{turn_text};
ghost use Rattle.cmd_replay.specs.Replica.{IsRunning, Runs, member_of};
ghost use Rattle.cmd_replay.specs.Script.{batch_text, last_text, line_text, line_turn, reacted_text};

use crate::print::print_turn;
use crate::replica::{Replica, WholeTurn};
use cmd_script::Line;
use cmd_status::Status;
use r2_base::{Event, NoMemory};
use r2_link::Sink;
use std::alloc::Global;

/// Prints a turn: the record before the datagrams, those of what was pending first.
fn print_whole<K: Sink>(alloc: Global, turn: &WholeTurn, sink: &mut K) -> Result<(), Status>
    requires { IfSome turn.now.reaction.stored IsInRange }
    ensures whole { OnOk result (Appends (K.written sink.old) (K.written sink.new)
        (turn_text turn.now.reaction.stored (turn.now.replies ++ turn.now.reaction.sends))) }
    ensures prefix { AppendsPrefix (K.written sink.old) (K.written sink.new)
        (turn_text turn.now.reaction.stored (turn.now.replies ++ turn.now.reaction.sends)) }
    ensures stops { IfErr result (λ status. StopsBySink (K.faults sink.old) (K.faults sink.new) status) }
    ensures steady { K.faults sink.old ≤ K.faults sink.new }
{
    if let Err(status) = print_turn(alloc, sink, &turn.reaction.stored, turn.replies.as_slice()) {
        return Err(status);
    }
    if let Err(status) = print_turn(alloc, sink, &None, turn.reaction.sends.as_slice()) {
        return Err(status);
    }
    Ok(())
}

/// Makes a turn, prints it, and keeps its record.
fn take_turn<K: Sink>(
    alloc: Global,
    replica: &mut Replica,
    event: &Event,
    sink: &mut K,
) -> Result<(), Status>
    requires { IsRunning replica.old }

    ensures runs { OnOk result (Runs replica.old.setup (turned replica.old.setup (member_of replica.old) event.now).member replica.new) }
    ensures whole { OnOk result (Appends (K.written sink.old) (K.written sink.new)
        (reacted_text replica.old.setup (turned replica.old.setup (member_of replica.old) event.now))) }
    ensures prefix { OnErr result (AppendsPrefix (K.written sink.old) (K.written sink.new)
        (reacted_text replica.old.setup (turned replica.old.setup (member_of replica.old) event.now))) }

    ensures stops { IfErr result (λ status. StopsBySink (K.faults sink.old) (K.faults sink.new) status) }
    ensures steady { K.faults sink.old ≤ K.faults sink.new }
{
    let Ok(turn) = replica.turn(event) else {
        return Err(Status::Memory);
    };
    if let Err(status) = print_whole(alloc, &turn, sink) {
        return Err(status);
    }
    let WholeTurn {
        replies: _,
        reaction,
    } = turn;
    match replica.keep(reaction) {
        Ok(()) => Ok(()),
        Err(NoMemory) => Err(Status::Memory),
    }
}

/// Does what a line says: a restart makes the replica anew, and each other line is a turn.
pub(crate) fn run_line<K: Sink>(
    alloc: Global,
    replica: &mut Replica,
    line: Line,
    sink: &mut K,
) -> Result<(), Status>
    requires { IsRunning replica.old }

    ensures runs { OnOk result (Runs replica.old.setup (line_turn replica.old.setup (member_of replica.old) line).member replica.new) }
    ensures whole { OnOk result (Appends (K.written sink.old) (K.written sink.new) (line_text replica.old.setup (member_of replica.old) line)) }
    ensures prefix { OnErr result (AppendsPrefix (K.written sink.old) (K.written sink.new) (line_text replica.old.setup (member_of replica.old) line)) }

    ensures stops { IfErr result (λ status. StopsBySink (K.faults sink.old) (K.faults sink.new) status) }
    ensures steady { K.faults sink.old ≤ K.faults sink.new }
{
    let Some(event) = replica.event_of(line) else {
        return match replica.restart(alloc) {
            Ok(()) => Ok(()),
            Err(NoMemory) => Err(Status::Memory),
        };
    };
    take_turn(alloc, replica, &event, sink)
}

/// Applies one batch of what is committed, and prints the replies.
fn take_batch<K: Sink>(alloc: Global, replica: &mut Replica, sink: &mut K) -> Result<(), Status>
    requires { IsRunning replica.old }

    ensures runs { OnOk result (Runs replica.old.setup (finished replica.old.setup (member_of replica.old)).member replica.new) }
    ensures whole { OnOk result (Appends (K.written sink.old) (K.written sink.new) (batch_text replica.old.setup (member_of replica.old))) }
    ensures prefix { AppendsPrefix (K.written sink.old) (K.written sink.new) (batch_text replica.old.setup (member_of replica.old)) }

    ensures stops { IfErr result (λ status. StopsBySink (K.faults sink.old) (K.faults sink.new) status) }
    ensures steady { K.faults sink.old ≤ K.faults sink.new }
{
    let Ok(replies) = replica.finish() else {
        return Err(Status::Memory);
    };
    if let Err(status) = print_turn(alloc, sink, &None, replies.as_slice()) {
        return Err(status);
    }
    Ok(())
}

/// Applies all that is committed, batch by batch, and prints the replies.
pub(crate) fn close<K: Sink>(
    alloc: Global,
    replica: &mut Replica,
    sink: &mut K,
) -> Result<(), Status>
    requires { IsRunning replica.old }

    ensures whole { OnOk result (Appends (K.written sink.old) (K.written sink.new) (last_text replica.old.setup (member_of replica.old))) }
    ensures prefix { AppendsPrefix (K.written sink.old) (K.written sink.new) (last_text replica.old.setup (member_of replica.old)) }

    ensures stops { IfErr result (λ status. StopsBySink (K.faults sink.old) (K.faults sink.new) status) }
    ensures steady { K.faults sink.old ≤ K.faults sink.new }
{
    'batches: while !replica.is_settled() {
        if let Err(status) = take_batch(alloc, replica, sink) {
            return Err(status);
        }
    }
    Ok(())
}
