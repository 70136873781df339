ghost use Rattle.std.specs.Prelude.{IfErr, OnOk};
ghost use Rattle.std.specs.Io.KnownBytes.{Appends};
ghost use Rattle.r2_link.specs.Faults.{NoneFalls, calm};
ghost use Rattle.r2_link.specs.Streams.{AppendsPrefix};
ghost use Rattle.cmd_status.specs.Causes.{IsCaused};
ghost use Rattle.cmd_status.specs.Stops.{StopsBySink};
ghost use Rattle.hc_text.specs.End.{end_text};

use cmd_status::Status;
use hc_text::end_text;
use r2_client::CallEnd;
use r2_link::{Sink, write_all};
use std::alloc::Global;

/// Prints the line of a call's end.
pub(crate) fn print_end<K: Sink>(alloc: Global, end: &CallEnd, sink: &mut K) -> Result<(), Status>
    ensures whole { OnOk result (Appends (K.written sink.old) (K.written sink.new) (end_text end.now)) }
    ensures prefix { AppendsPrefix (K.written sink.old) (K.written sink.new) (end_text end.now) }
    ensures stops { IfErr result (StopsBySink (K.faults sink.old) (K.faults sink.new)) }
    ensures caused { IfErr result (IsCaused (record calm { sink = K.faults sink.old }) (record calm { sink = K.faults sink.new })) }
    ensures steady { NoneFalls (record calm { sink = K.faults sink.old }) (record calm { sink = K.faults sink.new }) }
{
    let Ok(line) = end_text(alloc, end) else {
        return Err(Status::Memory);
    };
    match write_all(sink, line.as_slice()) {
        Ok(()) => Ok(()),
        Err(_) => Err(Status::SinkFault),
    }
}
