ghost use Rattle.std.specs.Prelude.{◌≤◌, ◌++◌, OnErr, OnOk};
ghost use Rattle.std.specs.Io.KnownBytes.{Appends};
ghost use Rattle.r2_link.specs.Faults.{Rose};
ghost use Rattle.r2_link.specs.Streams.{AppendsPrefix};
ghost use Rattle.cmd_router.specs.Totals.{count_text, totals_line};

use cmd_status::write_decimal;
use r2_base::Failed;
use r2_desk::Totals;
use r2_link::{Sink, write_all};

/// Writes the line of totals, which takes no memory: the turns are the datagrams and quiets that were received, and the ticks.
#[tactic(auto, unfolding(crate::specs::Totals::totals_line))]
pub(crate) fn write_totals<K: Sink>(sink: &mut K, totals: Totals) -> Result<(), Failed>
    ensures whole { OnOk result (Appends (K.written sink.old) (K.written sink.new) (totals_line totals.turns totals.accepted totals.forwarded totals.answered)) }
    ensures prefix { AppendsPrefix (K.written sink.old) (K.written sink.new) (totals_line totals.turns totals.accepted totals.forwarded totals.answered) }
    ensures steady { K.faults sink.old ≤ K.faults sink.new }
    ensures cause { OnErr result (Rose (K.faults sink.old) (K.faults sink.new)) }
{
    write_count(sink, b"turns ", totals.turns)?;
    write_count(sink, b" accepted ", totals.accepted)?;
    write_count(sink, b" forwarded ", totals.forwarded)?;
    write_count(sink, b" answered ", totals.answered)?;
    write_all(sink, b"\n")
}

/// Writes a name, and a number in decimal.
#[tactic(auto, unfolding(crate::specs::Totals::count_text))]
fn write_count<K: Sink>(sink: &mut K, name: &[u8], n: u64) -> Result<(), Failed>
    ensures whole { OnOk result (Appends (K.written sink.old) (K.written sink.new) (count_text name.now n)) }
    ensures prefix { AppendsPrefix (K.written sink.old) (K.written sink.new) (count_text name.now n) }
    ensures steady { K.faults sink.old ≤ K.faults sink.new }
    ensures cause { OnErr result (Rose (K.faults sink.old) (K.faults sink.new)) }
{
    write_all(sink, name)?;
    write_decimal(sink, n)
}
