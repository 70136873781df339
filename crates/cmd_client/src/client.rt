ghost use Rattle.std.specs.Prelude.{◌≡◌, ◌≤◌, ℕ, List, Some, None, length};
ghost use Rattle.r2_link.specs.Faults.{NoneFalls, Rose, calm};
ghost use Rattle.cmd_loop.specs.Ends.{Ends};
ghost use Rattle.cmd_status.specs.Causes.{IsCaused};
ghost use Rattle.cmd_client.specs.Calls.{Calls, IsCalled, RunsLines};
ghost use Rattle.cmd_client.specs.Outside.{around};
ghost use Rattle.cmd_client.specs.Script.{IsScript};

use crate::Calling;
use crate::caller::Caller;
use cmd_lines::{LINE_LIMIT, LineReader};
use cmd_loop::Pace;
use cmd_status::Status;
use r2_link::{Clock, Link, Sink, Source};
use std::alloc::Global;

impl Caller {
    ghost use Rattle.cmd_client.specs.Caller.{talk_of};

    /// Makes the calls of a script, line by line.
    fn run_lines<S: Source, K: Sink, L: Link, C: Clock>(
        &mut self,
        alloc: Global,
        source: &mut S,
        sink: &mut K,
        link: &mut L,
        clock: &mut C,
    ) -> Status
        requires none { self.old.session.open_call ≡ None }
        requires fresh { self.old.session.next ≡ 0 }

        ensures ran { (o : Ends) → RunsLines self.old.policy self.old.room (S.left source.old) (S.left source.new) (talk_of self.old)
            (around o (K.written sink.old) (L.told link.old) (C.left clock.old)) (around o (K.written sink.new) (L.told link.new) (C.left clock.new)) result }
        ensures caused { IsCaused (record calm { source = S.faults source.old; sink = K.faults sink.old; link = L.faults link.old; clock = C.faults clock.old }) (record calm { source = S.faults source.new; sink = K.faults sink.new; link = L.faults link.new; clock = C.faults clock.new }) result }
        ensures steady { NoneFalls (record calm { source = S.faults source.old; sink = K.faults sink.old; link = L.faults link.old; clock = C.faults clock.old }) (record calm { source = S.faults source.new; sink = K.faults sink.new; link = L.faults link.new; clock = C.faults clock.new }) }
    {
        let mut reader = LineReader::new(alloc, LINE_LIMIT);
        'lines: loop {
            let line = match reader.next_line(alloc, source) {
                Ok(Some(line)) => line,
                Ok(None) => return Status::Done,
                Err(fault) => return fault.status(reader.lines() + 1),
            };
            let number = reader.lines();
            if let Err(status) = self.run_line(alloc, line.as_slice(), number, link, clock, sink) {
                return status;
            }
        }
    }
}

/// Makes the calls of the script that `source` gives, one after another, and prints how each ended.
///
/// A line that is known is run before more of the source is read. The line of a call that has ended is printed at once. The
/// script ends the run, or the first call that times out.
pub fn call_client<S: Source, K: Sink, L: Link, C: Clock>(
    alloc: Global,
    calling: Calling,
    source: &mut S,
    sink: &mut K,
    link: &mut L,
    clock: &mut C,
    pace: Pace,
) -> Status
    requires some { 1 ≤ length calling.to }
    requires most { length calling.to ≤ 7 }
    requires wait { 1 ≤ calling.wait }
    requires tries { 1 ≤ calling.tries }
    requires tick { 1 ≤ pace.tick_ms }

    // What was taken of the script and of the outside, what was sent and printed, and why the run ended.
    ensures ran { (o : Ends) → Calls calling pace (record o { source = S.left source.old; written = K.written sink.old; link = L.told link.old; clock = C.left clock.old }) (record o { source = S.left source.new; written = K.written sink.new; link = L.told link.new; clock = C.left clock.new }) result }

    // A script in its grammar, where nothing failed, ends as stated, or where memory runs out.
    ensures complete { (script : List ℕ) → S.left source.old ≡ Some script → IsScript script
        → (Rose (S.faults source.old) (S.faults source.new) → ⊥) → (Rose (K.faults sink.old) (K.faults sink.new) → ⊥)
        → (Rose (L.faults link.old) (L.faults link.new) → ⊥) → (Rose (C.faults clock.old) (C.faults clock.new) → ⊥) → IsCalled result }

    ensures caused { IsCaused (record calm { source = S.faults source.old; sink = K.faults sink.old; link = L.faults link.old; clock = C.faults clock.old }) (record calm { source = S.faults source.new; sink = K.faults sink.new; link = L.faults link.new; clock = C.faults clock.new }) result }
    ensures steady { NoneFalls (record calm { source = S.faults source.old; sink = K.faults sink.old; link = L.faults link.old; clock = C.faults clock.old }) (record calm { source = S.faults source.new; sink = K.faults sink.new; link = L.faults link.new; clock = C.faults clock.new }) }
{
    let Ok(start) = clock.now() else {
        return Status::ClockFault;
    };
    let mut client = Caller::new(alloc, calling, start, pace);
    client.run_lines(alloc, source, sink, link, clock)
}
