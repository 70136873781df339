ghost use Rattle.std.specs.Prelude.{◌≡◌, ◌≤◌, None, length, IfErr, OnOk};
ghost use Rattle.r2_link.specs.Faults.{NoneFalls, calm};
ghost use Rattle.cmd_lines.specs.Limits.{most_line};
ghost use Rattle.cmd_loop.specs.Ends.{Ends};
ghost use Rattle.cmd_status.specs.Causes.{IsCaused};
ghost use Rattle.cmd_client.specs.Lines.{MakesLine, StopsLine};
ghost use Rattle.cmd_client.specs.Outside.{around};

use crate::caller::Caller;
use cmd_status::Status;
use hc_text::{TextFault, client_line, policy_of};
use r2_link::{Clock, Link, Sink};
use std::alloc::Global;

impl Caller {
    ghost use Rattle.cmd_client.specs.Caller.{talk_of};

    /// Makes the call of a line, the one with this number. An empty line asks for nothing.
    pub(crate) fn run_line<L: Link, K: Sink, C: Clock>(
        &mut self,
        alloc: Global,
        line: &[u8],
        number: u64,
        link: &mut L,
        clock: &mut C,
        sink: &mut K,
    ) -> Result<(), Status>
        requires none { self.old.session.open_call ≡ None }
        requires short { length line.now ≤ most_line }

        ensures made { OnOk result ((o : Ends) → MakesLine self.old.policy line.now self.old.room self.new.room (talk_of self.old) (talk_of self.new)
            (around o (K.written sink.old) (L.told link.old) (C.left clock.old)) (around o (K.written sink.new) (L.told link.new) (C.left clock.new))) }
        ensures policy { OnOk result (self.new.policy ≡ self.old.policy) }

        ensures stops { IfErr result (λ status. (o : Ends) → StopsLine self.old.policy line.now number self.old.room (talk_of self.old)
            (around o (K.written sink.old) (L.told link.old) (C.left clock.old)) (around o (K.written sink.new) (L.told link.new) (C.left clock.new)) status) }

        ensures caused { IfErr result (IsCaused (record calm { sink = K.faults sink.old; link = L.faults link.old; clock = C.faults clock.old }) (record calm { sink = K.faults sink.new; link = L.faults link.new; clock = C.faults clock.new })) }
        ensures steady { NoneFalls (record calm { sink = K.faults sink.old; link = L.faults link.old; clock = C.faults clock.old }) (record calm { sink = K.faults sink.new; link = L.faults link.new; clock = C.faults clock.new }) }
    {
        if line.is_empty() {
            return Ok(());
        }
        let call = match client_line(alloc, line) {
            Ok(call) => call,
            Err(TextFault::Outside) => return Err(Status::BadScript { line: number }),
            Err(TextFault::Memory) => return Err(Status::Memory),
        };
        let policy = policy_of(self.policy, call.read);
        self.make_call(alloc, policy, call.body.as_slice(), link, clock, sink)
    }
}
