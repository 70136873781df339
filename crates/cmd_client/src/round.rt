ghost use Rattle.std.specs.Prelude.{◌≡◌, ◌<◌, ◌+◌, ℕ, [], ◌∷◌, None, true, false, IfErr, IfOk, OnOk};
ghost use Rattle.r2_link.specs.Faults.{NoneFalls, calm};
ghost use Rattle.r2_link.specs.declared.lane.Item.{Item};
ghost use Rattle.cmd_loop.specs.Ends.{Ends};
ghost use Rattle.cmd_status.specs.Causes.{IsCaused};
ghost use Rattle.cmd_client.specs.Outside.{around};
ghost use Rattle.cmd_client.specs.Talk.{Hears, IsOpen, Tells};
ghost use Rattle.cmd_client.specs.Stops.{StopsTalk, Went};

use crate::caller::Caller;
use crate::printing::print_end;
use crate::receiving::receive_event;
use crate::stepping::make_step;
use cmd_status::Status;
use r2_base::Event;
use r2_link::{Clock, Link, Sink};
use std::alloc::Global;

impl Caller {
    ghost use Rattle.cmd_client.specs.Caller.{heard_of, talk_of};

    /// Hears one item, sends what it makes the session send, and prints the line of a call that it ends. The answer is whether
    /// the call has ended.
    pub(crate) fn hear_item<L: Link, K: Sink>(
        &mut self,
        alloc: Global,
        link: &mut L,
        sink: &mut K,
    ) -> Result<bool, Status>
        requires opened { IsOpen self.old.session.open_call }
        requires some { 0 < self.old.room }

        ensures went { IfOk result (λ over. (o : Ends) → (item : Item) × Went (talk_of self.old) (heard_of self.new)
            (record o { written = K.written sink.old; link = L.told link.old }) (record o { written = K.written sink.new; link = L.told link.new }) (Hears item ∷ [])) }
        ensures ended { IfOk result (λ over. over ≡ true → self.new.session.open_call ≡ None) }
        ensures goes_on { IfOk result (λ over. over ≡ false → IsOpen self.new.session.open_call) }
        ensures counted { OnOk result (self.new.room + 1 ≡ self.old.room) }
        ensures policy { OnOk result (self.new.policy ≡ self.old.policy) }

        ensures stops { IfErr result (λ status. (o : Ends) → StopsTalk [] self.old.room (talk_of self.old)
            (record o { written = K.written sink.old; link = L.told link.old }) (record o { written = K.written sink.new; link = L.told link.new }) status) }

        ensures caused { IfErr result (IsCaused (record calm { sink = K.faults sink.old; link = L.faults link.old }) (record calm { sink = K.faults sink.new; link = L.faults link.new })) }
        ensures steady { NoneFalls (record calm { sink = K.faults sink.old; link = L.faults link.old }) (record calm { sink = K.faults sink.new; link = L.faults link.new }) }
    {
        self.room -= 1;
        let event = match receive_event(alloc, link, u64::from(self.ticker.tick_ms)) {
            Ok(event) => event,
            Err(status) => return Err(status),
        };
        let end = match make_step(alloc, &mut self.session, link, &event) {
            Ok(end) => end,
            Err(status) => return Err(status),
        };
        match end {
            Some(end) => match print_end(alloc, &end, sink) {
                Ok(()) => Ok(true),
                Err(status) => Err(status),
            },
            None => Ok(false),
        }
    }

    /// Asks the clock, and where a tick is due makes its step. A call that times out by it ends the run.
    pub(crate) fn ask_clock<L: Link, K: Sink, C: Clock>(
        &mut self,
        alloc: Global,
        link: &mut L,
        clock: &mut C,
        sink: &mut K,
    ) -> Result<(), Status>
        ensures went { OnOk result ((o : Ends) → (moment : ℕ) × Went (heard_of self.old) (talk_of self.new)
            (around o (K.written sink.old) (L.told link.old) (C.left clock.old)) (around o (K.written sink.new) (L.told link.new) (C.left clock.new)) (Tells moment ∷ [])) }
        ensures stays_ended { OnOk result (self.old.session.open_call ≡ None → self.new.session.open_call ≡ None) }
        ensures goes_on { OnOk result (IsOpen self.old.session.open_call → IsOpen self.new.session.open_call) }
        ensures room { OnOk result (self.new.room ≡ self.old.room) }
        ensures policy { OnOk result (self.new.policy ≡ self.old.policy) }

        ensures stops { IfErr result (λ status. (o : Ends) (room : ℕ) → StopsTalk [] room (heard_of self.old)
            (around o (K.written sink.old) (L.told link.old) (C.left clock.old)) (around o (K.written sink.new) (L.told link.new) (C.left clock.new)) status) }

        ensures caused { IfErr result (IsCaused (record calm { sink = K.faults sink.old; link = L.faults link.old; clock = C.faults clock.old }) (record calm { sink = K.faults sink.new; link = L.faults link.new; clock = C.faults clock.new })) }
        ensures steady { NoneFalls (record calm { sink = K.faults sink.old; link = L.faults link.old; clock = C.faults clock.old }) (record calm { sink = K.faults sink.new; link = L.faults link.new; clock = C.faults clock.new }) }
    {
        let Ok(moment) = clock.now() else {
            return Err(Status::ClockFault);
        };
        if !self.ticker.pass_tick(moment) {
            return Ok(());
        }
        let end = match make_step(alloc, &mut self.session, link, &Event::Tick) {
            Ok(end) => end,
            Err(status) => return Err(status),
        };
        match end {
            Some(end) => match print_end(alloc, &end, sink) {
                Ok(()) => Err(Status::TimedOut),
                Err(status) => Err(status),
            },
            None => Ok(()),
        }
    }
}
