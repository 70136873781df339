ghost use Rattle.std.specs.Prelude.{◌≡◌, ◌≤◌, ℕ, [], ◌∷◌, None, length, IfErr, OnOk, false};
ghost use Rattle.r2_base.specs.Limits.{most_body};
ghost use Rattle.r2_header.specs.Policy.{replicated_read};
ghost use Rattle.r2_link.specs.Faults.{NoneFalls, calm};
ghost use Rattle.cmd_loop.specs.Ends.{Ends};
ghost use Rattle.cmd_loop.specs.declared.ticker.Ticker.{Ticker as TickerSpec};
ghost use Rattle.cmd_status.specs.Causes.{IsCaused};
ghost use Rattle.cmd_client.specs.Outside.{around};
ghost use Rattle.cmd_client.specs.Talk.{Asked, Asks, IsOpen, talk};
ghost use Rattle.cmd_client.specs.Stops.{Completes, StopsCall, StopsTalk, Went};

use crate::caller::Caller;
use cmd_loop::send_all;
use cmd_status::Status;
use r2_client::{BeginFault, Session};
use r2_link::{Clock, Link, Sink};
use std::alloc::Global;

/// Begins a call, and sends its request for the first time.
fn begin_call<L: Link>(
    session: &mut Session,
    policy: u8,
    body: &[u8],
    link: &mut L,
) -> Result<(), Status>
    requires none { session.old.open_call ≡ None }
    requires policy { policy ≤ replicated_read }
    requires short { length body.now ≤ most_body }

    ensures went { OnOk result ((ticker : TickerSpec) (o : Ends) → Went (talk session.old ticker false) (talk session.new ticker false)
        (record o { link = L.told link.old }) (record o { link = L.told link.new }) (Asks policy body.now ∷ [])) }
    ensures opened { OnOk result (IsOpen session.new.open_call) }

    ensures stops { IfErr result (λ status. (ticker : TickerSpec) (o : Ends) (room : ℕ) → StopsCall (record { policy = policy; body = body.now }) room (talk session.old ticker false)
        (record o { link = L.told link.old }) (record o { link = L.told link.new }) status) }

    ensures caused { IfErr result (IsCaused (record calm { link = L.faults link.old }) (record calm { link = L.faults link.new })) }
    ensures steady { NoneFalls (record calm { link = L.faults link.old }) (record calm { link = L.faults link.new }) }
{
    let sends = match session.begin(policy, body) {
        Ok(sends) => sends,
        Err(BeginFault::Outstanding) => unreachable!(),
        Err(BeginFault::TooLong) => unreachable!(),
        Err(BeginFault::IdsUsed) => return Err(Status::IdsUsed),
        Err(BeginFault::Memory) => return Err(Status::Memory),
    };
    match send_all(link, sends.as_slice()) {
        Ok(()) => Ok(()),
        Err(_) => Err(Status::LinkFault),
    }
}

impl Caller {
    ghost use Rattle.cmd_client.specs.Caller.{talk_of};

    /// Hears item after item, until the open call has ended or no more may be received.
    fn converse<L: Link, K: Sink, C: Clock>(
        &mut self,
        alloc: Global,
        link: &mut L,
        clock: &mut C,
        sink: &mut K,
    ) -> Result<(), Status>
        requires opened { IsOpen self.old.session.open_call }

        ensures done { OnOk result ((o : Ends) → Completes [] self.old.room self.new.room (talk_of self.old) (talk_of self.new)
            (around o (K.written sink.old) (L.told link.old) (C.left clock.old)) (around o (K.written sink.new) (L.told link.new) (C.left clock.new))) }
        ensures policy { OnOk result (self.new.policy ≡ self.old.policy) }

        ensures stops { IfErr result (λ status. (o : Ends) → StopsTalk [] self.old.room (talk_of self.old)
            (around o (K.written sink.old) (L.told link.old) (C.left clock.old)) (around o (K.written sink.new) (L.told link.new) (C.left clock.new)) status) }

        ensures caused { IfErr result (IsCaused (record calm { sink = K.faults sink.old; link = L.faults link.old; clock = C.faults clock.old }) (record calm { sink = K.faults sink.new; link = L.faults link.new; clock = C.faults clock.new })) }
        ensures steady { NoneFalls (record calm { sink = K.faults sink.old; link = L.faults link.old; clock = C.faults clock.old }) (record calm { sink = K.faults sink.new; link = L.faults link.new; clock = C.faults clock.new }) }
    {
        'rounds: while self.room > 0 {
            let over = match self.hear_item(alloc, link, sink) {
                Ok(over) => over,
                Err(status) => return Err(status),
            };
            if let Err(status) = self.ask_clock(alloc, link, clock, sink) {
                return Err(status);
            }
            if over {
                return Ok(());
            }
        }
        Err(Status::TurnsSpent)
    }

    /// Makes a call from its beginning to its end.
    pub(crate) fn make_call<L: Link, K: Sink, C: Clock>(
        &mut self,
        alloc: Global,
        policy: u8,
        body: &[u8],
        link: &mut L,
        clock: &mut C,
        sink: &mut K,
    ) -> Result<(), Status>
        requires none { self.old.session.open_call ≡ None }
        requires policy { policy ≤ replicated_read }
        requires short { length body.now ≤ most_body }

        ensures done { OnOk result ((o : Ends) → Completes (record { policy = policy; body = body.now } ∷ []) self.old.room self.new.room (talk_of self.old) (talk_of self.new)
            (around o (K.written sink.old) (L.told link.old) (C.left clock.old)) (around o (K.written sink.new) (L.told link.new) (C.left clock.new))) }
        ensures policy { OnOk result (self.new.policy ≡ self.old.policy) }

        ensures stops { IfErr result (λ status. (o : Ends) → StopsCall (record { policy = policy; body = body.now }) self.old.room (talk_of self.old)
            (around o (K.written sink.old) (L.told link.old) (C.left clock.old)) (around o (K.written sink.new) (L.told link.new) (C.left clock.new)) status) }

        ensures caused { IfErr result (IsCaused (record calm { sink = K.faults sink.old; link = L.faults link.old; clock = C.faults clock.old }) (record calm { sink = K.faults sink.new; link = L.faults link.new; clock = C.faults clock.new })) }
        ensures steady { NoneFalls (record calm { sink = K.faults sink.old; link = L.faults link.old; clock = C.faults clock.old }) (record calm { sink = K.faults sink.new; link = L.faults link.new; clock = C.faults clock.new }) }
    {
        if let Err(status) = begin_call(&mut self.session, policy, body, link) {
            return Err(status);
        }
        self.converse(alloc, link, clock, sink)
    }
}
