//! The reaction to an event: what is heard, the row that fits it, and what follows each row.
ghost use Rattle.std.specs.Prelude.{◌≡◌, ◌+◌, ◌≤◌, [], length, IfOk, OnOk};
ghost use Rattle.r2_base.specs.Limits.{most_entries};
ghost use Rattle.hc_member.specs.declared.role.Role.TheVariants.{Leader};
ghost use Rattle.hc_member.specs.Heard.{IsSayable, receive};
ghost use Rattle.hc_member.specs.Laws.{HasBytes};
ghost use Rattle.hc_member.specs.Setup.{IsSetup};
ghost use Rattle.hc_member.specs.Sound.{IsSound};
ghost use Rattle.hc_node.specs.Sends.{AreSent};

use crate::member::Member;
use crate::receiving::receive;
use hc_log::Record;
use hc_member::{Heard, Role, Setup};
use hc_service::Service;
use r2_base::{Datagram, Event, NoMemory};
use std::alloc::Global;

impl<V: Service> Member<V> {
    ghost use Rattle.hc_member.specs.Heard.{with_received};
    ghost use Rattle.hc_member.specs.Orders.{fresh_orders};
    ghost use Rattle.hc_member.specs.Turn.{counting, ordering, reacted, reacted_to, settled};

    /// A leader orders, sends what the turn appended, and then counts.
    fn go_on(
        &mut self,
        alloc: Global,
        setup: &Setup,
        keep: u64,
        sends: &mut Vec<Datagram>,
    ) -> Result<(), NoMemory>
        requires setup { IsSetup setup.now }
        requires sound { IsSound setup.now self.old }
        requires role { self.old.role ≡ Leader }
        requires keep { keep ≤ length self.old.log }
        requires few { length self.old.log ≤ keep + most_entries }
        ensures state { OnOk result (self.new ≡ counting setup.now (ordering self.old keep)) }
        ensures sends { OnOk result (AreSent setup.now (fresh_orders setup.now (ordering self.old keep) keep) sends.old.items sends.new.items) }
    {
        self.order(alloc, keep)?;
        self.send_fresh_orders(alloc, setup, keep, sends)?;
        self.count(alloc, setup)
    }

    /// What follows each row; at last the next batch is set aside.
    #[tactic(auto, unfolding(hc_member::specs::Turn::settled))]
    fn settle(
        &mut self,
        alloc: Global,
        setup: &Setup,
        keep: u64,
        sends: &mut Vec<Datagram>,
    ) -> Result<(), NoMemory>
        requires setup { IsSetup setup.now }
        requires sound { IsSound setup.now self.old }
        requires keep { keep ≤ length self.old.log }
        requires few { length self.old.log ≤ keep + most_entries }
        ensures state { OnOk result (self.new ≡ (settled setup.now (record { member = self.old; keep = keep; sends = [] })).member) }
        ensures sends { OnOk result (AreSent setup.now (settled setup.now (record { member = self.old; keep = keep; sends = [] })).sends sends.old.items sends.new.items) }
    {
        match self.role {
            Role::Leader => self.go_on(alloc, setup, keep, sends)?,
            Role::Follower | Role::Candidate => {}
        }
        self.set_batch();
        Ok(())
    }

    /// Hears an event: takes up the part that comes with it, and gives what the event says then.
    #[tactic(auto, unfolding(hc_member::specs::Heard::with_received))]
    fn hear(&mut self, alloc: Global, event: &Event) -> Result<Heard, NoMemory>
        ensures said { IfOk result (λ said. said ≡ (receive self.old.unfinished event.now).said) }
        ensures state { OnOk result (self.new ≡ with_received self.old event.now) }
        ensures bytes { OnOk result (HasBytes event.now) }
    {
        receive(alloc, &mut self.unfinished, event)
    }

    /// Reacts to what was heard. Gives the record of what changed of the durable state.
    #[tactic(auto, unfolding(hc_member::specs::Turn::reacted_to))]
    fn react_to(
        &mut self,
        alloc: Global,
        setup: &Setup,
        said: Heard,
        sends: &mut Vec<Datagram>,
    ) -> Result<Option<Record>, NoMemory>
        requires setup { IsSetup setup.now }
        requires sound { IsSound setup.now self.old }
        requires sayable { IsSayable said }
        ensures state { OnOk result (self.new ≡ (reacted_to setup.now self.old said).member) }
        ensures stored { IfOk result (λ stored. stored ≡ (reacted_to setup.now self.old said).stored) }
        ensures sends { OnOk result (AreSent setup.now (reacted_to setup.now self.old said).sends sends.old.items sends.new.items) }
    {
        let term = self.term;
        let vote = self.vote;
        let last = self.last_index();
        let keep = self.row(alloc, setup, said, sends)?;
        self.settle(alloc, setup, keep, sends)?;
        self.stored(term, vote, last, keep)
    }

    /// Reacts to an event. Gives the record of what changed of the durable state.
    #[tactic(auto, unfolding(hc_member::specs::Turn::reacted))]
    pub(crate) fn react(
        &mut self,
        alloc: Global,
        setup: &Setup,
        event: &Event,
        sends: &mut Vec<Datagram>,
    ) -> Result<Option<Record>, NoMemory>
        requires setup { IsSetup setup.now }
        requires sound { IsSound setup.now self.old }
        ensures state { OnOk result (self.new ≡ (reacted setup.now self.old event.now).member) }
        ensures stored { IfOk result (λ stored. stored ≡ (reacted setup.now self.old event.now).stored) }
        ensures sends { OnOk result (AreSent setup.now (reacted setup.now self.old event.now).sends sends.old.items sends.new.items) }
        ensures bytes { OnOk result (HasBytes event.now) }
    {
        let said = self.hear(alloc, event)?;
        self.react_to(alloc, setup, said, sends)
    }
}
