//! What a leader does after each row: it orders what waits, sends what the turn appended, and counts what a majority has.
ghost use Rattle.std.specs.Prelude.{◌≡◌, ◌+◌, ◌-◌, ◌≤◌, length, drop, OnOk, IfOk};
ghost use Rattle.r2_base.specs.Limits.{most_entries};
ghost use Rattle.hc_log.specs.Log.{metas_of};
ghost use Rattle.hc_order.specs.Ordering.{IsReady};
ghost use Rattle.hc_member.specs.Setup.{IsSetup};
ghost use Rattle.hc_member.specs.Sound.{IsSound};
ghost use Rattle.hc_node.specs.Sends.{AreSent};

use crate::group::majority;
use crate::member::Member;
use crate::sending::{tell, tell_others};
use hc_member::{Role, Setup};
use hc_message::Msg;
use hc_order::{counted, order_ready};
use hc_service::Service;
use r2_base::{Datagram, MOST_ENTRIES, NoMemory};
use std::alloc::Global;

/// The greatest number of entries that wait in one batch to be applied.
const MOST_BATCHED: u64 = 4_096;

/// How many entries more a turn may append, which appended some after those that it kept.
fn room_for(last: u64, keep: u64) -> u8
    ensures { result ≡ most_entries - (last - keep) }
{
    u64::from(MOST_ENTRIES).saturating_sub(last.saturating_sub(keep)) as u8
}

impl<V: Service> Member<V> {
    ghost use Rattle.hc_member.specs.Finish.{batched};
    ghost use Rattle.hc_member.specs.Orders.{fresh_orders, order_after};
    ghost use Rattle.hc_member.specs.Turn.{agreed_index, counting, ordering, waiting_of};

    /// Orders requests, after a row that left so much of the log.
    #[tactic(auto, unfolding(hc_member::specs::Turn::ordering))]
    pub(crate) fn order(&mut self, alloc: Global, keep: u64) -> Result<(), NoMemory>
        requires ready { IsReady self.old.term (waiting_of self.old) }
        ensures { OnOk result (self.new ≡ ordering self.old keep) }
    {
        let room = room_for(self.log.last(), keep);
        let _entries = order_ready(
            alloc,
            &mut self.log,
            &mut self.pool,
            &mut self.lead.queues,
            self.term,
            room,
        )?;
        self.matched = self.log.last();
        Ok(())
    }

    /// The Order of the entries after an index, of which there are no more than an Order has.
    fn fresh_order(&self, setup: &Setup, keep: u64, via: bool) -> Result<Msg, NoMemory>
        requires sound { IsSound setup.now self.now }
        requires keep { keep ≤ length self.now.log }
        requires few { length self.now.log ≤ keep + most_entries }
        ensures { IfOk result (λ message. message ≡ order_after setup.now self.now keep via (metas_of (drop keep self.now.log))) }
    {
        let entries = self.log.slice(keep + 1, MOST_ENTRIES)?;
        Ok(self.order_after(setup, keep, via, entries))
    }

    /// Sends what the turn appended after the entries that it kept: to the aggregator where there is one, and else to each other
    /// member.
    #[tactic(auto, unfolding(hc_member::specs::Orders::fresh_orders))]
    pub(crate) fn send_fresh_orders(
        &self,
        alloc: Global,
        setup: &Setup,
        keep: u64,
        sends: &mut Vec<Datagram>,
    ) -> Result<(), NoMemory>
        requires setup { IsSetup setup.now }
        requires sound { IsSound setup.now self.now }
        requires role { self.now.role ≡ Role.Leader }
        requires keep { keep ≤ length self.now.log }
        requires few { length self.now.log ≤ keep + most_entries }
        ensures { OnOk result (AreSent setup.now (fresh_orders setup.now self.now keep) sends.old.items sends.new.items) }
    {
        if keep >= self.log.last() {
            return Ok(());
        }
        match setup.aggregator {
            Some(aggregator) => {
                let message = self.fresh_order(setup, keep, true)?;
                tell(alloc, setup, aggregator, &message, sends)
            }
            None => {
                let message = self.fresh_order(setup, keep, false)?;
                tell_others(alloc, setup, &message, sends)
            }
        }
    }

    /// The greatest index that a majority has, the leader among them.
    fn agreed_index(&self, alloc: Global, setup: &Setup) -> Result<u64, NoMemory>
        requires setup { IsSetup setup.now }
        requires each { length self.now.lead.reached ≡ length setup.now.members }
        ensures { IfOk result (λ index. index ≡ agreed_index setup.now self.now) }
    {
        let mut reached = self.lead.reached.as_slice().to_vec(alloc)?;
        reached[usize::from(setup.me)] = self.log.last();
        Ok(counted(reached.as_slice(), majority(setup)))
    }

    /// Commits what a majority has, where the last of it is of the leader's own term (Raft, section 5.4.2).
    #[tactic(auto, unfolding(hc_member::specs::Turn::counting))]
    pub(crate) fn count(&mut self, alloc: Global, setup: &Setup) -> Result<(), NoMemory>
        requires setup { IsSetup setup.now }
        requires each { length self.old.lead.reached ≡ length setup.now.members }
        ensures { OnOk result (self.new ≡ counting setup.now self.old) }
    {
        let agreed = self.agreed_index(alloc, setup)?;
        if self.lead.term_start <= agreed {
            if self.commit < agreed {
                self.commit = agreed;
            }
        }
        Ok(())
    }

    /// Sets aside what is committed and not applied, as much as a batch may have.
    #[tactic(auto, unfolding(hc_member::specs::Finish::batched))]
    pub(crate) fn set_batch(&mut self)
        ensures { self.new ≡ batched self.old }
    {
        let end = self.commit.min(self.applied.saturating_add(MOST_BATCHED));
        self.pending = end.saturating_sub(self.applied);
    }
}
