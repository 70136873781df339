//! Orders that come: a member takes one or refuses it (Raft, section 5.3).
ghost use Rattle.std.specs.Prelude.{◌≡◌, ◌<◌, ◌≤◌, ◌++◌, length, max, true, IfOk, OnOk};
ghost use Rattle.r2_base.specs.Limits.{greatest_number};
ghost use Rattle.hc_log.specs.Log.{term_at};
ghost use Rattle.hc_message.specs.Entry.{IsTerm};
ghost use Rattle.hc_message.specs.Message.{IsValid};
ghost use Rattle.hc_order.specs.Taking.{MayTake};
ghost use Rattle.hc_member.specs.Orders.{joins};
ghost use Rattle.hc_member.specs.Sending.{datagrams_of};
ghost use Rattle.hc_member.specs.Setup.{IsSetup};
ghost use Rattle.hc_member.specs.Sound.{IsSound};
ghost use Rattle.hc_node.specs.Sends.{AreSent};
ghost use Rattle.hc_node.specs.Told.{IsOrder, heard_order, order_term};

use crate::bodies::ask_for_bodies;
use crate::group::address_of;
use crate::member::Member;
use crate::sending::tell;
use hc_log::Log;
use hc_member::{Role, Setup};
use hc_message::Msg;
use hc_order::take;
use hc_service::Service;
use r2_base::{Addr, Datagram, NoMemory};
use std::alloc::Global;

/// Whether the entry before those of an Order stands in the log.
fn joins(log: &Log, prev_index: u64, prev_term: u64) -> bool
    ensures joins { result ≡ joins log.now prev_index prev_term }
    ensures inside { result ≡ true → prev_index ≤ length log.now }
    ensures term { result ≡ true → term_at log.now prev_index ≡ prev_term }
{
    if log.last() < prev_index {
        return false;
    }
    log.term_at(prev_index) == prev_term
}

impl<V: Service> Member<V> {
    ghost use Rattle.hc_member.specs.Orders.{acknowledgement, follows, hear_order, refusal, take_or_refuse, take_order};

    /// Hears the leader of its term, and follows it.
    #[tactic(auto, unfolding(hc_member::specs::Orders::follows))]
    fn follow(&mut self, term: u64)
        ensures { self.new ≡ follows term self.old }
    {
        self.rise_to(term);
        self.role = Role::Follower;
        self.silent = 0;
    }

    /// Tells a leader that its Order can't be taken.
    fn send_refusal(
        &self,
        alloc: Global,
        setup: &Setup,
        leader: u8,
        hint: u64,
        sends: &mut Vec<Datagram>,
    ) -> Result<(), NoMemory>
        requires setup { IsSetup setup.now }
        requires term { IsTerm self.now.term }
        requires leader { leader < length setup.now.members }
        requires hint { hint ≤ greatest_number }
        ensures { OnOk result (AreSent setup.now (refusal setup.now self.now leader hint) sends.old.items sends.new.items) }
    {
        let message = Msg::Nack {
            term: self.term,
            member: setup.me,
            hint,
        };
        tell(alloc, setup, address_of(setup, leader), &message, sends)
    }

    /// Tells the sender of an Order up to where its log is the leader's.
    fn acknowledge(
        &self,
        alloc: Global,
        setup: &Setup,
        from: Addr,
        sends: &mut Vec<Datagram>,
    ) -> Result<(), NoMemory>
        requires setup { IsSetup setup.now }
        requires term { IsTerm self.now.term }
        requires matched { self.now.matched ≤ greatest_number }
        requires applied { self.now.applied ≤ greatest_number }
        ensures { OnOk result (sends.new.items ≡ sends.old.items ++ datagrams_of setup.now (acknowledgement setup.now self.now from)) }
    {
        let message = Msg::Ack {
            term: self.term,
            member: setup.me,
            index: self.matched,
            applied: self.applied,
        };
        tell(alloc, setup, from, &message, sends)
    }

    /// Takes what it can of an Order, and says how much of its log is left from before.
    #[tactic(auto, unfolding(hc_member::specs::Orders::take_order))]
    fn take_order(
        &mut self,
        alloc: Global,
        setup: &Setup,
        from: Addr,
        order: &Msg,
        sends: &mut Vec<Datagram>,
    ) -> Result<u64, NoMemory>
        requires setup { IsSetup setup.now }
        requires sound { IsSound setup.now self.old }
        requires term { IsTerm self.old.term }
        requires leader { (heard_order order.now).leader < length setup.now.members }
        requires order { MayTake self.old.log self.old.pool order.now (max self.old.commit self.old.matched) }
        ensures state { OnOk result (self.new ≡ (take_order setup.now self.old from (heard_order order.now)).member) }
        ensures keep { IfOk result (λ keep. keep ≡ (take_order setup.now self.old from (heard_order order.now)).keep) }
        ensures sends { OnOk result (AreSent setup.now (take_order setup.now self.old from (heard_order order.now)).sends sends.old.items sends.new.items) }
    {
        let Msg::Order { leader, commit, .. } = order else {
            unreachable!()
        };
        let taken = take(
            alloc,
            &mut self.log,
            &mut self.pool,
            order,
            self.commit,
            self.matched,
        )?;
        self.matched = self.matched.max(taken.upto);
        self.commit = self.commit.max(self.matched.min(*commit));
        self.acknowledge(alloc, setup, from, sends)?;
        ask_for_bodies(alloc, setup, *leader, taken.missing.as_slice(), sends)?;
        Ok(taken.keep)
    }

    /// Takes an Order of the leader that it follows where the entry before it stands in its log, and says how much of its log is
    /// left from before.
    fn take_or_refuse(
        &mut self,
        alloc: Global,
        setup: &Setup,
        from: Addr,
        order: &Msg,
        sends: &mut Vec<Datagram>,
    ) -> Result<u64, NoMemory>
        requires setup { IsSetup setup.now }
        requires sound { IsSound setup.now self.old }
        requires term { IsTerm self.old.term }
        requires leader { (heard_order order.now).leader < length setup.now.members }
        requires order { IsOrder order.now }
        requires valid { IsValid order.now }
        ensures state { OnOk result (self.new ≡ (take_or_refuse setup.now self.old from (heard_order order.now)).member) }
        ensures keep { IfOk result (λ keep. keep ≡ (take_or_refuse setup.now self.old from (heard_order order.now)).keep) }
        ensures sends { OnOk result (AreSent setup.now (take_or_refuse setup.now self.old from (heard_order order.now)).sends sends.old.items sends.new.items) }
    {
        let Msg::Order {
            leader,
            prev_index,
            prev_term,
            ..
        } = order
        else {
            unreachable!()
        };
        let last = self.log.last();
        if joins(&self.log, *prev_index, *prev_term) {
            return self.take_order(alloc, setup, from, order, sends);
        }
        let hint = last.min(prev_index.saturating_sub(1));
        self.send_refusal(alloc, setup, *leader, hint, sends)?;
        Ok(last)
    }

    /// An Order comes: a leader of an earlier term learns of the member's, and a leader has no other one in its term. Says how
    /// much of the log is left from before.
    #[tactic(auto, unfolding(hc_member::specs::Orders::hear_order))]
    pub(crate) fn hear_order(
        &mut self,
        alloc: Global,
        setup: &Setup,
        from: Addr,
        order: &Msg,
        sends: &mut Vec<Datagram>,
    ) -> Result<u64, NoMemory>
        requires setup { IsSetup setup.now }
        requires sound { IsSound setup.now self.old }
        requires leader { (heard_order order.now).leader < length setup.now.members }
        requires order { IsOrder order.now }
        requires valid { IsValid order.now }
        ensures state { OnOk result (self.new ≡ (hear_order setup.now self.old from (order_term order.now) (heard_order order.now)).member) }
        ensures keep { IfOk result (λ keep. keep ≡ (hear_order setup.now self.old from (order_term order.now) (heard_order order.now)).keep) }
        ensures sends { OnOk result (AreSent setup.now (hear_order setup.now self.old from (order_term order.now) (heard_order order.now)).sends sends.old.items sends.new.items) }
    {
        let Msg::Order { term, leader, .. } = order else {
            unreachable!()
        };
        let last = self.log.last();
        if *term < self.term {
            self.send_refusal(alloc, setup, *leader, 0, sends)?;
            return Ok(last);
        }
        if self.leads(*term) {
            return Ok(last);
        }
        self.follow(*term);
        self.take_or_refuse(alloc, setup, from, order, sends)
    }
}
