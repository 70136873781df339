//! Which row of the table of reactions fits what was heard.
ghost use Rattle.std.specs.Prelude.{◌≡◌, IfOk, OnOk};
ghost use Rattle.hc_message.specs.Message.{IsValid};
ghost use Rattle.hc_member.specs.Heard.{IsSayable};
ghost use Rattle.hc_member.specs.Setup.{IsSetup};
ghost use Rattle.hc_member.specs.Sound.{IsSound};
ghost use Rattle.hc_node.specs.Sends.{AreSent};

use crate::group::{is_from_aggregator, is_from_another, is_from_leader, is_from_member};
use crate::member::Member;
use hc_member::{Heard, Setup};
use hc_message::Msg;
use hc_service::Service;
use r2_base::{Addr, Datagram, NoMemory, Rid};
use std::alloc::Global;

impl<V: Service> Member<V> {
    ghost use Rattle.hc_member.specs.Turn.{recovered, row, told};

    /// A message that came in one datagram. Says how much of the log is left from before.
    fn hear_told(
        &mut self,
        alloc: Global,
        setup: &Setup,
        from: Addr,
        message: &Msg,
        sends: &mut Vec<Datagram>,
    ) -> Result<u64, NoMemory>
        requires setup { IsSetup setup.now }
        requires sound { IsSound setup.now self.old }
        requires valid { IsValid message.now }
        ensures state { OnOk result (self.new ≡ (told setup.now self.old from message.now).member) }
        ensures keep { IfOk result (λ keep. keep ≡ (told setup.now self.old from message.now).keep) }
        ensures sends { OnOk result (AreSent setup.now (told setup.now self.old from message.now).sends sends.old.items sends.new.items) }
    {
        let last = self.last_index();
        match message {
            Msg::VoteReq {
                term,
                member,
                last_index,
                last_term,
            } => {
                if !is_from_member(setup, from, *member) {
                    return Ok(last);
                }
                self.hear_vote_request(
                    alloc,
                    setup,
                    *term,
                    *member,
                    *last_index,
                    *last_term,
                    sends,
                )?;
                Ok(last)
            }
            Msg::Vote {
                term,
                member,
                granted,
            } => {
                if !is_from_member(setup, from, *member) {
                    return Ok(last);
                }
                self.hear_vote(alloc, setup, *term, *member, *granted)?;
                Ok(last)
            }
            Msg::Order { leader, via, .. } => {
                if !is_from_leader(setup, from, *leader, *via) {
                    return Ok(last);
                }
                self.hear_order(alloc, setup, from, message, sends)
            }
            Msg::Ack {
                term,
                member,
                index,
                applied,
            } => {
                if !is_from_member(setup, from, *member) {
                    return Ok(last);
                }
                self.hear_ack(setup, *term, *member, *index, *applied);
                Ok(last)
            }
            Msg::Nack { term, member, hint } => {
                if !is_from_member(setup, from, *member) {
                    return Ok(last);
                }
                self.hear_nack(alloc, setup, *term, *member, *hint, sends)?;
                Ok(last)
            }
            Msg::AggCommit { term, index } => {
                if is_from_aggregator(setup, from) {
                    self.hear_commit(*term, *index);
                }
                Ok(last)
            }
            Msg::RecoverAsk { .. } | Msg::RecoverBody { .. } => Ok(last),
        }
    }

    /// A message about the body of a request. The log stays.
    fn hear_recovered(
        &mut self,
        alloc: Global,
        setup: &Setup,
        from: Addr,
        rid: Rid,
        message: Msg,
        sends: &mut Vec<Datagram>,
    ) -> Result<(), NoMemory>
        requires setup { IsSetup setup.now }
        requires sound { IsSound setup.now self.old }
        requires valid { IsValid message }
        ensures state { OnOk result (self.new ≡ (recovered setup.now self.old from rid message).member) }
        ensures sends { OnOk result (AreSent setup.now (recovered setup.now self.old from rid message).sends sends.old.items sends.new.items) }
    {
        match message {
            Msg::RecoverAsk { member } => {
                if !is_from_member(setup, from, member) {
                    return Ok(());
                }
                self.give_body(alloc, setup, member, rid, sends)
            }
            Msg::RecoverBody { kind, body } => {
                if !is_from_another(setup, from) {
                    return Ok(());
                }
                self.take_body(rid, kind, body)
            }
            _ => Ok(()),
        }
    }

    /// The row of the table that fits what was heard. Says how much of the log is left from before.
    #[tactic(auto, unfolding(hc_member::specs::Turn::row))]
    pub(crate) fn row(
        &mut self,
        alloc: Global,
        setup: &Setup,
        said: Heard,
        sends: &mut Vec<Datagram>,
    ) -> Result<u64, NoMemory>
        requires setup { IsSetup setup.now }
        requires sound { IsSound setup.now self.old }
        requires sayable { IsSayable said }
        ensures state { OnOk result (self.new ≡ (row setup.now self.old said).member) }
        ensures keep { IfOk result (λ keep. keep ≡ (row setup.now self.old said).keep) }
        ensures sends { OnOk result (AreSent setup.now (row setup.now self.old said).sends sends.old.items sends.new.items) }
    {
        let last = self.last_index();
        match said {
            Heard::Nothing => {}
            Heard::Whole(request) => self.hear_request(alloc, setup, request, sends)?,
            Heard::Told(from, message) => {
                return self.hear_told(alloc, setup, from, &message, sends);
            }
            Heard::Recovered(from, rid, message) => {
                self.hear_recovered(alloc, setup, from, rid, message, sends)?;
            }
            Heard::Time => self.tick(alloc, setup, sends)?,
        }
        Ok(last)
    }
}
