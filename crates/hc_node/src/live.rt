//! A replica that has had the memory for each of its turns.
ghost use Rattle.std.specs.Prelude.{◌≡◌, true, IfOk, OnOk};
ghost use Rattle.hc_service.specs.State.{new_state};
ghost use Rattle.hc_member.specs.Laws.{HasBytes};
ghost use Rattle.hc_member.specs.Sending.{datagrams_of_all};
ghost use Rattle.hc_member.specs.Setup.{IsSetup};
ghost use Rattle.hc_node.specs.Node.{IsSoundNode, with_member};

use crate::member::Member;
use hc_log::{Durable, Turn};
use hc_member::{Role, Setup};
use hc_service::Service;
use r2_base::{Datagrams, Event, NoMemory};
use std::alloc::Global;
use std::marker::Model;

/// Who it is, and the member that it runs.
#[derive(Drop)]
pub(crate) struct Live<V: Service> {
    alloc: Global,
    setup: Setup,
    member: Member<V>,
}

impl<V: Service> Model for Live<V> {
    ghost use Rattle.std.specs.Coded.{codes};
    ghost use Rattle.hc_service.specs.State.{contents_code};
    ghost use Rattle.hc_node.specs.Node.{NodeState};

    ghost Value = { NodeState };

    ghost coded = { Prim.hlevel (codes, contents_code) };

    ghost view = { λ a. record { setup = a.setup; member = a.member } };
}

impl<V: Service> Live<V> {
    ghost use Rattle.hc_member.specs.Finish.{finished};
    ghost use Rattle.hc_member.specs.Member.{anew};
    ghost use Rattle.hc_member.specs.Turn.{reacted};
    ghost use Rattle.hc_node.specs.Node.{NodeState, unreported_by};

    /// A replica that begins with a whole durable state.
    pub(crate) fn new(
        alloc: Global,
        setup: Setup,
        from: Durable,
        service: V,
    ) -> Result<Live<V>, NoMemory>
        requires whole { from.whole ≡ true }
        requires service { V.state service ≡ new_state }
        ensures { IfOk result (λ live. live ≡ record { setup = setup; member = anew from.state }) }
    {
        let member = Member::anew(alloc, from, service)?;
        Ok(Live {
            alloc,
            setup,
            member,
        })
    }

    /// Applies the pending batch, and gives the replies.
    pub(crate) fn finish(&mut self) -> Result<Datagrams, NoMemory>
        requires { IsSoundNode self.old }
        ensures state { OnOk result (self.new ≡ with_member self.old (finished self.old.setup self.old.member).member) }
        ensures sends { IfOk result (λ sends. sends ≡ datagrams_of_all self.old.setup (finished self.old.setup self.old.member).sends) }
    {
        let mut sends = Vec::new(self.alloc);
        self.member.finish(self.alloc, &self.setup, &mut sends)?;
        Ok(Datagrams::from_vec(sends))
    }

    /// Reacts to an event.
    pub(crate) fn react(&mut self, event: &Event) -> Result<Turn, NoMemory>
        requires { IsSoundNode self.old }
        ensures state { OnOk result (self.new ≡ with_member self.old (reacted self.old.setup self.old.member event.now).member) }
        ensures stored { IfOk result (λ turn. turn.stored ≡ (reacted self.old.setup self.old.member event.now).stored) }
        ensures sends { IfOk result (λ turn. turn.sends ≡ datagrams_of_all self.old.setup (reacted self.old.setup self.old.member event.now).sends) }
        ensures bytes { OnOk result (HasBytes event.now) }
    {
        let mut sends = Vec::new(self.alloc);
        let stored = self
            .member
            .react(self.alloc, &self.setup, event, &mut sends)?;
        Ok(Turn {
            stored,
            sends: Datagrams::from_vec(sends),
        })
    }

    pub(crate) fn term(&self) -> u64
        ensures { result ≡ self.now.member.term }
    {
        self.member.term
    }

    pub(crate) fn role(&self) -> Role
        ensures { result ≡ self.now.member.role }
    {
        self.member.role
    }

    pub(crate) fn commit(&self) -> u64
        ensures { result ≡ self.now.member.commit }
    {
        self.member.commit
    }

    pub(crate) fn applied(&self) -> u64
        ensures { result ≡ self.now.member.applied }
    {
        self.member.applied
    }

    pub(crate) fn pending(&self) -> u64
        ensures { result ≡ self.now.member.pending }
    {
        self.member.pending
    }

    /// How many requests it gave a member to answer that this hasn't reported. What is left of an earlier time as leader is stale,
    /// and doesn't show.
    pub(crate) fn unreported(&self, member: u8) -> u16
        ensures { result ≡ unreported_by member self.now.member }
    {
        if self.member.role == Role::Leader {
            return self.member.lead.queues.unreported(member);
        }
        0
    }
}
