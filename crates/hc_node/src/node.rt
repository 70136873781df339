ghost use Rattle.std.specs.Prelude.{◌≡◌, ◌≤◌, true, Some, None, All, length, IfOk, OnOk, OnErr, is_none};
ghost use Rattle.hc_service.specs.State.{new_state};
ghost use Rattle.hc_member.specs.Laws.{IsStored, most_datagram_bytes};
ghost use Rattle.hc_member.specs.Member.{durable_of};
ghost use Rattle.hc_member.specs.Sending.{datagrams_of_all};
ghost use Rattle.hc_member.specs.Setup.{IsSetup};
ghost use Rattle.hc_node.specs.Node.{IsLive, IsSoundUnlessSpent, number_of, role_of, unreported_by, with_member};

use crate::live::Live;
use hc_log::{Durable, Turn};
use hc_member::{Role, Setup};
use hc_service::Service;
use r2_base::{Datagrams, Event, NoMemory};
use std::alloc::Global;
use std::marker::Model;

/// A replica of a group, which keeps a log of requests with the others (HovercRaft, over Raft), and answers from its own service.
///
/// A turn of it is `finish`, then `react`. The record of the reaction is to be stable before any datagram of the turn goes out,
/// those of `finish` first. The durable state that its stored records lead to is what another one may start from after a crash.
#[derive(Drop)]
pub struct Node<V: Service> {
    live: Option<Live<V>>,
}

impl<V: Service> Model for Node<V> {
    ghost use Rattle.std.specs.Prelude.{Option};
    ghost use Rattle.std.specs.Coded.{codes};
    ghost use Rattle.hc_service.specs.State.{contents_code};
    ghost use Rattle.hc_node.specs.Node.{IsSoundUnlessSpent, NodeState};

    ghost Value = { Option NodeState };

    ghost coded = { Prim.hlevel (codes, contents_code) };

    ghost view = { λ a. a.live };

    ghost invariant = { λ a. IsSoundUnlessSpent a.live };
}

impl<V: Service> Node<V> {
    ghost use Rattle.hc_member.specs.Finish.{finished};
    ghost use Rattle.hc_member.specs.Member.{anew};
    ghost use Rattle.hc_member.specs.Turn.{reacted};
    ghost use Rattle.hc_node.specs.Node.{NodeState};

    /// A replica that begins with a whole durable state, over a service that has executed nothing.
    pub fn start(
        alloc: Global,
        setup: Setup,
        from: Durable,
        service: V,
    ) -> Result<Node<V>, NoMemory>
        requires setup { IsSetup setup }
        requires whole { from.whole ≡ true }
        requires service { V.state service ≡ new_state }
        ensures { IfOk result (λ node. node ≡ Some (record { setup = setup; member = anew from.state })) }
    {
        let _whole = from.whole();
        let live = Live::new(alloc, setup, from, service)?;
        Ok(Node { live: Some(live) })
    }

    /// Applies the batch that is pending, and gives the replies to those of its requests that this replica answers.
    ///
    /// Where memory runs out, and only then, the replica is spent.
    pub fn finish(&mut self) -> Result<Datagrams, NoMemory>
        requires { IsLive self.old }
        ensures state { OnOk result ((n : NodeState) → self.old ≡ Some n → self.new ≡ Some (with_member n (finished n.setup n.member).member)) }
        ensures sends { IfOk result (λ sends. (n : NodeState) → self.old ≡ Some n → sends ≡ datagrams_of_all n.setup (finished n.setup n.member).sends) }

        // A datagram fits into an Ethernet frame.
        ensures fits { IfOk result (λ sends. All (λ d. length d.bytes ≤ most_datagram_bytes) sends) }
        ensures spent { OnErr result (self.new ≡ None) }
    {
        let Some(mut live) = self.live.take() else {
            unreachable!();
        };
        let sends = live.finish()?;
        self.live = Some(live);
        Ok(sends)
    }

    /// Reacts to an event: gives what is to be stored, and what is to be sent after that.
    ///
    /// Where memory runs out, and only then, the replica is spent.
    pub fn react(&mut self, event: &Event) -> Result<Turn, NoMemory>
        requires { IsLive self.old }
        ensures state { OnOk result ((n : NodeState) → self.old ≡ Some n → self.new ≡ Some (with_member n (reacted n.setup n.member event.now).member)) }
        ensures stored { IfOk result (λ turn. (n : NodeState) → self.old ≡ Some n → turn.stored ≡ (reacted n.setup n.member event.now).stored) }
        ensures sends { IfOk result (λ turn. (n : NodeState) → self.old ≡ Some n → turn.sends ≡ datagrams_of_all n.setup (reacted n.setup n.member event.now).sends) }

        // There is a record exactly where the durable state changed: one that may come next, and leads to the new state.
        ensures changed { IfOk result (λ turn. (n : NodeState) → self.old ≡ Some n → IsStored (durable_of n.member) turn.stored (durable_of (reacted n.setup n.member event.now).member)) }

        // A datagram fits into an Ethernet frame.
        ensures fits { IfOk result (λ turn. All (λ d. length d.bytes ≤ most_datagram_bytes) turn.sends) }
        ensures spent { OnErr result (self.new ≡ None) }
    {
        let Some(mut live) = self.live.take() else {
            unreachable!();
        };
        let turn = live.react(event)?;
        self.live = Some(live);
        Ok(turn)
    }

    /// Its term, and 0 where it is spent.
    pub fn term(&self) -> u64
        ensures { result ≡ number_of (λ m. m.term) self.now }
    {
        match &self.live {
            Some(live) => live.term(),
            None => 0,
        }
    }

    /// Its role, and that of a follower where it is spent.
    pub fn role(&self) -> Role
        ensures { result ≡ role_of self.now }
    {
        match &self.live {
            Some(live) => live.role(),
            None => Role::Follower,
        }
    }

    /// The greatest index that it knows to be committed, and 0 where it is spent.
    pub fn commit(&self) -> u64
        ensures { result ≡ number_of (λ m. m.commit) self.now }
    {
        match &self.live {
            Some(live) => live.commit(),
            None => 0,
        }
    }

    /// The greatest index that it applied, and 0 where it is spent.
    pub fn applied(&self) -> u64
        ensures { result ≡ number_of (λ m. m.applied) self.now }
    {
        match &self.live {
            Some(live) => live.applied(),
            None => 0,
        }
    }

    /// How many entries wait to be applied by the next `finish`, and 0 where it is spent.
    pub fn pending(&self) -> u64
        ensures { result ≡ number_of (λ m. m.pending) self.now }
    {
        match &self.live {
            Some(live) => live.pending(),
            None => 0,
        }
    }

    /// How many requests it gave a member, as its leader, to answer that the member hasn't reported applied. It is 0 where there is
    /// no such member, where it doesn't lead, and where it is spent.
    pub fn unreported(&self, member: u8) -> u16
        ensures { result ≡ number_of (unreported_by member) self.now }
    {
        match &self.live {
            Some(live) => live.unreported(member),
            None => 0,
        }
    }

    /// Whether memory ran out in a turn, so that there can't be another.
    pub fn spent(&self) -> bool
        ensures told { result ≡ is_none self.now }
        ensures holds { IsSoundUnlessSpent self.now }
    {
        self.live.is_none()
    }
}
