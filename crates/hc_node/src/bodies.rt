//! Requests and their bodies: a client's, and those that members ask of each other (HovercRaft, on lost requests).
ghost use Rattle.std.specs.Prelude.{◌≡◌, ◌<◌, ◌≤◌, ◌++◌, length, None, Some, All, MatchOption, OnOk};
ghost use Rattle.r2_base.specs.Limits.{most_body};
ghost use Rattle.r2_frag.specs.Kept.{newest};
ghost use Rattle.r2_frag.specs.Replies.{IsReply};
ghost use Rattle.hc_message.specs.Entry.{kind_number};
ghost use Rattle.hc_pool.specs.Pool.{MayWait};
ghost use Rattle.hc_member.specs.Orders.{bodies_asked};
ghost use Rattle.hc_member.specs.Sending.{Recover, datagrams_of};
ghost use Rattle.hc_member.specs.Setup.{IsSetup, address_of};
ghost use Rattle.hc_member.specs.Sound.{IsSound};
ghost use Rattle.hc_node.specs.Sends.{AreSent};

use crate::group::address_of;
use crate::member::Member;
use crate::sending::{recover, reply};
use hc_member::Setup;
use hc_message::Msg;
use hc_pool::{PutFault, Request};
use hc_service::Service;
use r2_base::{Bytes, Datagram, Kind, NoMemory, Rid};
use std::alloc::Global;

/// Asks a leader for the body of a request.
fn ask_for_body(
    alloc: Global,
    setup: &Setup,
    leader: u8,
    rid: Rid,
    sends: &mut Vec<Datagram>,
) -> Result<(), NoMemory>
    requires setup { IsSetup setup.now }
    requires leader { leader < length setup.now.members }
    ensures { OnOk result (sends.new.items ≡ sends.old.items ++ datagrams_of setup.now (Recover (address_of setup.now leader) rid (Msg.RecoverAsk setup.now.me))) }
{
    let message = Msg::RecoverAsk { member: setup.me };
    recover(
        alloc,
        setup,
        address_of(setup, leader),
        rid,
        &message,
        sends,
    )
}

/// Asks a leader for the bodies that are missing.
pub(crate) fn ask_for_bodies(
    alloc: Global,
    setup: &Setup,
    leader: u8,
    missing: &[Rid],
    sends: &mut Vec<Datagram>,
) -> Result<(), NoMemory>
    requires setup { IsSetup setup.now }
    requires leader { leader < length setup.now.members }
    ensures { OnOk result (AreSent setup.now (bodies_asked setup.now leader missing.now) sends.old.items sends.new.items) }
{
    'ids: for rid in missing {
        ask_for_body(alloc, setup, leader, *rid, sends)?;
    }
    Ok(())
}

impl<V: Service> Member<V> {
    ghost use Rattle.hc_member.specs.Bodies.{answered_again, give_body, hear_request, held_request, pooled, take_body};

    /// Puts a new request into the pool, unless it waits there already or the pool is full.
    #[tactic(auto, unfolding(hc_member::specs::Bodies::pooled))]
    fn pool_request(&mut self, request: Request) -> Result<(), NoMemory>
        requires { MayWait request }
        ensures { OnOk result (self.new ≡ pooled self.old request) }
    {
        if self.pool.get(&request.rid).is_some() {
            return Ok(());
        }
        let Request { rid, kind, body } = request;
        match self.pool.put(rid, kind, body) {
            Ok(()) => Ok(()),
            Err(PutFault::Full) => Ok(()),
            Err(PutFault::Memory) => Err(NoMemory),
        }
    }

    /// Sends the kept reply to a request again, where one is kept.
    fn answer_again(
        &self,
        alloc: Global,
        setup: &Setup,
        rid: &Rid,
        sends: &mut Vec<Datagram>,
    ) -> Result<(), NoMemory>
        requires setup { IsSetup setup.now }
        requires replies { All IsReply self.now.kept }
        ensures { OnOk result (AreSent setup.now (answered_again (newest rid.now self.now.kept)) sends.old.items sends.new.items) }
    {
        match self.kept.find(rid) {
            None => Ok(()),
            Some((policy, payload)) => reply(alloc, setup, rid, policy, payload, sends),
        }
    }

    /// A whole request: one that is in the log is answered again, another waits to be ordered.
    #[tactic(auto, unfolding(hc_member::specs::Bodies::hear_request))]
    pub(crate) fn hear_request(
        &mut self,
        alloc: Global,
        setup: &Setup,
        request: Request,
        sends: &mut Vec<Datagram>,
    ) -> Result<(), NoMemory>
        requires setup { IsSetup setup.now }
        requires sound { IsSound setup.now self.old }
        requires may_wait { MayWait request }
        ensures state { OnOk result (self.new ≡ (hear_request self.old request).member) }
        ensures sends { OnOk result (AreSent setup.now (hear_request self.old request).sends sends.old.items sends.new.items) }
    {
        if self.log.place_of(&request.rid).is_some() {
            return self.answer_again(alloc, setup, &request.rid, sends);
        }
        self.pool_request(request)
    }

    /// The kind and the body of the request with this id, which stands in the log or waits in the pool, if they are there.
    fn held_request(&self, rid: &Rid) -> Option<(Kind, &Bytes)>
        ensures { MatchOption result (held_request rid.now self.now ≡ None)
            (λ p. held_request rid.now self.now ≡ Some (record { rid = rid.now; kind = p.0; body = p.1.now })) }
    {
        match self.log.place_of(rid) {
            Some(index) => Some((self.log.entry(index).kind, self.log.body(index))),
            None => self.pool.get(rid),
        }
    }

    /// A member asks for the body of a request.
    #[tactic(auto, unfolding(hc_member::specs::Bodies::give_body))]
    pub(crate) fn give_body(
        &self,
        alloc: Global,
        setup: &Setup,
        member: u8,
        rid: Rid,
        sends: &mut Vec<Datagram>,
    ) -> Result<(), NoMemory>
        requires setup { IsSetup setup.now }
        requires sound { IsSound setup.now self.now }
        requires member { member < length setup.now.members }
        ensures { OnOk result (AreSent setup.now (give_body setup.now self.now member rid).sends sends.old.items sends.new.items) }
    {
        let Some((kind, body)) = self.held_request(&rid) else {
            return Ok(());
        };
        let body = body.copy(alloc)?;
        let message = Msg::RecoverBody { kind, body };
        recover(
            alloc,
            setup,
            address_of(setup, member),
            rid,
            &message,
            sends,
        )
    }

    /// A body that was asked for comes: where the request is neither in the log nor in the pool, it waits now.
    #[tactic(auto, unfolding(hc_member::specs::Bodies::take_body))]
    pub(crate) fn take_body(&mut self, rid: Rid, kind: Kind, body: Bytes) -> Result<(), NoMemory>
        requires kind { 1 ≤ kind_number kind }
        requires body { length body ≤ most_body }
        ensures { OnOk result (self.new ≡ (take_body self.old rid kind body).member) }
    {
        if self.log.place_of(&rid).is_some() {
            return Ok(());
        }
        if self.pool.get(&rid).is_some() {
            return Ok(());
        }
        self.pool.put_back(rid, kind, body)
    }
}
