//! What a leader hears of how far the others are, and what a member hears of what the aggregator found.
ghost use Rattle.std.specs.Prelude.{◌≡◌, ◌<◌, length, OnOk};
ghost use Rattle.hc_member.specs.Setup.{IsSetup};
ghost use Rattle.hc_member.specs.Sound.{IsSound};
ghost use Rattle.hc_node.specs.Sends.{AreSent};

use crate::member::Member;
use hc_member::{Role, Setup};
use hc_service::Service;
use r2_base::{Datagram, NoMemory};
use std::alloc::Global;

impl<V: Service> Member<V> {
    ghost use Rattle.hc_member.specs.Member.{leads};
    ghost use Rattle.hc_member.specs.Reports.{hear_ack, hear_commit, hear_nack};

    /// Whether it leads this term.
    pub(crate) fn leads(&self, term: u64) -> bool
        ensures { result ≡ leads term self.now }
    {
        self.role == Role::Leader && self.term == term
    }

    /// A member acknowledges the leader's log up to an index (Raft, section 5.3), and reports what it applied.
    #[tactic(auto, unfolding(hc_member::specs::Reports::hear_ack))]
    pub(crate) fn hear_ack(
        &mut self,
        setup: &Setup,
        term: u64,
        member: u8,
        index: u64,
        applied: u64,
    )
        requires setup { IsSetup setup.now }
        requires sound { IsSound setup.now self.old }
        requires member { member < length setup.now.members }
        ensures { self.new ≡ (hear_ack self.old term member index applied).member }
    {
        if !self.leads(term) {
            self.rise_to(term);
            return;
        }
        let last = self.log.last();
        self.lead.note_reached(member, index.min(last));
        self.lead.report(member, applied);
    }

    /// A member couldn't take an Order (Raft, section 5.3).
    #[tactic(auto, unfolding(hc_member::specs::Reports::hear_nack))]
    pub(crate) fn hear_nack(
        &mut self,
        alloc: Global,
        setup: &Setup,
        term: u64,
        member: u8,
        hint: u64,
        sends: &mut Vec<Datagram>,
    ) -> Result<(), NoMemory>
        requires setup { IsSetup setup.now }
        requires sound { IsSound setup.now self.old }
        requires member { member < length setup.now.members }
        ensures state { OnOk result (self.new ≡ (hear_nack setup.now self.old term member hint).member) }
        ensures sends { OnOk result (AreSent setup.now (hear_nack setup.now self.old term member hint).sends sends.old.items sends.new.items) }
    {
        if !self.leads(term) {
            self.rise_to(term);
            return Ok(());
        }
        let last = self.log.last();
        self.lead.turn_back(member, hint.min(last));
        self.send_direct_order(alloc, setup, member, sends)
    }

    /// The aggregator found that a majority has the term's log up to an index: what is matched of that is committed.
    #[tactic(auto, unfolding(hc_member::specs::Reports::hear_commit))]
    pub(crate) fn hear_commit(&mut self, term: u64, index: u64)
        ensures { self.new ≡ (hear_commit self.old term index).member }
    {
        if self.term != term {
            return;
        }
        if self.role == Role::Candidate {
            return;
        }
        self.commit = self.commit.max(index.min(self.matched));
    }
}
