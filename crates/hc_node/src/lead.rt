ghost use Rattle.std.specs.Prelude.{◌≡◌, ◌<◌, ◌≤◌, ◌+◌, max, slice_set, length, IfOk};
ghost use Rattle.r2_base.specs.Limits.{greatest_number};
ghost use Rattle.hc_member.specs.Setup.{IsSetup};

use hc_member::Setup;
use hc_replier::Queues;
use r2_base::NoMemory;
use std::alloc::Global;
use std::marker::Model;

/// What a leader keeps of the other members. No call of it takes memory.
#[derive(Drop)]
pub(crate) struct Lead {
    /// The index of the leader's first entry of its own term.
    pub(crate) term_start: u64,
    /// By number of a member, up to where it has the leader's log.
    pub(crate) reached: Vec<u64>,
    /// By number of a member, the index of the next entry to send to it.
    pub(crate) next: Vec<u64>,
    pub(crate) queues: Queues,
}

impl Model for Lead {
    ghost use Rattle.hc_member.specs.Member as member;

    ghost Value = { member.Lead };

    ghost view = { λ a. record { term_start = a.term_start; reached = a.reached.items; next = a.next.items; queues = a.queues } };
}

impl Lead {
    ghost use Rattle.hc_member.specs.Member.{no_lead};
    ghost use Rattle.hc_member.specs.Orders.{next_to};
    ghost use Rattle.hc_member.specs.Reports.{reached_by, with_reached, with_report};
    ghost use Rattle.hc_member.specs.Votes.{new_lead};

    /// What a member keeps that isn't a leader, with no memory taken.
    pub(crate) fn none(alloc: Global) -> Lead
        ensures { result ≡ no_lead }
    {
        Lead {
            term_start: 0,
            reached: Vec::new(alloc),
            next: Vec::new(alloc),
            queues: Queues::none(alloc),
        }
    }

    /// What a leader keeps at first, where its first entry is at this index.
    pub(crate) fn new(alloc: Global, setup: &Setup, start: u64) -> Result<Lead, NoMemory>
        requires { IsSetup setup.now }
        ensures { IfOk result (λ lead. lead ≡ new_lead setup.now start) }
    {
        let members = setup.members.len();
        Ok(Lead {
            term_start: start,
            reached: vec![in alloc; 0; members]?,
            next: vec![in alloc; start; members]?,
            queues: Queues::new(alloc, setup.bounds.as_slice())?,
        })
    }

    /// Up to where a member has the leader's log.
    pub(crate) fn reached_by(&self, member: u8) -> u64
        requires { member < length self.now.reached }
        ensures { result ≡ reached_by self.now member }
    {
        self.reached[usize::from(member)]
    }

    /// The index of the next entry to send to a member.
    pub(crate) fn next_to(&self, member: u8) -> u64
        requires { member < length self.now.next }
        ensures { result ≡ next_to self.now member }
    {
        self.next[usize::from(member)]
    }

    /// A member has the leader's log up to an index at least.
    pub(crate) fn note_reached(&mut self, member: u8, index: u64)
        requires reached { member < length self.old.reached }
        requires next { member < length self.old.next }
        requires below { reached_by self.old member ≤ greatest_number }
        requires fits { index ≤ greatest_number }
        ensures { self.new ≡ with_reached self.old member index }
    {
        let reached = self.reached[usize::from(member)].max(index);
        self.reached[usize::from(member)] = reached;
        self.next[usize::from(member)] = reached + 1;
    }

    /// A member applied what it was given to answer up to an index.
    pub(crate) fn report(&mut self, member: u8, applied: u64)
        requires { member < length self.old.queues }
        ensures { self.new ≡ with_report self.old member applied }
    {
        self.queues.report(member, applied);
    }

    /// The next entry to send to a member is the one after an index, but not before what it is known to have.
    pub(crate) fn turn_back(&mut self, member: u8, index: u64)
        requires reached { member < length self.old.reached }
        requires next { member < length self.old.next }
        requires below { reached_by self.old member ≤ greatest_number }
        requires fits { index ≤ greatest_number }
        ensures { self.new ≡ record self.old { next = slice_set self.old.next member (1 + max (reached_by self.old member) index) } }
    {
        let agreed = self.reached[usize::from(member)].max(index);
        self.next[usize::from(member)] = 1 + agreed;
    }
}
