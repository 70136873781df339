ghost use Rattle.std.specs.Prelude.{◌≡◌, ◌≤◌, ◌<◌, ◌+◌, length, IfOk};
ghost use Rattle.r2_base.specs.Limits.{greatest_member};
ghost use Rattle.hc_aggregate.specs.Tally.{begun, found, in_term, no_tally, with_reached};

use hc_order::counted;
use r2_base::{NoMemory, majority};
use std::alloc::Global;
use std::marker::Model;

/// How far the members of a group come with the log of a term's leader.
#[derive(Debug, Drop)]
pub(crate) struct Tally {
    /// The term, which is 0 until an Order came.
    pub(crate) term: u64,
    /// The number of the term's leader.
    pub(crate) leader: u8,
    /// The index of the leader's first entry of the term.
    pub(crate) term_start: u64,
    /// By number of a member, up to where it has the leader's log.
    pub(crate) reached: Vec<u64>,
    /// The greatest index that was found to be committed.
    pub(crate) committed: u64,
}

impl Model for Tally {
    ghost use Rattle.hc_aggregate.specs.Tally as tally;

    ghost Value = { tally.Tally };

    ghost view = { λ a. record { term = a.term; leader = a.leader; term_start = a.term_start; reached = a.reached.items; committed = a.committed } };
}

impl Tally {
    /// Before any Order came to a group of so many members.
    pub(crate) fn new(alloc: Global, members: usize) -> Result<Tally, NoMemory>
        ensures { IfOk result (λ tally. tally ≡ no_tally members) }
    {
        Ok(Tally {
            term: 0,
            leader: 0,
            term_start: 0,
            reached: vec![in alloc; 0; members]?,
            committed: 0,
        })
    }

    /// The same tally once more.
    pub(crate) fn copy(&self, alloc: Global) -> Result<Tally, NoMemory>
        ensures { IfOk result (λ tally. tally ≡ self.now) }
    {
        Ok(Tally {
            term: self.term,
            leader: self.leader,
            term_start: self.term_start,
            reached: Vec::from_slice(alloc, self.reached.as_slice())?,
            committed: self.committed,
        })
    }

    /// Counts a term from its beginning.
    pub(crate) fn begin(&mut self, term: u64, leader: u8, term_start: u64)
        ensures { self.new ≡ begun (length self.old.reached) term leader term_start }
    {
        self.term = term;
        self.leader = leader;
        self.term_start = term_start;
        self.reached.fill(0);
        self.committed = 0;
    }

    /// Counts the term of an Order from its beginning, where it is higher than the one that is counted.
    pub(crate) fn enter(&mut self, term: u64, leader: u8, term_start: u64)
        ensures { self.new ≡ in_term self.old term leader term_start }
    {
        if self.term < term {
            self.begin(term, leader, term_start);
        }
    }

    /// A member has the leader's log up to an index at least.
    pub(crate) fn note(&mut self, member: u8, index: u64)
        requires { member < length self.old.reached }
        ensures { self.new ≡ with_reached self.old member index }
    {
        let reached = self.reached[usize::from(member)].max(index);
        self.reached[usize::from(member)] = reached;
    }

    /// The index that is now found to be committed, if one is, in a group of so many members: the greatest that a majority of them
    /// reach, where it isn't before the leader's own first entry (Raft, section 5.4.2) and wasn't found before.
    #[tactic(auto, unfolding(crate::specs::Tally::found))]
    pub(crate) fn found(&self, members: usize) -> Option<u64>
        requires each { length self.now.reached ≡ members }
        requires some { 1 ≤ members }
        requires few { members ≤ greatest_member + 1 }
        ensures { result ≡ found self.now }
    {
        let need = majority(members as u8);
        let index = counted(self.reached.as_slice(), need);
        if index < self.term_start {
            return None;
        }
        if index <= self.committed {
            return None;
        }
        Some(index)
    }
}
