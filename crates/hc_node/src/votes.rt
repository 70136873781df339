//! Terms and votes: a member rises to a term, grants its vote, and counts those that it is given (Raft, sections 5.1, 5.2 and 5.4.1).
ghost use Rattle.std.specs.Prelude.{◌≡◌, ◌<◌, length, OnOk};
ghost use Rattle.hc_message.specs.Entry.{IsTerm};
ghost use Rattle.hc_member.specs.Setup.{IsSetup};
ghost use Rattle.hc_member.specs.Sound.{IsSound};
ghost use Rattle.hc_member.specs.Votes.{is_free_for, reaches};
ghost use Rattle.hc_node.specs.Sends.{AreSent};

use crate::group::address_of;
use crate::member::Member;
use crate::sending::tell;
use hc_log::Log;
use hc_member::{Role, Setup};
use hc_message::Msg;
use hc_service::Service;
use r2_base::{Datagram, NoMemory};
use std::alloc::Global;

/// Whether a log that ends with this index and term is at least as new as this one (Raft, section 5.4.1).
fn reaches(log: &Log, last_index: u64, last_term: u64) -> bool
    ensures { result ≡ reaches log.now last_index last_term }
{
    let own_index = log.last();
    let own_term = log.term_at(own_index);
    if own_term < last_term {
        return true;
    }
    own_term == last_term && own_index <= last_index
}

/// Whether a member may vote for a candidate: it hasn't voted for another one.
fn is_free_for(candidate: u8, vote: Option<u8>) -> bool
    ensures { result ≡ is_free_for candidate vote }
{
    match vote {
        None => true,
        Some(other) => other == candidate,
    }
}

impl<V: Service> Member<V> {
    ghost use Rattle.hc_member.specs.Votes.{counts_vote, grants, hear_vote, hear_vote_request, rise_to, votes_on, with_vote};

    /// Becomes a follower of a term that is greater than its own, in which it hasn't voted.
    #[tactic(auto, unfolding(hc_member::specs::Votes::rise_to))]
    pub(crate) fn rise_to(&mut self, term: u64)
        ensures { self.new ≡ rise_to term self.old }
    {
        if self.term < term {
            self.term = term;
            self.vote = None;
            self.role = Role::Follower;
            self.votes.clear();
            self.matched = 0;
        }
    }

    /// Whether it grants a candidate of its term its vote.
    fn grants(&self, candidate: u8, last_index: u64, last_term: u64) -> bool
        ensures { result ≡ grants self.now candidate last_index last_term }
    {
        self.role == Role::Follower
            && is_free_for(candidate, self.vote)
            && reaches(&self.log, last_index, last_term)
    }

    /// Votes for a candidate of its term, or refuses it its vote.
    #[tactic(auto, unfolding(hc_member::specs::Votes::votes_on))]
    fn vote_on(
        &mut self,
        alloc: Global,
        setup: &Setup,
        candidate: u8,
        granted: bool,
        sends: &mut Vec<Datagram>,
    ) -> Result<(), NoMemory>
        requires setup { IsSetup setup.now }
        requires term { IsTerm self.old.term }
        requires candidate { candidate < length setup.now.members }
        ensures state { OnOk result (self.new ≡ (votes_on setup.now self.old candidate granted).member) }
        ensures sends { OnOk result (AreSent setup.now (votes_on setup.now self.old candidate granted).sends sends.old.items sends.new.items) }
    {
        if granted {
            self.vote = Some(candidate);
            self.silent = 0;
        }
        let message = Msg::Vote {
            term: self.term,
            member: setup.me,
            granted,
        };
        tell(alloc, setup, address_of(setup, candidate), &message, sends)
    }

    /// A candidate asks for a vote: one of an earlier term doesn't get it.
    #[tactic(auto, unfolding(hc_member::specs::Votes::hear_vote_request))]
    pub(crate) fn hear_vote_request(
        &mut self,
        alloc: Global,
        setup: &Setup,
        term: u64,
        candidate: u8,
        last_index: u64,
        last_term: u64,
        sends: &mut Vec<Datagram>,
    ) -> Result<(), NoMemory>
        requires setup { IsSetup setup.now }
        requires sound { IsSound setup.now self.old }
        requires term { IsTerm term }
        requires candidate { candidate < length setup.now.members }
        ensures state { OnOk result (self.new ≡ (hear_vote_request setup.now self.old term candidate last_index last_term).member) }
        ensures sends { OnOk result (AreSent setup.now (hear_vote_request setup.now self.old term candidate last_index last_term).sends sends.old.items sends.new.items) }
    {
        if term < self.term {
            return self.vote_on(alloc, setup, candidate, false, sends);
        }
        self.rise_to(term);
        let granted = self.grants(candidate, last_index, last_term);
        self.vote_on(alloc, setup, candidate, granted, sends)
    }

    /// Whether a vote counts: it is a candidate of that term, and the vote is granted.
    fn counts_vote(&self, term: u64, granted: bool) -> bool
        ensures { result ≡ counts_vote self.now term granted }
    {
        granted && self.role == Role::Candidate && self.term == term
    }

    /// One more member voted for it.
    fn count_vote(&mut self, voter: u8)
        requires { voter < length self.old.votes }
        ensures { self.new ≡ with_vote self.old voter }
    {
        self.votes[usize::from(voter)] = true;
    }

    /// A vote comes; with that of a majority it wins.
    #[tactic(auto, unfolding(hc_member::specs::Votes::hear_vote))]
    pub(crate) fn hear_vote(
        &mut self,
        alloc: Global,
        setup: &Setup,
        term: u64,
        voter: u8,
        granted: bool,
    ) -> Result<(), NoMemory>
        requires setup { IsSetup setup.now }
        requires sound { IsSound setup.now self.old }
        requires voter { voter < length setup.now.members }
        ensures { OnOk result (self.new ≡ (hear_vote setup.now self.old term voter granted).member) }
    {
        if !self.counts_vote(term, granted) {
            self.rise_to(term);
            return Ok(());
        }
        self.count_vote(voter);
        self.win_if_elected(alloc, setup)
    }
}
