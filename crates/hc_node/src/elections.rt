//! Elections: a member stands, asks the others for their votes, and wins (Raft, section 5.2).
ghost use Rattle.std.specs.Prelude.{◌≡◌, ◌<◌, length, IfOk, OnOk};
ghost use Rattle.r2_base.specs.Limits.{greatest_number};
ghost use Rattle.hc_log.specs.Log.{blank_of, MayFollow};
ghost use Rattle.hc_member.specs.Setup.{IsSetup};
ghost use Rattle.hc_member.specs.Votes.{is_elected, own_vote};
ghost use Rattle.hc_message.specs.Message.{IsValid};
ghost use Rattle.hc_node.specs.Sends.{AreSent};

use crate::group::majority;
use crate::lead::Lead;
use crate::member::Member;
use crate::sending::tell_others;
use hc_log::Stored;
use hc_member::{Role, Setup};
use hc_message::Msg;
use hc_service::Service;
use r2_base::{Addr, Bytes, Datagram, Entry, Kind, NO_REPLIER, NoMemory, Rid};
use std::alloc::Global;

/// The entry that a new leader appends.
fn blank_of(alloc: Global, term: u64) -> Stored
    ensures { result ≡ blank_of term }
{
    let client = Addr { ip: 0, port: 0 };
    Stored {
        entry: Entry {
            term,
            kind: Kind::Blank,
            rid: Rid { id: 0, client },
            replier: NO_REPLIER,
        },
        body: Bytes::new(alloc),
    }
}

/// Nobody's vote but that of the member itself.
fn own_vote(alloc: Global, setup: &Setup) -> Result<Vec<bool>, NoMemory>
    requires { IsSetup setup.now }
    ensures { IfOk result (λ votes. votes.items ≡ own_vote setup.now) }
{
    let mut votes = vec![in alloc; false; setup.members.len()]?;
    votes[usize::from(setup.me)] = true;
    Ok(votes)
}

/// Whether these votes are a majority's.
pub(crate) fn is_elected(setup: &Setup, votes: &[bool]) -> bool
    requires { IsSetup setup.now }
    ensures { result ≡ is_elected setup.now votes.now }
{
    let granted = votes.iter().filter(|vote| **vote).count();
    usize::from(majority(setup)) <= granted
}

impl<V: Service> Member<V> {
    ghost use Rattle.hc_member.specs.Votes.{stands, vote_request, vote_requests, wins, wins_if_elected};

    /// Becomes a candidate of the next term, which votes for itself.
    #[tactic(auto, unfolding(hc_member::specs::Votes::stands))]
    pub(crate) fn stand(&mut self, alloc: Global, setup: &Setup) -> Result<(), NoMemory>
        requires setup { IsSetup setup.now }
        requires term { self.old.term < greatest_number }
        ensures { OnOk result (self.new ≡ stands setup.now self.old) }
    {
        self.votes = own_vote(alloc, setup)?;
        self.term += 1;
        self.vote = Some(setup.me);
        self.role = Role::Candidate;
        self.silent = 0;
        self.matched = 0;
        Ok(())
    }

    /// Becomes the leader of its term, with a blank entry of that term at the end of its log.
    #[tactic(auto, unfolding(hc_member::specs::Votes::wins))]
    pub(crate) fn win(&mut self, alloc: Global, setup: &Setup) -> Result<(), NoMemory>
        requires setup { IsSetup setup.now }
        requires room { length self.old.log < greatest_number }
        requires follows { MayFollow self.old.log (blank_of self.old.term) }
        ensures { OnOk result (self.new ≡ wins setup.now self.old) }
    {
        let start = self.log.last() + 1;
        self.lead = Lead::new(alloc, setup, start)?;
        self.log.append(blank_of(alloc, self.term))?;
        self.role = Role::Leader;
        self.matched = start;
        Ok(())
    }

    /// Becomes the leader, where a majority voted for it.
    pub(crate) fn win_if_elected(&mut self, alloc: Global, setup: &Setup) -> Result<(), NoMemory>
        requires setup { IsSetup setup.now }
        requires room { length self.old.log < greatest_number }
        requires follows { MayFollow self.old.log (blank_of self.old.term) }
        ensures { OnOk result (self.new ≡ wins_if_elected setup.now self.old) }
    {
        if is_elected(setup, self.votes.as_slice()) {
            self.win(alloc, setup)?;
        }
        Ok(())
    }

    /// Asks each other member for its vote.
    pub(crate) fn ask_for_votes(
        &self,
        alloc: Global,
        setup: &Setup,
        sends: &mut Vec<Datagram>,
    ) -> Result<(), NoMemory>
        requires setup { IsSetup setup.now }
        requires message { IsValid (vote_request setup.now self.now) }
        ensures { OnOk result (AreSent setup.now (vote_requests setup.now self.now) sends.old.items sends.new.items) }
    {
        let last_index = self.log.last();
        let message = Msg::VoteReq {
            term: self.term,
            member: setup.me,
            last_index,
            last_term: self.log.term_at(last_index),
        };
        tell_others(alloc, setup, &message, sends)
    }
}
