ghost use Rattle.std.specs.Prelude.{◌≡◌, length, true, IfOk};
ghost use Rattle.hc_service.specs.State.{new_state};

use crate::lead::Lead;
use hc_log::{Durable, Log};
use hc_member::Role;
use hc_pool::Pool;
use hc_service::Service;
use r2_base::NoMemory;
use r2_frag::{Assembly, Kept};
use std::alloc::Global;
use std::marker::Model;

/// A member of a group: what it keeps over a crash, what Raft keeps in memory, and the service.
#[derive(Drop)]
pub(crate) struct Member<V: Service> {
    pub(crate) term: u64,
    pub(crate) vote: Option<u8>,
    pub(crate) log: Log,
    pub(crate) role: Role,
    /// By number of a member, whether it voted for this one.
    pub(crate) votes: Vec<bool>,
    /// Up to here the log is that of the term's leader.
    pub(crate) matched: u64,
    /// How many ticks there were without word from a leader.
    pub(crate) silent: u32,
    /// The greatest index known to be committed.
    pub(crate) commit: u64,
    /// The greatest index that was applied.
    pub(crate) applied: u64,
    /// How many entries after `applied` wait to be applied by the next turn.
    pub(crate) pending: u64,
    pub(crate) pool: Pool,
    /// The messages some of whose parts came.
    pub(crate) unfinished: Assembly,
    /// The replies to the last requests that this member answered.
    pub(crate) kept: Kept,
    pub(crate) service: V,
    pub(crate) lead: Lead,
}

impl<V: Service> Model for Member<V> {
    ghost use Rattle.std.specs.Coded.{codes};
    ghost use Rattle.hc_service.specs.State.{contents_code};
    ghost use Rattle.hc_member.specs.Member as member;

    ghost Value = { member.Member };

    ghost coded = { Prim.hlevel (codes, contents_code) };

    ghost view = { λ a. record {
      term = a.term;
      vote = a.vote;
      log = a.log;
      role = a.role;
      votes = a.votes.items;
      matched = a.matched;
      silent = a.silent;
      commit = a.commit;
      applied = a.applied;
      pending = a.pending;
      pool = a.pool;
      unfinished = a.unfinished;
      kept = a.kept;
      service = V.state a.service;
      lead = a.lead;
    } };
}

impl<V: Service> Member<V> {
    ghost use Rattle.hc_member.specs.Member.{anew};

    /// A member that begins with this durable state; all else is new.
    #[tactic(auto, unfolding(hc_member::specs::Member::anew))]
    pub(crate) fn anew(alloc: Global, from: Durable, service: V) -> Result<Member<V>, NoMemory>
        requires whole { from.whole ≡ true }
        requires service { V.state service ≡ new_state }
        ensures { IfOk result (λ m. m ≡ anew from.state) }
    {
        let (term, vote, log) = from.into_parts();
        Ok(Member {
            term,
            vote,
            log,
            role: Role::Follower,
            votes: Vec::new(alloc),
            matched: 0,
            silent: 0,
            commit: 0,
            applied: 0,
            pending: 0,
            pool: Pool::new(alloc),
            unfinished: Assembly::new(alloc),
            kept: Kept::new(alloc)?,
            service,
            lead: Lead::none(alloc),
        })
    }

    /// The index of the last entry of its log.
    pub(crate) fn last_index(&self) -> u64
        ensures { result ≡ length self.now.log }
    {
        self.log.last()
    }
}
