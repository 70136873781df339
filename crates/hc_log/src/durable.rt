ghost use Rattle.std.specs.Prelude.{◌≡◌, ◌≤◌, ◌↔◌, ◌++◌, ℕ, true, false, length, take, All, IfOk, OnOk, OnErr, Err};
ghost use Rattle.r2_base.specs.Memory.{UnlessMemory};
ghost use Rattle.hc_log.specs.Faults.{is_memory};
ghost use Rattle.hc_log.specs.Log.{FollowEach, IsLog};

use crate::checks::may_be_next;
use crate::{FollowFault, Log, Record, Stored};
use r2_base::{Duplicate, NoMemory};
use std::alloc::Global;
use std::marker::Model;

/// What a replica keeps over a crash (Raft, figure 2): its term, the member that it voted for in it, and its log.
#[derive(Debug, Drop)]
pub struct Durable {
    alloc: Global,
    term: u64,
    vote: Option<u8>,
    log: Log,
    whole: bool,
}

impl Model for Durable {
    ghost use Rattle.hc_log.specs.Durable.{DurableView, IsValid};

    ghost Value = { DurableView };

    ghost view = { λ a. record { state = record { term = a.term; vote = a.vote; log = a.log }; whole = a.whole } };

    ghost invariant = { λ a. IsValid (record { term = a.term; vote = a.vote; log = a.log }) };
}

impl Durable {
    ghost use Rattle.hc_log.specs.Durable.{begun, after, replay, IsNext, IsHistory, IsValid};

    /// The state of a replica that has stored nothing yet.
    pub fn begin(alloc: Global) -> Durable
        ensures state { result.state ≡ begun }
        ensures whole { result.whole ≡ true }
    {
        Durable {
            alloc,
            term: 0,
            vote: None,
            log: Log::new(alloc),
            whole: true,
        }
    }

    /// The state that these records lead to, one after another. It is whole.
    ///
    /// They are Unfit exactly where one of them may not be the next one of the state that those before it lead to, unless
    /// memory runs out first.
    pub fn replay(alloc: Global, records: &[Record]) -> Result<Durable, FollowFault>
        ensures state { IfOk result (λ d. d.state ≡ replay records.now) }
        ensures whole { IfOk result (λ d. d.whole ≡ true) }
        ensures history { OnOk result (IsHistory records.now) }
        ensures unfit { UnlessMemory is_memory result ((result ≡ Err FollowFault.Unfit) ↔ (IsHistory records.now → ⊥)) }
    {
        let mut durable = Durable::begin(alloc);
        'records: for r in records {
            if let Err(fault) = durable.follow(r) {
                return Err(fault);
            }
        }
        Ok(durable)
    }

    pub fn term(&self) -> u64
        ensures { result ≡ self.now.state.term }
    {
        self.term
    }

    /// The member that got the replica's vote in this term.
    pub fn vote(&self) -> Option<u8>
        ensures { result ≡ self.now.state.vote }
    {
        self.vote
    }

    pub fn log(&self) -> &Log
        ensures { result.now ≡ self.now.state.log }
    {
        &self.log
    }

    /// The term, the vote and the log of a state that is whole.
    pub fn into_parts(self) -> (u64, Option<u8>, Log)
        requires { self.whole ≡ true }
        ensures term { result.0 ≡ self.state.term }
        ensures vote { result.1 ≡ self.state.vote }
        ensures log { result.2 ≡ self.state.log }
        ensures holds { IsValid self.state }
    {
        let Durable {
            alloc: _,
            term,
            vote,
            log,
            whole: _,
        } = self;
        (term, vote, log)
    }

    /// Whether no change was left half done. A state that isn't whole is to be dropped.
    pub fn whole(&self) -> bool
        ensures told { result ≡ self.now.whole }
        ensures holds { IsValid self.now.state }
    {
        self.whole
    }

    /// Takes the record's term and vote, keeps as many of the first entries as it says, and appends the record's own.
    /// Where memory ran out some of this may have been done: the state isn't whole any more, and is to be dropped.
    pub fn follow(&mut self, r: &Record) -> Result<(), FollowFault>
        ensures state { OnOk result (self.new.state ≡ after self.old.state r.now) }
        ensures whole { OnOk result (self.new.whole ≡ self.old.whole) }
        ensures next { OnOk result (IsNext self.old.state r.now) }
        ensures unfit { (result ≡ Err FollowFault.Unfit) ↔ (IsNext self.old.state r.now → ⊥) }
        ensures unchanged { result ≡ Err FollowFault.Unfit → self.new ≡ self.old }
        ensures memory { result ≡ Err FollowFault.Memory → self.new.whole ≡ false }
    {
        if !may_be_next(self.term, self.vote, &self.log, r) {
            return Err(FollowFault::Unfit);
        }
        self.term = r.term;
        self.vote = r.vote;
        let behind = r.entries.as_slice();
        match replace_behind(self.alloc, &mut self.log, r.keep, behind) {
            Ok(()) => Ok(()),
            Err(NoMemory) => {
                self.whole = false;
                Err(FollowFault::Memory)
            }
        }
    }
}

/// Puts copies of these entries after the first `keep` entries of a log. Without memory some are put there, or none.
fn replace_behind(
    alloc: Global,
    log: &mut Log,
    keep: u64,
    entries: &[Stored],
) -> Result<(), NoMemory>
    requires is_log { IsLog log.old }
    requires keep { keep ≤ length log.old }
    requires entries { FollowEach (take keep log.old) entries.now }
    ensures ok { OnOk result (log.new ≡ take keep log.old ++ entries.now) }
    ensures is_log { IsLog log.new }
    ensures terms { (t : ℕ) → All (λ s. s.entry.term ≤ t) log.old → All (λ s. s.entry.term ≤ t) entries.now → All (λ s. s.entry.term ≤ t) log.new }
{
    let _cut = log.cut(keep)?;
    'entries: for s in entries {
        log.append(s.duplicate(alloc)?)?;
    }
    Ok(())
}
