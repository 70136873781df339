//! A place in a group, where a member runs or rests.
ghost use Rattle.std.specs.Prelude.{◌≡◌, ◌++◌, true, Some, None, [], if◌then◌else◌, nat_lt, IfOk, OnOk, is_some};
ghost use Rattle.hc_log.specs.Durable.{replay};
ghost use Rattle.hc_member.specs.Member.{anew};
ghost use Rattle.hc_member.specs.Setup.{IsSetup};

use hc_log::{Durable, Record, Turn};
use hc_member::Setup;
use hc_node::Node;
use hc_store::Kv;
use r2_base::{Datagrams, Event, Listed, NoMemory};
use std::alloc::Global;

/// The place of a member: the member, while it is up, and the records of its turns, from which a restart makes it anew.
#[derive(Drop)]
pub(crate) struct Seat {
    setup: Setup,
    node: Option<Node<Kv>>,
    records: Listed<Record>,
}

/// What a turn gives.
#[derive(Drop)]
pub(crate) struct SeatTurn {
    /// The replies to what was pending.
    pub(crate) replies: Datagrams,
    /// What the reaction sends after these.
    pub(crate) sends: Datagrams,
    /// The greatest index of an entry that the turn applied, and 0 where it applied none.
    pub(crate) reach: u64,
}

/// What the first half of a turn gives.
#[derive(Drop)]
struct FirstHalf {
    replies: Datagrams,
    reach: u64,
}

impl Seat {
    ghost use Rattle.hc_member.specs.Finish.{finished};
    ghost use Rattle.hc_member.specs.Sending.{datagrams_of_all};
    ghost use Rattle.hc_member.specs.Turn.{reacted, turned};
    ghost use Rattle.hc_run.specs.State.{started};
    ghost use Rattle.hc_run.specs.Steps.{with_stored};
    ghost use Rattle.hc_world.specs.Seat.{Gives, IsRunning, IsSeat, Rests, Runs, member_in, member_of, replica_of};
    ghost use Rattle.hc_world.specs.Seen.{term_of};
    ghost use Rattle.hc_world.specs.Steps.{journal_after, reach};

    /// The place of a member that begins.
    pub(crate) fn begin(alloc: Global, setup: Setup) -> Result<Seat, NoMemory>
        requires { IsSetup setup }
        ensures seat { IfOk result (IsSeat setup) }
        ensures shows { IfOk result (λ seat. replica_of seat ≡ started []) }
    {
        let node = node_from(alloc, &setup, Durable::begin(alloc))?;
        Ok(Seat {
            setup,
            node: Some(node),
            records: Listed::new(alloc),
        })
    }

    /// Whether the member is up.
    pub(crate) fn is_up(&self) -> bool
        requires { IsSeat self.now.setup self.now }
        ensures { result ≡ is_some (replica_of self.now).member }
    {
        self.node.is_some()
    }

    /// The term of the member, up or down.
    pub(crate) fn term(&self) -> u64
        requires { IsSeat self.now.setup self.now }
        ensures { result ≡ term_of (replica_of self.now) }
    {
        match &self.node {
            Some(node) => node.term(),
            None => last_term(self.records.as_slice()),
        }
    }

    /// Applies what is pending.
    fn finish(&mut self) -> Result<FirstHalf, NoMemory>
        requires { IsRunning self.old }
        ensures runs { OnOk result (Runs self.old.setup (finished self.old.setup (member_of self.old)).member self.new) }
        ensures records { OnOk result (self.new.records ≡ self.old.records) }
        ensures sends { IfOk result (λ half. half.replies ≡ datagrams_of_all self.old.setup (finished self.old.setup (member_of self.old)).sends) }
        ensures reach { IfOk result (λ half. half.reach ≡ reach self.old.setup (member_of self.old)) }
    {
        let Some(node) = &mut self.node else {
            unreachable!();
        };
        let _spent = node.spent();
        let before = node.applied();
        let replies = node.finish()?;
        let after = node.applied();
        Ok(FirstHalf {
            replies,
            reach: reach(before, after),
        })
    }

    /// Reacts to an event.
    fn react(&mut self, event: &Event) -> Result<Turn, NoMemory>
        requires { IsRunning self.old }
        ensures { IfOk result (λ turn. Gives self.old (reacted self.old.setup (member_of self.old) event.now) self.new turn.stored turn.sends) }
    {
        let Some(node) = &mut self.node else {
            unreachable!();
        };
        let turn = node.react(event)?;
        Ok(turn)
    }

    /// Makes a turn, whose record isn't kept yet.
    fn make_turn(&mut self, event: &Event) -> Result<(SeatTurn, Option<Record>), NoMemory>
        requires { IsRunning self.old }
        ensures gives { IfOk result (λ turn. Gives self.old (turned self.old.setup (member_of self.old) event.now) self.new turn.1 (turn.0.replies ++ turn.0.sends)) }
        ensures reach { IfOk result (λ turn. turn.0.reach ≡ reach self.old.setup (member_of self.old)) }
    {
        let FirstHalf { replies, reach } = self.finish()?;
        let Turn { stored, sends } = self.react(event)?;
        let turn = SeatTurn {
            replies,
            sends,
            reach,
        };
        Ok((turn, stored))
    }

    /// Puts the record of a turn after the earlier ones, where there is one.
    fn keep(&mut self, stored: Option<Record>) -> Result<(), NoMemory>
        ensures records { OnOk result (self.new.records ≡ with_stored self.old.records stored) }
        ensures setup { self.new.setup ≡ self.old.setup }
        ensures node { self.new.node ≡ self.old.node }
    {
        match stored {
            Some(record) => self.records.push(record),
            None => Ok(()),
        }
    }

    /// Puts the record of a turn after the earlier ones, where it is kept.
    fn keep_where(&mut self, kept: bool, stored: Option<Record>) -> Result<(), NoMemory>
        ensures records { OnOk result (self.new.records ≡ journal_after kept self.old.records stored) }
        ensures setup { self.new.setup ≡ self.old.setup }
        ensures node { self.new.node ≡ self.old.node }
    {
        if kept {
            return self.keep(stored);
        }
        Ok(())
    }

    /// Makes a turn, and keeps its record.
    pub(crate) fn turn(&mut self, event: &Event) -> Result<SeatTurn, NoMemory>
        requires { IsRunning self.old }
        ensures runs { OnOk result (Runs self.old.setup (turned self.old.setup (member_of self.old) event.now).member self.new) }
        ensures records { OnOk result (self.new.records ≡ with_stored self.old.records (turned self.old.setup (member_of self.old) event.now).stored) }
        ensures sends { IfOk result (λ turn. turn.replies ++ turn.sends ≡ datagrams_of_all self.old.setup (turned self.old.setup (member_of self.old) event.now).sends) }
        ensures reach { IfOk result (λ turn. turn.reach ≡ reach self.old.setup (member_of self.old)) }
    {
        let (turn, stored) = self.make_turn(event)?;
        self.keep(stored)?;
        Ok(turn)
    }

    /// The member stops.
    pub(crate) fn stop(&mut self)
        requires { IsRunning self.old }
        ensures rests { Rests self.old.setup self.new }
        ensures records { self.new.records ≡ self.old.records }
    {
        self.node = None;
    }

    /// The member stops within a turn, whose record is kept or lost. Gives the greatest index of an entry that it applied, and 0
    /// where it applied none.
    pub(crate) fn stop_within(&mut self, event: &Event, kept: bool) -> Result<u64, NoMemory>
        requires { IsRunning self.old }
        ensures rests { OnOk result (Rests self.old.setup self.new) }
        ensures records { OnOk result (self.new.records ≡ journal_after kept self.old.records (turned self.old.setup (member_of self.old) event.now).stored) }
        ensures reach { IfOk result (λ n. n ≡ reach self.old.setup (member_of self.old)) }
    {
        let (turn, stored) = self.make_turn(event)?;
        self.keep_where(kept, stored)?;
        self.node = None;
        Ok(turn.reach)
    }

    /// The member begins again, from its records.
    pub(crate) fn restart(&mut self, alloc: Global) -> Result<(), NoMemory>
        requires { IsSeat self.old.setup self.old }
        ensures runs { OnOk result (Runs self.old.setup (anew (replay self.old.records)) self.new) }
        ensures records { OnOk result (self.new.records ≡ self.old.records) }
    {
        let Ok(durable) = Durable::replay(alloc, self.records.as_slice()) else {
            return Err(NoMemory);
        };
        let node = node_from(alloc, &self.setup, durable)?;
        self.node = Some(node);
        Ok(())
    }
}

/// The greatest index of the entries that were applied, where the greatest was this before and is that after; 0 where none was.
fn reach(before: u64, after: u64) -> u64
    ensures { result ≡ (if nat_lt before after then after else 0) }
{
    if before < after { after } else { 0 }
}

/// The term in which records end, and 0 where there is none.
fn last_term(records: &[Record]) -> u64
    ensures { result ≡ (replay records.now).term }
{
    if records.is_empty() {
        return 0;
    }
    records[records.len() - 1].term
}

/// A node of a group that begins with a durable state, over a service that has executed nothing.
fn node_from(alloc: Global, setup: &Setup, durable: Durable) -> Result<Node<Kv>, NoMemory>
    requires group { IsSetup setup.now }
    requires whole { durable.whole ≡ true }
    ensures { IfOk result (λ node. node ≡ Some (record { setup = setup.now; member = anew durable.state })) }
{
    let setup = copied(alloc, setup)?;
    Node::start(alloc, setup, durable, Kv::new(alloc))
}

/// The same group once more.
fn copied(alloc: Global, setup: &Setup) -> Result<Setup, NoMemory>
    ensures { IfOk result (λ other. other ≡ setup.now) }
{
    Ok(Setup {
        members: setup.members.copy(alloc)?,
        me: setup.me,
        aggregator: setup.aggregator,
        bounds: setup.bounds.copy(alloc)?,
        election: setup.election,
    })
}
