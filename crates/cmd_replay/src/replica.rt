//! A replica that a script runs: its turns, its restarts, and the records that it keeps for these.
ghost use Rattle.std.specs.Prelude.{◌≡◌, ◌==◌, ◌++◌, true, Some, IfOk, OnOk};
ghost use Rattle.hc_member.specs.Member.{anew};
ghost use Rattle.hc_member.specs.Setup.{IsSetup};
ghost use Rattle.hc_member.specs.Sound.{IsSound};

use cmd_script::Line;
use hc_journal::Records;
use hc_log::{Durable, Turn};
use hc_node::{Node, Setup};
use hc_store::Kv;
use r2_base::{Datagram, Datagrams, Event, NoMemory};
use std::alloc::Global;

/// What a whole turn gives: the replies to what was pending, then the reaction.
#[derive(Drop)]
pub(crate) struct WholeTurn {
    pub(crate) replies: Datagrams,
    pub(crate) reaction: Turn,
}

/// A replica that a script runs, and the records of its turns, from which a restart makes it anew.
#[derive(Drop)]
pub(crate) struct Replica {
    setup: Setup,
    node: Node<Kv>,
    records: Records,
}

impl Replica {
    ghost use Rattle.hc_member.specs.Finish.{finished};
    ghost use Rattle.hc_member.specs.Member.{beginning, restarted};
    ghost use Rattle.hc_member.specs.Sending.{datagrams_of_all};
    ghost use Rattle.hc_member.specs.Turn.{reacted, turned};
    ghost use Rattle.cmd_replay.specs.Replica.{Gives, IsRunning, Runs, member_of, stored_list};
    ghost use Rattle.cmd_replay.specs.Script.{event_of};

    /// A replica that has stored nothing yet.
    pub(crate) fn begin(alloc: Global, setup: Setup) -> Result<Replica, NoMemory>
        requires { IsSetup setup }
        ensures { IfOk result (Runs setup beginning) }
    {
        let node = node_from(alloc, &setup, Durable::begin(alloc))?;
        Ok(Replica {
            setup,
            node,
            records: Records::new(alloc),
        })
    }

    /// The event of a line, where it has one.
    pub(crate) fn event_of(&self, line: Line) -> Option<Event>
        requires { IsRunning self.now }
        ensures { result ≡ event_of self.now.setup line }
    {
        match line {
            Line::Tick => Some(Event::Tick),
            Line::Quiet => Some(Event::Quiet),
            Line::In { from, bytes } => Some(Event::Datagram(Datagram {
                from,
                to: self.setup.members.as_slice()[usize::from(self.setup.me)],
                bytes,
            })),
            Line::Restart => None,
        }
    }

    /// Applies one batch of what is committed, and gives the replies. Where memory ran out there can't be another turn.
    pub(crate) fn finish(&mut self) -> Result<Datagrams, NoMemory>
        requires { IsRunning self.old }
        ensures runs { OnOk result (Runs self.old.setup (finished self.old.setup (member_of self.old)).member self.new) }
        ensures records { OnOk result (self.new.records ≡ self.old.records) }
        ensures sends { IfOk result (λ replies. replies ≡ datagrams_of_all self.old.setup (finished self.old.setup (member_of self.old)).sends) }
    {
        let replies = self.node.finish()?;
        Ok(replies)
    }

    /// Reacts to an event.
    fn react(&mut self, event: &Event) -> Result<Turn, NoMemory>
        requires { IsRunning self.old }
        ensures { IfOk result (λ turn. Gives self.old (reacted self.old.setup (member_of self.old) event.now) self.new turn.stored turn.sends) }
    {
        let turn = self.node.react(event)?;
        Ok(turn)
    }

    /// Makes one turn.
    pub(crate) fn turn(&mut self, event: &Event) -> Result<WholeTurn, NoMemory>
        requires { IsRunning self.old }
        ensures { IfOk result (λ turn. Gives self.old (turned self.old.setup (member_of self.old) event.now) self.new
            turn.reaction.stored (turn.replies ++ turn.reaction.sends)) }
    {
        let replies = self.finish()?;
        let reaction = self.react(event)?;
        Ok(WholeTurn { replies, reaction })
    }

    /// Puts the record of a turn after the earlier ones, where there is one.
    pub(crate) fn keep(&mut self, reaction: Turn) -> Result<(), NoMemory>
        ensures records { OnOk result (self.new.records ≡ self.old.records ++ stored_list reaction.stored) }
        ensures setup { self.new.setup ≡ self.old.setup }
        ensures node { self.new.node ≡ self.old.node }
    {
        let Turn { stored, sends: _ } = reaction;
        match stored {
            Some(record) => self.records.push(record),
            None => Ok(()),
        }
    }

    /// Makes the replica anew from the records of its turns. Each may come next after those before it, so it fails only where
    /// memory runs out.
    pub(crate) fn restart(&mut self, alloc: Global) -> Result<(), NoMemory>
        requires { IsRunning self.old }
        ensures { OnOk result (Runs self.old.setup (restarted (member_of self.old)) self.new) }
    {
        let Ok(durable) = Durable::replay(alloc, self.records.as_slice()) else {
            return Err(NoMemory);
        };
        self.node = node_from(alloc, &self.setup, durable)?;
        Ok(())
    }

    /// Whether all that is known to be committed is applied.
    pub(crate) fn is_settled(&self) -> bool
        requires { IsRunning self.now }
        ensures told { result ≡ ((member_of self.now).applied == (member_of self.now).commit) }
        ensures sound { IsSound self.now.setup (member_of self.now) }
    {
        let _spent = self.node.spent();
        self.node.applied() == self.node.commit()
    }
}

/// A node of a group that begins with a durable state, over a service that has executed nothing.
fn node_from(alloc: Global, setup: &Setup, durable: Durable) -> Result<Node<Kv>, NoMemory>
    requires group { IsSetup setup.now }
    requires whole { durable.whole ≡ true }
    ensures { IfOk result (λ node. node ≡ Some (record { setup = setup.now; member = anew durable.state })) }
{
    let setup = copied(alloc, setup)?;
    Node::start(alloc, setup, durable, Kv::new(alloc))
}

/// The same group once more.
fn copied(alloc: Global, setup: &Setup) -> Result<Setup, NoMemory>
    ensures { IfOk result (λ other. other ≡ setup.now) }
{
    Ok(Setup {
        members: setup.members.copy(alloc)?,
        me: setup.me,
        aggregator: setup.aggregator,
        bounds: setup.bounds.copy(alloc)?,
        election: setup.election,
    })
}
