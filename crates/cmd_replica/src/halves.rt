ghost use Rattle.std.specs.Prelude.{◌≡◌, Some, IfOk};
ghost use Rattle.hc_node.specs.Node.{IsLive, NodeState};
ghost use Rattle.cmd_replica.specs.Party.{IsAt, MakesFirst, MakesSecond};

use hc_log::Turn;
use hc_node::Node;
use hc_service::Service;
use r2_base::{Event, NoMemory};

/// What is left for a replica to apply.
#[derive(Clone, Copy)]
pub(crate) struct Left {
    /// How many entries wait to be applied in the next turn.
    pub(crate) pending: u64,
    /// How many entries it knows to be committed and hasn't applied, those that wait among them.
    pub(crate) unapplied: u64,
}

/// What a half of a turn gives, and what is left to apply after it.
#[derive(Drop)]
pub(crate) struct Half {
    pub(crate) turn: Turn,
    pub(crate) left: Left,
}

fn left_of<V: Service>(node: &Node<V>) -> Left
    ensures { (n : NodeState) → node.now ≡ Some n → IsAt n node.now result }
{
    let _spent = node.spent();
    Left {
        pending: node.pending(),
        unapplied: node.commit().saturating_sub(node.applied()),
    }
}

/// Makes the first half of a turn: finishes what is pending, which gives the replies.
pub(crate) fn finish<V: Service>(node: &mut Node<V>) -> Result<Half, NoMemory>
    requires { IsLive node.old }
    ensures { IfOk result (MakesFirst node.old node.new) }
{
    let sends = node.finish()?;
    let left = left_of(node);
    let turn = Turn {
        stored: None,
        sends,
    };
    Ok(Half { turn, left })
}

/// Makes the second half: reacts to an event.
pub(crate) fn react<V: Service>(node: &mut Node<V>, event: &Event) -> Result<Half, NoMemory>
    requires { IsLive node.old }
    ensures { IfOk result (MakesSecond event.now node.old node.new) }
{
    let turn = node.react(event)?;
    let left = left_of(node);
    Ok(Half { turn, left })
}
