ghost use Rattle.std.specs.Prelude.{◌≡◌, Option};
ghost use Rattle.hc_node.specs.Node.{NodeState};
ghost use Rattle.cmd_replica.specs.Party.{Becomes, CallsFirst, CallsSecond, Finishes, IsReady, LedTo, becomes_closed, becomes_none};

use crate::halves::{Half, Left};
use cmd_loop::Party;
use hc_log::Turn;
use hc_node::Node;
use hc_service::Service;
use r2_base::{Datagrams, Event, NoMemory};
use std::alloc::Global;

/// A replica as contracts see it.
pub(crate) trait Seen: Drop {
    ghost state: { Self → Option NodeState };
}

impl<V: Service> Seen for Node<V> {
    ghost state = { λ node. node };
}

/// A replica as a loop runs it: a node, and what makes the halves of its turns.
///
/// Threads may share a service, and the calls of a node rest on that. In the methods of a trait's `impl` a bound holds on their own
/// thread alone, so they can't make these calls, and call what they are given.
#[derive(Drop)]
pub(crate) struct ReplicaParty<N: Drop, F: Drop, R: Drop> {
    pub(crate) node: N,
    pub(crate) left: Left,
    pub(crate) finish: F,
    pub(crate) react: R,
}

impl<
    N: Seen,
    F: Fn(&mut N) -> Result<Half, NoMemory> + Drop,
    R: Fn(&mut N, &Event) -> Result<Half, NoMemory> + Drop,
> Party for ReplicaParty<N, F, R> {
    ghost turned = { λ a happened stored sent b. Becomes (N.state a.node) a.left happened stored sent (N.state b.node) b.left };

    ghost finished = { λ a happened stored sent replies b. Finishes (N.state a.node) a.left happened stored sent replies (N.state b.node) b.left };

    ghost had_turns = { λ n a. IsReady (N.state a.node) a.left × CallsFirst N.state F.pre F.post a.finish × CallsSecond N.state R.pre R.post a.react };

    ghost recorded = { λ a told. LedTo told (N.state a.node) };

    ghost settled = { λ a. a.left.unapplied ≡ 0 };

    ghost waits = { λ a. a.left.unapplied };

    fn is_pending(&self) -> bool {
        self.left.pending > 0
    }

    fn is_settled(&self) -> bool {
        self.left.unapplied == 0
    }

    fn finish(&mut self, _alloc: Global) -> Result<Datagrams, NoMemory> {
        let half = (self.finish)(&mut self.node)?;
        self.left = half.left;
        Ok(half.turn.sends)
    }

    fn react(&mut self, _alloc: Global, event: &Event) -> Result<Turn, NoMemory> {
        let half = (self.react)(&mut self.node, event)?;
        self.left = half.left;
        Ok(half.turn)
    }

    ghost begins = { λ a. becomes_none (N.state a.node) a.left };

    ghost closes = { λ old before records sent replies new finishes. becomes_closed (N.state old.node) old.left before records sent replies (N.state new.node) new.left finishes };
}
