ghost use Rattle.std.specs.Prelude.{◌≡◌, ◌≤◌, IfOk, None, true};
ghost use Rattle.r2_base.specs.Limits.{most_turns};
ghost use Rattle.r2_link.specs.Faults.{NoneFalls, Rose, calm};
ghost use Rattle.hc_service.specs.State.{new_state};
ghost use Rattle.hc_member.specs.Setup.{IsSetup};
ghost use Rattle.cmd_status.specs.Causes.{IsCaused};
ghost use Rattle.cmd_loop.specs.Ends.{Ends};
ghost use Rattle.cmd_loop.specs.Loop.{IsServed, Serves};
ghost use Rattle.hc_node.specs.Node.{IsLive};
ghost use Rattle.cmd_replica.specs.Party.{MakesFirst, MakesSecond};
ghost use Rattle.cmd_replica.specs.Replica.{LeadTo, ReplicaServes, ReplicaServesAll};

use crate::halves::{Half, Left, finish, react};
use crate::party::ReplicaParty;
use cmd_loop::{Pace, serve};
use cmd_status::Status;
use hc_journal::Journal;
use hc_log::Durable;
use hc_node::{Node, Setup};
use hc_service::Service;
use r2_base::{Event, NoMemory};
use r2_link::{Clock, Link};
use std::alloc::Global;

/// Runs a replica of a group between a link, a clock and a journal, until the link ends, something fails, or so many receives were
/// made.
///
/// It begins with the whole durable state that the journal's records lead to, over a service that has executed nothing. Nothing of a
/// turn is sent before its record is stored (Raft, figure 2: stable storage is updated before an answer). After the end of the link it
/// applies all that it knows to be committed, and sends the replies.
pub fn serve_replica<V: Service, J: Journal, L: Link, C: Clock>(
    alloc: Global,
    setup: Setup,
    from: Durable,
    service: V,
    journal: &mut J,
    link: &mut L,
    clock: &mut C,
    pace: Pace,
) -> Status
    requires setup { IsSetup setup }
    requires whole { from.whole ≡ true }
    requires fresh { V.state service ≡ new_state }
    requires open { J.ended journal.old ≡ None }
    requires recorded { LeadTo (J.records journal.old) from.state }
    requires tick { 1 ≤ pace.tick_ms }
    requires turns { pace.turns ≤ most_turns }

    // What was taken in, and what a replica that begins so stores and sends at that. Where the link ended, it left nothing unapplied
    // that it knew to be committed.
    ensures ran { (o : Ends) → Serves (ReplicaServesAll setup from.state) (ReplicaServes setup from.state) (ReplicaServes setup from.state) pace
        (record o { link = L.told link.old; clock = C.left clock.old; records = J.records journal.old })
        (record o { link = L.told link.new; clock = C.left clock.new; records = J.records journal.new }) result }

    // Where none of link, clock and journal failed, the link ended, all receives were made, or memory ran out.
    ensures complete { (Rose (L.faults link.old) (L.faults link.new) → ⊥) → (Rose (C.faults clock.old) (C.faults clock.new) → ⊥)
        → (Rose (J.faults journal.old) (J.faults journal.new) → ⊥) → IsServed result }

    ensures caused { IsCaused (record calm { link = L.faults link.old; clock = C.faults clock.old; disk = J.faults journal.old })
        (record calm { link = L.faults link.new; clock = C.faults clock.new; disk = J.faults journal.new }) result }
    ensures steady { NoneFalls (record calm { link = L.faults link.old; clock = C.faults clock.old; disk = J.faults journal.old })
        (record calm { link = L.faults link.new; clock = C.faults clock.new; disk = J.faults journal.new }) }

    // It is the same journal, and what happened to the place where its records are kept is what happened over all calls together.
    ensures same { J.identity journal.new ≡ J.identity journal.old }
    ensures since { J.since journal.old journal.new }
{
    let Ok(node) = Node::start(alloc, setup, from, service) else {
        return Status::Memory;
    };
    let mut party = ReplicaParty {
        node,
        left: Left {
            pending: 0,
            unapplied: 0,
        },
        finish: |node: &mut Node<V>| -> Result<Half, NoMemory>
            requires { IsLive node.old }
            ensures { IfOk result (MakesFirst node.old node.new) }
        { finish(node) },
        react: |node: &mut Node<V>, event: &Event| -> Result<Half, NoMemory>
            requires { IsLive node.old }
            ensures { IfOk result (MakesSecond event.now node.old node.new) }
        { react(node, event) },
    };
    serve(alloc, &mut party, link, journal, clock, pace)
}
