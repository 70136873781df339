ghost use Rattle.std.specs.Prelude.{◌≡◌, ◌≤◌, ◌^◌, Some, IfOk};
ghost use Rattle.r2_base.specs.Limits.{most_turns};
ghost use Rattle.r2_link.specs.Faults.{NoneFalls, Rose, calm};
ghost use Rattle.hc_store.specs.State.{new_state};
ghost use Rattle.r2_server.specs.State.{begin};
ghost use Rattle.r2_server.specs.Sound.{HadTurns};
ghost use Rattle.cmd_status.specs.Causes.{IsCaused};
ghost use Rattle.cmd_loop.specs.Ends.{Ends};
ghost use Rattle.cmd_loop.specs.Loop.{IsServed, Serves};
ghost use Rattle.cmd_loop.specs.Plain.{Unstored};
ghost use Rattle.cmd_server.specs.Plain.{Becomes, PlainSends, becomes_none};

use cmd_loop::{Pace, Plain, PlainParty, serve_without_journal};
use cmd_status::Status;
use hc_store::Service;
use r2_base::{Addr, Datagrams, Event, NoMemory};
use r2_link::{Clock, Link};
use r2_server::Server;
use std::alloc::Global;

/// A plain server as a loop runs it.
#[derive(Drop)]
struct ServingParty<V: Service> {
    server: Server<V>,
}

impl<V: Service> PlainParty for ServingParty<V> {
    ghost turned = { λ a events sends b. Becomes a.server events sends b.server };

    ghost had_turns = { λ n a. HadTurns n a.server };

    #[tactic(auto, using(crate::proofs::PlainTurns::can_turn, crate::proofs::PlainTurns::becomes_more))]
    fn turn(&mut self, event: &Event) -> Result<Datagrams, NoMemory> {
        self.server.turn(event)
    }

    ghost begins = { λ a. becomes_none a.server };
}

/// Runs a plain server at `me`, for the router where one is given, over a service that has executed nothing, between a link
/// and a clock, until the link ends, something fails, or so many receives were made.
pub fn serve_plain<V: Service, L: Link, C: Clock>(
    alloc: Global,
    me: Addr,
    router: Option<Addr>,
    service: V,
    link: &mut L,
    clock: &mut C,
    pace: Pace,
) -> Status
    requires fresh { V.state service ≡ new_state }
    requires tick { 1 ≤ pace.tick_ms }
    requires turns { pace.turns ≤ most_turns }

    // What was taken in, and what a new server sends at that; it stores nothing.
    ensures ran { (o : Ends) → Serves (Unstored (PlainSends me router)) (Unstored (PlainSends me router)) (Unstored (PlainSends me router)) pace
        (record o { link = L.told link.old; clock = C.left clock.old }) (record o { link = L.told link.new; clock = C.left clock.new }) result }

    // Where neither the link nor the clock failed, the link ended, all receives were made, or memory ran out.
    ensures complete { (Rose (L.faults link.old) (L.faults link.new) → ⊥) → (Rose (C.faults clock.old) (C.faults clock.new) → ⊥) → IsServed result }

    ensures caused { IsCaused (record calm { link = L.faults link.old; clock = C.faults clock.old }) (record calm { link = L.faults link.new; clock = C.faults clock.new }) result }
    ensures steady { NoneFalls (record calm { link = L.faults link.old; clock = C.faults clock.old }) (record calm { link = L.faults link.new; clock = C.faults clock.new }) }
{
    let Ok(server) = Server::new(alloc, me, router, service) else {
        return Status::Memory;
    };
    let party = ServingParty { server };
    serve_without_journal(alloc, &mut Plain { party }, link, clock, pace)
}
