ghost use Rattle.std.specs.Prelude.{◌≤◌, List};
ghost use Rattle.r2_base.specs.declared.datagram.Datagram.{Datagram as DatagramSpec};
ghost use Rattle.r2_base.specs.declared.event.Event.{Event as EventSpec};
ghost use Rattle.r2_base.specs.Limits.{most_turns};
ghost use Rattle.r2_link.specs.Faults.{NoneFalls, calm};
ghost use Rattle.cmd_status.specs.Causes.{IsCaused};
ghost use Rattle.cmd_loop.specs.Ends.{Ends};
ghost use Rattle.cmd_loop.specs.Loop.{Serves};
ghost use Rattle.cmd_loop.specs.Plain.{Unstored};

use crate::{NoJournal, Pace, Plain, PlainParty, serve};
use cmd_status::Status;
use r2_link::{Clock, Link};
use std::alloc::Global;

/// Runs a plain party between a link and a clock, as `serve` does. Nothing is stored, and at the end of the link nothing is left to be
/// finished.
pub fn serve_without_journal<T: PlainParty, L: Link, C: Clock>(
    alloc: Global,
    party: &mut Plain<T>,
    link: &mut L,
    clock: &mut C,
    pace: Pace,
) -> Status
    requires fresh { T.had_turns 0 party.old.party }
    requires tick { 1 ≤ pace.tick_ms }
    requires turns { pace.turns ≤ most_turns }

    // What was taken in and sent. Where the link ended, or all receives were made, the party is what its turns left.
    ensures ran { (o : Ends) → Serves
        (Unstored (λ (events : List EventSpec) (sent : List DatagramSpec). T.turned party.old.party events sent party.new.party))
        (Unstored (λ (events : List EventSpec) (sent : List DatagramSpec). T.turned party.old.party events sent party.new.party))
        (Unstored (λ (events : List EventSpec) (sent : List DatagramSpec). (last : T) × T.turned party.old.party events sent last)) pace
        (record o { link = L.told link.old; clock = C.left clock.old }) (record o { link = L.told link.new; clock = C.left clock.new }) result }

    ensures caused { IsCaused (record calm { link = L.faults link.old; clock = C.faults clock.old }) (record calm { link = L.faults link.new; clock = C.faults clock.new }) result }
    ensures steady { NoneFalls (record calm { link = L.faults link.old; clock = C.faults clock.old }) (record calm { link = L.faults link.new; clock = C.faults clock.new }) }
{
    let mut journal = NoJournal::new();
    serve(alloc, party, link, &mut journal, clock, pace)
}
