ghost use Rattle.std.specs.Prelude.{◌≤◌, List, IfOk, MatchResult, OnErr};
ghost use Rattle.r2_base.specs.declared.datagram.Datagram.{Datagram as DatagramSpec};
ghost use Rattle.r2_base.specs.declared.event.Event.{Event as EventSpec};
ghost use Rattle.r2_base.specs.Limits.{most_turns};
ghost use Rattle.r2_link.specs.Faults.{NoneFalls, Rose, calm};
ghost use Rattle.r2_link.specs.Lanes.{IsFault};
ghost use Rattle.cmd_status.specs.Causes.{IsCaused};
ghost use Rattle.cmd_loop.specs.Ends.{Ends, Passes, nothing};
ghost use Rattle.cmd_loop.specs.Plain.{Unstored};
ghost use Rattle.cmd_router.specs.Twins.{RunsOnTwin};

use cmd_loop::{Pace, Plain, PlainParty, serve_without_journal};
use cmd_status::Status;
use r2_link::{Clock, LinkFault, Twin};
use std::alloc::Global;

/// Runs a party between one twin of a link and a clock, and gives the link its twin back. The answer is how the loop ended, or why
/// there was no twin.
pub(crate) fn serve_on_twin<T: PlainParty, L: Twin, C: Clock>(
    alloc: Global,
    party: &mut Plain<T>,
    link: &mut L,
    clock: &mut C,
    pace: Pace,
) -> Result<Status, LinkFault>
    requires fresh { T.had_turns 0 party.old.party }
    requires tick { 1 ≤ pace.tick_ms }
    requires turns { pace.turns ≤ most_turns }

    ensures ran { IfOk result (λ status. (o : Ends) → RunsOnTwin
        (Unstored (λ (events : List EventSpec) (sent : List DatagramSpec). T.turned party.old.party events sent party.new.party))
        (Unstored (λ (events : List EventSpec) (sent : List DatagramSpec). T.turned party.old.party events sent party.new.party))
        (Unstored (λ (events : List EventSpec) (sent : List DatagramSpec). (last : T) × T.turned party.old.party events sent last)) pace
        (record o { link = L.told link.old; clock = C.left clock.old }) (record o { link = L.told link.new; clock = C.left clock.new }) status) }
    ensures untouched { OnErr result ((o : Ends) → Passes
        (record o { link = L.told link.old; clock = C.left clock.old }) (record o { link = L.told link.new; clock = C.left clock.new }) nothing) }

    ensures caused { MatchResult result
        (λ status. IsCaused (record calm { link = L.faults link.old; clock = C.faults clock.old }) (record calm { link = L.faults link.new; clock = C.faults clock.new }) status)
        (λ e. IsFault e → Rose (L.faults link.old) (L.faults link.new)) }
    ensures steady { NoneFalls (record calm { link = L.faults link.old; clock = C.faults clock.old }) (record calm { link = L.faults link.new; clock = C.faults clock.new }) }
{
    let mut twin = match link.twin(alloc) {
        Ok(twin) => twin,
        Err(fault) => return Err(fault),
    };
    let status = serve_without_journal(alloc, party, &mut twin, clock, pace);
    link.rejoin(twin);
    Ok(status)
}
