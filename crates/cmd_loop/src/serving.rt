ghost use Rattle.std.specs.Prelude.{◌≡◌, ◌≤◌, List, None};
ghost use Rattle.r2_base.specs.declared.datagram.Datagram.{Datagram as DatagramSpec};
ghost use Rattle.r2_base.specs.Limits.{most_turns};
ghost use Rattle.r2_link.specs.Faults.{NoneFalls, calm};
ghost use Rattle.hc_log.specs.declared.record.Record.{Record as RecordSpec};
ghost use Rattle.cmd_status.specs.Causes.{IsCaused};
ghost use Rattle.cmd_loop.specs.Ends.{Ends};
ghost use Rattle.cmd_loop.specs.Happenings.{Happening};
ghost use Rattle.cmd_loop.specs.Loop.{Serves};

use crate::draining::drain;
use crate::round::{ask_clock, take_item};
use crate::ticker::Ticker;
use crate::{Pace, Party};
use cmd_status::Status;
use hc_journal::Journal;
use r2_link::{Clock, Link};
use std::alloc::Global;

/// Runs a party between a link, a clock and a journal, until the link ends, something fails, or so many receives were made.
///
/// The clock is asked for the start. Each round receives what comes, within a tick's time, or at once where something is pending,
/// and makes its turn: it finishes what is pending, reacts, stores, and sends. Then it asks the clock, and makes the turn of a tick
/// where more whole ticks have gone by than before. After the end of the link the party finishes, and sends, until it is settled.
pub fn serve<P: Party, L: Link, J: Journal, C: Clock>(
    alloc: Global,
    party: &mut P,
    link: &mut L,
    journal: &mut J,
    clock: &mut C,
    pace: Pace,
) -> Status
    requires fresh { P.had_turns 0 party.old }
    requires recorded { P.recorded party.old (J.records journal.old) }
    requires open { J.ended journal.old ≡ None }
    requires tick { 1 ≤ pace.tick_ms }
    requires turns { pace.turns ≤ most_turns }

    // What was taken in, stored and sent. Where the link ended, the party is what its turns left, and settled; where all receives were
    // made, it is what its turns left.
    ensures ran { (o : Ends) → Serves
        (λ (happened : List Happening) (stored : List RecordSpec) (sent : List DatagramSpec). P.turned party.old happened stored sent party.new × P.settled party.new)
        (λ (happened : List Happening) (stored : List RecordSpec) (sent : List DatagramSpec). P.turned party.old happened stored sent party.new)
        (λ (happened : List Happening) (stored : List RecordSpec) (sent : List DatagramSpec). (last : P) × P.turned party.old happened stored sent last) pace
        (record o { link = L.told link.old; clock = C.left clock.old; records = J.records journal.old })
        (record o { link = L.told link.new; clock = C.left clock.new; records = J.records journal.new }) result }

    ensures caused { IsCaused (record calm { link = L.faults link.old; clock = C.faults clock.old; disk = J.faults journal.old })
        (record calm { link = L.faults link.new; clock = C.faults clock.new; disk = J.faults journal.new }) result }
    ensures steady { NoneFalls (record calm { link = L.faults link.old; clock = C.faults clock.old; disk = J.faults journal.old })
        (record calm { link = L.faults link.new; clock = C.faults clock.new; disk = J.faults journal.new }) }

    // It is the same journal, and what happened to the place where its records are kept is what happened over all calls together.
    ensures same { J.identity journal.new ≡ J.identity journal.old }
    ensures since { J.since journal.old journal.new }
{
    let Ok(start) = clock.now() else {
        return Status::ClockFault;
    };
    let tick_ms = pace.tick_ms;
    let mut ticker = Ticker {
        start,
        tick_ms,
        reached: 0,
    };
    'rounds: for made in 0..pace.turns {
        match take_item(alloc, party, link, journal, tick_ms) {
            Ok(true) => {}
            Ok(false) => return drain(alloc, party, link),
            Err(status) => return status,
        }
        if let Err(status) = ask_clock(alloc, party, link, journal, clock, &mut ticker) {
            return status;
        }
    }
    Status::TurnsSpent
}
