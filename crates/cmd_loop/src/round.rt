ghost use Rattle.std.specs.Prelude.{◌≡◌, ℕ, ◌+◌, ◌<◌, ◌≤◌, [], ◌∷◌, None, IfErr, IfOk, OnOk};
ghost use Rattle.r2_base.specs.declared.event.Event.TheVariants.{Tick};
ghost use Rattle.r2_link.specs.Faults.{NoneFalls, calm};
ghost use Rattle.cmd_status.specs.Causes.{IsCaused};
ghost use Rattle.cmd_loop.specs.Ends.{Ends};
ghost use Rattle.cmd_loop.specs.Happenings.{Came};
ghost use Rattle.cmd_loop.specs.Party.{Turns, most_events};
ghost use Rattle.cmd_loop.specs.Round.{AsksClock, Makes, SomeTurns, Stops, StopsItem, StopsTick, TakesItem};

use crate::Party;
use crate::receiving::{TakenIn, take_in};
use crate::ticker::Ticker;
use crate::turning::{hear, send_all};
use cmd_status::Status;
use hc_journal::Journal;
use r2_base::Event;
use r2_link::{Clock, Link};
use std::alloc::Global;

/// Receives an item and makes its turn. The answer is false where nothing will come any more, and then the replies to what was
/// pending are sent.
pub(crate) fn take_item<P: Party, L: Link, J: Journal>(
    alloc: Global,
    party: &mut P,
    link: &mut L,
    journal: &mut J,
    tick_ms: u32,
) -> Result<bool, Status>
    requires room { (n : ℕ) × (n < most_events) × P.had_turns n party.old }
    requires recorded { P.recorded party.old (J.records journal.old) }
    requires open { J.ended journal.old ≡ None }
    ensures took { IfOk result (λ on. (o : Ends) → TakesItem P.turned party.old party.new
        (record o { link = L.told link.old; records = J.records journal.old }) (record o { link = L.told link.new; records = J.records journal.new }) on) }
    ensures counted { OnOk result ((n : ℕ) → P.had_turns n party.old → (m : ℕ) × (m ≤ n + 1) × P.had_turns m party.new) }
    ensures recorded { OnOk result (P.recorded party.new (J.records journal.new)) }
    ensures open { OnOk result (J.ended journal.new ≡ None) }
    ensures stops { IfErr result (λ status. (o : Ends) → StopsItem P.turned party.old
        (record o { link = L.told link.old; records = J.records journal.old }) (record o { link = L.told link.new; records = J.records journal.new }) status) }
    ensures caused { IfErr result (IsCaused (record calm { link = L.faults link.old; disk = J.faults journal.old }) (record calm { link = L.faults link.new; disk = J.faults journal.new })) }
    ensures steady { NoneFalls (record calm { link = L.faults link.old; disk = J.faults journal.old }) (record calm { link = L.faults link.new; disk = J.faults journal.new }) }
    ensures same { J.identity journal.new ≡ J.identity journal.old }
    ensures since { J.since journal.old journal.new }
{
    let wait_ms = wait_of(party, tick_ms);
    let TakenIn { event, replies } = match take_in(alloc, party, link, wait_ms) {
        Ok(taken) => taken,
        Err(status) => return Err(status),
    };
    let Some(event) = event else {
        if let Err(_) = send_all(link, replies.as_slice()) {
            return Err(Status::LinkFault);
        }
        return Ok(false);
    };
    if let Err(status) = hear(alloc, party, link, journal, &event, replies.as_slice()) {
        return Err(status);
    }
    Ok(true)
}

/// How long a receive waits: not at all where something is pending.
fn wait_of<P: Party>(party: &P, tick_ms: u32) -> u64 {
    if party.is_pending() {
        0
    } else {
        u64::from(tick_ms)
    }
}

/// Asks the clock, and makes the turn of a tick where one is due.
pub(crate) fn ask_clock<P: Party, L: Link, J: Journal, C: Clock>(
    alloc: Global,
    party: &mut P,
    link: &mut L,
    journal: &mut J,
    clock: &mut C,
    ticker: &mut Ticker,
) -> Result<(), Status>
    requires room { (n : ℕ) × (n < most_events) × P.had_turns n party.old }
    requires recorded { P.recorded party.old (J.records journal.old) }
    requires open { J.ended journal.old ≡ None }
    requires tick { 1 ≤ ticker.old.tick_ms }
    ensures made { OnOk result ((o : Ends) → AsksClock P.turned party.old party.new ticker.old ticker.new
        (record o { link = L.told link.old; clock = C.left clock.old; records = J.records journal.old })
        (record o { link = L.told link.new; clock = C.left clock.new; records = J.records journal.new })) }
    ensures counted { OnOk result ((n : ℕ) → P.had_turns n party.old → (m : ℕ) × (m ≤ n + 1) × P.had_turns m party.new) }
    ensures recorded { OnOk result (P.recorded party.new (J.records journal.new)) }
    ensures open { OnOk result (J.ended journal.new ≡ None) }
    ensures stops { IfErr result (λ status. (o : Ends) → StopsTick P.turned party.old ticker.old
        (record o { link = L.told link.old; clock = C.left clock.old; records = J.records journal.old })
        (record o { link = L.told link.new; clock = C.left clock.new; records = J.records journal.new }) status) }
    ensures caused { IfErr result (IsCaused (record calm { link = L.faults link.old; clock = C.faults clock.old; disk = J.faults journal.old })
        (record calm { link = L.faults link.new; clock = C.faults clock.new; disk = J.faults journal.new })) }
    ensures steady { NoneFalls (record calm { link = L.faults link.old; clock = C.faults clock.old; disk = J.faults journal.old })
        (record calm { link = L.faults link.new; clock = C.faults clock.new; disk = J.faults journal.new }) }
    ensures same { J.identity journal.new ≡ J.identity journal.old }
    ensures since { J.since journal.old journal.new }
{
    let Ok(moment) = clock.now() else {
        return Err(Status::ClockFault);
    };
    if ticker.pass_tick(moment) {
        if let Err(status) = make_tick(alloc, party, link, journal) {
            return Err(status);
        }
    }
    Ok(())
}

/// Makes the turn of a tick.
fn make_tick<P: Party, L: Link, J: Journal>(
    alloc: Global,
    party: &mut P,
    link: &mut L,
    journal: &mut J,
) -> Result<(), Status>
    requires room { (n : ℕ) × (n < most_events) × P.had_turns n party.old }
    requires recorded { P.recorded party.old (J.records journal.old) }
    requires open { J.ended journal.old ≡ None }
    ensures made { OnOk result ((o : Ends) → Makes (Turns P.turned party.old party.new (Came Tick ∷ []))
        (record o { link = L.told link.old; records = J.records journal.old }) (record o { link = L.told link.new; records = J.records journal.new }) [] []) }
    ensures counted { OnOk result ((n : ℕ) → P.had_turns n party.old → P.had_turns (n + 1) party.new) }
    ensures recorded { OnOk result (P.recorded party.new (J.records journal.new)) }
    ensures open { OnOk result (J.ended journal.new ≡ None) }
    ensures stops { IfErr result (λ status. (o : Ends) → Stops (SomeTurns P.turned party.old (Came Tick ∷ []))
        (record o { link = L.told link.old; records = J.records journal.old }) (record o { link = L.told link.new; records = J.records journal.new }) [] [] status) }
    ensures caused { IfErr result (IsCaused (record calm { link = L.faults link.old; disk = J.faults journal.old }) (record calm { link = L.faults link.new; disk = J.faults journal.new })) }
    ensures steady { NoneFalls (record calm { link = L.faults link.old; disk = J.faults journal.old }) (record calm { link = L.faults link.new; disk = J.faults journal.new }) }
    ensures same { J.identity journal.new ≡ J.identity journal.old }
    ensures since { J.since journal.old journal.new }
{
    let Ok(replies) = party.finish(alloc) else {
        return Err(Status::Memory);
    };
    if let Err(status) = hear(
        alloc,
        party,
        link,
        journal,
        &Event::Tick,
        replies.as_slice(),
    ) {
        return Err(status);
    }
    Ok(())
}
