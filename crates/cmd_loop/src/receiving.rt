ghost use Rattle.std.specs.Prelude.{◌≡◌, ◌≤◌, ℕ, List, [], ◌∷◌, Option, IfErr, IfOk, MatchOption, OnErr, OnOk};
ghost use Rattle.r2_link.specs.Faults.{NoneFalls, calm};
ghost use Rattle.r2_link.specs.Links.{LinkPasses};
ghost use Rattle.r2_link.specs.Told.{RanDry};
ghost use Rattle.r2_link.specs.declared.lane.Item.{Item};
ghost use Rattle.hc_log.specs.declared.record.Record.{Record as RecordSpec};
ghost use Rattle.cmd_status.specs.Causes.{IsCaused};
ghost use Rattle.cmd_loop.specs.Events.{event_of};
ghost use Rattle.cmd_loop.specs.Party.{Finishes, most_events};
ghost use Rattle.cmd_loop.specs.Receiving.{StopsReceiving, StopsTaking};

use crate::Party;
use cmd_status::Status;
use r2_base::{Datagrams, Event};
use r2_link::{Got, Link, LinkFault};
use std::alloc::Global;

/// The event of what comes next, or `None` where nothing will come any more.
pub(crate) fn receive_event<L: Link>(
    alloc: Global,
    link: &mut L,
    wait_ms: u64,
) -> Result<Option<Event>, Status>
    ensures event { IfOk result (λ r. MatchOption r
        (LinkPasses (L.told link.old) (L.told link.new) [] [] × RanDry (L.told link.old).left (L.told link.new).left)
        (λ event. (item : Item) × (event ≡ event_of item) × LinkPasses (L.told link.old) (L.told link.new) (item ∷ []) [])) }
    ensures failed { OnErr result (LinkPasses (L.told link.old) (L.told link.new) [] []) }
    ensures stops { IfErr result StopsReceiving }
    ensures caused { IfErr result (IsCaused (record calm { link = L.faults link.old }) (record calm { link = L.faults link.new })) }
    ensures steady { NoneFalls (record calm { link = L.faults link.old }) (record calm { link = L.faults link.new }) }
{
    match link.receive(alloc, wait_ms) {
        Ok(Got::Datagram(d)) => Ok(Some(Event::Datagram(d))),
        Ok(Got::Quiet) => Ok(Some(Event::Quiet)),
        Ok(Got::End) => Ok(None),
        Err(LinkFault::Failed) => Err(Status::LinkFault),
        Err(LinkFault::Memory) => Err(Status::Memory),
    }
}

/// What a receive brought, with the replies to what was pending by then.
#[derive(Drop)]
pub(crate) struct TakenIn {
    /// `None` where nothing will come any more.
    pub(crate) event: Option<Event>,
    pub(crate) replies: Datagrams,
}

/// Receives what comes next, and finishes what is pending.
pub(crate) fn take_in<P: Party, L: Link>(
    alloc: Global,
    party: &mut P,
    link: &mut L,
    wait_ms: u64,
) -> Result<TakenIn, Status>
    requires { (n : ℕ) × (n ≤ most_events) × P.had_turns n party.old }
    ensures event { IfOk result (λ t. MatchOption t.event
        (LinkPasses (L.told link.old) (L.told link.new) [] [] × RanDry (L.told link.old).left (L.told link.new).left)
        (λ event. (item : Item) × (event ≡ event_of item) × LinkPasses (L.told link.old) (L.told link.new) (item ∷ []) [])) }
    ensures replies { IfOk result (λ t. Finishes P.turned P.finished party.old party.new t.replies) }
    ensures counted { OnOk result ((n : ℕ) → P.had_turns n party.old → P.had_turns n party.new) }
    ensures recorded { OnOk result ((told : Option (List RecordSpec)) → P.recorded party.old told → P.recorded party.new told) }
    ensures stops { IfErr result (StopsTaking (L.told link.old) (L.told link.new)) }
    ensures caused { IfErr result (IsCaused (record calm { link = L.faults link.old }) (record calm { link = L.faults link.new })) }
    ensures steady { NoneFalls (record calm { link = L.faults link.old }) (record calm { link = L.faults link.new }) }
{
    let event = match receive_event(alloc, link, wait_ms) {
        Ok(event) => event,
        Err(status) => return Err(status),
    };
    match party.finish(alloc) {
        Ok(replies) => Ok(TakenIn { event, replies }),
        Err(_) => Err(Status::Memory),
    }
}
