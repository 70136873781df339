ghost use Rattle.std.specs.Prelude.{◌≡◌, ℕ, ◌+◌, ◌<◌, ◌≤◌, ◌++◌, List, [], None, IfErr, OnErr, OnOk};
ghost use Rattle.r2_link.specs.Faults.{NoneFalls, Rose, calm};
ghost use Rattle.r2_link.specs.Links.{LinkPasses};
ghost use Rattle.r2_link.specs.Told.{Gains};
ghost use Rattle.cmd_status.specs.Causes.{IsCaused};
ghost use Rattle.cmd_loop.specs.Ends.{Ends};
ghost use Rattle.cmd_loop.specs.Party.{MayStore, ReactsTo, most_events, records_of};
ghost use Rattle.cmd_loop.specs.Round.{Makes, SomeReacts, Stops};
ghost use Rattle.cmd_loop.specs.Sending.{SendsPrefix, StopsStoring};

use crate::Party;
use cmd_status::Status;
use hc_journal::{Journal, JournalFault};
use hc_log::Record;
use r2_base::{Datagram, Event, Failed};
use r2_link::Link;
use std::alloc::Global;

/// Sends datagrams in their order, up to the first that the link fails at.
pub fn send_all<L: Link>(link: &mut L, sends: &[Datagram]) -> Result<(), Failed>
    ensures whole { OnOk result (LinkPasses (L.told link.old) (L.told link.new) [] sends.now) }
    ensures part { OnErr result (SendsPrefix (L.told link.old) (L.told link.new) sends.now) }
    ensures steady { L.faults link.old ≤ L.faults link.new }
    ensures cause { OnErr result (Rose (L.faults link.old) (L.faults link.new)) }
{
    'sends: for datagram in sends {
        if let Err(failed) = link.send(datagram) {
            return Err(failed);
        }
    }
    Ok(())
}

/// Sends the replies of a turn, and then what its event gave.
pub(crate) fn send_turn<L: Link>(
    link: &mut L,
    replies: &[Datagram],
    sends: &[Datagram],
) -> Result<(), Failed>
    ensures whole { OnOk result (LinkPasses (L.told link.old) (L.told link.new) [] (replies.now ++ sends.now)) }
    ensures part { OnErr result (SendsPrefix (L.told link.old) (L.told link.new) (replies.now ++ sends.now)) }
    ensures steady { L.faults link.old ≤ L.faults link.new }
    ensures cause { OnErr result (Rose (L.faults link.old) (L.faults link.new)) }
{
    if let Err(failed) = send_all(link, replies) {
        return Err(failed);
    }
    send_all(link, sends)
}

/// Stores the record of a turn, where there is one.
pub(crate) fn store<J: Journal>(
    alloc: Global,
    journal: &mut J,
    stored: &Option<Record>,
) -> Result<(), Status>
    requires open { J.ended journal.old ≡ None }
    requires fits { MayStore (J.records journal.old) stored.now }
    ensures stored { OnOk result (Gains (J.records journal.old) (J.records journal.new) (records_of stored.now)) }
    ensures silent { J.records journal.old ≡ None → J.records journal.new ≡ None }
    ensures open { OnOk result (J.ended journal.new ≡ None) }
    ensures kept { OnErr result (Gains (J.records journal.old) (J.records journal.new) []) }
    ensures stops { IfErr result StopsStoring }
    ensures caused { IfErr result (IsCaused (record calm { disk = J.faults journal.old }) (record calm { disk = J.faults journal.new })) }
    ensures steady { NoneFalls (record calm { disk = J.faults journal.old }) (record calm { disk = J.faults journal.new }) }
    ensures same { J.identity journal.new ≡ J.identity journal.old }
    ensures since { J.since journal.old journal.new }
{
    let Some(record) = stored else {
        return Ok(());
    };
    match journal.append(alloc, record) {
        Ok(()) => Ok(()),
        Err(JournalFault::Disk) => Err(Status::DiskFault),
        Err(JournalFault::Memory) => Err(Status::Memory),
        Err(JournalFault::Ended(_)) => unreachable!(),
    }
}

/// Lets a party react to an event that finished what was pending, which gave these replies: stores what it gives, and then sends the
/// replies and the rest.
pub(crate) fn hear<P: Party, L: Link, J: Journal>(
    alloc: Global,
    party: &mut P,
    link: &mut L,
    journal: &mut J,
    event: &Event,
    replies: &[Datagram],
) -> Result<(), Status>
    requires room { (n : ℕ) × (n < most_events) × P.had_turns n party.old }
    requires recorded { P.recorded party.old (J.records journal.old) }
    requires open { J.ended journal.old ≡ None }
    ensures made { OnOk result ((o : Ends) → Makes (ReactsTo P.turned P.finished party.old party.new event.now replies.now)
        (record o { link = L.told link.old; records = J.records journal.old }) (record o { link = L.told link.new; records = J.records journal.new }) [] []) }
    ensures counted { OnOk result ((n : ℕ) → P.had_turns n party.old → P.had_turns (n + 1) party.new) }
    ensures recorded { OnOk result (P.recorded party.new (J.records journal.new)) }
    ensures open { OnOk result (J.ended journal.new ≡ None) }
    ensures stops { IfErr result (λ status. (o : Ends) → Stops (SomeReacts P.turned P.finished party.old event.now replies.now)
        (record o { link = L.told link.old; records = J.records journal.old }) (record o { link = L.told link.new; records = J.records journal.new }) [] [] status) }
    ensures caused { IfErr result (IsCaused (record calm { link = L.faults link.old; disk = J.faults journal.old }) (record calm { link = L.faults link.new; disk = J.faults journal.new })) }
    ensures steady { NoneFalls (record calm { link = L.faults link.old; disk = J.faults journal.old }) (record calm { link = L.faults link.new; disk = J.faults journal.new }) }
    ensures same { J.identity journal.new ≡ J.identity journal.old }
    ensures since { J.since journal.old journal.new }
{
    let Ok(turn) = party.react(alloc, event) else {
        return Err(Status::Memory);
    };
    if let Err(status) = store(alloc, journal, &turn.stored) {
        return Err(status);
    }
    match send_turn(link, replies, turn.sends.as_slice()) {
        Ok(()) => Ok(()),
        Err(_) => Err(Status::LinkFault),
    }
}
