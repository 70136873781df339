ghost use Rattle.std.specs.Prelude.{◌≡◌, [], ◌∷◌, IfErr, IfOk, OnErr};
ghost use Rattle.r2_link.specs.Faults.{NoneFalls, calm};
ghost use Rattle.r2_link.specs.Links.{LinkPasses};
ghost use Rattle.r2_link.specs.declared.lane.Item.{Item};
ghost use Rattle.cmd_status.specs.Causes.{IsCaused};
ghost use Rattle.cmd_loop.specs.Events.{event_of};
ghost use Rattle.cmd_loop.specs.Receiving.{StopsReceiving};
ghost use Rattle.cmd_client.specs.Outside.{LinkTalks};

use cmd_status::Status;
use r2_base::Event;
use r2_link::{Got, Link, LinkFault};
use std::alloc::Global;

/// The event of what comes next. After the link's end all is quiet.
pub(crate) fn receive_event<L: Link>(
    alloc: Global,
    link: &mut L,
    wait_ms: u64,
) -> Result<Event, Status>
    ensures event { IfOk result (λ event. (item : Item) × (event ≡ event_of item) × LinkTalks (L.told link.old) (L.told link.new) (item ∷ []) []) }
    ensures failed { OnErr result (LinkPasses (L.told link.old) (L.told link.new) [] []) }
    ensures stops { IfErr result StopsReceiving }
    ensures caused { IfErr result (IsCaused (record calm { link = L.faults link.old }) (record calm { link = L.faults link.new })) }
    ensures steady { NoneFalls (record calm { link = L.faults link.old }) (record calm { link = L.faults link.new }) }
{
    match link.receive(alloc, wait_ms) {
        Ok(Got::Datagram(d)) => Ok(Event::Datagram(d)),
        Ok(Got::Quiet) => Ok(Event::Quiet),
        Ok(Got::End) => Ok(Event::Quiet),
        Err(LinkFault::Failed) => Err(Status::LinkFault),
        Err(LinkFault::Memory) => Err(Status::Memory),
    }
}
