ghost use Rattle.std.specs.Prelude.{◌≡◌, IfErr, IfOk, OnErr, OnOk};
ghost use Rattle.r2_link.specs.Faults.{NoneFalls, calm};
ghost use Rattle.r2_client.specs.Session.{stepped};
ghost use Rattle.cmd_status.specs.Causes.{IsCaused};
ghost use Rattle.cmd_client.specs.Steps.{MakesStep, StopsStep};

use cmd_loop::send_all;
use cmd_status::Status;
use r2_base::{Datagrams, Event, NoMemory};
use r2_client::{CallEnd, ClientStep, Session};
use r2_link::Link;
use std::alloc::Global;

/// What a session does at an event.
fn step_session(alloc: Global, session: &mut Session, event: &Event) -> Result<ClientStep, NoMemory>
    ensures session { OnOk result (session.new ≡ (stepped session.old event.now).session) }
    ensures step { IfOk result (λ step. step ≡ (stepped session.old event.now).step) }
    ensures err { OnErr result (session.new ≡ session.old) }
{
    match event {
        Event::Datagram(d) => session.on_datagram(d),
        Event::Tick => session.on_tick(),
        Event::Quiet => Ok(ClientStep {
            sends: Datagrams::new(alloc),
            end: None,
        }),
    }
}

/// Makes the step of an event, sends what it gives, and says how the call ended, where it did.
pub(crate) fn make_step<L: Link>(
    alloc: Global,
    session: &mut Session,
    link: &mut L,
    event: &Event,
) -> Result<Option<CallEnd>, Status>
    ensures made { IfOk result (λ end. MakesStep (stepped session.old event.now) session.new end (L.told link.old) (L.told link.new)) }
    ensures stops { IfErr result (StopsStep (stepped session.old event.now) (L.told link.old) (L.told link.new)) }
    ensures caused { IfErr result (IsCaused (record calm { link = L.faults link.old }) (record calm { link = L.faults link.new })) }
    ensures steady { NoneFalls (record calm { link = L.faults link.old }) (record calm { link = L.faults link.new }) }
{
    let Ok(step) = step_session(alloc, session, event) else {
        return Err(Status::Memory);
    };
    match send_all(link, step.sends.as_slice()) {
        Ok(()) => Ok(step.end),
        Err(_) => Err(Status::LinkFault),
    }
}
