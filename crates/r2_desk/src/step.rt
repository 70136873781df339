ghost use Rattle.std.specs.Prelude.{◌≡◌, IfOk};

use r2_base::{Datagrams, Duplicate, Event, NoMemory};
use std::alloc::Global;

/// One turn on a desk: the pass that made it, its number on the book, the event, and the datagrams that were answered.
#[derive(Debug, Drop)]
pub struct Step {
    pub pass: u8,
    pub number: u64,
    pub event: Event,
    pub sends: Datagrams,
}

impl Duplicate for Step {
    fn duplicate(&self, alloc: Global) -> Result<Step, NoMemory> {
        Ok(Step {
            pass: self.pass,
            number: self.number,
            event: copy_event(alloc, &self.event)?,
            sends: self.sends.copy(alloc)?,
        })
    }
}

/// The same event once more.
pub(crate) fn copy_event(alloc: Global, event: &Event) -> Result<Event, NoMemory>
    ensures { IfOk result (λ other. other ≡ event.now) }
{
    match event {
        Event::Datagram(datagram) => Ok(Event::Datagram(datagram.duplicate(alloc)?)),
        Event::Tick => Ok(Event::Tick),
        Event::Quiet => Ok(Event::Quiet),
    }
}
