//! A place in the group, where a replica may run.
ghost use Rattle.hc_member.specs.Setup.{IsSetup};

use hc_log::{Durable, Entries, Record, Turn};
use hc_node::{Node, Setup};
use hc_store::Kv;
use r2_base::{Datagram, Datagrams, Event, Listed, NoMemory};
use std::alloc::Global;
use std::test::Fail;

/// The replica that runs there, if one does, and the records that its turns stored, from which another one starts.
#[derive(Drop)]
pub(crate) struct Seat {
    node: Option<Node<Kv>>,
    records: Listed<Record>,
}

impl Seat {
    /// A place where no replica has run yet.
    pub(crate) fn new(alloc: Global) -> Seat {
        Seat {
            node: None,
            records: Listed::new(alloc),
        }
    }

    /// Starts a replica from the records.
    pub(crate) fn start(&mut self, alloc: Global, setup: Setup) -> Result<(), Fail>
        requires { IsSetup setup }
    {
        let durable = Durable::replay(alloc, self.records.as_slice())?;
        self.node = Some(Node::start(alloc, setup, durable, Kv::new(alloc))?);
        Ok(())
    }

    /// Stops the replica: all is lost but the records.
    pub(crate) fn stop(&mut self) {
        self.node = None;
    }

    /// Makes a whole turn: its record is kept, and what it sends comes after what is in flight. A replica that is stopped makes none.
    pub(crate) fn turn(&mut self, event: &Event, flight: &mut Vec<Datagram>) -> Result<(), Fail> {
        let Some(node) = &mut self.node else {
            return Ok(());
        };
        append(finish(node)?, flight)?;
        let Turn { stored, sends } = react(node, event)?;
        if let Some(record) = stored {
            self.records.push(record)?;
        }
        append(sends, flight)
    }

    /// Whether a batch waits to be applied.
    pub(crate) fn is_pending(&self) -> bool {
        match &self.node {
            Some(node) => node.pending() > 0,
            None => false,
        }
    }

    /// The log that the records lead to.
    pub(crate) fn log(&self, alloc: Global) -> Result<Entries, Fail> {
        let durable = Durable::replay(alloc, self.records.as_slice())?;
        Ok(durable.log().entries_after(0)?)
    }

    /// The greatest index that its replica applied, and 0 while none runs.
    pub(crate) fn applied(&self) -> u64 {
        match &self.node {
            Some(node) => node.applied(),
            None => 0,
        }
    }
}

/// Puts these datagrams after those that are in flight.
pub(crate) fn append(sends: Datagrams, flight: &mut Vec<Datagram>) -> Result<(), Fail> {
    'sends: for datagram in sends.into_vec() {
        flight.push(datagram)?;
    }
    Ok(())
}

fn finish(node: &mut Node<Kv>) -> Result<Datagrams, NoMemory> {
    if node.spent() {
        return Err(NoMemory);
    }
    node.finish()
}

fn react(node: &mut Node<Kv>, event: &Event) -> Result<Turn, NoMemory> {
    if node.spent() {
        return Err(NoMemory);
    }
    node.react(event)
}
