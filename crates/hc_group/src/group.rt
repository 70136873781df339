//! The group: its members, its aggregator if it has one, and what is in flight between them and a client.

use crate::addresses::{AGGREGATOR, CLIENT, MEMBERS, aggregator, setup};
use crate::packets::{Request, committed, datagram, packet};
use crate::seat::{Seat, append};
use hc_aggregate::Aggregator;
use r2_base::{Addr, Datagram, Duplicate, Event, NoMemory};
use std::alloc::Global;
use std::mem::replace;
use std::test::Fail;

/// How many rounds a conversation may take.
const MOST_ROUNDS: usize = 40;

/// How often a client sends a request.
const MOST_TRIES: usize = 5;

/// Three members, which may stop and start, over a network that gives each datagram to the one at its address.
#[derive(Drop)]
pub(crate) struct Group {
    alloc: Global,
    seats: Vec<Seat>,
    aggregator: Option<Aggregator>,
    /// What was sent and hasn't come yet, in the order in which it was sent.
    flight: Vec<Datagram>,
    /// What came to the client.
    answers: Vec<Datagram>,
    /// How many of these it has looked at.
    seen: usize,
    /// Whether the network loses and repeats datagrams.
    is_faulty: bool,
    /// How many datagrams the network has had.
    number: u64,
}

/// What the network makes of a datagram.
enum Fate {
    Lost,
    Given,
    GivenTwice,
}

impl Group {
    /// A group of members that have just begun.
    pub(crate) fn new(alloc: Global, has_aggregator: bool) -> Result<Group, Fail> {
        let mut seats = Vec::new(alloc);
        'members: for me in 0..3 {
            let mut seat = Seat::new(alloc);
            seat.start(alloc, setup(alloc, me, has_aggregator)?)?;
            seats.push(seat)?;
        }
        let aggregator = if has_aggregator {
            Some(aggregator(alloc)?)
        } else {
            None
        };
        Ok(Group {
            alloc,
            seats,
            aggregator,
            flight: Vec::new(alloc),
            answers: Vec::new(alloc),
            seen: 0,
            is_faulty: false,
            number: 0,
        })
    }

    /// From now on the network loses and repeats datagrams.
    pub(crate) fn spoil(&mut self) {
        self.is_faulty = true;
    }

    /// All that is in flight is lost.
    pub(crate) fn lose(&mut self) {
        self.flight = Vec::new(self.alloc);
    }

    /// Stops a member.
    pub(crate) fn stop(&mut self, member: usize) {
        if let Some(seat) = self.seats.get_mut(member) {
            seat.stop();
        }
    }

    /// Starts a member again, from its records.
    pub(crate) fn start(&mut self, member: u8) -> Result<(), Fail> {
        if member >= 3 {
            return Err(Fail::from("no such member"));
        }
        let setup = setup(self.alloc, member, self.aggregator.is_some())?;
        match self.seats.get_mut(usize::from(member)) {
            Some(seat) => seat.start(self.alloc, setup),
            None => Ok(()),
        }
    }

    /// The aggregator forgets what it counted.
    pub(crate) fn forget(&mut self) {
        if let Some(aggregator) = &mut self.aggregator {
            aggregator.forget();
        }
    }

    /// An event at a member.
    fn turn(&mut self, member: usize, event: &Event) -> Result<(), Fail> {
        match self.seats.get_mut(member) {
            Some(seat) => seat.turn(event, &mut self.flight),
            None => Ok(()),
        }
    }

    /// A tick at a member.
    pub(crate) fn tick(&mut self, member: usize) -> Result<(), Fail> {
        self.turn(member, &Event::Tick)
    }

    /// So many ticks at a member, each followed by what comes of it.
    pub(crate) fn ticks(&mut self, member: usize, count: usize) -> Result<(), Fail> {
        'ticks: for _ in 0..count {
            self.tick(member)?;
            self.settle()?;
        }
        Ok(())
    }

    /// The client sends a request to a member.
    pub(crate) fn ask_one(&mut self, member: usize, request: Request) -> Result<(), Fail> {
        let to = address_of(member)?;
        let bytes = packet(self.alloc, request)?;
        let sent = datagram(self.alloc, CLIENT, to, bytes.as_slice())?;
        Ok(self.flight.push(sent)?)
    }

    /// The client sends a request to all members.
    pub(crate) fn ask(&mut self, request: Request) -> Result<(), Fail> {
        'members: for member in 0..3 {
            self.ask_one(member, request)?;
        }
        Ok(())
    }

    /// The client sends a request to all members, again after each tick at the first one, until it has an answer.
    pub(crate) fn repeat(&mut self, request: Request) -> Result<(), Fail> {
        'tries: for _ in 0..MOST_TRIES {
            self.ask(request)?;
            self.settle()?;
            if !self.is_silent() {
                return Ok(());
            }
            self.ticks(0, 1)?;
        }
        Ok(())
    }

    /// Gives a datagram to the member or the aggregator at its address, or else to the client.
    fn deliver(&mut self, datagram: Datagram) -> Result<(), Fail> {
        if datagram.to == AGGREGATOR {
            return self.aggregate(&Event::Datagram(datagram));
        }
        match place_of(datagram.to) {
            Some(member) => self.turn(member, &Event::Datagram(datagram)),
            None => Ok(self.answers.push(datagram)?),
        }
    }

    /// An event at the aggregator.
    fn aggregate(&mut self, event: &Event) -> Result<(), Fail> {
        match &mut self.aggregator {
            Some(aggregator) => append(aggregator.turn(event)?, &mut self.flight),
            None => Ok(()),
        }
    }

    /// What becomes of the next datagram: a faulty network loses the third of five, and repeats the fifth.
    fn fate(&mut self) -> Fate {
        let number = self.number;
        self.number = number.wrapping_add(1);
        if !self.is_faulty {
            return Fate::Given;
        }
        match number % 5 {
            2 => Fate::Lost,
            4 => Fate::GivenTwice,
            _ => Fate::Given,
        }
    }

    /// Carries a datagram through the network.
    fn carry(&mut self, datagram: Datagram) -> Result<(), Fail> {
        match self.fate() {
            Fate::Lost => Ok(()),
            Fate::Given => self.deliver(datagram),
            Fate::GivenTwice => {
                self.deliver(datagram.duplicate(self.alloc)?)?;
                self.deliver(datagram)
            }
        }
    }

    /// Carries all that is in flight. Then members with a batch to be applied do that, as those do to whom nothing comes.
    pub(crate) fn round(&mut self) -> Result<(), Fail> {
        let sent = replace(&mut self.flight, Vec::new(self.alloc));
        'sent: for datagram in sent {
            self.carry(datagram)?;
        }
        'seats: for seat in self.seats.iter_mut() {
            if seat.is_pending() {
                seat.turn(&Event::Quiet, &mut self.flight)?;
            }
        }
        Ok(())
    }

    /// So many rounds.
    pub(crate) fn rounds(&mut self, count: usize) -> Result<(), Fail> {
        'rounds: for _ in 0..count {
            self.round()?;
        }
        Ok(())
    }

    /// Goes on until nothing is in flight.
    pub(crate) fn settle(&mut self) -> Result<(), Fail> {
        'rounds: for _ in 0..MOST_ROUNDS {
            if self.flight.is_empty() {
                return Ok(());
            }
            self.round()?;
        }
        Err(Fail::from("datagrams without end"))
    }

    /// Whether there is nothing in flight but what tells each member that an index of a term is committed.
    pub(crate) fn tells_all(&self, term: u8, index: u8) -> Result<bool, Fail> {
        let mut told = Vec::new(self.alloc);
        'members: for to in MEMBERS.iter() {
            told.push(committed(self.alloc, *to, term, index)?)?;
        }
        Ok(self.flight == told)
    }

    /// Whether the client has an answer that it hasn't looked at, and the first of them is this. It has looked at that then.
    pub(crate) fn is_next(&mut self, expected: Result<Datagram, NoMemory>) -> Result<bool, Fail> {
        let expected = expected?;
        let Some(answer) = self.answers.get(self.seen) else {
            return Ok(false);
        };
        self.seen += 1;
        Ok(*answer == expected)
    }

    /// Whether all answers that the client hasn't looked at are the last one again. It has looked at them then.
    pub(crate) fn has_echoes_only(&mut self) -> bool {
        let seen = self.seen;
        self.seen = self.answers.len();
        match self.answers.get(seen.saturating_sub(1)) {
            Some(last) => self
                .answers
                .iter()
                .skip(seen)
                .all(|answer| *answer == *last),
            None => false,
        }
    }

    /// Whether the client has looked at all its answers.
    pub(crate) fn is_silent(&self) -> bool {
        self.seen >= self.answers.len()
    }

    /// Whether each member has applied the entries up to an index and no others, and the records of all lead to one log.
    pub(crate) fn agree_on(&self, index: u64) -> Result<bool, Fail> {
        let Some(first) = self.seats.first() else {
            return Ok(false);
        };
        let log = first.log(self.alloc)?;
        'seats: for seat in self.seats.iter() {
            if seat.applied() != index || seat.log(self.alloc)? != log {
                return Ok(false);
            }
        }
        Ok(true)
    }
}

/// The address of a member.
pub(crate) fn address_of(member: usize) -> Result<Addr, Fail> {
    match MEMBERS.get(member) {
        Some(addr) => Ok(*addr),
        None => Err(Fail::from("no such member")),
    }
}

/// The member at an address.
fn place_of(addr: Addr) -> Option<usize> {
    MEMBERS.iter().position(|member| *member == addr)
}
