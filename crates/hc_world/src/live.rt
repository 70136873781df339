//! A world that memory sufficed for.
ghost use Rattle.std.specs.Prelude.{◌≡◌, ◌≤◌, ◌<◌, true, Some, length, slice_get, IfOk, IfSome, OnOk};
ghost use Rattle.hc_replier.specs.Bounds.{AreBounds, most_members};
ghost use Rattle.hc_world.specs.Addresses.{group_at};

use crate::counting::{count_answered, greatest_term};
use crate::counts::Counts;
use crate::event::WorldEvent;
use crate::group::{address_where, aggregator_at, member_addresses, seats_of, unanswered};
use crate::notes::send_all;
use crate::requests::{is_aggregator, place_of, request_parts};
use crate::seat::{Seat, SeatTurn};
use hc_aggregate::Aggregator;
use hc_replier::Bounds;
use r2_base::{Addr, Addrs, Bytes, Datagram, Datagrams, Duplicate, Event, Kind, NoMemory};
use std::alloc::Global;

/// The group of a world, each member at its place, and all packets that were ever sent.
#[derive(Drop)]
pub(crate) struct Live {
    alloc: Global,
    members: Addrs,
    address: Option<Addr>,
    bounds: Bounds,
    seats: Vec<Seat>,
    aggregator: Option<Aggregator>,
    datagrams: Vec<Datagram>,
    /// By id, whether the client's request has a reply.
    answered: Vec<bool>,
    events: u64,
    requests: u64,
    replies: u64,
    passed: u64,
    crashes: u64,
}

impl Live {
    ghost use Rattle.hc_run.specs.State.{beginning};
    ghost use Rattle.hc_world.specs.Events.{MayCome, MayHappen, MaySend, MayStop, IsDown};
    ghost use Rattle.hc_world.specs.Live.{IsWorld, ShowsWorld, group_of, seen_of};
    ghost use Rattle.hc_world.specs.Seen.{counts_of, is_for_group, is_up, seen};
    ghost use Rattle.hc_run.specs.Steps.{event_of};
    ghost use Rattle.hc_aggregate.specs.Tally.{no_tally};
    ghost use Rattle.hc_world.specs.Steps.{acts, aggregates, asks, crashes_between, crashes_within, delivers, forgets, happens, packet_at, restarts, seen_after, sends, turns};

    /// A group of which nobody has done anything yet.
    pub(crate) fn new(
        alloc: Global,
        members: u8,
        bounds: Bounds,
        has_aggregator: bool,
    ) -> Result<Live, NoMemory>
        requires some { 1 ≤ members }
        requires few { members ≤ most_members }
        requires bounds { AreBounds bounds }
        requires each { length bounds ≡ members }
        ensures { IfOk result (ShowsWorld (seen (group_at members bounds has_aggregator) (beginning (group_at members bounds has_aggregator)))) }
    {
        let members = member_addresses(alloc, members)?;
        let address = address_where(has_aggregator);
        let seats = seats_of(alloc, &members, address, &bounds)?;
        let aggregator = aggregator_at(alloc, address, &members)?;
        let answered = unanswered(alloc)?;
        Ok(Live {
            alloc,
            members,
            address,
            bounds,
            seats,
            aggregator,
            datagrams: Vec::new(alloc),
            answered,
            events: 0,
            requests: 0,
            replies: 0,
            passed: 0,
            crashes: 0,
        })
    }

    /// What comes of an event.
    pub(crate) fn step(&mut self, event: WorldEvent) -> Result<(), NoMemory>
        requires world { IsWorld self.old }
        requires may { MayHappen (seen_of self.old) event }
        ensures { OnOk result (ShowsWorld (seen_after (seen_of self.old) event) self.new) }
    {
        self.happen(event)?;
        self.events = self.events.saturating_add(1);
        Ok(())
    }

    fn happen(&mut self, event: WorldEvent) -> Result<(), NoMemory>
        requires world { IsWorld self.old }
        requires may { MayHappen (seen_of self.old) event }
        ensures { OnOk result (ShowsWorld (happens event (seen_of self.old)) self.new) }
    {
        match event {
            WorldEvent::ClientSend { kind, body } => self.ask(kind, &body),
            WorldEvent::Deliver { packet } => self.deliver(packet),
            WorldEvent::Tick { member } => self.turn(usize::from(member), &Event::Tick),
            WorldEvent::Quiet { member } => self.turn(usize::from(member), &Event::Quiet),
            WorldEvent::Crash { member } => Ok(self.crash(usize::from(member))),
            WorldEvent::Restart { member } => self.restart(usize::from(member)),
            WorldEvent::CrashInTurn {
                member,
                packet,
                kept,
            } => self.crash_within(usize::from(member), packet, kept),
            WorldEvent::Forget => Ok(self.forget()),
        }
    }

    /// Datagrams go out, and the replies among them count.
    fn send(&mut self, more: Datagrams) -> Result<(), NoMemory>
        requires { IsWorld self.old }
        ensures { OnOk result (ShowsWorld (sends more (seen_of self.old)) self.new) }
    {
        send_all(
            more,
            &mut self.datagrams,
            &mut self.answered,
            &mut self.replies,
        )
    }

    /// The client sends a request to each member.
    fn ask(&mut self, kind: Kind, body: &Bytes) -> Result<(), NoMemory>
        requires world { IsWorld self.old }
        requires may { MaySend (seen_of self.old) kind body.now }
        ensures { OnOk result (ShowsWorld (asks kind body.now (seen_of self.old)) self.new) }
    {
        let more = request_parts(
            self.alloc,
            &self.members,
            self.requests as u16,
            kind,
            body.as_slice(),
        )?;
        self.requests = self.requests.saturating_add(1);
        self.send(more)
    }

    /// A packet comes where it was sent to.
    fn deliver(&mut self, packet: u64) -> Result<(), NoMemory>
        requires world { IsWorld self.old }
        requires may { MayCome (seen_of self.old) packet }
        ensures { OnOk result (ShowsWorld (delivers (slice_get self.old.datagrams.items packet) (seen_of self.old)) self.new) }
    {
        let datagram = self.datagrams[packet as usize].duplicate(self.alloc)?;
        match place_of(self.members.as_slice(), datagram.to) {
            Some(member) => self.turn(member, &Event::Datagram(datagram)),
            None => self.aggregate(&Event::Datagram(datagram)),
        }
    }

    /// A member makes a turn.
    fn turn(&mut self, member: usize, event: &Event) -> Result<(), NoMemory>
        requires world { IsWorld self.old }
        requires up { is_up (seen_of self.old) member ≡ true }
        ensures { OnOk result (ShowsWorld (acts member (turns member event.now) (seen_of self.old)) self.new) }
    {
        let SeatTurn {
            replies,
            sends,
            reach,
        } = self.seats[member].turn(event)?;
        self.passed = self.passed.max(reach);
        self.send(replies)?;
        self.send(sends)
    }

    /// The aggregator makes a turn.
    fn aggregate(&mut self, event: &Event) -> Result<(), NoMemory>
        requires { IsWorld self.old }
        ensures { OnOk result ((me : Addr) → self.old.address ≡ Some me → ShowsWorld (aggregates me event.now (seen_of self.old)) self.new) }
    {
        let Some(aggregator) = &mut self.aggregator else {
            return Ok(());
        };
        let more = aggregator.turn(event)?;
        self.send(more)
    }

    /// A member stops between two turns.
    fn crash(&mut self, member: usize)
        requires world { IsWorld self.old }
        requires up { is_up (seen_of self.old) member ≡ true }
        ensures { ShowsWorld (acts member (crashes_between member) (seen_of self.old)) self.new }
    {
        self.seats[member].stop();
        self.crashes = self.crashes.saturating_add(1);
    }

    /// A member begins again.
    fn restart(&mut self, member: usize) -> Result<(), NoMemory>
        requires world { IsWorld self.old }
        requires member { member < length self.old.members }
        ensures { OnOk result (ShowsWorld (restarts member (seen_of self.old)) self.new) }
    {
        self.seats[member].restart(self.alloc)?;
        Ok(())
    }

    /// A member stops within a turn.
    fn crash_within(
        &mut self,
        member: usize,
        packet: Option<u64>,
        kept: bool,
    ) -> Result<(), NoMemory>
        requires world { IsWorld self.old }
        requires may { MayStop (seen_of self.old) member packet }
        ensures { OnOk result (ShowsWorld (acts member (crashes_within member (event_of (packet_at (seen_of self.old) packet)) kept) (seen_of self.old)) self.new) }
    {
        let event = self.event_at(packet)?;
        let reach = self.seats[member].stop_within(&event, kept)?;
        self.passed = self.passed.max(reach);
        self.crashes = self.crashes.saturating_add(1);
        Ok(())
    }

    /// A packet that comes or, where none is named, a tick.
    #[tactic(auto, unfolding(crate::specs::Live::seen_of))]
    fn event_at(&self, packet: Option<u64>) -> Result<Event, NoMemory>
        requires { IfSome packet (λ number. number < length self.now.datagrams.items) }
        ensures { IfOk result (λ event. event ≡ event_of (packet_at (seen_of self.now) packet)) }
    {
        match packet {
            Some(number) => Ok(Event::Datagram(self.datagrams[number as usize].duplicate(
                self.alloc,
            )?)),
            None => Ok(Event::Tick),
        }
    }

    /// The aggregator begins anew.
    fn forget(&mut self)
        requires { IsWorld self.old }
        ensures { ShowsWorld (forgets (seen_of self.old)) self.new }
    {
        match &mut self.aggregator {
            Some(aggregator) => aggregator.forget(),
            None => {}
        }
    }

    /// How many packets were sent.
    #[tactic(auto, unfolding(crate::specs::Live::seen_of))]
    pub(crate) fn packets(&self) -> u64
        ensures { result ≡ length (seen_of self.now).datagrams }
    {
        self.datagrams.len() as u64
    }

    /// The packet with a number.
    #[tactic(auto, unfolding(crate::specs::Live::seen_of))]
    pub(crate) fn packet(&self, number: u64) -> &Datagram
        requires { number < length (seen_of self.now).datagrams }
        ensures { slice_get (seen_of self.now).datagrams number ≡ Some result.now }
    {
        &self.datagrams[number as usize]
    }

    /// Whether the packet with a number was sent to a member or to the aggregator.
    pub(crate) fn is_for_group(&self, number: u64) -> bool
        requires { number < length (seen_of self.now).datagrams }
        ensures { result ≡ is_for_group (seen_of self.now) (slice_get (seen_of self.now).datagrams number) }
    {
        let to = self.datagrams[number as usize].to;
        match place_of(self.members.as_slice(), to) {
            Some(_) => true,
            None => is_aggregator(self.address, to),
        }
    }

    /// Whether a member is up.
    pub(crate) fn is_up(&self, member: u8) -> bool
        requires { IsWorld self.now }
        ensures { result ≡ is_up (seen_of self.now) member }
    {
        let place = usize::from(member);
        if place >= self.seats.len() {
            return false;
        }
        self.seats[place].is_up()
    }

    /// What is counted.
    pub(crate) fn counts(&self) -> Counts
        requires { IsWorld self.now }
        ensures { result ≡ counts_of (seen_of self.now) }
    {
        Counts {
            events: self.events,
            requests: self.requests,
            replied: count_answered(&self.answered, self.requests),
            replies: self.replies,
            passed: self.passed,
            terms: greatest_term(&self.seats),
            crashes: self.crashes,
        }
    }
}
