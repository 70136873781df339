//! The rounds of a simulation.

ghost use Rattle.std.specs.Prelude.{◌≡◌, ◌++◌, ◌<◌, [], All, OnOk, length, min};
ghost use Rattle.hc_world.specs.Events.{IsPossible};
ghost use Rattle.hc_world.specs.Seen.{datagrams_in};
ghost use Rattle.cmd_simulate.specs.Courses.{Tells, TellsAt, TellsSome};
ghost use Rattle.cmd_simulate.specs.Drawn.{drawn, next_lots};
ghost use Rattle.cmd_simulate.specs.Generator.{Course, asks, asks_one, carries, carries_all, carries_flight, comes, each_may_crash, each_ticks, group_of, happens, may_crash, numbers, repeats, round, ticks};
ghost use Rattle.cmd_simulate.specs.Plans.{IsPlan};

use crate::draws::draw;
use crate::plan::Plan;
use crate::questions::{body_of, command_of, kind_of};
use hc_world::{World, WorldEvent};
use r2_base::NoMemory;
use rand_pcg::Lcg64Xsh32;
use std::alloc::Global;
use std::mem::replace;

/// A world, the numbers of the packets that are in flight in it, and what is drawn from.
#[derive(Drop)]
pub(crate) struct Simulation {
    pub(crate) alloc: Global,
    pub(crate) world: World,
    pub(crate) flight: Vec<u64>,
    pub(crate) lots: Lcg64Xsh32,
}

impl Simulation {
    /// An event happens, and what is sent enters the flight.
    fn step(&mut self, event: WorldEvent) -> Result<(), NoMemory>
        requires { IsPossible self.old.world event }
        ensures told { OnOk result ((plan : Plan) (x : Course) → Tells plan x self.old.world self.old.flight.items self.old.lots
            → Tells plan (happens (group_of plan) event x) self.new.world self.new.flight.items self.new.lots) }
    {
        let before = self.world.packets();
        self.world.step(event)?;
        enter(&mut self.flight, before, self.world.packets())
    }

    /// The client sends the request with a number.
    fn ask(&mut self, plan: &Plan, number: u32) -> Result<(), NoMemory>
        requires at { TellsAt plan.now number self.old.world self.old.flight.items self.old.lots }
        requires few { number < 60000 }
        ensures told { OnOk result ((x : Course) → Tells plan.now x self.old.world self.old.flight.items self.old.lots
            → Tells plan.now (asks (group_of plan.now) number x) self.new.world self.new.flight.items self.new.lots) }
    {
        let command = command_of(draw(&mut self.lots, 4));
        let body = body_of(self.alloc, command, number)?;
        self.step(WorldEvent::ClientSend {
            kind: kind_of(command),
            body,
        })
    }

    /// A packet that isn't lost comes to a member or to the aggregator; one to the client is no event.
    fn come(&mut self, plan: &Plan, packet: u64) -> Result<(), NoMemory>
        requires some { TellsSome plan.now self.old.world self.old.flight.items self.old.lots }
        requires sent { packet < length (datagrams_in self.old.world) }
        ensures told { OnOk result ((x : Course) → Tells plan.now x self.old.world self.old.flight.items self.old.lots
            → Tells plan.now (comes (group_of plan.now) packet x) self.new.world self.new.flight.items self.new.lots) }
    {
        if self.world.is_for_group(packet) {
            return self.step(WorldEvent::Deliver { packet });
        }
        Ok(())
    }

    /// A packet that came may come again later.
    fn repeat(&mut self, plan: &Plan, packet: u64) -> Result<(), NoMemory>
        ensures told { OnOk result ((x : Course) → Tells plan.now x self.old.world self.old.flight.items self.old.lots
            → Tells plan.now (repeats plan.now packet x) self.new.world self.new.flight.items self.new.lots) }
    {
        if draw(&mut self.lots, 100) < u64::from(plan.repeat) {
            self.flight.push(packet)?;
        }
        Ok(())
    }

    /// A packet is lost, or comes, and may come again later.
    fn carry(&mut self, plan: &Plan, packet: u64) -> Result<(), NoMemory>
        requires some { TellsSome plan.now self.old.world self.old.flight.items self.old.lots }
        requires sent { packet < length (datagrams_in self.old.world) }
        ensures told { OnOk result ((x : Course) → Tells plan.now x self.old.world self.old.flight.items self.old.lots
            → Tells plan.now (carries plan.now x packet) self.new.world self.new.flight.items self.new.lots) }
    {
        if draw(&mut self.lots, 100) < u64::from(plan.loss) {
            return Ok(());
        }
        self.come(plan, packet)?;
        self.repeat(plan, packet)
    }

    /// Packets are carried, one after another.
    fn carry_all(&mut self, plan: &Plan, packets: &[u64]) -> Result<(), NoMemory>
        requires some { TellsSome plan.now self.old.world self.old.flight.items self.old.lots }
        requires sent { All (λ packet. packet < length (datagrams_in self.old.world)) packets.now }
        ensures told { OnOk result ((x : Course) → Tells plan.now x self.old.world self.old.flight.items self.old.lots
            → Tells plan.now (carries_all plan.now packets.now x) self.new.world self.new.flight.items self.new.lots) }
    {
        'packets: for packet in packets {
            self.carry(plan, *packet)?;
        }
        Ok(())
    }

    /// A flight that was taken out is carried, from a place on that is drawn.
    fn carry_taken(&mut self, plan: &Plan, flight: &[u64]) -> Result<(), NoMemory>
        requires some { TellsSome plan.now self.old.world flight.now self.old.lots }
        requires taken { self.old.flight.items ≡ [] }
        ensures told { OnOk result ((x : Course) → Tells plan.now x self.old.world flight.now self.old.lots
            → Tells plan.now (carries_flight plan.now x) self.new.world self.new.flight.items self.new.lots) }
    {
        if flight.is_empty() {
            return Ok(());
        }
        let place = draw(&mut self.lots, flight.len() as u64) as usize;
        let (before, after) = flight.split_at(place);
        self.carry_all(plan, after)?;
        self.carry_all(plan, before)
    }

    /// All that is in flight is carried.
    fn carry_flight(&mut self, plan: &Plan) -> Result<(), NoMemory>
        requires some { TellsSome plan.now self.old.world self.old.flight.items self.old.lots }
        ensures told { OnOk result ((x : Course) → Tells plan.now x self.old.world self.old.flight.items self.old.lots
            → Tells plan.now (carries_flight plan.now x) self.new.world self.new.flight.items self.new.lots) }
    {
        let flight = replace(&mut self.flight, Vec::new(self.alloc));
        self.carry_taken(plan, flight.as_slice())
    }

    /// A member may crash and begin again.
    fn crash(&mut self, plan: &Plan, member: u8) -> Result<(), NoMemory>
        requires some { TellsSome plan.now self.old.world self.old.flight.items self.old.lots }
        requires member { member < plan.now.members }
        ensures told { OnOk result ((x : Course) → Tells plan.now x self.old.world self.old.flight.items self.old.lots
            → Tells plan.now (may_crash plan.now x member) self.new.world self.new.flight.items self.new.lots) }
    {
        if draw(&mut self.lots, 1_000) < u64::from(plan.crash) {
            self.step(WorldEvent::Crash { member })?;
            return self.step(WorldEvent::Restart { member });
        }
        Ok(())
    }

    fn crash_some(&mut self, plan: &Plan) -> Result<(), NoMemory>
        requires some { TellsSome plan.now self.old.world self.old.flight.items self.old.lots }
        ensures told { OnOk result ((x : Course) → Tells plan.now x self.old.world self.old.flight.items self.old.lots
            → Tells plan.now (each_may_crash plan.now x) self.new.world self.new.flight.items self.new.lots) }
    {
        'members: for member in 0..plan.members {
            self.crash(plan, member)?;
        }
        Ok(())
    }

    /// Time goes on at a member.
    fn tick(&mut self, plan: &Plan, member: u8) -> Result<(), NoMemory>
        requires some { TellsSome plan.now self.old.world self.old.flight.items self.old.lots }
        requires member { member < plan.now.members }
        ensures told { OnOk result ((x : Course) → Tells plan.now x self.old.world self.old.flight.items self.old.lots
            → Tells plan.now (ticks plan.now x member) self.new.world self.new.flight.items self.new.lots) }
    {
        self.step(WorldEvent::Tick { member })
    }

    fn tick_all(&mut self, plan: &Plan) -> Result<(), NoMemory>
        requires some { TellsSome plan.now self.old.world self.old.flight.items self.old.lots }
        ensures told { OnOk result ((x : Course) → Tells plan.now x self.old.world self.old.flight.items self.old.lots
            → Tells plan.now (each_ticks plan.now x) self.new.world self.new.flight.items self.new.lots) }
    {
        'members: for member in 0..plan.members {
            self.tick(plan, member)?;
        }
        Ok(())
    }

    /// A request is sent, if one is left.
    fn ask_one(&mut self, plan: &Plan, number: u32) -> Result<(), NoMemory>
        requires plan { IsPlan plan.now }
        requires at { TellsAt plan.now (min number plan.now.requests) self.old.world self.old.flight.items self.old.lots }
        ensures told { OnOk result ((x : Course) → Tells plan.now x self.old.world self.old.flight.items self.old.lots
            → Tells plan.now (asks_one plan.now number x) self.new.world self.new.flight.items self.new.lots) }
    {
        if number < plan.requests {
            return self.ask(plan, number);
        }
        Ok(())
    }

    /// A round: a request, if there is one left; all that is in flight; crashes; ticks.
    pub(crate) fn round(&mut self, plan: &Plan, number: u32) -> Result<(), NoMemory>
        requires plan { IsPlan plan.now }
        requires at { TellsAt plan.now (min number plan.now.requests) self.old.world self.old.flight.items self.old.lots }
        ensures told { OnOk result ((x : Course) → Tells plan.now x self.old.world self.old.flight.items self.old.lots
            → Tells plan.now (round plan.now x number) self.new.world self.new.flight.items self.new.lots) }
    {
        self.ask_one(plan, number)?;
        self.carry_flight(plan)?;
        self.crash_some(plan)?;
        self.tick_all(plan)
    }
}

/// The packets with the numbers from one on, below another, enter the flight.
fn enter(flight: &mut Vec<u64>, from: u64, to: u64) -> Result<(), NoMemory>
    ensures { OnOk result (flight.new.items ≡ flight.old.items ++ numbers from to) }
{
    'sent: for number in from..to {
        flight.push(number)?;
    }
    Ok(())
}
