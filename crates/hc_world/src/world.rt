ghost use Rattle.std.specs.Prelude.{◌≡◌, ◌≤◌, ◌<◌, ◌++◌, ◌∷◌, [], List, Some, None, length, slice_get, IfOk, OnOk, OnErr};
ghost use Rattle.hc_replier.specs.Bounds.{AreBounds, most_members};
ghost use Rattle.hc_run.specs.Group.{Group, IsGroup};
ghost use Rattle.hc_run.specs.ServesOn.{ServesOn};
ghost use Rattle.hc_world.specs.Addresses.{group_at};

use crate::counts::Counts;
use crate::event::WorldEvent;
use crate::live::Live;
use hc_replier::Bounds;
use r2_base::{Datagram, NoMemory};
use std::alloc::Global;
use std::marker::Model;

/// A group of real replicas that runs, with its aggregator where it has one, and all packets that were ever sent.
///
/// The members' addresses are 10.0.0.1:9000, 10.0.0.2:9000 and so on, the aggregator's is 10.0.0.100:9100, the client's
/// 10.0.0.200:7000.
#[derive(Drop)]
pub struct World {
    live: Option<Live>,
}

impl Model for World {
    ghost use Rattle.std.specs.Prelude.{Option};
    ghost use Rattle.std.specs.Coded.{codes};
    ghost use Rattle.hc_service.specs.State.{contents_code};
    ghost use Rattle.hc_world.specs.Live.{IsWorldUnlessSpent, seen_in};
    ghost use Rattle.hc_world.specs.Seen.{Seen};

    ghost Value = { Option Seen };

    ghost coded = { Prim.hlevel (codes, contents_code) };

    ghost view = { λ a. seen_in a.live };

    ghost invariant = { λ a. IsWorldUnlessSpent a.live };
}

impl World {
    ghost use Rattle.hc_world.specs.Events.{IsPossible, events_of};
    ghost use Rattle.hc_world.specs.Runs.{ShowsRun};
    ghost use Rattle.hc_world.specs.Seen.{Seen, counts_in, datagrams_in, is_for_group_in, is_up_in};
    ghost use Rattle.hc_world.specs.Steps.{seen_after};

    /// A group of 1 to 7 members with a bound for each, of which nobody has done anything yet.
    pub fn new(
        alloc: Global,
        members: u8,
        bounds: Bounds,
        has_aggregator: bool,
    ) -> Result<World, NoMemory>
        requires some { 1 ≤ members }
        requires few { members ≤ most_members }
        requires bounds { AreBounds bounds }
        requires each { length bounds ≡ members }
        ensures group { IsGroup (group_at members bounds has_aggregator) }
        ensures run { IfOk result (ShowsRun (group_at members bounds has_aggregator) []) }
    {
        let live = Live::new(alloc, members, bounds, has_aggregator)?;
        Ok(World { live: Some(live) })
    }

    /// Does what comes of an event that is possible.
    ///
    /// Where memory runs out, and only then, the world is spent, and to be dropped.
    pub fn step(&mut self, event: WorldEvent) -> Result<(), NoMemory>
        requires { IsPossible self.old event }

        // What is seen then is a function of what was seen before.
        ensures exact { OnOk result ((w : Seen) → self.old ≡ Some w → self.new ≡ Some (seen_after w event)) }

        // A world that shows a run shows the run that goes on by the event.
        ensures run { OnOk result ((g : Group) (events : List WorldEvent) → ShowsRun g events self.old → ShowsRun g (events ++ event ∷ []) self.new) }

        // In that run the group serves as one thread, by a list that only grew and is a prefix of the agreed one.
        ensures serves { OnOk result ((g : Group) (events : List WorldEvent) → ShowsRun g events self.old → ServesOn g (events_of 0 (events ++ event ∷ []))) }
        ensures spent { OnErr result (self.new ≡ None) }
    {
        let Some(mut live) = self.live.take() else {
            unreachable!();
        };
        live.step(event)?;
        self.live = Some(live);
        Ok(())
    }

    /// How many packets were ever sent, and 0 where the world is spent.
    pub fn packets(&self) -> u64
        ensures { result ≡ length (datagrams_in self.now) }
    {
        match &self.live {
            Some(live) => live.packets(),
            None => 0,
        }
    }

    /// The packet with a number.
    pub fn packet(&self, number: u64) -> &Datagram
        requires { number < length (datagrams_in self.now) }
        ensures { slice_get (datagrams_in self.now) number ≡ Some result.now }
    {
        match &self.live {
            Some(live) => live.packet(number),
            None => unreachable!(),
        }
    }

    /// Whether the packet with a number was sent to a member or to the aggregator. All others are the client's.
    pub fn is_for_group(&self, number: u64) -> bool
        requires { number < length (datagrams_in self.now) }
        ensures { result ≡ is_for_group_in self.now number }
    {
        match &self.live {
            Some(live) => live.is_for_group(number),
            None => false,
        }
    }

    /// Whether a member is up. In a world that is spent no member is.
    pub fn up(&self, member: u8) -> bool
        ensures { result ≡ is_up_in self.now member }
    {
        match &self.live {
            Some(live) => live.is_up(member),
            None => false,
        }
    }

    /// What is counted, and zeros where the world is spent.
    pub fn counts(&self) -> Counts
        ensures { result ≡ counts_in self.now }
    {
        match &self.live {
            Some(live) => live.counts(),
            None => Counts {
                events: 0,
                requests: 0,
                replied: 0,
                replies: 0,
                passed: 0,
                terms: 0,
                crashes: 0,
            },
        }
    }
}
