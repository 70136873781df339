ghost use Rattle.std.specs.Prelude.{◌≡◌, ◌≢◌, ◌+◌, ◌≤◌, length, All, AllPairs, IfOk};
ghost use Rattle.r2_base.specs.Limits.{greatest_member, most_turns};
ghost use Rattle.r2_link.specs.Faults.{NoneFalls, Rose, calm};
ghost use Rattle.hc_aggregate.specs.Turn.{begin};
ghost use Rattle.cmd_status.specs.Causes.{IsCaused};
ghost use Rattle.cmd_loop.specs.Loop.{IsServed};
ghost use Rattle.cmd_aggregator.specs.Aggregates.{AggregatorSends, Becomes, becomes_none};
ghost use Rattle.cmd_aggregator.specs.Untimed.{ServesUntimed};

use cmd_loop::{NoClock, Pace, Plain, PlainParty, serve_without_journal};
use cmd_status::Status;
use hc_aggregate::Aggregator;
use r2_base::{Addr, Addrs, Datagrams, Event, NoMemory};
use r2_link::Link;
use std::alloc::Global;

/// How long one receive waits, in milliseconds. Nothing is due in the meantime.
const WAIT_MS: u32 = 1_000;

/// An aggregator as a loop runs it.
#[derive(Drop)]
struct AggregatingParty {
    aggregator: Aggregator,
}

impl PlainParty for AggregatingParty {
    ghost turned = { λ a events sends b. Becomes a.aggregator events sends b.aggregator };

    ghost had_turns = { λ n a. Unit {0} };

    fn turn(&mut self, event: &Event) -> Result<Datagrams, NoMemory> {
        self.aggregator.turn(event)
    }

    ghost begins = { λ a. becomes_none a.aggregator };
}

/// Runs a new aggregator at `me`, which serves 1 to 7 members at distinct addresses of which none is its own, on a link, until the
/// link ends or fails, or so many receives were made. It knows no ticks, and asks no clock.
pub fn serve_aggregator<L: Link>(
    alloc: Global,
    me: Addr,
    members: Addrs,
    link: &mut L,
    turns: u64,
) -> Status
    requires some { 1 ≤ length members }
    requires few { length members ≤ greatest_member + 1 }
    requires distinct { AllPairs (λ a b. a ≢ b) members }
    requires apart { All (λ member. member ≢ me) members }
    requires turns { turns ≤ most_turns }

    // What was received, and what a new aggregator sends at that.
    ensures ran { ServesUntimed (AggregatorSends me members) turns (L.told link.old) (L.told link.new) result }

    // Where the link didn't fail, it ended, all receives were made, or memory ran out.
    ensures complete { (Rose (L.faults link.old) (L.faults link.new) → ⊥) → IsServed result }

    ensures caused { IsCaused (record calm { link = L.faults link.old }) (record calm { link = L.faults link.new }) result }
    ensures steady { NoneFalls (record calm { link = L.faults link.old }) (record calm { link = L.faults link.new }) }
{
    let Ok(aggregator) = Aggregator::new(alloc, me, members) else {
        return Status::Memory;
    };
    let party = AggregatingParty { aggregator };
    let pace = Pace {
        tick_ms: WAIT_MS,
        turns,
    };
    serve_without_journal(alloc, &mut Plain { party }, link, &mut NoClock, pace)
}
