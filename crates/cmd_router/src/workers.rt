//! Workers that run at once.

ghost use Rattle.std.specs.Prelude.{ℕ, ◌≤◌, List, [], ◌∷◌, Option, Some, length};
ghost use Rattle.std.specs.List.{All};
ghost use Rattle.std.specs.Thread.{IsSync};
ghost use Rattle.cmd_router.specs.Seats.{RunAll, RunUntimed};

use cmd_loop::NoClock;
use r2_link::Clock;
use std::thread::{Threads, for_each_mut, join_mut};

/// A worker, whose loop can be run on a thread of its own.
pub(crate) trait Worker: Send {
    /// It may be run.
    ghost ready: { Self → Type 0 };

    /// It ran, beside a clock that had this left, and had failed so often, before and after.
    ghost ran: { Self → Option (List ℕ) → ℕ → Self → Option (List ℕ) → ℕ → Type 0 };

    fn run<C: Clock>(&mut self, clock: &mut C)
        requires { ready self.old }
        ensures { ran self.old (C.left clock.old) (C.faults clock.old) self.new (C.left clock.new) (C.faults clock.new) };
}

/// How many threads there are at most beside that of the first worker.
const MOST_OTHERS: usize = 15;

/// Runs all of these workers at once: the first by the clock, and each of the others by one that stands still.
pub(crate) fn run_all<R: Threads + Sync, V: Worker, C: Clock + Send>(
    rt: &R,
    workers: &mut [V],
    clock: &mut C,
)
    requires { All V.ready workers.old }
    ensures { 1 ≤ length workers.old → RunAll V.ran workers.old (C.left clock.old) (C.faults clock.old) workers.new (C.left clock.new) (C.faults clock.new) }
{
    let Some((first, others)) = workers.split_first_mut() else {
        return;
    };
    run_both(rt, first, clock, others);
}

fn run_both<R: Threads + Sync, V: Worker, C: Clock + Send>(
    rt: &R,
    first: &mut V,
    clock: &mut C,
    others: &mut [V],
)
    requires first { V.ready first.old }
    requires others { All V.ready others.old }
    ensures first { V.ran first.old (C.left clock.old) (C.faults clock.old) first.new (C.left clock.new) (C.faults clock.new) }
    ensures others { RunUntimed V.ran others.old others.new }
{
    join_mut(
        rt,
        &mut || first.run(clock),
        &mut ||
            requires { IsSync R.row × All V.ready others.now }
            ensures { RunUntimed V.ran others.entry.now others.exit.now }
        { run_others(rt, others) },
    );
}

/// Runs these workers at once, each by a clock that stands still.
fn run_others<R: Threads + Sync, V: Worker>(rt: &R, others: &mut [V])
    requires { All V.ready others.old }
    ensures others { RunUntimed V.ran others.old others.new }
{
    let run = |_place: usize, worker: &mut V|
        requires { V.ready worker.now }
        ensures { V.ran worker.entry.now (Some (0 ∷ [])) 0 worker.exit.now (Some (0 ∷ [])) 0 }
    { run_untimed(worker) };
    for_each_mut(rt, others, MOST_OTHERS, &run);
}

fn run_untimed<V: Worker>(worker: &mut V)
    requires { V.ready worker.old }
    ensures { V.ran worker.old (Some (0 ∷ [])) 0 worker.new (Some (0 ∷ [])) 0 }
{
    let mut clock = NoClock;
    worker.run(&mut clock);
}
