//! Simulations.

ghost use Rattle.std.specs.Prelude.{◌≡◌, IfOk};
ghost use Rattle.r2_link.specs.Faults.{NoneFalls, Rose, calm};
ghost use Rattle.cmd_status.specs.Causes.{IsCaused};
ghost use Rattle.hc_world.specs.Runs.{ServesThroughout};
ghost use Rattle.cmd_simulate.specs.Courses.{Tells};
ghost use Rattle.cmd_simulate.specs.Generator.{beginning, generated, group_of};
ghost use Rattle.cmd_simulate.specs.Plans.{IsPlan};
ghost use Rattle.cmd_simulate.specs.Simulations.{IsSimulationEnd, Simulates, counted, summary_of};

use crate::lines::summary;
use crate::plan::Plan;
use crate::rounds::Simulation;
use cmd_status::Status;
use hc_world::{Counts, World};
use r2_base::NoMemory;
use r2_link::{Sink, write_all};
use rand_pcg::Lcg64Xsh32;
use std::alloc::Global;

/// How many rounds there are after that of the last request.
const MORE_ROUNDS: u32 = 200;

/// A simulation that begins.
fn begin(alloc: Global, plan: &Plan) -> Result<Simulation, NoMemory>
    requires { IsPlan plan.now }
    ensures { IfOk result (λ begun. Tells plan.now (beginning plan.now) begun.world begun.flight.items begun.lots) }
{
    let world = World::new(
        alloc,
        plan.members,
        plan.bounds.copy(alloc)?,
        plan.aggregator,
    )?;
    Ok(Simulation {
        alloc,
        world,
        flight: Vec::new(alloc),
        lots: Lcg64Xsh32::new(plan.seed, 0),
    })
}

/// All rounds, and what is counted then.
fn run(alloc: Global, plan: &Plan) -> Result<Counts, NoMemory>
    requires { IsPlan plan.now }
    ensures { IfOk result (λ counts. counts ≡ counted plan.now) }
{
    let mut simulation = begin(alloc, plan)?;
    'rounds: for number in 0..plan.requests + MORE_ROUNDS {
        simulation.round(plan, number)?;
    }
    Ok(simulation.world.counts())
}

/// The lines of a simulation.
fn simulated(alloc: Global, plan: &Plan) -> Result<Vec<u8>, NoMemory>
    requires { IsPlan plan.now }
    ensures { IfOk result (λ text. text.items ≡ summary_of plan.now) }
{
    let counts = run(alloc, plan)?;
    summary(alloc, plan.seed, &counts)
}

/// Simulates a group, and writes what is counted then to `sink`, in eight lines.
///
/// The same plan gives the same lines each time. Where the sink failed is reported by the status alone.
pub fn simulate<K: Sink>(alloc: Global, plan: Plan, sink: &mut K) -> Status
    requires { IsPlan plan }

    // What is written is counted in a run of the plan's group.
    ensures ran { Simulates plan (K.written sink.old) (K.written sink.new) result }

    // At each moment of that run the group serves as one thread.
    ensures serves { ServesThroughout (group_of plan) (generated plan) }

    // Where the sink doesn't fail, all is written, or memory runs out.
    ensures complete { (Rose (K.faults sink.old) (K.faults sink.new) → ⊥) → IsSimulationEnd result }
    ensures caused { IsCaused (record calm { sink = K.faults sink.old }) (record calm { sink = K.faults sink.new }) result }
    ensures steady { NoneFalls (record calm { sink = K.faults sink.old }) (record calm { sink = K.faults sink.new }) }
{
    let Ok(text) = simulated(alloc, &plan) else {
        return Status::Memory;
    };
    match write_all(sink, text.as_slice()) {
        Ok(()) => Status::Done,
        Err(_) => Status::SinkFault,
    }
}
