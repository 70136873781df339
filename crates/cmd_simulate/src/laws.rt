//! What holds of every simulation.

ghost use Rattle.cmd_simulate.specs.Laws.{SimulationsAreRuns, SimulationsServeAsOne};

/// All that happens in a simulation is possible where it happens: it is a run of the plan's group.
pub fn simulations_are_runs()
    ensures { SimulationsAreRuns }
{}

/// So the group of each simulation serves as one thread, at each moment of it.
pub fn simulations_serve_as_one()
    ensures { SimulationsServeAsOne }
{}
