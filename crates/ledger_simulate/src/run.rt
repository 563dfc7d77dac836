//! Whole runs.
ghost use Rattle.std.specs.Prelude.{IfErr, IfOk};
ghost use Rattle.ledger_simulate.specs.Built.{plan_of};
ghost use Rattle.ledger_simulate.specs.Plans.{Runs};
ghost use Rattle.ledger_simulate.specs.Stepping.{RunsAll, RunsTo, StopsAt};

use crate::meaning::Means;
use crate::plan::{Plan, PlanBuilder};
use crate::simulation::{PlanResult, SimEnd, Simulation, Stepped};
use simulate_parts::EngineDefinition;
use std::alloc::Global;

impl<D: EngineDefinition> Plan<D> {
    /// Runs the plan under its own seed.
    pub fn run(&self, alloc: Global) -> Result<PlanResult, SimEnd>
        requires { Runs self.now.participants self.now.crashes }
        ensures { RunsTo (⟦<Plan<D> as Means>⟧.meaning self.now) self.now.seed result }
    {
        let seed = self.seed;
        self.run_with_seed(alloc, seed)
    }

    /// Runs the plan under a seed: steps a simulation to its end.
    pub fn run_with_seed(&self, alloc: Global, seed: u64) -> Result<PlanResult, SimEnd>
        requires { Runs self.now.participants self.now.crashes }
        ensures { RunsTo (⟦<Plan<D> as Means>⟧.meaning self.now)
            seed result }
    {
        let mut simulation = match Simulation::new(alloc, self, seed) {
            Ok(simulation) => simulation,
            Err(_) => return Err(SimEnd::OutOfMemory),
        };
        'steps: loop {
            match simulation.step() {
                Ok(Stepped::On(next)) => simulation = next,
                Ok(Stepped::Done(result)) => return Ok(result),
                Err(end) => return Err(end),
            }
        }
    }
}

impl<D: EngineDefinition> PlanBuilder<D> {
    /// Runs the plan under each of its seeds, in order, with the same checks. The first refusal ends it, and
    /// comes with its seed.
    pub fn run(self) -> Result<Vec<PlanResult>, (u64, SimEnd)>
        ensures ran { IfOk result (λ rs. RunsAll (⟦<Plan<D> as Means>⟧.meaning (plan_of self))
            self.seeds rs.items) }
        ensures refused { IfErr result (λ end. StopsAt (⟦<Plan<D> as Means>⟧.meaning (plan_of self))
            self.seeds end.0 end.1) }
    {
        let alloc = self.alloc;
        let (seeds, plan) = self.parts();
        run_all(alloc, &plan, seeds.as_slice())
    }
}

/// Runs a plan under each of these seeds, in order.
fn run_all<D: EngineDefinition>(
    alloc: Global,
    plan: &Plan<D>,
    seeds: &[u64],
) -> Result<Vec<PlanResult>, (u64, SimEnd)>
    requires { Runs plan.now.participants plan.now.crashes }
    ensures ran { IfOk result (λ rs. RunsAll (⟦<Plan<D> as Means>⟧.meaning plan.now)
        seeds.now rs.items) }
    ensures refused { IfErr result (λ end. StopsAt (⟦<Plan<D> as Means>⟧.meaning plan.now)
        seeds.now end.0 end.1) }
{
    let mut results = Vec::new(alloc);
    for seed in seeds {
        match plan.run_with_seed(alloc, *seed) {
            Ok(result) => match results.push(result) {
                Ok(()) => {}
                Err(_) => return Err((*seed, SimEnd::OutOfMemory)),
            },
            Err(end) => return Err((*seed, end)),
        }
    }
    Ok(results)
}
