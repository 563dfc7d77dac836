//! A run under a seed, and how it ends.
ghost use Rattle.std.specs.Prelude.{◌≡◌, IfOk, None, false};
ghost use Rattle.std.specs.Option.{option_map_or};
ghost use Rattle.simulate_parts.specs.Tracker.{first_fault, tracker_of};
ghost use Rattle.ledger_simulate.specs.Plans.{Runs};
ghost use Rattle.ledger_simulate.specs.Queue.{first_key};
ghost use Rattle.ledger_simulate.specs.Results.{EndedView, ResultView};
ghost use Rattle.ledger_simulate.specs.Stepping.{Opens, course_of};

mod stepping;

use crate::agenda::Agenda;
use crate::fault::PlanFault;
use crate::meaning::Means;
use crate::opening::open;
use crate::plan::Plan;
use crate::queue::Queue;
use crate::watch::Watch;
use crate::world::World;
use ledger_codec::{Digest as Hash, OutOfMemory};
use rand_core::SeedableRng;
use rand_pcg::Pcg32;
use sha2::{Digest, Sha256};
use simulate_parts::{EngineDefinition, ProgressTracker, StateView};
use std::alloc::Global;
use std::marker::Model;

/// A run under a seed. It is stepped from event to event, and a refused step gives it up.
#[derive(Drop)]
pub struct Simulation<'a, D: EngineDefinition> {
    plan: &'a Plan<D>,
    alloc: Global,
    seed: u64,
    handled: u64,
    state: Sha256,
    queue: Queue,
    world: World<D>,
    watch: Watch,
}

/// What a step leaves: the run, or its result.
#[derive(Drop)]
pub enum Stepped<'a, D: EngineDefinition> {
    On(Simulation<'a, D>),
    Done(PlanResult),
}

/// A run that met its exit condition without a fork, with every property held and every configured failure
/// exercised. A step makes it alone: its fields are private to this module.
#[derive(Drop)]
pub struct PlanResult {
    state: Hash,
    watch: Watch,
    reached: ProgressTracker,
    states: Vec<StateView>,
    entered: Vec<bool>,
    crashes: u64,
    scheduled_actions: u64,
    delayed_started: bool,
    seed: u64,
    handled: u64,
    max_events: u64,
    timeout: Option<u64>,
}

impl Model for PlanResult {
    ghost use Rattle.ledger_simulate.specs.Results.{ResultView};

    ghost Value = { ResultView };

    ghost view = { λ r. record {
      state = r.state;
      updates = r.watch;
      reached = r.reached;
      states = r.states.items;
      entered = r.entered.items;
      crashes = r.crashes;
      scheduled_actions = r.scheduled_actions;
      delayed_started = r.delayed_started;
      seed = r.seed;
      handled = r.handled;
      max_events = r.max_events;
      timeout = r.timeout;
    } };
}

impl PlanResult {
    ghost use Rattle.simulate_parts.specs.Tracker.{first_fault, tracker_of};

    /// The SHA-256 of the handled events, in order.
    pub fn state(&self) -> &Hash
        ensures { result.now ≡ self.now.state }
    {
        &self.state
    }

    /// The tracker of all reports.
    pub fn tracker(&self) -> &ProgressTracker
        ensures value { result.now ≡ tracker_of self.now.updates }
        ensures sound { first_fault self.now.updates ≡ None }
    {
        self.watch.tracker()
    }

    /// The tracker on which the exit condition answered true.
    pub fn reached(&self) -> &ProgressTracker
        ensures { result.now ≡ self.now.reached }
    {
        &self.reached
    }

    /// The states on which the exit condition answered true, which the properties saw too.
    pub fn states(&self) -> &[StateView]
        ensures { result.now ≡ self.now.states }
    {
        self.states.as_slice()
    }

    /// For each configured failure whether it is a window of heights that was entered.
    pub fn entered(&self) -> &[bool]
        ensures { result.now ≡ self.now.entered }
    {
        self.entered.as_slice()
    }

    /// The number of crashes that ran.
    pub fn crashes(&self) -> u64
        ensures { result ≡ self.now.crashes }
    {
        self.crashes
    }

    /// The number of scheduled actions that were applied.
    pub fn scheduled_actions(&self) -> u64
        ensures { result ≡ self.now.scheduled_actions }
    {
        self.scheduled_actions
    }

    /// Whether the delayed participants were started.
    pub fn delayed_started(&self) -> bool
        ensures { result ≡ self.now.delayed_started }
    {
        self.delayed_started
    }

    /// The seed of the run.
    pub fn seed(&self) -> u64
        ensures { result ≡ self.now.seed }
    {
        self.seed
    }

    /// The number of events that were handled.
    pub fn handled(&self) -> u64
        ensures { result ≡ self.now.handled }
    {
        self.handled
    }
}

/// A run that came to a fault. A step makes it alone: its fields are private to this module.
#[derive(Debug, Drop)]
pub struct Ended {
    fault: PlanFault,
    seed: u64,
    handled: u64,
    max_events: u64,
    timeout: Option<u64>,
}

impl Model for Ended {
    ghost use Rattle.ledger_simulate.specs.Results.{EndedView};

    ghost Value = { EndedView };

    ghost view = { λ e. record {
      fault = e.fault;
      seed = e.seed;
      handled = e.handled;
      max_events = e.max_events;
      timeout = e.timeout;
    } };
}

impl Ended {
    /// Why the run isn't a success.
    pub fn fault(&self) -> &PlanFault
        ensures { result.now ≡ self.now.fault }
    {
        &self.fault
    }

    /// The seed of the run.
    pub fn seed(&self) -> u64
        ensures { result ≡ self.now.seed }
    {
        self.seed
    }

    /// The number of events that were handled before.
    pub fn handled(&self) -> u64
        ensures { result ≡ self.now.handled }
    {
        self.handled
    }
}

/// Why a run gives no result.
#[derive(Debug, Drop)]
pub enum SimEnd {
    Fault(Ended),
    OutOfMemory,
}

impl<'a, D: EngineDefinition> Simulation<'a, D> {
    /// A run of the plan before its first event.
    pub fn new(alloc: Global, plan: &'a Plan<D>, seed: u64) -> Result<Self, OutOfMemory>
        requires { Runs plan.now.participants plan.now.crashes }
        ensures opens { IfOk result (λ s. Opens (⟦<Plan<D> as Means>⟧.meaning plan.now)
            seed (course_of s)) }
        ensures plan { IfOk result (λ s. s.plan ≡ plan.entry) }
    {
        let mut world = World::new(alloc, plan, Pcg32::seed_from_u64(seed))?;
        let mut agenda = Agenda::new(alloc, 0);
        let polls = polls(plan);
        open(plan, &mut world, &mut agenda, polls)?;
        let mut queue = Queue::new(alloc);
        queue.add_all(0, agenda.into_events())?;
        Ok(Simulation {
            plan,
            alloc,
            seed,
            handled: 0,
            state: Sha256::new(),
            queue,
            world,
            watch: Watch::new(alloc),
        })
    }

    /// The time and the number of the first event, None exactly where none is left.
    pub fn next_event(&self) -> Option<(u64, u64)>
        ensures { result ≡ first_key (course_of self.now).queue }
    {
        self.queue.first()
    }

    /// The number of events that were handled.
    pub fn handled(&self) -> u64
        ensures { result ≡ (course_of self.now).handled }
    {
        self.handled
    }

    /// The tracker of the reports so far, each of which it took.
    pub fn tracker(&self) -> &ProgressTracker
        ensures value { result.now ≡ tracker_of (course_of self.now).updates }
        ensures sound { first_fault (course_of self.now).updates ≡ None }
    {
        self.watch.tracker()
    }
}

/// Whether the plan's exit condition is polled.
fn polls<D: EngineDefinition>(plan: &Plan<D>) -> bool
    ensures { result ≡ option_map_or (λ c. exit_polls c) plan.now.exit_condition false }
{
    match &plan.exit_condition {
        Some(condition) => condition.requires_polling(),
        None => false,
    }
}
