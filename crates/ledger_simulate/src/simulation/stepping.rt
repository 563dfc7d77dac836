//! Stepping a run: its next event, and the end.
ghost use Rattle.std.specs.Prelude.{◌≡◌, ◌<◌, ◌+◌, ◌++◌, ℕ, Err, IsTrue, None, Ok, Some, drop, false, length, take};
ghost use Rattle.simulate_parts.specs.Seats.{active_views};
ghost use Rattle.simulate_parts.specs.Tracker.{tracker_of};
ghost use Rattle.ledger_simulate.specs.Answering.{Answered, EndsAt};
ghost use Rattle.ledger_simulate.specs.Causes.{EndComes};
ghost use Rattle.ledger_simulate.specs.Delays.{started_after, started_where};
ghost use Rattle.ledger_simulate.specs.Exercise.{missed_by};
ghost use Rattle.ledger_simulate.specs.Failures.{tally_of};
ghost use Rattle.ledger_simulate.specs.Handling.{Grows, Seated, polls_first};
ghost use Rattle.ledger_simulate.specs.Plans.{target_count};
ghost use Rattle.ledger_simulate.specs.Queue.{first_key, queued_all};
ghost use Rattle.ledger_simulate.specs.Reaching.{ExitIs, Finds, IsReached};
ghost use Rattle.ledger_simulate.specs.Results.{EndedView, ResultView, tally_shown};
ghost use Rattle.ledger_simulate.specs.Runs.{Extends, Proceeds, ResultOf, Succeeds};
ghost use Rattle.ledger_simulate.specs.Stepping.{AnsweredAt, ComesAt, Fails, Finishes, GoesOn, MeetsEnd, course_of};
ghost use Rattle.ledger_simulate.specs.Stops.{early_fault, end_of, is_late};

use crate::agenda::Agenda;
use crate::asks::check_properties;
use crate::fault::{PlanFault, Stop};
use crate::handling::handle;
use crate::meaning::Means;
use crate::plan::Plan;
use crate::reports::Reached;
use crate::simulation::{Ended, PlanResult, SimEnd, Simulation, Stepped};
use crate::spelling::write_event;
use ledger_codec::OutOfMemory;
use sha2::Digest;
use simulate_parts::EngineDefinition;

impl<'a, D: EngineDefinition> Simulation<'a, D> {
    /// Handles the first event. In this order a run is refused where no event is left, where as many events
    /// were handled as the plan allows, and where the first event is due after the timeout; and then by what
    /// the event brings. A refused call gives the run up.
    pub fn step(self) -> Result<Stepped<'a, D>, SimEnd>
        ensures on { (next : _) →
            result ≡ Ok (Stepped.On next) →
            GoesOn (⟦<Plan<D> as Means>⟧.meaning self.entry.plan.now) (course_of self.entry)
            (course_of next)
            × (next.plan ≡ self.entry.plan) }
        ensures done { (r : ResultView) →
            result ≡ Ok (Stepped.Done r) →
            Finishes (⟦<Plan<D> as Means>⟧.meaning self.entry.plan.now) (course_of self.entry) r }
        ensures fails { (e : EndedView) →
            result ≡ Err (SimEnd.Fault e) →
            Fails (⟦<Plan<D> as Means>⟧.meaning self.entry.plan.now) (course_of self.entry) e }
    {
        let plan = self.plan;
        match early(
            self.queue.first(),
            self.handled,
            plan.max_events,
            plan.timeout,
        ) {
            Some(fault) => Err(end_by(plan, self.seed, self.handled, fault)),
            None => self.advance(),
        }
    }

    /// Handles the first event, where nothing stops the run before.
    fn advance(mut self) -> Result<Stepped<'a, D>, SimEnd>
        requires early { early_fault (first_key self.queue) self.handled self.plan.now.max_events
            self.plan.now.timeout
            ≡ None }
        requires below { self.handled < self.plan.now.max_events }
        ensures late { (e : EndedView) →
            result ≡ Err (SimEnd.Fault e) →
            (IsTrue (is_late e.fault))
            × (e.handled ≡ self.entry.handled + 1)
            × (e.seed ≡ self.entry.seed)
            × (e.max_events ≡ self.entry.plan.now.max_events)
            × (e.timeout ≡ self.entry.plan.now.timeout) }
        ensures comes { (e : EndedView) →
            result ≡ Err (SimEnd.Fault e) →
            ComesAt (⟦<Plan<D> as Means>⟧.meaning self.entry.plan.now) (course_of self.entry) e.fault }
        ensures answered { (e : EndedView) →
            result ≡ Err (SimEnd.Fault e) →
            AnsweredAt (⟦<Plan<D> as Means>⟧.meaning self.entry.plan.now) (course_of self.entry) e.fault }
        ensures on { (next : _) →
            result ≡ Ok (Stepped.On next) →
            Proceeds (⟦<Plan<D> as Means>⟧.meaning self.entry.plan.now)
            (Finds (⟦<Plan<D> as Means>⟧.meaning self.entry.plan.now) self.entry.watch)
            self.entry.queue next.queue self.entry.watch next.watch self.entry.world next.world
            × (next.handled ≡ self.entry.handled + 1)
            × (next.seed ≡ self.entry.seed)
            × (next.plan ≡ self.entry.plan) }
        ensures unmet { (next : _) →
            result ≡ Ok (Stepped.On next) →
            IsTrue (polls_first self.entry.queue) →
            ExitIs (⟦<Plan<D> as Means>⟧.meaning self.entry.plan.now)
            (target_count self.entry.plan.now.participants self.entry.plan.now.crashes
            self.entry.world.exercise.delayed_started)
            (tracker_of self.entry.watch)
            (active_views D.State.height_of D.State.bytes_of self.entry.world.seats.entries) false }
        ensures started { (next : _) →
            result ≡ Ok (Stepped.On next) →
            next.world.exercise.delayed_started
            ≡ started_after self.entry.plan.now.participants self.entry.plan.now.crashes self.entry.watch
            self.entry.world.exercise.delayed_started (drop (length self.entry.watch) next.watch) }
        ensures done { (r : ResultView) →
            result ≡ Ok (Stepped.Done r) →
            Extends self.entry.watch r.updates
            × (r.handled ≡ self.entry.handled + 1)
            × (r.seed ≡ self.entry.seed)
            × (r.max_events ≡ self.entry.plan.now.max_events)
            × (r.timeout ≡ self.entry.plan.now.timeout) }
        ensures success { (r : ResultView) →
            result ≡ Ok (Stepped.Done r) →
            Succeeds (⟦<Plan<D> as Means>⟧.meaning self.entry.plan.now) r }
        ensures delayed { (r : ResultView) →
            result ≡ Ok (Stepped.Done r) →
            (count : ℕ)
            × (r.reached ≡ tracker_of (take count r.updates))
            × (r.delayed_started
            ≡ started_where self.entry.plan.now.participants self.entry.plan.now.crashes self.entry.watch
            self.entry.world.exercise.delayed_started count
            (drop (length self.entry.watch) r.updates)) }
        ensures counts { (r : ResultView) →
            result ≡ Ok (Stepped.Done r) →
            (more : _)
            × (end : MeetsEnd (⟦<Plan<D> as Means>⟧.meaning self.entry.plan.now) (course_of self.entry) more
            r.states)
            × (r.updates ≡ self.entry.watch ++ more)
            × (tally_shown r ≡ tally_of end.after.exercise)
            × (r.delayed_started ≡ end.after.exercise.delayed_started) }
        ensures reports { (r : ResultView) →
            result ≡ Ok (Stepped.Done r) →
            Seated (D.peer_of self.entry.plan.now.engine) self.entry.queue.next
            self.entry.world.seats.entries →
            Grows (D.reports self.entry.plan.now.engine) self.entry.watch r.updates }
    {
        let plan = self.plan;
        let Some(entry) = self.queue.take() else {
            return Err(SimEnd::OutOfMemory);
        };
        let (key, event) = entry;
        prove!(self.handled < plan.max_events);
        self.handled += 1;
        write_event(&mut self.state, key, &event);
        let mut agenda = Agenda::new(self.alloc, self.queue.next());
        let mut world = self.world;
        let mut watch = self.watch;
        let outcome = handle(plan, &mut world, &mut watch, &mut agenda, key, event);
        self.world = world;
        self.watch = watch;
        match outcome {
            Ok(None) => self.go_on(key.0, agenda),
            Ok(Some(reached)) => self.finish(reached),
            Err(stop) => Err(stopped(plan, self.seed, self.handled, stop)),
        }
    }

    /// Queues the events that were made, each so long after `now`.
    fn go_on(mut self, now: u64, agenda: Agenda) -> Result<Stepped<'a, D>, SimEnd>
        ensures fault { (e : EndedView) → result ≡ Err (SimEnd.Fault e) → ⊥ }
        ensures on { (next : _) →
            result ≡ Ok (Stepped.On next) →
            (next.queue ≡ queued_all self.entry.queue now agenda.events)
            × (next.watch ≡ self.entry.watch)
            × (next.world ≡ self.entry.world)
            × (next.handled ≡ self.entry.handled)
            × (next.seed ≡ self.entry.seed)
            × (next.plan ≡ self.entry.plan) }
        ensures done { (r : ResultView) → result ≡ Ok (Stepped.Done r) → ⊥ }
    {
        match self.queue.add_all(now, agenda.into_events()) {
            Ok(()) => Ok(Stepped::On(self)),
            Err(OutOfMemory) => Err(SimEnd::OutOfMemory),
        }
    }

    /// Asks the properties and looks whether each configured failure came to something.
    fn finish(self, reached: Reached) -> Result<Stepped<'a, D>, SimEnd>
        requires { IsReached (⟦<Plan<D> as Means>⟧.meaning self.plan.now)
            (target_count self.plan.now.participants self.plan.now.crashes
            self.world.exercise.delayed_started)
            self.watch reached }
        ensures late { (e : EndedView) →
            result ≡ Err (SimEnd.Fault e) →
            (IsTrue (is_late e.fault))
            × (e.handled ≡ self.entry.handled)
            × (e.seed ≡ self.entry.seed)
            × (e.max_events ≡ self.entry.plan.now.max_events)
            × (e.timeout ≡ self.entry.plan.now.timeout) }
        ensures comes { (e : EndedView) →
            result ≡ Err (SimEnd.Fault e) →
            EndComes (λ index. missed_by self.entry.world.exercise self.entry.plan.now.crashes ≡ Some index)
            self.entry.watch e.fault }
        ensures answered { (e : EndedView) →
            result ≡ Err (SimEnd.Fault e) →
            Answered (⟦<Plan<D> as Means>⟧.meaning self.entry.plan.now) (λ more states. ⊥)
            (λ more states target. ⊥)
            (EndsAt reached.states.items) self.entry.watch e.fault }
        ensures on { (next : _) → result ≡ Ok (Stepped.On next) → ⊥ }
        ensures done { (r : ResultView) →
            result ≡ Ok (Stepped.Done r) →
            (r.updates ≡ self.entry.watch)
            × (r.handled ≡ self.entry.handled)
            × (r.seed ≡ self.entry.seed)
            × (r.max_events ≡ self.entry.plan.now.max_events)
            × (r.timeout ≡ self.entry.plan.now.timeout) }
        ensures shows { (r : ResultView) →
            result ≡ Ok (Stepped.Done r) →
            (r.delayed_started ≡ self.entry.world.exercise.delayed_started)
            × (tally_shown r ≡ tally_of self.entry.world.exercise)
            × (r.reached ≡ reached.tracker)
            × (r.states ≡ reached.states.items) }
        ensures success { (r : ResultView) →
            result ≡ Ok (Stepped.Done r) →
            Succeeds (⟦<Plan<D> as Means>⟧.meaning self.entry.plan.now) r }
    {
        let plan = self.plan;
        match check_properties(
            self.alloc,
            plan.property.as_slice(),
            self.watch.tracker(),
            reached.states.as_slice(),
        ) {
            Ok(()) => {}
            Err(Stop::Fault(fault)) => return Err(end_by(plan, self.seed, self.handled, fault)),
            Err(Stop::OutOfMemory) => return Err(SimEnd::OutOfMemory),
        }
        match self.world.exercise.first_missed(plan.crashes.as_slice()) {
            Some(index) => Err(end_by(
                plan,
                self.seed,
                self.handled,
                PlanFault::NotExercised { index },
            )),
            None => Ok(Stepped::Done(self.result(reached))),
        }
    }

    /// The result of this run.
    fn result(self, reached: Reached) -> PlanResult
        ensures { ResultOf self.entry.watch self.entry.world.exercise reached self.entry.seed
            self.entry.handled self.entry.plan.now.max_events self.entry.plan.now.timeout result }
    {
        let plan = self.plan;
        let Simulation {
            plan: _,
            alloc: _,
            seed,
            handled,
            state,
            queue: _,
            world,
            watch,
        } = self;
        let exercise = world.exercise;
        PlanResult {
            state: state.finalize(),
            watch,
            reached: reached.tracker,
            states: reached.states,
            entered: exercise.entered,
            crashes: exercise.crashes,
            scheduled_actions: exercise.scheduled_actions,
            delayed_started: exercise.delayed_started,
            seed,
            handled,
            max_events: plan.max_events,
            timeout: plan.timeout,
        }
    }
}

/// The end of a run by a fault.
fn end_by<D: EngineDefinition>(plan: &Plan<D>, seed: u64, handled: u64, fault: PlanFault) -> SimEnd
    ensures { result
        ≡ SimEnd.Fault (record {
          fault = fault;
          seed = seed;
          handled = handled;
          max_events = plan.now.max_events;
          timeout = plan.now.timeout;
        }) }
{
    SimEnd::Fault(Ended {
        fault,
        seed,
        handled,
        max_events: plan.max_events,
        timeout: plan.timeout,
    })
}

/// The end of a run by a stop.
fn stopped<D: EngineDefinition>(plan: &Plan<D>, seed: u64, handled: u64, stop: Stop) -> SimEnd
    ensures { result ≡ end_of stop seed handled plan.now.max_events plan.now.timeout }
{
    match stop {
        Stop::Fault(fault) => end_by(plan, seed, handled, fault),
        Stop::OutOfMemory => SimEnd::OutOfMemory,
    }
}

/// Why a run stops before its first event is handled.
fn early(
    first: Option<(u64, u64)>,
    handled: u64,
    max_events: u64,
    timeout: Option<u64>,
) -> Option<PlanFault>
    ensures fault { result ≡ early_fault first handled max_events timeout }
    ensures below { result ≡ None → handled < max_events }
{
    let Some(key) = first else {
        return Some(PlanFault::Idle);
    };
    if handled >= max_events {
        return Some(PlanFault::EventLimit);
    }
    match timeout {
        Some(timeout) => {
            if key.0 > timeout {
                Some(PlanFault::Timeout)
            } else {
                None
            }
        }
        None => None,
    }
}
