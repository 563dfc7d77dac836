//! What the reports of a step set off.
ghost use Rattle.std.specs.Prelude.{◌≡◌, ◌++◌, ◌∷◌, ◌||◌, [], IfErr, IfOk, IfSome, IsTrue, MatchOption, None, Some, OnOk, is_some, length};
ghost use Rattle.simulate_parts.specs.Engine.{updates_of};
ghost use Rattle.simulate_parts.specs.Seats.{active_views};
ghost use Rattle.simulate_parts.specs.Tracker.{tracker_of};
ghost use Rattle.ledger_simulate.specs.Answering.{IsComplaint, IsFailure, MetOn, Sees, StopAnswered};
ghost use Rattle.ledger_simulate.specs.Causes.{SkipsAmong, StopComes, stops_asked};
ghost use Rattle.ledger_simulate.specs.Delays.{started_by, starts, target_at};
ghost use Rattle.ledger_simulate.specs.Failures.{first_passed, standing_of, views_checked};
ghost use Rattle.ledger_simulate.specs.Handling.{ChangesEnginesAlone, TriggersFailures, TriggersFailuresEach, count_setting_off};
ghost use Rattle.ledger_simulate.specs.Plans.{target_count};
ghost use Rattle.ledger_simulate.specs.Reaching.{ExitIs, Finds, IsReached, Sound};
ghost use Rattle.ledger_simulate.specs.Stops.{stops_late};

use crate::agenda::Agenda;
use crate::asks::{ask_exit, check_finalizations};
use crate::fault::Stop;
use crate::meaning::Means;
use crate::plan::Plan;
use crate::watch::Watch;
use crate::world::World;
use ledger_codec::{List, OutOfMemory};
use simulate_parts::{
    EngineDefinition, FinalizationUpdate, Peer, ProgressTracker, Round, StateView, active_states,
};
use std::alloc::Global;

/// Where the exit condition answered true: the tracker and the states of that moment, and how many reports
/// the tracker is of.
#[derive(Drop)]
pub struct Reached {
    pub tracker: ProgressTracker,
    pub count: usize,
    pub states: Vec<StateView>,
}

/// The reports of an engine's output.
pub fn reports_of(
    alloc: Global,
    pk: Peer,
    finalized: Vec<(Round, u64, List<u8>)>,
) -> Result<Vec<FinalizationUpdate>, OutOfMemory>
    ensures { IfOk result (λ updates. updates.items ≡ updates_of pk finalized.items) }
{
    let mut updates = Vec::new(alloc);
    for block in finalized {
        let (round, height, block_digest) = block;
        updates.push(FinalizationUpdate {
            pk,
            round,
            height,
            block_digest,
        })?;
    }
    Ok(updates)
}

/// Asks the exit condition on the reports so far and these states.
pub fn ask<D: EngineDefinition>(
    plan: &Plan<D>,
    world: &World<D>,
    watch: &Watch,
    states: Vec<StateView>,
) -> Result<Option<Reached>, Stop>
    ensures reached { IfOk result (λ o.
        IfSome o (λ r.
        IsReached (⟦<Plan<D> as Means>⟧.meaning plan.now)
        (target_count plan.now.participants plan.now.crashes world.now.exercise.delayed_started)
        watch.now r)) }
    ensures answers { IfOk result (λ o.
        ExitIs (⟦<Plan<D> as Means>⟧.meaning plan.now)
        (target_count plan.now.participants plan.now.crashes world.now.exercise.delayed_started)
        (tracker_of watch.now) states.items (is_some o)) }
    ensures count { IfOk result (λ o. IfSome o (λ r. r.count ≡ length watch.now)) }
    ensures states { IfOk result (λ o. IfSome o (λ r. r.states ≡ states)) }
    ensures asked { IfErr result (λ s. IsTrue (stops_asked s)) }
    ensures fails { IfErr result (IsFailure (λ c. exit_name c) (λ c. exit_verdict c) plan.now.exit_condition
        (tracker_of watch.now) states.items
        (target_count plan.now.participants plan.now.crashes world.now.exercise.delayed_started)) }
    ensures late { IfErr result (λ s. IsTrue (stops_late s)) }
{
    match ask_exit(
        world.alloc,
        plan,
        watch.tracker(),
        states.as_slice(),
        world.target(plan),
    ) {
        Ok(true) => {}
        Ok(false) => return Ok(None),
        Err(stop) => return Err(stop),
    }
    let count = watch.updates().len();
    match ProgressTracker::of(world.alloc, watch.updates()) {
        Ok(tracker) => Ok(Some(Reached {
            tracker,
            count,
            states,
        })),
        Err(_) => Err(Stop::OutOfMemory),
    }
}

/// Observes a report before the exit condition is reached, with all that it sets off.
fn take_report<D: EngineDefinition>(
    plan: &Plan<D>,
    world: &mut World<D>,
    watch: &mut Watch,
    agenda: &mut Agenda,
    update: FinalizationUpdate,
) -> Result<Option<Reached>, Stop>
    ensures changes_alone { OnOk result
        (ChangesEnginesAlone (D.peer_of plan.now.engine) agenda.old agenda.new world.old world.new) }
    ensures sets_off { IfOk result (λ o.
        TriggersFailures (⟦<Plan<D> as Means>⟧.meaning plan.now)
        (Finds (⟦<Plan<D> as Means>⟧.meaning plan.now) watch.old
        (update ∷ []) (is_some o))
        agenda.old agenda.new world.old world.new) }
    ensures updates { OnOk result (watch.new ≡ watch.old ++ update ∷ []) }
    ensures reached { IfOk result (λ o.
        IfSome o (λ r.
        IsReached (⟦<Plan<D> as Means>⟧.meaning plan.now)
        (target_count plan.now.participants plan.now.crashes world.new.exercise.delayed_started)
        watch.new r)) }
    ensures started { IfOk result (λ o.
        o ≡ None →
        world.new.exercise.delayed_started
        ≡ (world.old.exercise.delayed_started
        || starts plan.now.participants plan.now.crashes (tracker_of watch.new))) }
    ensures met { IfOk result (λ o.
        IfSome o (λ r.
        (world.new.exercise.delayed_started ≡ world.old.exercise.delayed_started)
        × (r.count ≡ length watch.new))) }
    ensures sound { IfOk result (λ o.
        IfSome o (λ r.
        Sound (⟦<Plan<D> as Means>⟧.meaning plan.now) world.new.seats.entries)) }
    ensures states { IfOk result (λ o.
        IfSome o (λ r.
        r.states.items ≡ views_checked D.State.height_of D.State.bytes_of plan.now.crashes world.old)) }
    ensures comes { IfErr result (StopComes (λ more u. (more ≡ []) × (u ≡ update))
        (λ h. first_passed D.State.height_of 0 plan.now.crashes (standing_of world.old) ≡ Some h)
        watch.old) }
    ensures answered { IfErr result (StopAnswered (⟦<Plan<D> as Means>⟧.meaning plan.now)
        (λ more states.
        (more ≡ update ∷ [])
        × (states ≡ views_checked D.State.height_of D.State.bytes_of plan.now.crashes world.old))
        (λ more states target.
        (more ≡ update ∷ [])
        × (states ≡ views_checked D.State.height_of D.State.bytes_of plan.now.crashes world.old)
        × (target
        ≡ target_count plan.now.participants plan.now.crashes world.old.exercise.delayed_started))
        (λ more states. ⊥) watch.old) }
    ensures late { IfErr result (λ s. IsTrue (stops_late s)) }
{
    match watch.observe(update) {
        Ok(()) => {}
        Err(stop) => return Err(stop),
    }
    match world.enter_windows(plan, agenda) {
        Ok(()) => {}
        Err(stop) => return Err(stop),
    }
    match check_and_ask(plan, world, watch) {
        Ok(Some(reached)) => Ok(Some(reached)),
        Ok(None) => match world.start_delayed(plan, agenda, watch.tracker()) {
            Ok(()) => Ok(None),
            Err(OutOfMemory) => Err(Stop::OutOfMemory),
        },
        Err(stop) => Err(stop),
    }
}

/// Checks the states of now.
fn check_now<D: EngineDefinition>(plan: &Plan<D>, world: &World<D>) -> Result<Vec<StateView>, Stop>
    ensures views { IfOk result
        (λ states. states.items ≡ active_views D.State.height_of D.State.bytes_of world.now.seats.entries) }
    ensures asked { IfErr result (λ s. IsTrue (stops_asked s)) }
    ensures sound { OnOk result (Sound (⟦<Plan<D> as Means>⟧.meaning plan.now) world.now.seats.entries) }
    ensures complains { IfErr result (IsComplaint (λ p. finalization_name p) (λ p. finalization_complaint p)
        plan.now.finalization_property
        (active_views D.State.height_of D.State.bytes_of world.now.seats.entries)) }
    ensures late { IfErr result (λ s. IsTrue (stops_late s)) }
{
    let states = match active_states(world.alloc, &world.seats) {
        Ok(states) => states,
        Err(OutOfMemory) => return Err(Stop::OutOfMemory),
    };
    match check_finalizations(
        world.alloc,
        plan.finalization_property.as_slice(),
        states.as_slice(),
    ) {
        Ok(()) => Ok(states),
        Err(stop) => Err(stop),
    }
}

/// Checks the states of now, and asks the exit condition on them.
fn check_and_ask<D: EngineDefinition>(
    plan: &Plan<D>,
    world: &World<D>,
    watch: &Watch,
) -> Result<Option<Reached>, Stop>
    ensures reached { IfOk result (λ o.
        IfSome o (λ r.
        IsReached (⟦<Plan<D> as Means>⟧.meaning plan.now)
        (target_count plan.now.participants plan.now.crashes world.now.exercise.delayed_started)
        watch.now r)) }
    ensures answers { IfOk result (λ o.
        ExitIs (⟦<Plan<D> as Means>⟧.meaning plan.now)
        (target_count plan.now.participants plan.now.crashes world.now.exercise.delayed_started)
        (tracker_of watch.now) (active_views D.State.height_of D.State.bytes_of world.now.seats.entries)
        (is_some o)) }
    ensures count { IfOk result (λ o. IfSome o (λ r. r.count ≡ length watch.now)) }
    ensures sound { OnOk result (Sound (⟦<Plan<D> as Means>⟧.meaning plan.now) world.now.seats.entries) }
    ensures states { IfOk result (λ o.
        IfSome o (λ r.
        r.states.items ≡ active_views D.State.height_of D.State.bytes_of world.now.seats.entries)) }
    ensures asked { IfErr result (λ s. IsTrue (stops_asked s)) }
    ensures answered { IfErr result (StopAnswered (⟦<Plan<D> as Means>⟧.meaning plan.now)
        (λ more states.
        (more ≡ [])
        × (states ≡ active_views D.State.height_of D.State.bytes_of world.now.seats.entries))
        (λ more states target.
        (more ≡ [])
        × (states ≡ active_views D.State.height_of D.State.bytes_of world.now.seats.entries)
        × (target
        ≡ target_count plan.now.participants plan.now.crashes world.now.exercise.delayed_started))
        (λ more states. ⊥) watch.now) }
    ensures late { IfErr result (λ s. IsTrue (stops_late s)) }
{
    match check_now(plan, world) {
        Ok(states) => ask(plan, world, watch, states),
        Err(stop) => Err(stop),
    }
}

/// Observes a report after the exit condition was reached.
fn drain_report<D: EngineDefinition>(
    plan: &Plan<D>,
    world: &World<D>,
    watch: &mut Watch,
    update: FinalizationUpdate,
) -> Result<(), Stop>
    ensures updates { OnOk result (watch.new ≡ watch.old ++ update ∷ []) }
    ensures comes { IfErr result (StopComes (λ more u. (more ≡ []) × (u ≡ update)) (λ h. ⊥) watch.old) }
    ensures answered { IfErr result (StopAnswered (⟦<Plan<D> as Means>⟧.meaning plan.now)
        (λ more states.
        (more ≡ update ∷ [])
        × (states ≡ active_views D.State.height_of D.State.bytes_of world.now.seats.entries))
        (λ more states target. ⊥) (λ more states. ⊥) watch.old) }
    ensures late { IfErr result (λ s. IsTrue (stops_late s)) }
{
    match watch.observe(update) {
        Ok(()) => {}
        Err(stop) => return Err(stop),
    }
    let _seen = match check_now(plan, world) {
        Ok(states) => states,
        Err(stop) => return Err(stop),
    };
    Ok(())
}

/// Observes the next report.
fn next_report<D: EngineDefinition>(
    plan: &Plan<D>,
    world: &mut World<D>,
    watch: &mut Watch,
    agenda: &mut Agenda,
    reached: Option<Reached>,
    update: FinalizationUpdate,
) -> Result<Option<Reached>, Stop>
    requires reached { IfSome reached (λ r.
        IsReached (⟦<Plan<D> as Means>⟧.meaning plan.now)
        (target_count plan.now.participants plan.now.crashes world.old.exercise.delayed_started)
        watch.old r) }
    requires sound { IfSome reached (λ r.
        Sound (⟦<Plan<D> as Means>⟧.meaning plan.now) world.old.seats.entries) }
    ensures changes_alone { OnOk result
        (ChangesEnginesAlone (D.peer_of plan.now.engine) agenda.old agenda.new world.old world.new) }
    ensures sets_off { IfOk result (λ o.
        MatchOption reached
        (TriggersFailures (⟦<Plan<D> as Means>⟧.meaning plan.now)
        (Finds (⟦<Plan<D> as Means>⟧.meaning plan.now) watch.old
        (update ∷ []) (is_some o))
        agenda.old agenda.new world.old world.new)
        (λ q. (agenda.new ≡ agenda.old) × (world.new ≡ world.old))) }
    ensures updates { OnOk result (watch.new ≡ watch.old ++ update ∷ []) }
    ensures reached { IfOk result (λ o.
        IfSome o (λ r.
        IsReached (⟦<Plan<D> as Means>⟧.meaning plan.now)
        (target_count plan.now.participants plan.now.crashes world.new.exercise.delayed_started)
        watch.new r)) }
    ensures started { IfOk result (λ o.
        o ≡ None →
        (reached ≡ None)
        × (world.new.exercise.delayed_started
        ≡ (world.old.exercise.delayed_started
        || starts plan.now.participants plan.now.crashes (tracker_of watch.new)))) }
    ensures met { IfOk result (λ o.
        IfSome o (λ r.
        (world.new.exercise.delayed_started ≡ world.old.exercise.delayed_started)
        × MatchOption reached (r.count ≡ length watch.new) (λ q. r.count ≡ q.count))) }
    ensures sound { IfOk result (λ o.
        IfSome o (λ r.
        Sound (⟦<Plan<D> as Means>⟧.meaning plan.now) world.new.seats.entries)) }
    ensures states { IfOk result (λ o.
        IfSome o (λ r.
        MatchOption reached
        (r.states.items
        ≡ views_checked D.State.height_of D.State.bytes_of plan.now.crashes world.old)
        (λ q. r.states.items ≡ q.states.items))) }
    ensures comes { IfErr result (StopComes (λ more u. (more ≡ []) × (u ≡ update))
        (λ h.
        (reached ≡ None)
        × (first_passed D.State.height_of 0 plan.now.crashes (standing_of world.old) ≡ Some h))
        watch.old) }
    ensures answered { IfErr result (StopAnswered (⟦<Plan<D> as Means>⟧.meaning plan.now)
        (λ more states.
        (reached ≡ None)
        × (more ≡ update ∷ [])
        × (states ≡ views_checked D.State.height_of D.State.bytes_of plan.now.crashes world.old))
        (λ more states target.
        (reached ≡ None)
        × (more ≡ update ∷ [])
        × (states ≡ views_checked D.State.height_of D.State.bytes_of plan.now.crashes world.old)
        × (target
        ≡ target_count plan.now.participants plan.now.crashes world.old.exercise.delayed_started))
        (λ more states. ⊥) watch.old) }
    ensures late { IfErr result (λ s. IsTrue (stops_late s)) }
{
    match reached {
        None => take_report(plan, world, watch, agenda, update),
        Some(reached) => match drain_report(plan, world, watch, update) {
            Ok(()) => Ok(Some(reached)),
            Err(stop) => Err(stop),
        },
    }
}

/// Observes the reports of a step, in order. Once the exit condition is reached the others are only
/// observed and checked.
pub fn take_reports<D: EngineDefinition>(
    plan: &Plan<D>,
    world: &mut World<D>,
    watch: &mut Watch,
    agenda: &mut Agenda,
    updates: Vec<FinalizationUpdate>,
) -> Result<Option<Reached>, Stop>
    ensures changes_alone { OnOk result
        (ChangesEnginesAlone (D.peer_of plan.now.engine) agenda.old agenda.new world.old world.new) }
    ensures set_off { IfOk result (λ o.
        TriggersFailuresEach (⟦<Plan<D> as Means>⟧.meaning plan.now)
        (Finds (⟦<Plan<D> as Means>⟧.meaning plan.now) watch.old)
        updates.items (is_some o) (count_setting_off watch.old updates.items o) agenda.old agenda.new
        world.old world.new) }
    ensures updates { OnOk result (watch.new ≡ watch.old ++ updates.items) }
    ensures reached { IfOk result (λ o.
        IfSome o (λ r.
        IsReached (⟦<Plan<D> as Means>⟧.meaning plan.now)
        (target_count plan.now.participants plan.now.crashes world.new.exercise.delayed_started)
        watch.new r)) }
    ensures started { IfOk result (λ o.
        world.new.exercise.delayed_started
        ≡ started_by plan.now.participants plan.now.crashes watch.old world.old.exercise.delayed_started
        updates.items o) }
    ensures seen { IfOk result (λ o.
        IfSome o (MetOn
        (Sees (⟦<Plan<D> as Means>⟧.meaning plan.now)
        (Finds (⟦<Plan<D> as Means>⟧.meaning plan.now) watch.old)
        agenda.old world.old updates.items)
        watch.old)) }
    ensures comes { IfErr result (StopComes (λ more u. (rest : _) × (updates.items ≡ more ++ u ∷ rest))
        (SkipsAmong (⟦<Plan<D> as Means>⟧.meaning plan.now)
        (Finds (⟦<Plan<D> as Means>⟧.meaning plan.now) watch.old)
        updates.items agenda.old world.old)
        watch.old) }
    ensures answered { IfErr result (StopAnswered (⟦<Plan<D> as Means>⟧.meaning plan.now)
        (Sees (⟦<Plan<D> as Means>⟧.meaning plan.now)
        (Finds (⟦<Plan<D> as Means>⟧.meaning plan.now) watch.old)
        agenda.old world.old updates.items)
        (λ more states target.
        Sees (⟦<Plan<D> as Means>⟧.meaning plan.now)
        (Finds (⟦<Plan<D> as Means>⟧.meaning plan.now) watch.old)
        agenda.old world.old updates.items more states
        × (target
        ≡ target_at plan.now.participants plan.now.crashes watch.old
        world.old.exercise.delayed_started more))
        (λ more states. ⊥) watch.old) }
    ensures late { IfErr result (λ s. IsTrue (stops_late s)) }
{
    let mut reached = None;
    for update in updates {
        match next_report(plan, world, watch, agenda, reached, update) {
            Ok(next) => reached = next,
            Err(stop) => return Err(stop),
        }
    }
    Ok(reached)
}
