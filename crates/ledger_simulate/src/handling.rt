//! What an event does.
ghost use Rattle.std.specs.Prelude.{◌≡◌, ◌+◌, ◌++◌, ◌∷◌, [], IfErr, IfOk, IfSome, IsTrue, None, Ok, OnOk, Some, drop, false, is_some, length};
ghost use Rattle.simulate_parts.specs.Engine.{updates_of};
ghost use Rattle.simulate_parts.specs.Seats.{active_views, runs};
ghost use Rattle.simulate_parts.specs.Tracker.{tracker_of};
ghost use Rattle.simulate_parts.specs.declared.engine.StepOut.{StepOut};
ghost use Rattle.ledger_simulate.specs.Answering.{AnsweredIn, Asked, ComesIn, MetOn, SeesAfter, StopAnswered};
ghost use Rattle.ledger_simulate.specs.Causes.{stops_asked};
ghost use Rattle.ledger_simulate.specs.Delays.{started_by};
ghost use Rattle.ledger_simulate.specs.Handling.{StepsEngine, Handles, ChangesEngines, HandlesAtEngine, birth_at, is_poll, told_by};
ghost use Rattle.ledger_simulate.specs.Plans.{target_count};
ghost use Rattle.ledger_simulate.specs.Reaching.{ExitIs, Finds, IsReached};
ghost use Rattle.ledger_simulate.specs.Runs.{Extends};
ghost use Rattle.ledger_simulate.specs.Stops.{stops_late};
ghost use Rattle.ledger_simulate.specs.declared.event.Event.TheVariants.{ExitPoll};

use crate::agenda::Agenda;
use crate::event::Event;
use crate::fault::Stop;
use crate::meaning::Means;
use crate::messages::{send_all, set_timers};
use crate::opening::EXIT_POLL;
use crate::plan::Plan;
use crate::reports::{Reached, ask, reports_of, take_reports};
use crate::watch::Watch;
use crate::world::World;
use ledger_codec::{List, OutOfMemory};
use simulate_parts::{
    EngineDefinition, FinalizationUpdate, Peer, StateView, StepEvent, StepOut, active_states,
    is_current, step_engine,
};

/// Handles one event.
pub fn handle<D: EngineDefinition>(
    plan: &Plan<D>,
    world: &mut World<D>,
    watch: &mut Watch,
    agenda: &mut Agenda,
    key: (u64, u64),
    event: Event,
) -> Result<Option<Reached>, Stop>
    ensures handled { IfOk result (λ o.
        Handles (⟦<Plan<D> as Means>⟧.meaning plan.now)
        (Finds (⟦<Plan<D> as Means>⟧.meaning plan.now) watch.old)
        o key event agenda.old agenda.new watch.old watch.new world.old world.new) }
    ensures updates { OnOk result (Extends watch.old watch.new) }
    ensures reached { IfOk result (λ o.
        IfSome o (λ r.
        IsReached (⟦<Plan<D> as Means>⟧.meaning plan.now)
        (target_count plan.now.participants plan.now.crashes world.new.exercise.delayed_started)
        watch.new r)) }
    ensures started { IfOk result (λ o.
        world.new.exercise.delayed_started
        ≡ started_by plan.now.participants plan.now.crashes watch.old world.old.exercise.delayed_started
        (drop (length watch.old) watch.new) o) }
    ensures seen { IfOk result (λ o.
        IfSome o (MetOn
        (Asked (⟦<Plan<D> as Means>⟧.meaning plan.now)
        (Finds (⟦<Plan<D> as Means>⟧.meaning plan.now) watch.old)
        (told_by key event) (is_poll event) agenda.old world.old)
        watch.old)) }
    ensures answers { IfOk result (λ o.
        IsTrue (is_poll event) →
        ExitIs (⟦<Plan<D> as Means>⟧.meaning plan.now)
        (target_count plan.now.participants plan.now.crashes world.old.exercise.delayed_started)
        (tracker_of watch.old) (active_views D.State.height_of D.State.bytes_of world.old.seats.entries)
        (is_some o)) }
    ensures comes { IfErr result
        (ComesIn (⟦<Plan<D> as Means>⟧.meaning plan.now) (told_by key event) agenda.old watch.old
        world.old) }
    ensures answered { IfErr result
        (AnsweredIn (⟦<Plan<D> as Means>⟧.meaning plan.now) (told_by key event) (is_poll event) agenda.old
        watch.old world.old) }
    ensures late { IfErr result (λ s. IsTrue (stops_late s)) }
{
    match event {
        Event::Started { pk } => step_at(plan, world, watch, agenda, Told::start(pk, key.1)),
        Event::Timer { pk, birth } => {
            step_at(plan, world, watch, agenda, Told::timer(pk, birth, key.0))
        }
        Event::Received {
            from,
            to,
            channel,
            bytes,
        } => {
            let told = Told::message(from, to, channel, bytes);
            step_at(plan, world, watch, agenda, told)
        }
        Event::ExitPoll => poll(plan, world, watch, agenda),
        Event::Act(action) => unless_short(world.act(plan, agenda, action)),
        Event::CrashTick => unless_short(world.crash_at_random(plan, agenda)),
        Event::Recover { pk } => unless_short(world.relaunch(plan, agenda, pk)),
    }
}

/// What an engine of a peer is told, if it is the one that was started under the number `birth`, or
/// whichever runs.
#[derive(Drop)]
struct Told {
    pk: Peer,
    birth: Option<u64>,
    event: StepEvent,
}

impl Told {
    /// An engine's start, to the one that was started under this number.
    fn start(pk: Peer, number: u64) -> Self
        ensures { result ≡ record { pk = pk; birth = Some number; event = StepEvent.Started } }
    {
        Told {
            pk,
            birth: Some(number),
            event: StepEvent::Started,
        }
    }

    /// The end of a timer of the engine of this birth.
    fn timer(pk: Peer, birth: u64, at: u64) -> Self
        ensures { result ≡ record { pk = pk; birth = Some birth; event = StepEvent.Timer at } }
    {
        Told {
            pk,
            birth: Some(birth),
            event: StepEvent::Timer { at },
        }
    }

    /// A message, to whichever engine of its receiver runs.
    fn message(from: Peer, to: Peer, channel: u64, bytes: List<u8>) -> Self
        ensures { result ≡ record { pk = to; birth = None; event = StepEvent.Received from channel bytes } }
    {
        Told {
            pk: to,
            birth: None,
            event: StepEvent::Received {
                from,
                channel,
                bytes,
            },
        }
    }
}

/// The run goes on, unless memory was wanting.
fn unless_short(done: Result<(), OutOfMemory>) -> Result<Option<Reached>, Stop>
    ensures on { OnOk result (done ≡ Ok tt) }
    ensures none { IfOk result (λ o. o ≡ None) }
    ensures short { IfErr result (λ s. s ≡ Stop.OutOfMemory) }
    ensures late { IfErr result (λ s. IsTrue (stops_late s)) }
{
    match done {
        Ok(()) => Ok(None),
        Err(OutOfMemory) => Err(Stop::OutOfMemory),
    }
}

/// Sets the poll again, and gives the states of now.
fn polled_states<D: EngineDefinition>(
    world: &World<D>,
    agenda: &mut Agenda,
) -> Result<Vec<StateView>, OutOfMemory>
    ensures made { OnOk result
        (agenda.new ≡ record agenda.old { events = agenda.old.events ++ (25, ExitPoll) ∷ [] }) }
    ensures views { IfOk result
        (λ states. states.items ≡ active_views D.State.height_of D.State.bytes_of world.now.seats.entries) }
{
    agenda.after(EXIT_POLL, Event::ExitPoll)?;
    active_states(world.alloc, &world.seats)
}

/// Asks the exit condition without a report, and sets the poll again.
fn poll<D: EngineDefinition>(
    plan: &Plan<D>,
    world: &World<D>,
    watch: &Watch,
    agenda: &mut Agenda,
) -> Result<Option<Reached>, Stop>
    ensures changes { OnOk result
        (ChangesEngines (D.peer_of plan.now.engine) agenda.old agenda.new world.now world.now) }
    ensures reached { IfOk result (λ o.
        IfSome o (λ r.
        IsReached (⟦<Plan<D> as Means>⟧.meaning plan.now)
        (target_count plan.now.participants plan.now.crashes world.now.exercise.delayed_started)
        watch.now r)) }
    ensures seen { IfOk result (λ o.
        IfSome o (λ r.
        (r.count ≡ length watch.now)
        × (r.states.items ≡ active_views D.State.height_of D.State.bytes_of world.now.seats.entries))) }
    ensures answers { IfOk result (λ o.
        ExitIs (⟦<Plan<D> as Means>⟧.meaning plan.now)
        (target_count plan.now.participants plan.now.crashes world.now.exercise.delayed_started)
        (tracker_of watch.now) (active_views D.State.height_of D.State.bytes_of world.now.seats.entries)
        (is_some o)) }
    ensures asked { IfErr result (λ s. IsTrue (stops_asked s)) }
    ensures answered { IfErr result (StopAnswered (⟦<Plan<D> as Means>⟧.meaning plan.now) (λ more states. ⊥)
        (λ more states target.
        (more ≡ [])
        × (states ≡ active_views D.State.height_of D.State.bytes_of world.now.seats.entries)
        × (target
        ≡ target_count plan.now.participants plan.now.crashes world.now.exercise.delayed_started))
        (λ more states. ⊥) watch.now) }
    ensures late { IfErr result (λ s. IsTrue (stops_late s)) }
{
    match polled_states(world, agenda) {
        Ok(states) => ask(plan, world, watch, states),
        Err(OutOfMemory) => Err(Stop::OutOfMemory),
    }
}

/// The birth of a peer's engine that an event is for: the one that was started under this number, or
/// whichever runs.
fn addressed<D: EngineDefinition>(world: &World<D>, pk: &Peer, birth: Option<u64>) -> Option<u64>
    ensures { result ≡ birth_at world.now.seats.entries pk.now birth }
{
    match birth {
        Some(birth) => {
            if is_current(&world.seats, pk, birth) {
                Some(birth)
            } else {
                None
            }
        }
        None => birth_of(world, pk),
    }
}

/// The birth of a peer's engine, where it runs.
fn birth_of<D: EngineDefinition>(world: &World<D>, pk: &Peer) -> Option<u64>
    ensures { result ≡ birth_at world.now.seats.entries pk.now None }
{
    match world.seats.get(pk) {
        Some(seat) => match &seat.running {
            Some(running) => Some(running.birth),
            None => None,
        },
        None => None,
    }
}

/// Steps the engine that an event is for, where it still runs, and lets loose what it gives.
fn step_at<D: EngineDefinition>(
    plan: &Plan<D>,
    world: &mut World<D>,
    watch: &mut Watch,
    agenda: &mut Agenda,
    told: Told,
) -> Result<Option<Reached>, Stop>
    ensures told { IfOk result (λ o.
        HandlesAtEngine (⟦<Plan<D> as Means>⟧.meaning plan.now)
        (Finds (⟦<Plan<D> as Means>⟧.meaning plan.now) watch.old)
        o told.pk told.birth told.event agenda.old agenda.new watch.old watch.new world.old world.new) }
    ensures updates { OnOk result (Extends watch.old watch.new) }
    ensures reached { IfOk result (λ o.
        IfSome o (λ r.
        IsReached (⟦<Plan<D> as Means>⟧.meaning plan.now)
        (target_count plan.now.participants plan.now.crashes world.new.exercise.delayed_started)
        watch.new r)) }
    ensures started { IfOk result (λ o.
        world.new.exercise.delayed_started
        ≡ started_by plan.now.participants plan.now.crashes watch.old world.old.exercise.delayed_started
        (drop (length watch.old) watch.new) o) }
    ensures seen { IfOk result (λ o.
        IfSome o (MetOn
        (SeesAfter (⟦<Plan<D> as Means>⟧.meaning plan.now)
        (Finds (⟦<Plan<D> as Means>⟧.meaning plan.now) watch.old)
        (Some (told.pk, told.birth, told.event)) agenda.old world.old)
        watch.old)) }
    ensures comes { IfErr result
        (ComesIn (⟦<Plan<D> as Means>⟧.meaning plan.now) (Some (told.pk, told.birth, told.event))
        agenda.old watch.old world.old) }
    ensures answered { IfErr result
        (AnsweredIn (⟦<Plan<D> as Means>⟧.meaning plan.now) (Some (told.pk, told.birth, told.event))
        false agenda.old watch.old world.old) }
    ensures late { IfErr result (λ s. IsTrue (stops_late s)) }
{
    let Told { pk, birth, event } = told;
    let Some(birth) = addressed(world, &pk, birth) else {
        return Ok(None);
    };
    match step_and_send(plan, world, agenda, pk, birth, event) {
        Ok(updates) => take_reports(plan, world, watch, agenda, updates),
        Err(OutOfMemory) => Err(Stop::OutOfMemory),
    }
}

/// Steps an engine, sets its timers, sends its messages, and gives its reports.
fn step_and_send<D: EngineDefinition>(
    plan: &Plan<D>,
    world: &mut World<D>,
    agenda: &mut Agenda,
    pk: Peer,
    birth: u64,
    event: StepEvent,
) -> Result<Vec<FinalizationUpdate>, OutOfMemory>
    requires { IsTrue (runs world.old.seats.entries pk) }
    ensures { IfOk result (λ updates.
        (out : StepOut)
        × StepsEngine (⟦<Plan<D> as Means>⟧.meaning plan.now) pk birth
        event out agenda.old agenda.new world.old world.new
        × (updates.items ≡ updates_of pk out.finalized)) }
{
    let mut out = StepOut::new(world.alloc);
    let stepped = step_engine(
        world.alloc,
        &plan.engine,
        &mut world.seats,
        &pk,
        &event,
        &mut out,
    )?;
    if !stepped {
        unreachable!();
    }
    let StepOut {
        timers,
        messages,
        finalized,
    } = out;
    set_timers(agenda, pk, birth, timers.as_slice())?;
    send_all(
        &world.rules,
        &world.links,
        &mut world.words,
        &world.seats,
        agenda,
        pk,
        messages.into_vec(),
    )?;
    reports_of(world.alloc, pk, finalized.into_vec())
}
