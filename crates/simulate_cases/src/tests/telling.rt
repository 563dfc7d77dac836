//! Runs of an engine that tells which blocks it reports, and what each answer of a step says of them.

ghost use Rattle.std.specs.Prelude.{◌≡◌, ◌==◌, All, IfOk, IfSome, IsTrue, false};
ghost use Rattle.ledger_simulate.specs.Plans.{Runs};
ghost use Rattle.ledger_simulate.specs.Stops.{is_late};

use super::replays::one;
use ledger_codec::{List, OutOfMemory};
use ledger_simulate::{
    Ended, EngineDefinition, InitContext, Peer, Plan, PlanBuilder, PlanFault, PlanResult, Round,
    SimEnd, Simulation, StepEvent, StepOut, Stepped,
};
use std::alloc::Global;

/// An engine that reports a block of height 5 as it starts.
#[derive(Drop)]
struct Fives;

impl EngineDefinition for Fives {
    ghost use Rattle.std.specs.Prelude.{◌==◌, None, Some};

    type Engine = Peer;

    type State = bool;

    ghost peer_of = { λ _ engine. engine };

    ghost taking_part = { λ _. None };

    ghost carried_on = { λ _. None };

    ghost carried_size = { λ _. None };

    ghost made = { λ _ _ _. Unit {0} };

    ghost reports = { λ _. Some (λ u. u.height == 5) };

    ghost journal = { λ _. None };

    fn participants(&self, alloc: Global) -> Result<Vec<Peer>, OutOfMemory> {
        one(alloc)
    }

    fn channels(&self, alloc: Global) -> Result<Vec<u64>, OutOfMemory> {
        Ok(Vec::new(alloc))
    }

    fn max_message_size(&self) -> u32 {
        0
    }

    fn init(&self, _alloc: Global, context: &InitContext) -> Result<(Peer, bool), OutOfMemory> {
        Ok((context.public_key, true))
    }

    fn step(
        &self,
        alloc: Global,
        _engine: &mut Peer,
        _state: &mut bool,
        event: &StepEvent,
        out: &mut StepOut,
    ) -> Result<(), OutOfMemory> {
        match event {
            StepEvent::Started => {
                let round = Round { epoch: 0, view: 1 };
                out.finalize(alloc, round, 5, List::new(alloc))
            }
            _ => Ok(()),
        }
    }
}

/// A plan of it that wants this view, and allows so many events.
fn plan_for(alloc: Global, required: u64, max_events: u64) -> Result<Plan<Fives>, OutOfMemory>
    ensures runs { IfOk result (λ p. Runs p.participants p.crashes) }
    ensures limit { IfOk result (λ p. p.max_events ≡ max_events) }
{
    let builder = PlanBuilder::new(alloc, Fives)?.required_finalizations(required);
    Ok(builder.max_events(max_events).build())
}

/// The number of handled events after a step, where the run goes on.
fn handled_once(alloc: Global) -> Result<Option<u64>, OutOfMemory>
    ensures { IfOk result (λ o. IfSome o (λ n. n ≡ 1)) }
{
    let plan = plan_for(alloc, 2, 10)?;
    let run = Simulation::new(alloc, &plan, 0)?;
    match run.step() {
        Ok(Stepped::On(next)) => Ok(Some(next.handled())),
        _ => Ok(None),
    }
}

/// What a step comes to, where it ends the run: its reports are all of the height that the engine tells.
fn done_at_once(alloc: Global) -> Result<Option<PlanResult>, OutOfMemory>
    ensures { IfOk result (λ o. IfSome o (λ r. All (λ u. IsTrue (u.height == 5)) r.updates)) }
{
    let plan = plan_for(alloc, 1, 10)?;
    let run = Simulation::new(alloc, &plan, 0)?;
    match run.step() {
        Ok(Stepped::Done(ran)) => Ok(Some(ran)),
        _ => Ok(None),
    }
}

/// How a run that may handle no event ends: before its first event.
fn stopped_at_once(alloc: Global) -> Result<Option<Ended>, OutOfMemory>
    ensures { IfOk result (λ o. IfSome o (λ e. (e.handled ≡ 0) × (is_late e.fault ≡ false))) }
{
    let plan = plan_for(alloc, 1, 0)?;
    let run = Simulation::new(alloc, &plan, 0)?;
    match run.step() {
        Err(SimEnd::Fault(ended)) => Ok(Some(ended)),
        _ => Ok(None),
    }
}

/// What its run comes to: a result whose reports are all of the height that the engine tells.
fn run_fives(alloc: Global) -> Result<Option<PlanResult>, OutOfMemory>
    ensures { IfOk result (λ o. IfSome o (λ r. All (λ u. IsTrue (u.height == 5)) r.updates)) }
{
    let plan = plan_for(alloc, 1, 10)?;
    match plan.run(alloc) {
        Ok(ran) => Ok(Some(ran)),
        Err(_) => Ok(None),
    }
}

#[test]
fn reports_what_the_engine_tells(rt: HostRuntime) -> Result<(), OutOfMemory> {
    let handled = match run_fives(rt.alloc())? {
        Some(ran) => ran.handled(),
        None => 0,
    };
    assert_eq!(rt; handled, 1);
    Ok(())
}

#[test]
fn goes_on_below_the_view(rt: HostRuntime) -> Result<(), OutOfMemory> {
    assert_eq!(rt; handled_once(rt.alloc())?, Some(1));
    Ok(())
}

#[test]
fn is_done_at_the_view(rt: HostRuntime) -> Result<(), OutOfMemory> {
    assert!(rt; done_at_once(rt.alloc())?.is_some());
    Ok(())
}

#[test]
fn stops_at_the_limit(rt: HostRuntime) -> Result<(), OutOfMemory> {
    let limited = match stopped_at_once(rt.alloc())? {
        Some(ended) => matches!(ended.fault(), PlanFault::EventLimit),
        None => false,
    };
    assert!(rt; limited);
    Ok(())
}
