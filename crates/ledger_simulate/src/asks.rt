//! Asking the checks of a plan.
ghost use Rattle.std.specs.Prelude.{◌≡◌, All, IfErr, IfOk, IsTrue, MatchOption, None, Ok, OnOk};
ghost use Rattle.simulate_parts.specs.Checks.{reached_by_all};
ghost use Rattle.ledger_simulate.specs.Answering.{IsComplaint, IsFailure, IsObjection};
ghost use Rattle.ledger_simulate.specs.Causes.{stops_asked};
ghost use Rattle.ledger_simulate.specs.Reaching.{ExitIs};
ghost use Rattle.ledger_simulate.specs.Stops.{IsExitFault, IsFinalizationFault, IsPropertyFault, stops_late};

use crate::fault::{PlanFault, Stop};
use crate::meaning::Means;
use crate::plan::Plan;
use ledger_codec::{OutOfMemory, Text};
use simulate_parts::{
    CheckFault, EngineDefinition, ExitCondition, FinalizationProperty, ProgressTracker, Property,
    StateView,
};
use std::alloc::Global;

/// A copy of a text.
fn copy_text(alloc: Global, text: &str) -> Result<Text, OutOfMemory>
    ensures { IfOk result (λ copy. copy ≡ text.now) }
{
    Ok(Text::from_string(String::from_str(alloc, text)?))
}

/// Asks one property of the end.
fn check_property(
    alloc: Global,
    property: &Box<dyn Property>,
    tracker: &ProgressTracker,
    states: &[StateView],
) -> Result<(), Stop>
    ensures ok { OnOk result (property_complaint property.now tracker.now states.now ≡ None) }
    ensures err { IfErr result (IsPropertyFault (property_name property.now)
        (property_complaint property.now tracker.now states.now)) }
    ensures asked { IfErr result (λ s. IsTrue (stops_asked s)) }
    ensures late { IfErr result (λ s. IsTrue (stops_late s)) }
{
    match property.check(tracker, states) {
        Ok(()) => Ok(()),
        Err(CheckFault::Failed(text)) => match copy_text(alloc, property.name()) {
            Ok(name) => Err(Stop::Fault(PlanFault::Property { name, text })),
            Err(OutOfMemory) => Err(Stop::OutOfMemory),
        },
        Err(CheckFault::OutOfMemory) => Err(Stop::OutOfMemory),
    }
}

/// Asks the properties of the end, in order, up to the first that isn't answered with Ok.
pub fn check_properties(
    alloc: Global,
    properties: &[Box<dyn Property>],
    tracker: &ProgressTracker,
    states: &[StateView],
) -> Result<(), Stop>
    ensures ok { OnOk result
        (All (λ p. property_complaint p tracker.now states.now ≡ None) properties.now) }
    ensures objects { IfErr result (IsObjection (λ p. property_name p) (λ p. property_complaint p)
        properties.now tracker.now states.now) }
    ensures asked { IfErr result (λ s. IsTrue (stops_asked s)) }
    ensures late { IfErr result (λ s. IsTrue (stops_late s)) }
{
    for property in properties {
        match check_property(alloc, property, tracker, states) {
            Ok(()) => {}
            Err(stop) => return Err(stop),
        }
    }
    Ok(())
}

/// Asks one property of the states at a report.
fn check_finalization(
    alloc: Global,
    property: &Box<dyn FinalizationProperty>,
    states: &[StateView],
) -> Result<(), Stop>
    ensures ok { OnOk result (finalization_complaint property.now states.now ≡ None) }
    ensures err { IfErr result (IsFinalizationFault (finalization_name property.now)
        (finalization_complaint property.now states.now)) }
    ensures asked { IfErr result (λ s. IsTrue (stops_asked s)) }
    ensures late { IfErr result (λ s. IsTrue (stops_late s)) }
{
    match property.check(states) {
        Ok(()) => Ok(()),
        Err(CheckFault::Failed(text)) => match copy_text(alloc, property.name()) {
            Ok(name) => Err(Stop::Fault(PlanFault::FinalizationProperty { name, text })),
            Err(OutOfMemory) => Err(Stop::OutOfMemory),
        },
        Err(CheckFault::OutOfMemory) => Err(Stop::OutOfMemory),
    }
}

/// Asks the properties of the states at a report, in order, up to the first that isn't answered with Ok.
pub fn check_finalizations(
    alloc: Global,
    properties: &[Box<dyn FinalizationProperty>],
    states: &[StateView],
) -> Result<(), Stop>
    ensures ok { OnOk result (All (λ p. finalization_complaint p states.now ≡ None) properties.now) }
    ensures complains { IfErr result
        (IsComplaint (λ p. finalization_name p) (λ p. finalization_complaint p) properties.now states.now) }
    ensures asked { IfErr result (λ s. IsTrue (stops_asked s)) }
    ensures late { IfErr result (λ s. IsTrue (stops_late s)) }
{
    for property in properties {
        match check_finalization(alloc, property, states) {
            Ok(()) => {}
            Err(stop) => return Err(stop),
        }
    }
    Ok(())
}

/// Asks a condition whether the run ends.
fn ask_condition(
    alloc: Global,
    condition: &Box<dyn ExitCondition>,
    tracker: &ProgressTracker,
    states: &[StateView],
    target_count: usize,
) -> Result<bool, Stop>
    ensures ok { IfOk result
        (λ reached. exit_verdict condition.now tracker.now states.now target_count ≡ Ok reached) }
    ensures err { IfErr result (IsExitFault (exit_name condition.now)
        (exit_verdict condition.now tracker.now states.now target_count)) }
    ensures asked { IfErr result (λ s. IsTrue (stops_asked s)) }
    ensures late { IfErr result (λ s. IsTrue (stops_late s)) }
{
    match condition.reached(tracker, states, target_count) {
        Ok(reached) => Ok(reached),
        Err(CheckFault::Failed(text)) => match copy_text(alloc, condition.name()) {
            Ok(name) => Err(Stop::Fault(PlanFault::Exit { name, text })),
            Err(OutOfMemory) => Err(Stop::OutOfMemory),
        },
        Err(CheckFault::OutOfMemory) => Err(Stop::OutOfMemory),
    }
}

/// Asks the plan's exit condition whether the run ends. Without one it ends once the target count of
/// validators has finalized the required view.
pub fn ask_exit<D: EngineDefinition>(
    alloc: Global,
    plan: &Plan<D>,
    tracker: &ProgressTracker,
    states: &[StateView],
    target_count: usize,
) -> Result<bool, Stop>
    ensures ok { IfOk result
        (ExitIs (⟦<Plan<D> as Means>⟧.meaning plan.now) target_count tracker.now states.now) }
    ensures fails { IfErr result (IsFailure (λ c. exit_name c) (λ c. exit_verdict c) plan.now.exit_condition
        tracker.now states.now target_count) }
    ensures asked { IfErr result (λ s. IsTrue (stops_asked s)) }
    ensures late { IfErr result (λ s. IsTrue (stops_late s)) }
{
    match &plan.exit_condition {
        Some(condition) => ask_condition(alloc, condition, tracker, states, target_count),
        None => Ok(tracker.all_reached(target_count, plan.required_finalizations)),
    }
}
