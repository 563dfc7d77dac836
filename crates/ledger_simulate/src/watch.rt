//! The reports of a run.
ghost use Rattle.std.specs.Prelude.{◌≡◌, ◌++◌, ◌∷◌, [], IfErr, IsTrue, None, OnOk};
ghost use Rattle.simulate_parts.specs.Tracker.{first_fault, fresh, tracker_of};
ghost use Rattle.ledger_simulate.specs.Stops.{IsForkOf, fork_of, stops_late};

use crate::fault::{PlanFault, Stop};
use simulate_parts::{FinalizationUpdate, ObserveFault, ProgressTracker};
use std::alloc::Global;
use std::marker::Model;

/// The reports that were observed, in order, with the tracker that they make of a fresh one.
#[derive(Drop)]
pub struct Watch {
    alloc: Global,
    tracker: ProgressTracker,
    updates: Vec<FinalizationUpdate>,
}

impl Model for Watch {
    ghost use Rattle.std.specs.Prelude.{◌≡◌, List, None};
    ghost use Rattle.simulate_parts.specs.declared.tracker.FinalizationUpdate.{FinalizationUpdate};
    ghost use Rattle.simulate_parts.specs.Tracker.{first_fault, tracker_of};

    ghost Value = { List FinalizationUpdate };

    ghost view = { λ w. w.updates.items };

    ghost invariant = { λ w.
        (w.tracker ≡ tracker_of w.updates.items) × (first_fault w.updates.items ≡ None) };
}

impl Watch {
    /// No reports.
    pub fn new(alloc: Global) -> Self
        ensures { result ≡ [] }
    {
        Watch {
            alloc,
            tracker: ProgressTracker::default(alloc),
            updates: Vec::new(alloc),
        }
    }

    /// The tracker of the reports so far.
    pub fn tracker(&self) -> &ProgressTracker
        ensures value { result.now ≡ tracker_of self.now }
        ensures sound { first_fault self.now ≡ None }
    {
        &self.tracker
    }

    /// The reports so far.
    pub fn updates(&self) -> &[FinalizationUpdate]
        ensures value { result.now ≡ self.now }
        ensures sound { first_fault self.now ≡ None }
    {
        self.updates.as_slice()
    }

    /// Observes a report. Where it is refused the run ends, and no report is kept.
    pub fn observe(&mut self, update: FinalizationUpdate) -> Result<(), Stop>
        ensures ok { OnOk result (self.new ≡ self.old ++ update ∷ []) }
        ensures fork { IfErr result (IsForkOf self.old update) }
        ensures late { IfErr result (λ s. IsTrue (stops_late s)) }
    {
        match self.tracker.observe_copy(&update) {
            Ok(()) => match self.updates.push(update) {
                Ok(()) => Ok(()),
                Err(_) => {
                    forget(self.alloc, &mut self.tracker, &mut self.updates);
                    Err(Stop::OutOfMemory)
                }
            },
            Err(fault) => {
                forget(self.alloc, &mut self.tracker, &mut self.updates);
                Err(fork(update, fault))
            }
        }
    }
}

/// Forgets all reports.
fn forget(alloc: Global, tracker: &mut ProgressTracker, updates: &mut Vec<FinalizationUpdate>)
    ensures tracker { tracker.new ≡ fresh }
    ensures updates { updates.new.items ≡ [] }
{
    *tracker = ProgressTracker::default(alloc);
    *updates = Vec::new(alloc);
}

/// What a refused report means to the run.
fn fork(update: FinalizationUpdate, fault: ObserveFault) -> Stop
    ensures stop { result ≡ fork_of update fault }
    ensures late { IsTrue (stops_late result) }
{
    match fault {
        ObserveFault::OutOfMemory => Stop::OutOfMemory,
        fault => Stop::Fault(PlanFault::Fork { update, fault }),
    }
}
