//! What a run is asked: when it ends, and whether it went well.
ghost use Rattle.std.specs.Prelude.{◌≡◌, ℕ, Bool, List, Option, Result, false};
ghost use Rattle.simulate_parts.specs.Checks.{Answers, Passes};
ghost use Rattle.simulate_parts.specs.TrackerView.{TrackerView};
ghost use Rattle.simulate_parts.specs.declared.engine.StateView.{StateView};

use crate::engine::StateView;
use crate::tracker::ProgressTracker;
use ledger_codec::Text;

/// Why a check isn't answered with Ok: it fails, with a text, or memory was wanting.
#[derive(Debug, Drop)]
pub enum CheckFault {
    Failed(Text),
    OutOfMemory,
}

/// When a run ends. Contracts know a condition by its name, by whether it is polled, and by its verdict,
/// which is an answer or the text of a failure.
pub trait ExitCondition: Drop {
    ghost exit_name: { Self → List ℕ };

    ghost exit_polls: { Self → Bool } = { λ _. false };

    ghost exit_verdict: { Self → TrackerView → List StateView → ℕ → Result Bool (List ℕ) };

    /// The name of the condition.
    fn name(&self) -> &str
        ensures { result.now ≡ exit_name self.now };

    /// Whether the condition is also asked every 25 ms, and not after reports alone.
    fn requires_polling(&self) -> bool
        ensures { result ≡ exit_polls self.now };

    /// Whether the run ends here, by the reports so far, the states of the running peers in ascending
    /// order of peers, and the number of participants that count.
    fn reached(
        &self,
        tracker: &ProgressTracker,
        states: &[StateView],
        target_count: usize,
    ) -> Result<bool, CheckFault>
        ensures { Answers result (exit_verdict self.now tracker.now states.now target_count) };
}

/// What holds of the running peers' states at each report. Contracts know it by its name and by the text
/// of its complaint, if it has one.
pub trait FinalizationProperty: Drop {
    ghost finalization_name: { Self → List ℕ };

    ghost finalization_complaint: { Self → List StateView → Option (List ℕ) };

    /// The name of the property.
    fn name(&self) -> &str
        ensures { result.now ≡ finalization_name self.now };

    /// Checks the states of the running peers, in ascending order of peers.
    fn check(&self, states: &[StateView]) -> Result<(), CheckFault>
        ensures { Passes result (finalization_complaint self.now states.now) };
}

/// What holds at the end of a run. Contracts know it by its name and by the text of its complaint, if it
/// has one.
pub trait Property: Drop {
    ghost property_name: { Self → List ℕ };

    ghost property_complaint: { Self → TrackerView → List StateView → Option (List ℕ) };

    /// The name of the property.
    fn name(&self) -> &str
        ensures { result.now ≡ property_name self.now };

    /// Checks all reports of the run, and the states on which the exit condition was met.
    fn check(&self, tracker: &ProgressTracker, states: &[StateView]) -> Result<(), CheckFault>
        ensures { Passes result (property_complaint self.now tracker.now states.now) };
}
