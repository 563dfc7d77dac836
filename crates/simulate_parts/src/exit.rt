//! The two exit conditions that are shipped.
ghost use Rattle.std.specs.Prelude.{◌≡◌, Ok, codes, true};
ghost use Rattle.simulate_parts.specs.Checks.{processed_by_all, reached_by_all};

use crate::check::{CheckFault, ExitCondition};
use crate::engine::StateView;
use crate::tracker::ProgressTracker;
use std::marker::Model;

/// Ends a run once enough validators have finalized a view.
#[derive(Debug, Drop)]
pub struct MinimumFinalizations {
    required: u64,
}

impl Model for MinimumFinalizations {
    ghost use Rattle.std.specs.Prelude.{ℕ};

    ghost Value = { ℕ };

    ghost view = { λ c. c.required };
}

impl MinimumFinalizations {
    /// Reached once the target count of validators has finalized a view of at least `required`.
    pub fn new(required: u64) -> Self
        ensures { result ≡ required }
    {
        MinimumFinalizations { required }
    }
}

impl ExitCondition for MinimumFinalizations {
    ghost exit_name = { λ _. codes "minimum_finalizations" };

    ghost exit_verdict = { λ required tracker states target_count. Ok (reached_by_all tracker target_count required) };

    fn name(&self) -> &str {
        "minimum_finalizations"
    }

    fn requires_polling(&self) -> bool {
        false
    }

    fn reached(
        &self,
        tracker: &ProgressTracker,
        _states: &[StateView],
        target_count: usize,
    ) -> Result<bool, CheckFault> {
        Ok(tracker.all_reached(target_count, self.required))
    }
}

/// Ends a run once enough peers have processed a height.
#[derive(Debug, Drop)]
pub struct ProcessedHeightAtLeast {
    required: u64,
}

impl Model for ProcessedHeightAtLeast {
    ghost use Rattle.std.specs.Prelude.{ℕ};

    ghost Value = { ℕ };

    ghost view = { λ c. c.required };
}

impl ProcessedHeightAtLeast {
    /// Reached once the target count of states has a height of at least `required`.
    pub fn new(required: u64) -> Self
        ensures { result ≡ required }
    {
        ProcessedHeightAtLeast { required }
    }
}

impl ExitCondition for ProcessedHeightAtLeast {
    ghost exit_name = { λ _. codes "processed_height_at_least" };

    ghost exit_polls = { λ _. true };

    ghost exit_verdict = { λ required tracker states target_count. Ok (processed_by_all states target_count required) };

    fn name(&self) -> &str {
        "processed_height_at_least"
    }

    fn requires_polling(&self) -> bool {
        true
    }

    fn reached(
        &self,
        _tracker: &ProgressTracker,
        states: &[StateView],
        target_count: usize,
    ) -> Result<bool, CheckFault> {
        let required = self.required;
        let count = states
            .iter()
            .filter(|state| required <= state.height)
            .count();
        Ok(count >= target_count)
    }
}
