//! How much is asked at once.
ghost use Rattle.std.specs.Prelude.{◌≡◌, ◌<◌, ◌≤◌, ◌⊎◌, MatchOption};

use std::marker::Model;

/// The number of operations of a request, above 0, and the number of requests under way, 1 to 64.
#[derive(Clone, Copy, PartialEq, Eq, Debug)]
pub struct Limits {
    batch: u64,
    outstanding: usize,
}

impl Model for Limits {
    ghost use Rattle.std.specs.Prelude.{◌<◌, ◌≤◌};
    ghost use Rattle.sync_client.specs.Asking.{LimitsView};

    ghost Value = { LimitsView };

    ghost view = { λ l. record { batch = l.batch; outstanding = l.outstanding } };

    ghost invariant = { λ l. (0 < l.batch) × (0 < l.outstanding) × (l.outstanding ≤ 64) };

    ghost inverse = { λ v. record { batch = v.batch; outstanding = v.outstanding } };
}

impl Limits {
    /// These limits, None exactly where the batch is 0 or the number of requests is outside 1 to 64.
    pub fn new(batch: u64, outstanding: usize) -> Option<Limits>
        ensures { MatchOption result ((batch ≡ 0) ⊎ ((outstanding ≡ 0) ⊎ (64 < outstanding))) (λ l.
            (l ≡ record { batch = batch; outstanding = outstanding })
            × (0 < batch)
            × (0 < outstanding)
            × (outstanding ≤ 64)) }
    {
        if batch == 0 || outstanding == 0 || outstanding > 64 {
            None
        } else {
            Some(Limits { batch, outstanding })
        }
    }

    /// The number of operations of a request.
    pub fn batch(self) -> u64
        ensures same { result ≡ self.batch }
        ensures some { 0 < result }
    {
        self.batch
    }

    /// The number of requests under way.
    pub fn outstanding(self) -> usize
        ensures same { result ≡ self.outstanding }
        ensures some { 0 < result }
        ensures most { result ≤ 64 }
    {
        self.outstanding
    }
}
