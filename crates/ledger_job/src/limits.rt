//! How a log is fetched.
ghost use Rattle.std.specs.Prelude.{◌≡◌, ◌<◌, ◌≤◌, true, false, MatchOption};
ghost use Rattle.ledger_job.specs.Bounds.{in_range};
ghost use Rattle.ledger_job.specs.Jobs.{default_limits};

use std::marker::Model;

/// How a log is fetched: the most operations that one request asks for, above 0, and how many requests may be
/// out at once, 1 to 64.
#[derive(Clone, Copy, Debug, PartialEq, Eq)]
pub struct JobLimits {
    batch: u64,
    outstanding: u64,
}

impl Model for JobLimits {
    ghost use Rattle.std.specs.Prelude.{◌<◌, ◌≤◌};
    ghost use Rattle.ledger_job.specs.Bounds.{LimitsView};

    ghost Value = { LimitsView };

    ghost view = { λ l. record { batch = l.batch; outstanding = l.outstanding } };

    ghost invariant = { λ l. (0 < l.batch) × (0 < l.outstanding) × (l.outstanding ≤ 64) };

    ghost inverse = { λ v. record { batch = v.batch; outstanding = v.outstanding } };
}

impl JobLimits {
    /// These limits, None exactly where the batch is 0 or the number of requests is outside 1 to 64.
    pub(crate) fn new(batch: u64, outstanding: u64) -> Option<JobLimits>
        ensures { MatchOption result (in_range batch outstanding ≡ false)
            (λ l. (in_range batch outstanding ≡ true)
            × (l ≡ record { batch = batch; outstanding = outstanding })) }
    {
        if batch > 0 && outstanding > 0 && outstanding <= 64 {
            Some(JobLimits { batch, outstanding })
        } else {
            None
        }
    }

    /// 50 operations a request, one request at a time.
    pub(crate) fn usual() -> JobLimits
        ensures { result ≡ default_limits }
    {
        JobLimits {
            batch: 50,
            outstanding: 1,
        }
    }

    /// The most operations that one request asks for.
    pub fn batch(self) -> u64
        ensures same { result ≡ self.batch }
        ensures some { 0 < result }
    {
        self.batch
    }

    /// How many requests may be out at once.
    pub fn outstanding(self) -> u64
        ensures same { result ≡ self.outstanding }
        ensures some { 0 < result }
        ensures most { result ≤ 64 }
    {
        self.outstanding
    }
}
