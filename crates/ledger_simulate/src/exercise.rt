//! Whether the configured failures came to anything.
ghost use Rattle.std.specs.Prelude.{◌≡◌, ◌+◌, ◌-◌, ◌^◌, IfOk, false, min, replicate, set, slice_get, true, unwrap_or};
ghost use Rattle.ledger_simulate.specs.Exercise.{is_unexercised, missed_by};
ghost use Rattle.ledger_simulate.specs.Failures.{tally_of};

use ledger_codec::OutOfMemory;
use simulate_parts::Crash;
use std::alloc::Global;

/// What the configured failures came to so far: the crashes that ran, the scheduled actions that were
/// applied, whether the delayed participants were started, and for each configured failure whether it is a
/// window that was entered.
#[derive(Drop)]
pub struct Exercise {
    pub crashes: u64,
    pub scheduled_actions: u64,
    pub delayed_started: bool,
    pub entered: Vec<bool>,
}

impl Exercise {
    /// Nothing yet, of so many configured failures.
    pub fn new(alloc: Global, failures: usize) -> Result<Self, OutOfMemory>
        ensures { IfOk result (λ e.
            (e.crashes ≡ 0)
            × (e.scheduled_actions ≡ 0)
            × (e.delayed_started ≡ false)
            × (e.entered.items ≡ replicate failures false)) }
    {
        Ok(Exercise {
            crashes: 0,
            scheduled_actions: 0,
            delayed_started: false,
            entered: vec![in alloc; false; failures]?,
        })
    }

    /// Whether the window of the configured failure at this place was entered.
    pub fn has_entered(&self, index: usize) -> bool
        ensures { result ≡ unwrap_or (slice_get self.now.entered.items index) false }
    {
        match self.entered.get(index) {
            Some(entered) => *entered,
            None => false,
        }
    }

    /// Marks the window of the configured failure at this place as entered.
    pub fn enter(&mut self, index: usize)
        ensures tally { tally_of self.new
            ≡ record (tally_of self.old) { entered = set self.old.entered.items index true } }
        ensures started { self.new.delayed_started ≡ self.old.delayed_started }
    {
        if index < self.entered.len() {
            self.entered[index] = true;
        }
    }

    /// Counts a crash that ran.
    pub fn count_crash(&mut self)
        ensures { self.new ≡ record self.old { crashes = min (self.old.crashes + 1) (2 ^ 64 - 1) } }
    {
        self.crashes = self.crashes.saturating_add(1);
    }

    /// Counts a scheduled action that was applied.
    pub fn count_action(&mut self)
        ensures { self.new
            ≡ record self.old { scheduled_actions = min (self.old.scheduled_actions + 1) (2 ^ 64 - 1) } }
    {
        self.scheduled_actions = self.scheduled_actions.saturating_add(1);
    }

    /// Whether this failure came to nothing, given whether its window was entered.
    fn missed(&self, crash: &Crash, entered: bool) -> bool
        ensures { result
            ≡ is_unexercised self.now.crashes self.now.scheduled_actions self.now.delayed_started crash.now
            entered }
    {
        match crash {
            Crash::Random { .. } => self.crashes == 0,
            Crash::Schedule(schedule) => {
                if schedule.events().len() == 0 {
                    false
                } else {
                    self.scheduled_actions == 0
                }
            }
            Crash::DelayRound { .. } => !self.delayed_started,
            Crash::ProcessedHeight { .. } => !entered,
        }
    }

    /// The first place of a configured failure that came to nothing.
    pub fn first_missed(&self, crashes: &[Crash]) -> Option<usize>
        ensures { result ≡ missed_by self.now crashes.now }
    {
        for (i, crash) in crashes.iter().enumerate() {
            if self.missed(crash, self.has_entered(i)) {
                return Some(i);
            }
        }
        None
    }
}
