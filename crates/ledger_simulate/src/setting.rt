//! The participants and the failures of a plan.
ghost use Rattle.std.specs.Prelude.{◌≡◌, ◌≤◌, ◌++◌, ◌∷◌, [], IfOk, IsTrue, count_by};
ghost use Rattle.std.specs.List.{list_any};
ghost use Rattle.simulate_parts.specs.Engine.{DistinctPeers};
ghost use Rattle.ledger_simulate.specs.Plans.{delays, fits_beside, crashes_at_random};

use ledger_codec::{List, OutOfMemory};
use simulate_parts::{Crash, Peer, push};
use std::alloc::Global;

/// Participants and failures that can be run.
#[derive(Drop)]
pub struct Setting {
    pub participants: List<Peer>,
    pub crashes: List<Crash>,
    pub ghost distinct: { DistinctPeers participants },
    pub ghost one_delay: { count_by delays crashes ≤ 1 },
    pub ghost one_random: { count_by crashes_at_random crashes ≤ 1 },
}

impl Setting {
    /// These participants without a failure.
    pub fn new(alloc: Global, participants: List<Peer>) -> Self
        requires { DistinctPeers participants }
        ensures participants { result.participants ≡ participants }
        ensures crashes { result.crashes ≡ [] }
    {
        Setting {
            participants,
            crashes: List::new(alloc),
        }
    }

    /// Whether this failure may stand beside the others.
    pub fn may_crash(&self, crash: &Crash) -> bool
        ensures { result ≡ fits_beside self.now.crashes crash.now }
    {
        match crash {
            Crash::DelayRound { .. } => !any_delays(self.crashes.as_slice()),
            Crash::Random { .. } => !any_at_random(self.crashes.as_slice()),
            _ => true,
        }
    }

    /// With one failure more. A refused call gives the setting up.
    pub fn crash(self, alloc: Global, crash: Crash) -> Result<Self, OutOfMemory>
        requires { IsTrue (fits_beside self.crashes crash) }
        ensures participants { IfOk result (λ s. s.participants ≡ self.participants) }
        ensures crashes { IfOk result (λ s. s.crashes ≡ self.crashes ++ crash ∷ []) }
    {
        let Setting {
            participants,
            mut crashes,
        } = self;
        push(alloc, &mut crashes, crash)?;
        Ok(Setting {
            participants,
            crashes,
        })
    }
}

/// Whether one of these failures delays participants.
fn any_delays(crashes: &[Crash]) -> bool
    ensures { result ≡ list_any delays crashes.now }
{
    crashes.iter().any(is_delay)
}

/// Whether one of these failures is random.
fn any_at_random(crashes: &[Crash]) -> bool
    ensures { result ≡ list_any crashes_at_random crashes.now }
{
    crashes.iter().any(is_random)
}

/// Whether a failure delays participants.
fn is_delay(crash: &Crash) -> bool
    ensures { result ≡ delays crash.now }
{
    matches!(crash, Crash::DelayRound { .. })
}

/// Whether a failure is random.
fn is_random(crash: &Crash) -> bool
    ensures { result ≡ crashes_at_random crash.now }
{
    matches!(crash, Crash::Random { .. })
}
