//! Why a run ends early.

use ledger_codec::Text;
use simulate_parts::{FinalizationUpdate, ObserveFault};

/// Why a run isn't a success.
#[derive(Debug, Drop)]
pub enum PlanFault {
    /// Two reports name different digests at one height or round.
    Fork {
        update: FinalizationUpdate,
        fault: ObserveFault,
    },
    /// A check of the states at a report fails.
    FinalizationProperty {
        name: Text,
        text: Text,
    },
    /// A check at the end fails.
    Property {
        name: Text,
        text: Text,
    },
    /// The exit condition can't be evaluated.
    Exit {
        name: Text,
        text: Text,
    },
    /// The next event is due after the timeout.
    Timeout,
    /// So many events were handled.
    EventLimit,
    /// No event is left.
    Idle,
    /// A height above a window in which a crash was due.
    SkippedWindow {
        height: u64,
    },
    /// The configured crash at this place never came to anything.
    NotExercised {
        index: usize,
    },
}

/// Why a step stops the run: a fault, or want of memory.
#[derive(Debug, Drop)]
pub enum Stop {
    Fault(PlanFault),
    OutOfMemory,
}

impl From<ledger_codec::OutOfMemory> for Stop {
    ghost use Rattle.std.specs.Prelude.{◌≡◌};
    ghost use Rattle.ledger_simulate.specs.declared.fault.Stop.TheVariants.{OutOfMemory as out_of_memory};

    ghost from_gives = { λ _ e. e ≡ out_of_memory };

    fn from(_error: ledger_codec::OutOfMemory) -> Stop {
        Stop::OutOfMemory
    }
}
