//! Why a call of a batch is refused.
ghost use Rattle.ledger_chain.specs.declared.fault.ManagedFault.TheVariants.{OutOfMemory as out_of_memory};
ghost use Rattle.std.specs.Prelude.{◌≡◌};

use ledger_codec::{Digest, OutOfMemory};
use ledger_log::LogFault;
use ledger_merkle::Location;
use std::alloc::{AllocError, AllocFailed};

/// Why a call of a batch was refused.
#[derive(Clone, Copy, PartialEq, Eq, Debug)]
pub enum ManagedFault {
    /// The database is in no state of the batch's chain: it has this size and root.
    StaleRead { size: Location, root: Digest },
    /// The database is in no state that the batch can be applied to: it has this size and root.
    StaleBatch { size: Location, root: Digest },
    /// The log takes no such batch.
    Log(LogFault),
    /// Want of memory.
    OutOfMemory,
}

impl From<OutOfMemory> for ManagedFault {
    ghost from_gives = { λ _ e. e ≡ out_of_memory };

    fn from(_e: OutOfMemory) -> ManagedFault {
        ManagedFault::OutOfMemory
    }
}

impl From<AllocError> for ManagedFault {
    ghost from_gives = { λ _ e. e ≡ out_of_memory };

    fn from(_e: AllocError) -> ManagedFault {
        ManagedFault::OutOfMemory
    }
}

impl<T: Drop> From<AllocFailed<T>> for ManagedFault {
    ghost from_gives = { λ _ e. e ≡ out_of_memory };

    fn from(_e: AllocFailed<T>) -> ManagedFault {
        ManagedFault::OutOfMemory
    }
}

impl From<LogFault> for ManagedFault {
    ghost use Rattle.ledger_chain.specs.Faults.{managed_fault};

    ghost from_gives = { λ fault e. e ≡ managed_fault fault };

    fn from(fault: LogFault) -> ManagedFault {
        match fault {
            LogFault::OutOfMemory => ManagedFault::OutOfMemory,
            fault => ManagedFault::Log(fault),
        }
    }
}
