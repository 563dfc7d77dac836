//! Why there is no report.
ghost use Rattle.std.specs.Prelude.{◌≡◌};
ghost use Rattle.ledger_settling.specs.declared.fault.ReportFault.TheVariants.{OutOfMemory as memory_wanting};

use ledger_codec::OutOfMemory;
use ledger_log::Key;
use ledger_merkle::Location;
use ledger_transfers::Rejection;
use std::alloc::{AllocError, AllocFailed};

/// Why a part and blocks have no report, in the order in which it is tested.
#[derive(Debug, Drop)]
pub enum ReportFault {
    /// The last operation, which stands here, is no commit, or its floor is below the start or above its
    /// own location.
    BadLog {
        location: Location,
    },
    /// The value of this Update is no account, and the value of each Update before it is one.
    BadValue {
        location: Location,
    },
    /// This block is a body that isn't settled, and this is an offence of it.
    Rejected {
        block: usize,
        rejection: Rejection<Key>,
    },
    /// This block settles, and its operations would make the log too long.
    Full {
        block: usize,
    },
    /// Want of memory.
    OutOfMemory,
}

impl From<OutOfMemory> for ReportFault {
    ghost from_gives = { λ _ fault. fault ≡ memory_wanting };

    fn from(_wanting: OutOfMemory) -> Self {
        ReportFault::OutOfMemory
    }
}

impl From<AllocError> for ReportFault {
    ghost from_gives = { λ _ fault. fault ≡ memory_wanting };

    fn from(_wanting: AllocError) -> Self {
        ReportFault::OutOfMemory
    }
}

impl<T: Drop> From<AllocFailed<T>> for ReportFault {
    ghost from_gives = { λ _ fault. fault ≡ memory_wanting };

    fn from(_failed: AllocFailed<T>) -> Self {
        ReportFault::OutOfMemory
    }
}
