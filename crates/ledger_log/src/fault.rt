//! Why a call of a log is refused.
ghost use Rattle.ledger_log.specs.declared.fault.LogFault.TheVariants.{OutOfMemory as out_of_memory};
ghost use Rattle.std.specs.Prelude.{◌≡◌};

use ledger_codec::{Digest, OutOfMemory};
use ledger_merkle::Location;
use std::alloc::{AllocError, AllocFailed};
use thiserror::Error;

/// Why a call of a log was refused.
#[derive(Clone, Copy, PartialEq, Eq, Debug, Error)]
pub enum LogFault {
    /// There is no last operation, or it is no commit.
    #[error("no commit at the end")]
    NoCommit,
    /// The floor is below the first place or above the commit's own.
    #[error("commit with a floor of {}, which it can't have", .floor.get())]
    FloorOutside { floor: Location },
    /// The number of pinned nodes is wrong.
    #[error("not the {needed} pinned nodes that the front needs")]
    Nodes { needed: usize },
    /// The size is wrong.
    #[error("another number of leaves")]
    Size,
    /// The place is above the size.
    #[error("location behind the size {}", .size.get())]
    Beyond { size: Location },
    /// The place is below the front.
    #[error("location pruned below {}", .front.get())]
    Pruned { front: Location },
    /// The log would be too long.
    #[error("no room above the size {}", .size.get())]
    Full { size: Location },
    /// The last operation isn't the batch's one commit.
    #[error("operations that are no batch of one commit")]
    NotABatch,
    /// The floor is below the log's.
    #[error("floor {} below the current one, {}", .floor.get(), .current.get())]
    FloorRegressed { floor: Location, current: Location },
    /// The floor is above the commit's own place.
    #[error("floor {} above its commit at {}", .floor.get(), .location.get())]
    FloorBeyond { floor: Location, location: Location },
    /// The place is above the floor.
    #[error("location above the floor {}", .floor.get())]
    AboveFloor { floor: Location },
    /// The nodes have another root.
    #[error("nodes of another root")]
    WrongRoot { found: Digest },
    /// The commit isn't proved at the last place.
    #[error("commit not proved at the last location")]
    BadCommitProof,
    /// Want of memory.
    #[error("out of memory")]
    OutOfMemory,
}

impl From<OutOfMemory> for LogFault {
    ghost from_gives = { λ _ e. e ≡ out_of_memory };

    fn from(_e: OutOfMemory) -> LogFault {
        LogFault::OutOfMemory
    }
}

impl From<AllocError> for LogFault {
    ghost from_gives = { λ _ e. e ≡ out_of_memory };

    fn from(_e: AllocError) -> LogFault {
        LogFault::OutOfMemory
    }
}

impl<T: Drop> From<AllocFailed<T>> for LogFault {
    ghost from_gives = { λ _ e. e ≡ out_of_memory };

    fn from(_e: AllocFailed<T>) -> LogFault {
        LogFault::OutOfMemory
    }
}
