//! Why fetching fails.
ghost use Rattle.std.specs.Prelude.{◌≡◌};

use ledger_codec::{Digest, OutOfMemory, Text};
use ledger_merkle::Location;
use std::alloc::AllocError;
use sync_net::ErrorCode;

/// Why an answer isn't kept, a later target isn't taken, or no part is made.
#[derive(Clone, Copy, PartialEq, Eq, Debug)]
pub enum CollectFault {
    /// The answer under this number doesn't prove its operations.
    InvalidProof { request_id: u64 },
    /// The part has another root than the current target.
    WrongRoot { found: Digest },
    /// The later target begins below the current one, or doesn't end behind it.
    StaleUpdate { start: Location, end: Location },
    /// Want of memory.
    OutOfMemory,
}

impl From<OutOfMemory> for CollectFault {
    ghost use Rattle.sync_client.specs.declared.fault.CollectFault.TheVariants.{OutOfMemory as out_of_memory};

    ghost from_gives = { λ _ e. e ≡ out_of_memory };

    fn from(_e: OutOfMemory) -> CollectFault {
        CollectFault::OutOfMemory
    }
}

impl From<AllocError> for CollectFault {
    ghost use Rattle.sync_client.specs.declared.fault.CollectFault.TheVariants.{OutOfMemory as out_of_memory};

    ghost from_gives = { λ _ e. e ≡ out_of_memory };

    fn from(_e: AllocError) -> CollectFault {
        CollectFault::OutOfMemory
    }
}

/// Why a fetch failed.
#[derive(Debug, Drop)]
pub enum SyncFault {
    /// A call of the link failed.
    Network,
    /// The next length is malformed or too great, or the bytes ended while a request was pending.
    RequestChannelClosed,
    /// A frame is no message.
    InvalidResponse,
    /// The message under this pending number is neither its response nor an error.
    UnexpectedResponse { request_id: u64 },
    /// An error came under a pending number.
    Server { code: ErrorCode, message: Text },
    /// The answer under this number doesn't prove its operations.
    InvalidProof { request_id: u64 },
    /// More messages came under numbers that aren't pending than a session lets through.
    TooManyStrays,
    /// A later target was named that begins below the current one, or doesn't end behind it.
    StaleUpdate { start: Location, end: Location },
    /// All was kept, and has another root than the target that was synced.
    WrongRoot { found: Digest },
    /// The machine was closed before.
    Closed,
    /// `u64::MAX` was given as a number.
    Exhausted,
    /// Want of memory.
    OutOfMemory,
}
