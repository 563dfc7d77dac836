//! Why there is no report of a run.
ghost use Rattle.std.specs.Prelude.{◌≡◌};
ghost use Rattle.ledger_program.specs.Faults.{fault_of};

use ledger_codec::{Digest, Text};
use ledger_log::Key;
use ledger_merkle::Location;
use ledger_settling::ReportFault;
use ledger_transfers::Rejection;
use sync_net::ErrorCode;

/// Why a log wasn't followed, in the order in which it is tested.
#[derive(Debug, Drop)]
pub enum Fault {
    /// A call of the link failed; its count rose.
    Network,
    /// The bytes ended while a request was pending, or a frame's length is malformed or too great.
    RequestChannelClosed,
    /// A frame is no message.
    InvalidResponse,
    /// What came under this pending number is neither its response nor an error.
    UnexpectedResponse {
        request_id: u64,
    },
    /// The server refused a pending request.
    Server {
        code: ErrorCode,
        message: Text,
    },
    /// The answer under this number isn't proved by the target's root.
    InvalidProof {
        request_id: u64,
    },
    /// More than 1,024 messages came under numbers that weren't pending.
    TooManyStrays,
    /// A later target was named that begins below the one taken last, or doesn't end behind it; these are its places.
    StaleUpdate {
        start: Location,
        end: Location,
    },
    /// The operations and nodes have this root, which isn't that of the target that was synced.
    WrongRoot {
        found: Digest,
    },
    /// The last operation, which stands here, is no commit, or its floor is below the start or above its
    /// own location.
    BadLog {
        location: Location,
    },
    /// The value of this Update is no account, and the value of each Update before it is one.
    BadValue {
        location: Location,
    },
    /// This block is a body that isn't settled, and this is an offence of it.
    Rejected {
        block: usize,
        rejection: Rejection<Key>,
    },
    /// This block settles, and its operations would make the log too long.
    Full {
        block: usize,
    },
    /// Want of memory.
    OutOfMemory,
}

impl From<ReportFault> for Fault {
    ghost from_gives = { λ fault given. given ≡ fault_of fault };

    fn from(fault: ReportFault) -> Self {
        match fault {
            ReportFault::BadLog { location } => Fault::BadLog { location },
            ReportFault::BadValue { location } => Fault::BadValue { location },
            ReportFault::Rejected { block, rejection } => Fault::Rejected { block, rejection },
            ReportFault::Full { block } => Fault::Full { block },
            ReportFault::OutOfMemory => Fault::OutOfMemory,
        }
    }
}
