//! What a run answers.
ghost use Rattle.std.specs.Prelude.{◌≡◌, Some};
ghost use Rattle.ledger_program.specs.declared.outcome.RunFault.TheVariants.{OutOfMemory as memory_wanting};
ghost use Rattle.ledger_program.specs.Run.{follow_status, status_of};

use crate::fault::Fault;
use ledger_codec::OutOfMemory;
use ledger_settling::Report;
use ledger_transfers::Sequenced;
use std::alloc::AllocError;

/// Why a run didn't end with a printed report, in the order in which it is tested.
#[derive(Debug, Drop)]
pub enum RunFault {
    /// The words are no form of the program. Status 2.
    Usage,
    /// The least offending line of the job, counted from 1. Status 3.
    BadJob { line: u64 },
    /// The source of the job failed. Status 4.
    JobRead,
    /// The job has more than 67,108,864 bytes. Status 5.
    JobTooLarge,
    /// The dial failed. Status 6.
    Dial,
    /// The log wasn't followed. Status 7 for what the link gave, 8 for a part that isn't proved or is no log, 9 for
    /// a block that doesn't settle.
    Follow(Fault),
    /// The sink failed while the report was written. Status 10.
    Output,
    /// Want of memory. Status 11.
    OutOfMemory,
}

impl From<OutOfMemory> for RunFault {
    ghost from_gives = { λ _ fault. fault ≡ memory_wanting };

    fn from(_wanting: OutOfMemory) -> Self {
        RunFault::OutOfMemory
    }
}

impl From<AllocError> for RunFault {
    ghost from_gives = { λ _ fault. fault ≡ memory_wanting };

    fn from(_wanting: AllocError) -> Self {
        RunFault::OutOfMemory
    }
}

/// The end of a run.
#[derive(Drop)]
pub struct Outcome {
    /// 0, or the status of the fault.
    pub status: u8,
    /// There with statuses 0 and 10; with 11 where memory was wanting only once the report was made.
    pub report: Option<Report<Sequenced>>,
    /// None exactly with status 0.
    pub fault: Option<RunFault>,
}

/// The status of a fault of following a log.
fn follow_status(fault: &Fault) -> u8
    ensures { result ≡ follow_status fault.now }
{
    match fault {
        Fault::Network
        | Fault::RequestChannelClosed
        | Fault::InvalidResponse
        | Fault::UnexpectedResponse { .. }
        | Fault::Server { .. }
        | Fault::TooManyStrays => 7,
        Fault::InvalidProof { .. }
        | Fault::StaleUpdate { .. }
        | Fault::WrongRoot { .. }
        | Fault::BadLog { .. }
        | Fault::BadValue { .. } => 8,
        Fault::Rejected { .. } | Fault::Full { .. } => 9,
        Fault::OutOfMemory => 11,
    }
}

/// The status of a fault.
pub fn status_of(fault: &RunFault) -> u8
    ensures { result ≡ status_of (Some fault.now) }
{
    match fault {
        RunFault::Usage => 2,
        RunFault::BadJob { .. } => 3,
        RunFault::JobRead => 4,
        RunFault::JobTooLarge => 5,
        RunFault::Dial => 6,
        RunFault::Follow(fault) => follow_status(fault),
        RunFault::Output => 10,
        RunFault::OutOfMemory => 11,
    }
}
