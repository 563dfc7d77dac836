//! What a sync answers.
ghost use Rattle.std.specs.Prelude.{◌≡◌, Some};
ghost use Rattle.ledger_program.specs.Follow.{fault_of_sync};
ghost use Rattle.ledger_program.specs.Run.{follow_status};
ghost use Rattle.sync_program.specs.Run.{state_status, refusal_of, outcome_of};

use sync_client::SyncFault;
use sync_fetch::StateFault;

/// Why a log isn't synced or printed, in the order in which it is tested.
#[derive(Debug, Drop)]
pub(crate) enum Refusal {
    /// The words are no form of `sync`.
    Usage,
    /// The dial failed.
    Dial,
    /// No log came over the link.
    Fetch(StateFault),
    /// The sink failed while the lines were written.
    Output,
    /// Want of memory.
    OutOfMemory,
}

/// The end of a sync.
#[derive(Debug, Drop)]
pub struct SyncOutcome {
    /// 0; 2 for words that are no form; 6 for a failed dial; 7 for what the link gave; 8 for what isn't proved or is
    /// no log; 10 for a failed write; 11 for want of memory.
    pub status: u8,
    /// There exactly with statuses 7 and 8.
    pub fault: Option<StateFault>,
}

/// The status of a fault of a session.
fn session_status(fault: &SyncFault) -> u8
    ensures { result ≡ follow_status (fault_of_sync fault.now) }
{
    match fault {
        SyncFault::Network
        | SyncFault::RequestChannelClosed
        | SyncFault::InvalidResponse
        | SyncFault::UnexpectedResponse { .. }
        | SyncFault::Server { .. }
        | SyncFault::TooManyStrays => 7,
        SyncFault::InvalidProof { .. }
        | SyncFault::StaleUpdate { .. }
        | SyncFault::WrongRoot { .. } => 8,
        SyncFault::Closed | SyncFault::Exhausted | SyncFault::OutOfMemory => 11,
    }
}

/// The status of a fault.
fn state_status(fault: &StateFault) -> u8
    ensures { result ≡ state_status fault.now }
{
    match fault {
        StateFault::Fetch(fault) => session_status(fault),
        StateFault::WrongState(_) => 8,
    }
}

/// Why no log was synced, where this fault came.
pub(crate) fn refusal_of(fault: StateFault) -> Refusal
    ensures { result ≡ refusal_of fault }
{
    match fault {
        StateFault::Fetch(SyncFault::OutOfMemory) => Refusal::OutOfMemory,
        other => Refusal::Fetch(other),
    }
}

/// The outcome without a log.
pub(crate) fn outcome_of(refusal: Refusal) -> SyncOutcome
    ensures { result ≡ outcome_of (Some refusal) }
{
    let status = match &refusal {
        Refusal::Usage => 2,
        Refusal::Dial => 6,
        Refusal::Fetch(fault) => state_status(fault),
        Refusal::Output => 10,
        Refusal::OutOfMemory => 11,
    };
    match refusal {
        Refusal::Fetch(fault) => SyncOutcome {
            status,
            fault: Some(fault),
        },
        _ => SyncOutcome {
            status,
            fault: None,
        },
    }
}
