//! Why a call of a shared log is refused.
use ledger_log::LogFault;

/// Why a call made no entry, or the entry of a refused batch.
#[derive(Clone, Copy, PartialEq, Eq, Debug)]
pub enum ShareRefusal {
    /// Every turn of the pass was taken.
    PassSpent,
    /// The log refuses the batch.
    Log(LogFault),
    /// Want of memory. The turn is taken.
    OutOfMemory,
}
