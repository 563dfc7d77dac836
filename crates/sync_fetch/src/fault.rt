//! Why no compact log is fetched.

use ledger_log::LogFault;
use sync_client::SyncFault;

/// Why no compact log is fetched.
#[derive(Debug, Drop)]
pub enum StateFault {
    /// No state came.
    Fetch(SyncFault),
    /// The state that came isn't one of the target.
    WrongState(LogFault),
}
