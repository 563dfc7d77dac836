//! Why the node ends early.

use ledger_log::LogFault;
use std::alloc::AllocError;
use std::io;

/// What the node can't help.
#[derive(Debug, Drop)]
pub enum NodeFault {
    Log(LogFault),
    Print,
    OutOfMemory,
}

impl From<LogFault> for NodeFault {
    fn from(fault: LogFault) -> Self {
        NodeFault::Log(fault)
    }
}

impl From<AllocError> for NodeFault {
    fn from(_wanting: AllocError) -> Self {
        NodeFault::OutOfMemory
    }
}

impl From<io::Error> for NodeFault {
    fn from(_error: io::Error) -> Self {
        NodeFault::Print
    }
}
