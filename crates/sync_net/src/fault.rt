//! Why a request machine refuses.

use crate::code::ErrorCode;
use ledger_codec::Text;

/// Why a request was not made, in order.
#[derive(Clone, Copy, Debug, PartialEq, Eq)]
pub enum SubmitRefusal {
    /// The machine was closed by a fault or by the end of the bytes.
    Closed,
    /// `u64::MAX` was given as a number.
    Exhausted,
    /// Want of memory; no number was drawn.
    OutOfMemory,
}

/// Why no answer came. Each but `OutOfMemory` closes the machine, or says that it is closed.
#[derive(Debug, Drop)]
pub enum MachineFault {
    /// The next frame is no message, or bytes follow it in the frame.
    InvalidResponse,
    /// A message under a pending number is neither its response nor an error.
    UnexpectedResponse { request_id: u64 },
    /// An error came under a pending number.
    Server { code: ErrorCode, message: Text },
    /// The next length is malformed or above `MAX_MESSAGE_SIZE`, or the bytes ended while a request was
    /// pending.
    RequestChannelClosed,
    /// The machine was closed before.
    Closed,
    /// Want of memory; the frame is still held.
    OutOfMemory,
}
