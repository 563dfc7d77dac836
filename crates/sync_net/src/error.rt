//! What goes wrong in a sync, with its texts.
ghost use Rattle.std.specs.Prelude.{◌≡◌};
ghost use Rattle.sync_net.specs.Codes.{code_for};

use crate::code::ErrorCode;
use ledger_codec::Text;

/// What goes wrong in a sync. `ResponseChannelClosed`, `TargetUpdateChannel` and `InvalidConfig` are
/// carried for their text and code alone.
#[derive(Debug, Drop, thiserror::Error)]
pub enum Error {
    /// The stream failed.
    #[error("stream error")]
    Network,
    /// An answer is of another kind than its request.
    #[error("unexpected response type for request {request_id}")]
    UnexpectedResponse { request_id: u64 },
    /// The server refused a request.
    #[error("server error (code: {code:?}): {}", .message.as_str())]
    Server { code: ErrorCode, message: Text },
    /// A request can't be served by any log of this size.
    #[error("invalid request: {}", .0.as_str())]
    InvalidRequest(Text),
    /// A compact target is no longer the current one.
    #[error("stale compact target: {}", .0.as_str())]
    StaleTarget(Text),
    /// A log doesn't hold what was asked for.
    #[error("database operation failed")]
    Database,
    /// No request can be made any more.
    #[error("request channel closed - I/O task may have terminated")]
    RequestChannelClosed,
    /// No answer to this request can come any more.
    #[error("response channel closed for request {request_id}")]
    ResponseChannelClosed { request_id: u64 },
    /// What came in is no message.
    #[error("invalid response from server")]
    InvalidResponse,
    /// No new target can come any more.
    #[error("target update channel error: {}", .reason.as_str())]
    TargetUpdateChannel { reason: Text },
    /// A configuration can't be used.
    #[error("invalid configuration: {}", .0.as_str())]
    InvalidConfig(Text),
}

impl Error {
    /// The code with which a server says this to a client.
    pub fn to_error_code(&self) -> ErrorCode
        ensures { result ≡ code_for self.now }
    {
        match self {
            Error::InvalidRequest(_) => ErrorCode::InvalidRequest,
            Error::StaleTarget(_) => ErrorCode::StaleTarget,
            Error::Database => ErrorCode::DatabaseError,
            Error::Network => ErrorCode::NetworkError,
            _ => ErrorCode::InternalError,
        }
    }
}
