//! What a server says of a refused request.

/// The code of a refusal.
#[derive(Clone, Copy, Debug, PartialEq, Eq)]
pub enum ErrorCode {
    /// The request can't be served by any log of this size.
    InvalidRequest,
    /// The log doesn't hold what was asked for.
    DatabaseError,
    /// The connection failed.
    NetworkError,
    /// The target is no longer the current one, and may be asked for again.
    StaleTarget,
    /// The request took too long.
    Timeout,
    /// The server failed.
    InternalError,
}
