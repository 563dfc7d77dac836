//! What a session passes before each request.

/// Lets a session's requests pass, each when it may be served. No turn of a log is held meanwhile. Who starts sessions
/// on threads asks that a gate is `Send + Sync + 'static` too.
pub trait Gate {
    /// Comes back once the request at this place, from 0, of the session of this number may be served.
    fn pass(&self, session: usize, request: usize);
}

/// Lets all pass.
#[derive(Clone, Copy, Debug)]
pub struct OpenGate;

impl Gate for OpenGate {
    fn pass(&self, _session: usize, _request: usize) {}
}
