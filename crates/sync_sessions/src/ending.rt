//! How a session ends.
ghost use Rattle.std.specs.Prelude.{◌≡◌};
ghost use Rattle.sync_sessions.specs.Ends.{end_of, refused_end};

use sync_net::LinkError;
use sync_shared::ShareRefusal;

/// Why no more messages are answered.
#[derive(Clone, Copy, PartialEq, Eq, Debug)]
pub enum SessionEnd {
    /// The link ended behind a whole frame, or before any byte.
    Done,
    /// A call of the link failed; its count rose.
    Network,
    /// The length of a frame is none, or too great, or the link ended inside a frame.
    BrokenFrame,
    /// A message came for which the pass has no turn left.
    PassSpent,
    /// Want of memory.
    OutOfMemory,
}

/// How a session ends at a fault of its link.
pub(crate) fn end_of(fault: LinkError) -> SessionEnd
    ensures { result ≡ end_of fault }
{
    match fault {
        LinkError::Failed => SessionEnd::Network,
        LinkError::OutOfMemory => SessionEnd::OutOfMemory,
    }
}

/// How a session ends where the shared log refuses a message.
pub(crate) fn refused_end(refusal: ShareRefusal) -> SessionEnd
    ensures { result ≡ refused_end refusal }
{
    match refusal {
        ShareRefusal::PassSpent => SessionEnd::PassSpent,
        ShareRefusal::Log(_) | ShareRefusal::OutOfMemory => SessionEnd::OutOfMemory,
    }
}
