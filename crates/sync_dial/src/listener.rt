//! What gives connections.
ghost use Rattle.std.specs.Prelude.{◌≡◌, ℕ, List};
ghost use Rattle.std.specs.declared.option.Option.{Option};
ghost use Rattle.ledger_codec.specs.Causes.{HasCause};
ghost use Rattle.sync_dial.specs.Listening.{Accepts};

use sync_net::Link;

/// An accept that gave nothing.
#[derive(Clone, Copy, Debug, PartialEq, Eq)]
pub struct ListenFailed;

/// Gives connections, one after another.
pub trait Listener {
    type Link: Link + Send + Drop + 'static;

    /// How often an accept has failed.
    ghost faults: { Self → ℕ };

    /// The links that are still to come, where it tells them.
    ghost coming: { Self → Option (List Self.Link) };

    /// The next connection.
    fn accept(&mut self) -> Result<Self::Link, ListenFailed>
        ensures cause { HasCause (faults self.old) (faults self.new) result }
        ensures taken { Accepts (coming self.old) (coming self.new) result };
}
