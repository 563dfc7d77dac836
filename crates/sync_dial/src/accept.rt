//! Connections over TCP.

use crate::listener::{ListenFailed, Listener};
use crate::stream::StreamLink;
use std::net::{TcpListener, TcpStream};

/// Gives what a bound listener of std accepts, and tells nothing of it. It counts the accepts that failed.
#[derive(Drop)]
pub struct TcpAccepting {
    bound: TcpListener,
    faults: u64,
}

impl TcpAccepting {
    ghost use Rattle.std.specs.Prelude.{◌≡◌};

    /// A listener over this bound one, none of whose accepts has failed yet.
    pub fn new(bound: TcpListener) -> TcpAccepting
        ensures bound { result.bound ≡ bound }
        ensures faults { result.faults ≡ 0 }
    {
        TcpAccepting { bound, faults: 0 }
    }
}

impl Listener for TcpAccepting {
    ghost use Rattle.std.specs.Prelude.{◌≡◌, None, OnOk};
    ghost use Rattle.ledger_codec.specs.Causes.{HasCause};

    type Link = StreamLink<TcpStream>;

    ghost faults = { λ s. s.faults };

    ghost coming = { λ _. None };

    fn accept(&mut self) -> Result<StreamLink<TcpStream>, ListenFailed>
        ensures cause { HasCause self.old.faults self.new.faults result }
        ensures counted { OnOk result (self.new.faults ≡ self.old.faults) }
    {
        match self.bound.accept() {
            Ok((stream, _)) => {
                // A reply goes out at once, and isn't kept back for the next one.
                let _ = stream.set_nodelay(true);
                Ok(StreamLink::new(stream))
            }
            Err(_) => {
                self.faults = self.faults.saturating_add(1);
                Err(ListenFailed)
            }
        }
    }
}
