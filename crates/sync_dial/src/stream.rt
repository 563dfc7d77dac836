//! A stream of std as a link.

use std::io::{Read, Write};
use sync_net::{Link, LinkError};

/// A stream that is connected, as a link that tells nothing. It counts the calls that failed.
#[derive(Drop)]
pub struct StreamLink<S: Read + Write> {
    stream: S,
    faults: u64,
}

impl<S: Read + Write> StreamLink<S> {
    ghost use Rattle.std.specs.Prelude.{◌≡◌};

    /// A link over this stream, none of whose calls has failed yet.
    pub fn new(stream: S) -> StreamLink<S>
        ensures stream { result.stream ≡ stream }
        ensures faults { result.faults ≡ 0 }
    {
        StreamLink { stream, faults: 0 }
    }
}

impl<S: Read + Write> Link for StreamLink<S> {
    ghost use Rattle.std.specs.Prelude.{◌≡◌, ◌≤◌, None, false, length, IfOk, OnOk};
    ghost use Rattle.ledger_codec.specs.Causes.{HasCauseOf};
    ghost use Rattle.sync_net.specs.declared.link.LinkError.TheVariants.{Failed};

    ghost faults = { λ s. s.faults };

    ghost exact = { false };

    ghost steady = { λ _. ⊥ };

    ghost wire = { λ _. None };

    ghost service = { λ _. None };

    fn send(&mut self, bytes: &[u8]) -> Result<(), LinkError>
        ensures cause { HasCauseOf Failed self.old.faults self.new.faults result }
        ensures counted { OnOk result (self.new.faults ≡ self.old.faults) }
    {
        match self.stream.write_all(bytes) {
            Ok(()) => Ok(()),
            Err(_) => {
                self.faults = self.faults.saturating_add(1);
                Err(LinkError::Failed)
            }
        }
    }

    fn recv(&mut self, buffer: &mut [u8]) -> Result<usize, LinkError>
        ensures bound { IfOk result (λ n. n ≤ length buffer.new) }
        ensures cause { HasCauseOf Failed self.old.faults self.new.faults result }
        ensures counted { OnOk result (self.new.faults ≡ self.old.faults) }
    {
        match self.stream.read(buffer) {
            Ok(count) => Ok(count),
            Err(_) => {
                self.faults = self.faults.saturating_add(1);
                Err(LinkError::Failed)
            }
        }
    }
}
