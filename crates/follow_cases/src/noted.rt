//! A link that keeps what is sent over another one.
ghost use Rattle.std.specs.Prelude.{◌≡◌, []};

use std::alloc::{AllocError, Global};
use sync_net::{Link, LinkError};

/// Passes each call on, and keeps what was sent. It tells its link's count of faults alone.
#[derive(Drop)]
pub struct Noted<L> {
    /// The link that the calls are passed on to.
    pub link: L,
    /// The bytes of the sends that didn't fail, in order.
    pub sent: Vec<u8>,
}

impl<L: Link> Noted<L> {
    /// Nothing was sent over `link` yet.
    pub fn new(alloc: Global, link: L) -> Noted<L>
        ensures link { result.link ≡ link }
        ensures nothing { result.sent.items ≡ [] }
    {
        Noted {
            link,
            sent: Vec::new(alloc),
        }
    }
}

impl<L: Link> Link for Noted<L> {
    ghost use Rattle.std.specs.Prelude.{◌≡◌, ◌≤◌, ◌++◌, None, false, length, IfOk, OnOk, OnErr};
    ghost use Rattle.ledger_codec.specs.Causes.{HasCauseOf};
    ghost use Rattle.sync_net.specs.declared.link.LinkError.TheVariants.{Failed};

    ghost faults = { λ n. L.faults n.link };

    ghost exact = { false };

    ghost steady = { λ _. ⊥ };

    ghost wire = { λ _. None };

    ghost service = { λ _. None };

    fn send(&mut self, bytes: &[u8]) -> Result<(), LinkError>
        ensures cause { HasCauseOf Failed (L.faults self.old.link) (L.faults self.new.link) result }
        ensures kept { OnOk result (self.new.sent.items ≡ self.old.sent.items ++ bytes.now) }
        ensures stays { OnErr result (self.new.sent.items ≡ self.old.sent.items) }
    {
        match self.link.send(bytes) {
            Ok(()) => {}
            Err(fault) => return Err(fault),
        }
        match self.sent.extend_from_slice(bytes) {
            Ok(()) => Ok(()),
            Err(AllocError) => Err(LinkError::OutOfMemory),
        }
    }

    fn recv(&mut self, buffer: &mut [u8]) -> Result<usize, LinkError>
        ensures bound { IfOk result (λ n. n ≤ length buffer.new) }
        ensures cause { HasCauseOf Failed (L.faults self.old.link) (L.faults self.new.link) result }
        ensures stays { self.new.sent.items ≡ self.old.sent.items }
    {
        self.link.recv(buffer)
    }
}
