//! A link whose sent bytes stay when it is let go.

use super::digest_of;
use ledger_codec::Digest;
use std::alloc::Global;
use std::sync::{Arc, Mutex, Wait};
use sync_net::{Link, LinkError};
use sync_server::TapeLink;

/// What was sent over a link, for who still has it when the link is gone.
pub(super) type Sent = Arc<Mutex<Vec<u8>>, Global>;

/// A tape whose sent bytes are kept elsewhere too. It tells its tape's count of faults alone.
#[derive(Drop)]
pub(super) struct Kept<R: Wait> {
    rt: R,
    tape: TapeLink,
    sent: Sent,
}

/// Puts these bytes behind what was sent.
fn keep<R: Wait>(rt: &R, sent: &Sent, bytes: &[u8]) -> bool {
    sent.lock(rt).extend_from_slice(bytes).is_ok()
}

impl<R: Wait> Link for Kept<R> {
    ghost use Rattle.std.specs.Prelude.{None, false};

    ghost faults = { λ k. k.tape.calls.faults };

    ghost exact = { false };

    ghost steady = { λ _. ⊥ };

    ghost wire = { λ _. None };

    ghost service = { λ _. None };

    fn send(&mut self, bytes: &[u8]) -> Result<(), LinkError> {
        match self.tape.send(bytes) {
            Ok(()) => {}
            Err(fault) => return Err(fault),
        }
        if keep(&self.rt, &self.sent, bytes) {
            Ok(())
        } else {
            Err(LinkError::OutOfMemory)
        }
    }

    fn recv(&mut self, buffer: &mut [u8]) -> Result<usize, LinkError> {
        self.tape.recv(buffer)
    }
}

/// A place for what will be sent, twice.
fn place(alloc: Global) -> Option<(Sent, Sent)> {
    let sent = Arc::new(alloc, Mutex::new(Vec::new(alloc))).ok()?;
    let theirs = Arc::try_clone(&sent).ok()?;
    Some((sent, theirs))
}

/// A link over which these bytes come, and what will have been sent over it.
pub(super) fn link_of<R: Wait + Copy>(
    rt: &R,
    alloc: Global,
    bytes: &[u8],
) -> Option<(Kept<R>, Sent)> {
    let (sent, theirs) = place(alloc)?;
    let bytes = Vec::from_slice(alloc, bytes).ok()?;
    let tape = TapeLink::new(alloc, bytes, Vec::new(alloc), Vec::new(alloc));
    let link = Kept {
        rt: *rt,
        tape,
        sent: theirs,
    };
    Some((link, sent))
}

/// Whether what was sent has this digest.
pub(super) fn sent_is<R: Wait>(rt: &R, sent: &Sent, wanted: &Digest) -> bool {
    let bytes = sent.lock(rt);
    digest_of(&bytes) == *wanted
}
