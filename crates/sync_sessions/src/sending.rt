//! Replies as frames over a link.
ghost use Rattle.std.specs.Prelude.{◌≡◌, ◌≤◌, IfOk};
ghost use Rattle.sync_sessions.specs.Hearing.{frame_of};
ghost use Rattle.sync_sessions.specs.Replying.{Sends};

use crate::ending::{SessionEnd, end_of};
use ledger_codec::{List, OutOfMemory, Spell, Writer, encode};
use std::alloc::Global;
use sync_net::Link;

/// The greatest number of bytes of a frame's length.
const LENGTH_BYTES: usize = 10;

/// The frame of a message.
fn framed<M: Spell>(alloc: Global, message: &M) -> Result<List<u8>, OutOfMemory>
    requires { M.fits message.now }
    ensures { IfOk result (λ frame. frame ≡ frame_of M.written message.now) }
{
    let body = encode(alloc, message)?;
    let mut out = Writer::with_capacity(alloc, body.len().saturating_add(LENGTH_BYTES))?;
    out.write_varint64(body.len() as u64)?;
    out.write_slice(&body)?;
    Ok(List::from_vec(out.into_bytes()))
}

/// Sends a message as one frame.
pub(crate) fn send_message<M: Spell, L: Link>(
    alloc: Global,
    link: &mut L,
    message: &M,
) -> Result<(), SessionEnd>
    requires { M.fits message.now }
    ensures later { L.faults link.old ≤ L.faults link.new }
    ensures sends { Sends (frame_of M.written) result message.now
        (L.wire link.old) (L.wire link.new) (L.faults link.old) (L.faults link.new) }
{
    let Ok(frame) = framed(alloc, message) else {
        return Err(SessionEnd::OutOfMemory);
    };
    match link.send(frame.as_slice()) {
        Ok(()) => Ok(()),
        Err(fault) => Err(end_of(fault)),
    }
}
