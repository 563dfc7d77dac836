//! The next message that comes over a link.
ghost use Rattle.std.specs.Prelude.{◌≡◌, ◌<◌, ◌≤◌, length, OnOk, IfOk};
ghost use Rattle.sync_sessions.specs.Hearing.{message_of, frame_of, Next, Stepped};
ghost use Rattle.sync_sessions.specs.Steps.{Finds, Takes, Receives};

use crate::ending::SessionEnd;
use ledger_codec::{CodecError, FrameError, Framer, Spell, decode};
use std::alloc::Global;
use std::sync::Wait;
use sync_net::{Link, LinkError};

/// How many bytes are asked of a link at once.
pub(crate) const BUFFER_SIZE: usize = 4096;

/// What stands first among the bytes that are held.
#[derive(Drop)]
pub(crate) enum Found<M> {
    /// A frame whose body spells this message.
    Sent(M),
    /// A frame whose body spells none.
    Other,
    /// The beginning of a frame, or nothing.
    Part,
}

/// The message that a frame's body spells, if it spells one.
fn found_in<M: Spell>(alloc: Global, body: &[u8]) -> Result<Found<M>, SessionEnd>
    ensures { Finds (message_of M.reading) result body.now }
{
    match decode::<M>(alloc, body) {
        Ok(message) => Ok(Found::Sent(message)),
        Err(fault) => match fault {
            CodecError::OutOfMemory => Err(SessionEnd::OutOfMemory),
            _ => Ok(Found::Other),
        },
    }
}

/// Takes what stands first.
fn take_first<M: Spell>(alloc: Global, frames: &mut Framer) -> Result<Found<M>, SessionEnd>
    ensures limit { OnOk result (frames.new.limit ≡ frames.old.limit) }
    ensures takes { Takes (message_of M.reading) result frames.old frames.new }
{
    match frames.next_frame() {
        Ok(Some(body)) => found_in(alloc, &body),
        Ok(None) => Ok(Found::Part),
        Err(FrameError::OutOfMemory) => Err(SessionEnd::OutOfMemory),
        Err(_) => Err(SessionEnd::BrokenFrame),
    }
}

/// Receives the next bytes, which are held too.
fn receive<L: Link>(frames: &mut Framer, link: &mut L, buffer: &mut [u8]) -> Result<(), SessionEnd>
    requires room { 0 < length buffer.old }
    ensures limit { OnOk result (frames.new.limit ≡ frames.old.limit) }
    ensures later { L.faults link.old ≤ L.faults link.new }
    ensures receives { Receives result frames.old.bytes frames.new.bytes
        (L.wire link.old) (L.wire link.new) (L.faults link.old) (L.faults link.new) }
{
    match link.recv(buffer) {
        Ok(0) => {
            if frames.rest() == 0 {
                return Err(SessionEnd::Done);
            }
            Err(SessionEnd::BrokenFrame)
        }
        Ok(count) => match frames.feed(&buffer[..count]) {
            Ok(()) => Ok(()),
            Err(_) => Err(SessionEnd::OutOfMemory),
        },
        Err(LinkError::Failed) => Err(SessionEnd::Network),
        Err(LinkError::OutOfMemory) => Err(SessionEnd::OutOfMemory),
    }
}

/// Takes what stands first, or receives where it isn't whole.
fn step<M: Spell, L: Link>(
    alloc: Global,
    frames: &mut Framer,
    link: &mut L,
    buffer: &mut [u8],
) -> Result<Option<M>, SessionEnd>
    requires limit { frames.old.limit ≡ 10485760 }
    requires room { 0 < length buffer.old }
    ensures limit { OnOk result (frames.new.limit ≡ 10485760) }
    ensures later { L.faults link.old ≤ L.faults link.new }
    ensures stepped { Stepped (message_of M.reading) (frame_of M.written) result frames.old.bytes
        frames.new.bytes (L.wire link.old) (L.wire link.new) (L.faults link.old) (L.faults link.new) }
{
    match take_first(alloc, frames) {
        Ok(Found::Sent(message)) => return Ok(Some(message)),
        Ok(Found::Other) => return Ok(None),
        Ok(Found::Part) => {}
        Err(end) => return Err(end),
    }
    match receive(frames, link, buffer) {
        Ok(()) => Ok(None),
        Err(end) => Err(end),
    }
}

/// Waits for the next message.
pub(crate) fn next_message<R: Wait, M: Spell, L: Link>(
    rt: &R,
    alloc: Global,
    frames: &mut Framer,
    link: &mut L,
    buffer: &mut [u8],
) -> Result<M, SessionEnd>
    requires limit { frames.old.limit ≡ 10485760 }
    requires room { 0 < length buffer.old }
    ensures limit { OnOk result (frames.new.limit ≡ 10485760) }
    ensures later { L.faults link.old ≤ L.faults link.new }
    ensures next { Next (message_of M.reading) (frame_of M.written) result frames.old.bytes frames.new.bytes
        (L.wire link.old) (L.wire link.new) (L.faults link.old) (L.faults link.new) }
{
    for _ in rt.forever() {
        match step(alloc, frames, link, buffer) {
            Ok(Some(message)) => return Ok(message),
            Ok(None) => {}
            Err(end) => return Err(end),
        }
    }
    unreachable!()
}
