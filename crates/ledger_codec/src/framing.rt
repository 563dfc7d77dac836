//! Frames: a length and so many bytes.
ghost use Rattle.std.specs.Prelude.{◌≡◌, ◌≤◌, ◌++◌, List, ℕ, length, drop, IfOk, IfSome};
ghost use Rattle.ledger_codec.specs.Sequences.{string_written};
ghost use Rattle.ledger_codec.specs.Frames.{Whole, front, FrontIs, FrontAt};
ghost use Rattle.ledger_codec.specs.Tail.{IsTail};

use crate::fault::CodecError;
use crate::memory::OutOfMemory;
use crate::reader::Reader;
use crate::writer::Writer;
use std::alloc::Global;

/// Why no frame follows any more, or want of memory.
#[derive(Clone, Copy, Debug, PartialEq, Eq)]
pub enum FrameError {
    /// The length is no varint of 32 bits.
    BadLength,
    /// The length is above the limit.
    TooLong { found: u32 },
    /// Want of memory; the frame is still held.
    OutOfMemory,
}

/// The frame of a body of at most `MAX_MESSAGE_SIZE` bytes.
pub fn frame(alloc: Global, body: &[u8]) -> Result<Vec<u8>, OutOfMemory>
    requires { length body.now ≤ 10485760 }
    ensures written { IfOk result (λ bytes. bytes.items ≡ string_written body.now) }
    ensures again { IfOk result (λ bytes. (rest : List ℕ)
        → front 10485760 (bytes.items ++ rest) ≡ Whole body.now rest) }
{
    let mut out = Writer::with_capacity(alloc, body.len().saturating_add(LENGTH_BYTES))?;
    out.write_bytes(body)?;
    Ok(out.into_bytes())
}

/// The greatest number of bytes of a frame's length.
const LENGTH_BYTES: usize = 5;

/// The body of the frame at the front and the bytes after it, None where it isn't whole.
pub fn split_frame(limit: u32, bytes: &[u8]) -> Result<Option<(&[u8], &[u8])>, FrameError>
    ensures front { FrontIs (λ x. x.now) result (front limit bytes.now) }
    ensures tail { IfOk result (λ found. IfSome found (λ x. IsTail x.1.now bytes.now)) }
{
    let mut from = Reader::new(bytes);
    match from.read_varint32() {
        Ok(size) => {
            if size > limit {
                return Err(FrameError::TooLong { found: size });
            }
            let rest = from.left();
            let size = size as usize;
            if rest.len() < size {
                return Ok(None);
            }
            let (body, rest) = rest.split_at(size);
            Ok(Some((body, rest)))
        }
        Err(fault) => match fault {
            CodecError::EndOfBuffer => Ok(None),
            _ => Err(FrameError::BadLength),
        },
    }
}

/// The body of the frame from this place on and the place behind it, None where it isn't whole.
pub fn frame_at(limit: u32, bytes: &[u8], at: usize) -> Result<Option<(&[u8], usize)>, FrameError>
    requires { at ≤ length bytes.now }
    ensures front { FrontAt (λ x. x.now) result bytes.now (front limit (drop at bytes.now)) }
    ensures within { IfOk result (λ found. IfSome found (λ x. x.1 ≤ length bytes.now)) }
{
    let held = &bytes[at..];
    match split_frame(limit, held)? {
        None => Ok(None),
        Some((body, rest)) => Ok(Some((body, bytes.len() - rest.len()))),
    }
}
