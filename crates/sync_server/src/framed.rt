//! Framed replies to framed requests.
ghost use Rattle.std.specs.Prelude.{◌≡◌, ◌<◌, [], length, IfOk, IfSome, MatchOption, is_some, true, None, option_and_then};
ghost use Rattle.ledger_codec.specs.Frames.{Whole, front};
ghost use Rattle.ledger_codec.specs.Sequences.{all_of, string_written};
ghost use Rattle.sync_net.specs.Messages.{message_at};
ghost use Rattle.sync_net.specs.Core.{data_of, reply_to, request_in, request_read, request_framed, nothing_at, asked};

use crate::mode::{FullMode, ServeMode};
use crate::sent::SentFamily;
use ledger_codec::{
    CodecError, List, MAX_MESSAGE_SIZE, OutOfMemory, Spell, Writer, decode, encode, split_frame,
};
use ledger_log::Log;
use ledger_merkle::Sha256Hasher;
use std::alloc::Global;
use sync_net::Message;

/// The framed reply to the request that these bytes spell as one frame, None to other bytes.
pub(crate) fn framed_reply<F: SentFamily>(
    alloc: Global,
    log: &Log<F, Sha256Hasher>,
    bytes: &[u8],
) -> Result<Option<List<u8>>, OutOfMemory>
where
    F::Op: Spell,
    ensures reply { IfOk result (λ reply. reply ≡ reply_to (data_of F.Op.spelling F.floor_of log.now)
        bytes.now) }
    ensures some { IfOk result (λ reply. IfSome reply (λ bytes. 0 < length bytes)) }
{
    match request_of::<F::Op>(alloc, bytes)? {
        None => Ok(None),
        Some(request) => {
            let reply = FullMode::reply(alloc, log, request)?;
            let body = encode(alloc, &reply)?;
            let frame = frame_of(alloc, &body)?;
            Ok(Some(frame))
        }
    }
}

/// The request that these bytes spell as one frame, None of other bytes.
fn request_of<Op: Spell>(alloc: Global, bytes: &[u8]) -> Result<Option<Message<Op>>, OutOfMemory>
    ensures asked { IfOk result (λ found. asked bytes.now ≡ option_and_then request_in found) }
    ensures request { IfOk result (λ found. IfSome found (λ m. is_some (request_in m) ≡ true)) }
{
    match body_of(bytes) {
        Some(body) => request_in_body(alloc, body),
        None => Ok(None),
    }
}

/// The body of the frame that is all of these bytes.
fn body_of(bytes: &[u8]) -> Option<&[u8]>
    ensures { MatchOption result (asked bytes.now ≡ None)
        (λ body. front 10485760 bytes.now ≡ Whole body.now []) }
{
    match split_frame(MAX_MESSAGE_SIZE, bytes) {
        Ok(Some((body, rest))) => {
            if rest.len() > 0 {
                return None;
            }
            Some(body)
        }
        Ok(None) => None,
        Err(_) => None,
    }
}

/// The request that a frame's body spells, None of another message and of none.
fn request_in_body<Op: Spell>(
    alloc: Global,
    body: &[u8],
) -> Result<Option<Message<Op>>, OutOfMemory>
    ensures read { IfOk result (λ found.
        request_read (all_of (message_at nothing_at) body.now) ≡ option_and_then request_in found) }
    ensures request { IfOk result (λ found. IfSome found (λ m. is_some (request_in m) ≡ true)) }
{
    match decode::<Message<Op>>(alloc, body) {
        Ok(message) => {
            if is_request(&message) {
                return Ok(Some(message));
            }
            Ok(None)
        }
        Err(fault) => match fault {
            CodecError::OutOfMemory => Err(OutOfMemory),
            _ => Ok(None),
        },
    }
}

/// Whether a message is a request.
fn is_request<Op>(message: &Message<Op>) -> bool
    ensures { result ≡ is_some (request_in message.now) }
{
    match message {
        Message::GetOperationsRequest(_) => true,
        Message::GetOperationsResponse(_) => false,
        Message::GetSyncTargetRequest(_) => true,
        Message::GetSyncTargetResponse(_) => false,
        Message::GetCompactTargetRequest(_) => true,
        Message::GetCompactTargetResponse(_) => false,
        Message::GetCompactStateRequest(_) => true,
        Message::GetCompactStateResponse(_) => false,
        Message::Error(_) => false,
    }
}

/// The frame of these bytes, whatever their number.
fn frame_of(alloc: Global, body: &[u8]) -> Result<List<u8>, OutOfMemory>
    ensures { IfOk result (λ frame. frame ≡ string_written body.now) }
{
    let mut out = Writer::new(alloc);
    out.write_varint64(body.len() as u64)?;
    out.write_slice(body)?;
    Ok(List::from_vec(out.into_bytes()))
}
