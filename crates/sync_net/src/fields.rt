//! Fields of messages.
ghost use Rattle.std.specs.Prelude.{◌≡◌, ◌<◌, ◌++◌, ◌∷◌, [], OnOk, OnErr};
ghost use Rattle.ledger_codec.specs.Parsing.{Reads};
ghost use Rattle.ledger_codec.specs.Sequences.{size_of};
ghost use Rattle.ledger_codec.specs.Spelling.{Grows};
ghost use Rattle.sync_net.specs.Fields.{flag_at, flag_written, non_zero_at, code_of as code_named, code_at, code_number, pinned_at, pinned_written, PinnedFit};

use crate::code::ErrorCode;
use ledger_codec::{
    CodecError, Digest, List, MAX_PINNED_NODES, OutOfMemory, Reader, Writer, size_of_vec,
};
use std::alloc::Global;
use std::num::NonZeroU64;

/// The number of bytes of a number.
pub(crate) const NUMBER_SIZE: usize = 8;

/// Reads a flag, which is set exactly where its byte isn't 0.
pub(crate) fn read_flag(from: &mut Reader<'_>) -> Result<bool, CodecError>
    ensures { Reads result from.old from.new (flag_at from.old) }
{
    let byte = from.read_u8()?;
    Ok(byte != 0)
}

/// Appends a flag as 0 or 1.
pub(crate) fn write_flag(out: &mut Writer, set: bool) -> Result<(), OutOfMemory>
    ensures ok { OnOk result (out.new ≡ out.old ++ flag_written set) }
    ensures err { OnErr result (out.new ≡ out.old) }
{
    out.write_u8(u8::from(set))
}

/// Reads a number above 0, else `Invalid`.
pub(crate) fn read_non_zero(from: &mut Reader<'_>) -> Result<NonZeroU64, CodecError>
    ensures { Reads result from.old from.new (non_zero_at from.old) }
{
    let mut at = from.fork();
    let number = at.read_u64()?;
    match NonZeroU64::new(number) {
        Some(value) => {
            *from = at;
            Ok(value)
        }
        None => Err(CodecError::Invalid),
    }
}

/// The code of this byte.
fn code_of(tag: u8) -> Option<ErrorCode>
    ensures { result ≡ code_named tag }
{
    match tag {
        0 => Some(ErrorCode::InvalidRequest),
        1 => Some(ErrorCode::DatabaseError),
        2 => Some(ErrorCode::NetworkError),
        3 => Some(ErrorCode::StaleTarget),
        4 => Some(ErrorCode::Timeout),
        5 => Some(ErrorCode::InternalError),
        _ => None,
    }
}

/// The byte of this code.
pub(crate) fn byte_of(code: ErrorCode) -> u8
    ensures { result ≡ code_number code }
{
    match code {
        ErrorCode::InvalidRequest => 0,
        ErrorCode::DatabaseError => 1,
        ErrorCode::NetworkError => 2,
        ErrorCode::StaleTarget => 3,
        ErrorCode::Timeout => 4,
        ErrorCode::InternalError => 5,
    }
}

/// Reads a code, else `InvalidEnum`.
pub(crate) fn read_code(from: &mut Reader<'_>) -> Result<ErrorCode, CodecError>
    ensures { Reads result from.old from.new (code_at from.old) }
{
    let mut at = from.fork();
    let tag = at.read_u8()?;
    match code_of(tag) {
        Some(code) => {
            *from = at;
            Ok(code)
        }
        None => Err(CodecError::InvalidEnum { tag }),
    }
}

/// Reads a flag, and at most `MAX_PINNED_NODES` nodes where it is set.
pub(crate) fn read_pinned(
    alloc: Global,
    from: &mut Reader<'_>,
) -> Result<Option<List<Digest>>, CodecError>
    ensures { Reads result from.old from.new (pinned_at from.old) }
{
    let mut at = from.fork();
    if read_flag(&mut at)? {
        let nodes = List::from_vec(at.read_vec::<Digest>(alloc, MAX_PINNED_NODES)?);
        *from = at;
        return Ok(Some(nodes));
    }
    *from = at;
    Ok(None)
}

/// Appends a flag, and the nodes where there are any.
pub(crate) fn write_pinned(
    out: &mut Writer,
    pinned: &Option<List<Digest>>,
) -> Result<(), OutOfMemory>
    requires { PinnedFit pinned.now }
    ensures ok { OnOk result (out.new ≡ out.old ++ pinned_written pinned.now) }
    ensures err { OnErr result (Grows out.old out.new) }
{
    match pinned {
        None => out.write_u8(0),
        Some(nodes) => {
            out.write_u8(1)?;
            out.write_vec(nodes.as_slice())
        }
    }
}

/// The number of bytes of a flag and the nodes where there are any.
pub(crate) fn size_of_pinned(pinned: &Option<List<Digest>>) -> usize
    requires { PinnedFit pinned.now }
    ensures { result ≡ size_of (pinned_written pinned.now) }
{
    match pinned {
        None => 1,
        Some(nodes) => size_of_vec(nodes.as_slice()).saturating_add(1),
    }
}
