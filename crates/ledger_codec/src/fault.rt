//! Why bytes could not be read.
ghost use Rattle.std.specs.Prelude.{◌≡◌};
ghost use Rattle.ledger_codec.specs.declared.fault.CodecError.TheVariants.{OutOfMemory as wanting};

use crate::memory::OutOfMemory;
use std::alloc::{AllocError, AllocFailed};

/// The first offence in reading order, or want of memory.
#[derive(Clone, Copy, Debug, PartialEq, Eq)]
pub enum CodecError {
    /// The bytes end inside a value.
    EndOfBuffer,
    /// A varint is longer than it needs, or passes its width.
    InvalidVarint,
    /// A length or a count is above its limit.
    InvalidLength { found: u64, limit: u64 },
    /// No case of an enum has this byte.
    InvalidEnum { tag: u8 },
    /// A value that its type doesn't have.
    Invalid,
    /// Bytes are left after the value.
    ExtraData { rest: usize },
    /// Want of memory.
    OutOfMemory,
}

impl From<OutOfMemory> for CodecError {
    ghost from_gives = { λ _ fault. fault ≡ wanting };

    fn from(_error: OutOfMemory) -> CodecError {
        CodecError::OutOfMemory
    }
}

impl From<AllocError> for CodecError {
    ghost from_gives = { λ _ fault. fault ≡ wanting };

    fn from(_error: AllocError) -> CodecError {
        CodecError::OutOfMemory
    }
}

impl<T: Drop> From<AllocFailed<T>> for CodecError {
    ghost from_gives = { λ _ fault. fault ≡ wanting };

    fn from(_error: AllocFailed<T>) -> CodecError {
        CodecError::OutOfMemory
    }
}
