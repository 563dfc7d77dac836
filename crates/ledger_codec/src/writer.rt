//! A writer of bytes.
ghost use Rattle.std.specs.Prelude.{◌≡◌, ◌≤◌, ◌++◌, ◌∷◌, [], OnOk, OnErr, length, take, IfOk};
ghost use Rattle.std.specs.Int.{w64, to_be_bytes};
ghost use Rattle.ledger_codec.specs.Numbers.{varint};

use crate::memory::OutOfMemory;
use std::alloc::{AllocError, Global};
use std::marker::Model;

/// Appends values to bytes. Contracts see the bytes that were written so far. A refused write of a number
/// or of a slice leaves them as they were.
#[derive(Drop)]
pub struct Writer {
    bytes: Vec<u8>,
}

impl Model for Writer {
    ghost use Rattle.std.specs.Prelude.{List, ℕ};

    ghost Value = { List ℕ };

    ghost view = { λ w. w.bytes.items };
}

impl Writer {
    /// No bytes.
    pub fn new(alloc: Global) -> Writer
        ensures { result ≡ [] }
    {
        Writer {
            bytes: Vec::new(alloc),
        }
    }

    /// No bytes, with room for so many.
    pub fn with_capacity(alloc: Global, capacity: usize) -> Result<Writer, OutOfMemory>
        ensures { IfOk result (λ writer. writer ≡ []) }
    {
        let bytes = Vec::with_capacity(alloc, capacity)?;
        Ok(Writer { bytes })
    }

    /// What was written so far.
    pub fn bytes(&self) -> &[u8]
        ensures { result.now ≡ self.now }
    {
        &self.bytes
    }

    /// What was written, as a `Vec`.
    pub fn into_bytes(self) -> Vec<u8>
        ensures { result.items ≡ self }
    {
        let Writer { bytes } = self;
        bytes
    }

    /// Appends the byte.
    pub fn write_u8(&mut self, value: u8) -> Result<(), OutOfMemory>
        ensures ok { OnOk result (self.new ≡ self.old ++ value ∷ []) }
        ensures err { OnErr result (self.new ≡ self.old) }
    {
        self.bytes.push(value)?;
        Ok(())
    }

    /// Appends eight bytes, the greatest first.
    pub fn write_u64(&mut self, value: u64) -> Result<(), OutOfMemory>
        ensures ok { OnOk result (self.new ≡ self.old ++ to_be_bytes w64 value) }
        ensures err { OnErr result (self.new ≡ self.old) }
    {
        self.write_slice(&value.to_be_bytes())
    }

    /// Appends the varint of the number.
    pub fn write_varint32(&mut self, value: u32) -> Result<(), OutOfMemory>
        ensures ok { OnOk result (self.new ≡ self.old ++ varint value) }
        ensures err { OnErr result (self.new ≡ self.old) }
    {
        self.write_varint64(u64::from(value))
    }

    /// Appends the varint of the number.
    pub fn write_varint64(&mut self, value: u64) -> Result<(), OutOfMemory>
        ensures ok { OnOk result (self.new ≡ self.old ++ varint value) }
        ensures err { OnErr result (self.new ≡ self.old) }
    {
        let mut varint = [0; VARINT_BYTES];
        let end = put_varint(&mut varint, value);
        self.write_slice(&varint[..end])
    }

    /// Appends these bytes, without a length.
    pub fn write_slice(&mut self, bytes: &[u8]) -> Result<(), OutOfMemory>
        ensures ok { OnOk result (self.new ≡ self.old ++ bytes.now) }
        ensures err { OnErr result (self.new ≡ self.old) }
    {
        self.bytes.extend_from_slice(bytes)?;
        Ok(())
    }
}

/// The greatest number of bytes of a varint.
const VARINT_BYTES: usize = 10;

/// Puts the varint of a number at the front, and answers the number of its bytes.
fn put_varint(out: &mut [u8; VARINT_BYTES], value: u64) -> usize
    ensures bytes { take result out.new ≡ varint value }
    ensures most { result ≤ 10 }
{
    let mut end = 0;
    let mut rest = value;
    while rest >= 128 {
        out[end] = (rest % 128) as u8 + 128;
        end += 1;
        rest /= 128;
    }
    out[end] = rest as u8;
    end + 1
}

/// The number of bytes of a number's varint.
pub fn size_of_varint(value: u64) -> usize
    ensures size { result ≡ length (varint value) }
    ensures most { result ≤ 10 }
{
    put_varint(&mut [0; VARINT_BYTES], value)
}
