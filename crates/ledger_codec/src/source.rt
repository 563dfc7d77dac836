//! Where bytes come from.
ghost use Rattle.std.specs.Prelude.{◌≡◌, ◌≤◌, List, ℕ, Some, length, min, take, vec_len};
ghost use Rattle.std.specs.declared.option.Option.{Option};
ghost use Rattle.std.specs.Io.{ReadsAtMost};
ghost use Rattle.std.specs.Io.KnownBytes.{ReadConsumes};
ghost use Rattle.ledger_codec.specs.Causes.{HasCause};

use std::io::Read;

/// A read that failed.
#[derive(Clone, Copy, Debug, PartialEq, Eq)]
pub struct SourceFailed;

/// A stream of bytes that are read from its front.
pub trait Source {
    /// The bytes that are left, where the source tells them.
    ghost left: { Self → Option (List ℕ) };

    /// How often a read has failed.
    ghost faults: { Self → ℕ };

    /// Reads the next bytes; 0 bytes of a buffer that isn't empty are the end.
    fn read(&mut self, buffer: &mut [u8]) -> Result<usize, SourceFailed>
        ensures bound { ReadsAtMost result buffer.new }
        ensures bytes { ReadConsumes (left self.old) (left self.new) result buffer.new }
        ensures cause { HasCause (faults self.old) (faults self.new) result };
}

/// Any reader of std as a source. It counts the reads that failed.
#[derive(Drop)]
pub struct Reading<R: Read> {
    inner: R,
    faults: u64,
}

impl<R: Read> Reading<R> {
    ghost use Rattle.std.specs.Prelude.{◌≡◌};
    ghost use Rattle.ledger_codec.specs.Memory.{reading_inner, reading_faults};

    /// A source over this reader, none of whose reads has failed yet.
    pub fn new(inner: R) -> Reading<R>
        ensures inner { reading_inner result ≡ inner }
        ensures faults { reading_faults result ≡ 0 }
    {
        Reading { inner, faults: 0 }
    }
}

impl<R: Read> Source for Reading<R> {
    ghost use Rattle.std.specs.Prelude.{◌≡◌, OnOk};
    ghost use Rattle.std.specs.Io.{ReadsAtMost};
    ghost use Rattle.std.specs.Io.KnownBytes.{ReadConsumes};
    ghost use Rattle.ledger_codec.specs.Causes.{HasCause};

    ghost left = { λ s. R.remaining s.inner };

    ghost faults = { λ s. s.faults };

    fn read(&mut self, buffer: &mut [u8]) -> Result<usize, SourceFailed>
        ensures bound { ReadsAtMost result buffer.new }
        ensures bytes { ReadConsumes (R.remaining self.old.inner) (R.remaining self.new.inner) result
            buffer.new }
        ensures cause { HasCause self.old.faults self.new.faults result }
        ensures steady { OnOk result (self.new.faults ≡ self.old.faults) }
    {
        match self.inner.read(buffer) {
            Ok(count) => Ok(count),
            Err(_) => {
                self.faults = self.faults.saturating_add(1);
                Err(SourceFailed)
            }
        }
    }
}

/// Bytes in memory. The reads whose numbers are listed fail, counted from 0.
#[derive(Debug, Drop)]
pub struct MemorySource {
    bytes: Vec<u8>,
    at: usize,
    calls: u64,
    failing: Vec<u64>,
    faults: u64,
    ghost in_bytes: { at ≤ vec_len bytes },
}

impl MemorySource {
    ghost use Rattle.std.specs.Prelude.{◌≡◌};
    ghost use Rattle.ledger_codec.specs.Memory.{source_bytes, source_calls, source_failing};

    /// A source that holds these bytes and whose calls with the numbers in `failing` fail.
    pub fn new(bytes: Vec<u8>, failing: Vec<u64>) -> MemorySource
        ensures bytes { source_bytes result ≡ bytes.items }
        ensures calls { source_calls result ≡ 0 }
        ensures failing { source_failing result ≡ failing.items }
    {
        MemorySource {
            bytes,
            at: 0,
            calls: 0,
            failing,
            faults: 0,
        }
    }
}

impl Source for MemorySource {
    ghost use Rattle.std.specs.Prelude.{◌≡◌, Some, OnOk, is_err};
    ghost use Rattle.std.specs.Io.{ReadsAtMost};
    ghost use Rattle.std.specs.Io.KnownBytes.{ReadConsumes};
    ghost use Rattle.ledger_codec.specs.Causes.{HasCause};
    ghost use Rattle.ledger_codec.specs.Memory.{source_bytes, source_calls, source_failing, is_among, next_call};

    ghost left = { λ s. Some (source_bytes s) };

    ghost faults = { λ s. s.faults };

    fn read(&mut self, buffer: &mut [u8]) -> Result<usize, SourceFailed>
        ensures bound { ReadsAtMost result buffer.new }
        ensures bytes { ReadConsumes (Some (source_bytes self.old)) (Some (source_bytes self.new)) result
            buffer.new }
        ensures cause { HasCause self.old.faults self.new.faults result }
        ensures fails { is_err result ≡ is_among (source_calls self.old) (source_failing self.old) }
        ensures steady { OnOk result (self.new.faults ≡ self.old.faults) }
        ensures calls { source_calls self.new ≡ next_call (source_calls self.old) }
        ensures failing { source_failing self.new ≡ source_failing self.old }
    {
        let call = self.calls;
        self.calls = self.calls.saturating_add(1);
        if self.failing.contains(&call) {
            self.faults = self.faults.saturating_add(1);
            return Err(SourceFailed);
        }
        let count = copy_front(&self.bytes[self.at..], buffer);
        self.at += count;
        Ok(count)
    }
}

/// Copies as many first bytes as there is room for, and answers how many.
fn copy_front(from: &[u8], buffer: &mut [u8]) -> usize
    ensures count { result ≡ min (length from.now) (length buffer.old) }
    ensures bytes { take result buffer.new ≡ take result from.now }
{
    let count = from.len().min(buffer.len());
    buffer[..count].copy_from_slice(&from[..count]);
    count
}
