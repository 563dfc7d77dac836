//! Where bytes go.
ghost use Rattle.std.specs.Prelude.{◌≡◌, List, ℕ, Bool, Some, length, ◌<◌, IsErrOf, IsTrue};
ghost use Rattle.std.specs.declared.option.Option.{Option};
ghost use Rattle.std.specs.Io.{WritesAtMost};
ghost use Rattle.std.specs.Io.KnownBytes.{WriteAppends};
ghost use Rattle.ledger_codec.specs.Causes.{HasCauseOf};
ghost use Rattle.ledger_codec.specs.declared.sink.SinkError.TheVariants.{Failed, OutOfMemory as memory_wanting};
ghost use Rattle.std.specs.Prelude.{IfOk};

use std::alloc::{AllocError, Global};
use std::io::Write;

/// Why a write took nothing.
#[derive(Clone, Copy, Debug, PartialEq, Eq)]
pub enum SinkError {
    /// The sink's own fault; its count rose.
    Failed,
    /// Want of memory.
    OutOfMemory,
}

/// A stream to which bytes are appended.
pub trait Sink {
    /// What was written, where the sink tells it.
    ghost written: { Self → Option (List ℕ) };

    /// How often a write has failed.
    ghost faults: { Self → ℕ };

    /// Whether a write may want memory.
    ghost grows: { Bool };

    /// Appends as many first bytes as it answers, at least one of a piece that isn't empty.
    fn write(&mut self, bytes: &[u8]) -> Result<usize, SinkError>
        ensures bound { WritesAtMost result bytes.now }
        ensures progress { IfOk result (λ n. 0 < length bytes.now → 0 < n) }
        ensures bytes { WriteAppends (written self.old) (written self.new) result bytes.now }
        ensures cause { HasCauseOf Failed (faults self.old) (faults self.new) result }
        ensures memory { IsErrOf result memory_wanting → IsTrue grows };
}

/// Any writer of std as a sink. It counts the writes that failed or took nothing.
#[derive(Drop)]
pub struct Writing<W: Write> {
    inner: W,
    faults: u64,
}

impl<W: Write> Writing<W> {
    ghost use Rattle.std.specs.Prelude.{◌≡◌};
    ghost use Rattle.ledger_codec.specs.Memory.{writing_inner, writing_faults};

    /// A sink over this writer, none of whose writes has failed yet.
    pub fn new(inner: W) -> Writing<W>
        ensures inner { writing_inner result ≡ inner }
        ensures faults { writing_faults result ≡ 0 }
    {
        Writing { inner, faults: 0 }
    }
}

impl<W: Write> Sink for Writing<W> {
    ghost use Rattle.std.specs.Prelude.{◌≡◌, ◌<◌, false, IfOk, OnOk, IsErrOf, IsTrue, length};
    ghost use Rattle.std.specs.Io.{WritesAtMost};
    ghost use Rattle.std.specs.Io.KnownBytes.{WriteAppends};
    ghost use Rattle.ledger_codec.specs.Causes.{HasCauseOf};
    ghost use Rattle.ledger_codec.specs.declared.sink.SinkError.TheVariants.{OutOfMemory};

    ghost written = { λ s. W.contents s.inner };

    ghost faults = { λ s. s.faults };

    ghost grows = { false };

    fn write(&mut self, bytes: &[u8]) -> Result<usize, SinkError>
        ensures bound { WritesAtMost result bytes.now }
        ensures progress { IfOk result (λ n. 0 < length bytes.now → 0 < n) }
        ensures bytes { WriteAppends (W.contents self.old.inner) (W.contents self.new.inner) result
            bytes.now }
        ensures cause { HasCauseOf Failed self.old.faults self.new.faults result }
        ensures memory { IsErrOf result OutOfMemory → IsTrue false }
        ensures steady { OnOk result (self.new.faults ≡ self.old.faults) }
    {
        match self.inner.write(bytes) {
            Ok(count) if count > 0 || bytes.is_empty() => Ok(count),
            _ => {
                self.faults = self.faults.saturating_add(1);
                Err(SinkError::Failed)
            }
        }
    }
}

/// A list of bytes in memory. The writes whose numbers are listed fail, counted from 0.
#[derive(Debug, Drop)]
pub struct MemorySink {
    bytes: Vec<u8>,
    calls: u64,
    failing: Vec<u64>,
    faults: u64,
}

impl MemorySink {
    ghost use Rattle.std.specs.Prelude.{◌≡◌, []};
    ghost use Rattle.ledger_codec.specs.Memory.{sink_bytes, sink_calls, sink_failing};

    /// A sink that holds nothing yet and whose calls with the numbers in `failing` fail.
    pub fn new(alloc: Global, failing: Vec<u64>) -> MemorySink
        ensures bytes { sink_bytes result ≡ [] }
        ensures calls { sink_calls result ≡ 0 }
        ensures failing { sink_failing result ≡ failing.items }
    {
        MemorySink {
            bytes: Vec::new(alloc),
            calls: 0,
            failing,
            faults: 0,
        }
    }

    /// What was written, in order.
    pub fn bytes(&self) -> &[u8]
        ensures { result.now ≡ sink_bytes self.now }
    {
        &self.bytes
    }
}

impl Sink for MemorySink {
    ghost use Rattle.std.specs.Prelude.{◌≡◌, ◌<◌, ◌↔◌, Some, true, IfOk, IsErrOf, IsTrue, length};
    ghost use Rattle.std.specs.Io.{WritesAtMost};
    ghost use Rattle.std.specs.Io.KnownBytes.{WriteAppends};
    ghost use Rattle.ledger_codec.specs.Causes.{HasCauseOf};
    ghost use Rattle.ledger_codec.specs.Memory.{sink_bytes, sink_calls, sink_failing, is_among, next_call};
    ghost use Rattle.ledger_codec.specs.declared.sink.SinkError.TheVariants.{OutOfMemory};

    ghost written = { λ s. Some (sink_bytes s) };

    ghost faults = { λ s. s.faults };

    ghost grows = { true };

    fn write(&mut self, bytes: &[u8]) -> Result<usize, SinkError>
        ensures bound { WritesAtMost result bytes.now }
        ensures progress { IfOk result (λ n. 0 < length bytes.now → 0 < n) }
        ensures bytes { WriteAppends (Some (sink_bytes self.old)) (Some (sink_bytes self.new)) result
            bytes.now }
        ensures cause { HasCauseOf Failed self.old.faults self.new.faults result }
        ensures memory { IsErrOf result OutOfMemory → IsTrue true }
        ensures fails { IsErrOf result Failed ↔ IsTrue
            (is_among (sink_calls self.old) (sink_failing self.old)) }
        ensures steady { (IsErrOf result Failed → ⊥) → self.new.faults ≡ self.old.faults }
        ensures calls { sink_calls self.new ≡ next_call (sink_calls self.old) }
        ensures failing { sink_failing self.new ≡ sink_failing self.old }
    {
        let call = self.calls;
        self.calls = self.calls.saturating_add(1);
        if self.failing.contains(&call) {
            self.faults = self.faults.saturating_add(1);
            return Err(SinkError::Failed);
        }
        match self.bytes.extend_from_slice(bytes) {
            Ok(()) => Ok(bytes.len()),
            Err(AllocError) => Err(SinkError::OutOfMemory),
        }
    }
}
