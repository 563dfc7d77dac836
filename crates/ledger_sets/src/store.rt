//! What batches of sets need of a log, full or compact.
ghost use Rattle.std.specs.Prelude.{◌≡◌, ◌+◌, ◌≤◌, ◌^◌, Err, MatchOption, IsOkUnless, IfOk, OnOk, OnErr, length};
ghost use Rattle.ledger_sets.specs.Meaning.{Meaning, Laws, refusal};

use ledger_chain::{Standing, State, state_behind, state_of};
use ledger_codec::OutOfMemory;
use ledger_compact::CompactLog;
use ledger_log::{ImmutableFamily, ImmutableOp, Log, LogFault};
use ledger_merkle::{Hasher, Peaks};
use std::alloc::Global;

/// A log of the family immutable to which batches of sets are applied.
pub trait SetLog {
    // What it means to batches.
    ghost meaning: { Meaning Self };

    /// Its size and root.
    fn known_state(&self) -> State
        ensures { result ≡ meaning.state self.now };

    /// Its size and the floor of its last commit.
    fn standing(&self) -> Standing
        ensures size { result.size ≡ (meaning.state self.now).size }
        ensures floor { result.floor ≡ meaning.floor self.now };

    /// The state that it has once these operations stand behind it.
    fn state_behind(&self, alloc: Global, ops: &[ImmutableOp]) -> Result<State, OutOfMemory>
        requires { (meaning.state self.now).size + length ops.now ≤ 2 ^ 62 }
        ensures { IfOk result (λ state. state ≡ meaning.state (meaning.behind self.now ops.now)) };

    /// Appends a batch: all of it or nothing.
    fn take_batch(&mut self, ops: &[ImmutableOp]) -> Result<(), LogFault>
        ensures refusal { MatchOption (refusal meaning self.old ops.now)
            (IsOkUnless result LogFault.OutOfMemory) (λ fault. result ≡ Err fault) }
        ensures ok { OnOk result (self.new ≡ meaning.behind self.old ops.now) }
        ensures err { OnErr result (self.new ≡ self.old) };

    ghost laws: { Laws meaning };
}

impl<H: Hasher> SetLog for Log<ImmutableFamily, H> {
    ghost use Rattle.ledger_sets.specs.Logs.{log_meaning, log_laws};

    ghost meaning = { log_meaning H.digest };

    fn known_state(&self) -> State {
        state_of(self)
    }

    fn standing(&self) -> Standing {
        Standing {
            size: self.size(),
            floor: self.floor(),
        }
    }

    fn state_behind(&self, alloc: Global, ops: &[ImmutableOp]) -> Result<State, OutOfMemory> {
        state_behind(alloc, self, ops)
    }

    fn take_batch(&mut self, ops: &[ImmutableOp]) -> Result<(), LogFault> {
        self.append_batch(ops)
    }

    ghost laws = { log_laws H.digest };
}

impl<H: Hasher> SetLog for CompactLog<ImmutableFamily, H> {
    ghost use Rattle.ledger_sets.specs.Logs.{compact_meaning, compact_laws};

    ghost meaning = { compact_meaning H.digest };

    fn known_state(&self) -> State {
        State {
            size: self.size(),
            root: self.root(),
        }
    }

    fn standing(&self) -> Standing {
        Standing {
            size: self.size(),
            floor: self.floor(),
        }
    }

    fn state_behind(&self, alloc: Global, ops: &[ImmutableOp]) -> Result<State, OutOfMemory> {
        let size = self.size().plus(ops.len() as u64);
        let peaks = peaks_of(alloc, self)?;
        let root = peaks.extended(ops)?.root();
        Ok(State { size, root })
    }

    fn take_batch(&mut self, ops: &[ImmutableOp]) -> Result<(), LogFault> {
        self.append_batch(ops)
    }

    ghost laws = { compact_laws H.digest };
}

/// The peaks of a log without its operations.
fn peaks_of<H: Hasher>(
    alloc: Global,
    log: &CompactLog<ImmutableFamily, H>,
) -> Result<Peaks<H>, OutOfMemory>
    ensures size { IfOk result (λ peaks. peaks.size ≡ log.now.size) }
    ensures nodes { IfOk result (λ peaks. peaks.nodes ≡ log.now.nodes) }
{
    let Ok(state) = log.state() else {
        return Err(OutOfMemory);
    };
    match Peaks::from_parts(alloc, state.leaf_count, state.pinned_nodes.into_vec()) {
        Some(peaks) => Ok(peaks),
        None => unreachable!(),
    }
}
