//! What adding batches needs of a log, full or compact.
ghost use Rattle.std.specs.Prelude.{◌≡◌, ℕ, ◌+◌, ◌<◌, ◌≤◌, ◌^◌, List, Some, None, length, IsOkUnless, OnOk, OnErr};
ghost use Rattle.ledger_log.specs.View.{batch_floor};
ghost use Rattle.ledger_examples.specs.Batches.{batches_of, first_refusal, with_batches};

use crate::adding::{extend_compact, extend_log};
use ledger_codec::Digest;
use ledger_compact::CompactLog;
use ledger_log::{CompactFamily, Family, Log, LogFault};
use ledger_merkle::{Hasher, Location};

/// A log to which batches are appended: full or compact.
pub trait BatchStore<F: Family>: Drop {
    // Its number of operations.
    ghost size_of: { Self → ℕ };

    // The floor of its last commit.
    ghost last_floor_of: { Self → ℕ };

    // The root over all operations.
    ghost root_of: { Self → List ℕ };

    // The log with a batch appended.
    ghost appended: { Self → List F.Op → Self };

    /// Its number of operations.
    fn count(&self) -> Location
        ensures count { result ≡ size_of self.now }
        ensures most { size_of self.now ≤ 2 ^ 62 };

    /// The floor of its last commit.
    fn last_floor(&self) -> Location
        ensures { result ≡ last_floor_of self.now };

    /// The root over all operations.
    fn digest(&self) -> Digest
        ensures { result ≡ root_of self.now };

    /// Appends operations, each run up to a commit as one batch, where the log takes all these batches: all of
    /// them or, where memory is refused, none. It costs what is appended.
    fn take_batches(&mut self, ops: &[F::Op]) -> Result<(), LogFault>
        requires { first_refusal F.floor_of (size_of self.old) (last_floor_of self.old)
            (batches_of F.floor_of ops.now)
            ≡ None }
        ensures may { IsOkUnless result LogFault.OutOfMemory }
        ensures ok { OnOk result (self.new ≡ with_batches appended self.old
            (batches_of F.floor_of ops.now)) }
        ensures err { OnErr result (self.new ≡ self.old) };

    // A batch adds its operations, and its floor is the last.
    ghost size_after: { (log : Self) (ops : List F.Op) → size_of (appended log ops) ≡ size_of log + length ops };

    ghost floor_after: { (log : Self) (ops : List F.Op) (floor : ℕ) → batch_floor F.floor_of ops ≡ Some floor → last_floor_of (appended log ops) ≡ floor };
}

impl<F: Family, H: Hasher> BatchStore<F> for Log<F, H> {
    ghost use Rattle.ledger_log.specs.View.{log_size, log_floor, log_root};
    ghost use Rattle.ledger_compact.specs.View.{with_ops};
    ghost use Rattle.ledger_examples.specs.Laws.{log_size_after, log_floor_after};

    ghost size_of = { log_size };

    ghost last_floor_of = { log_floor F.floor_of };

    ghost root_of = { log_root H.digest F.Op.spelling };

    ghost appended = { with_ops };

    fn count(&self) -> Location {
        self.size()
    }

    fn last_floor(&self) -> Location {
        self.floor()
    }

    fn digest(&self) -> Digest {
        self.root()
    }

    fn take_batches(&mut self, ops: &[F::Op]) -> Result<(), LogFault> {
        extend_log(self, ops)
    }

    ghost size_after = { log_size_after };

    ghost floor_after = { log_floor_after F.floor_of };
}

impl<F: CompactFamily, H: Hasher> BatchStore<F> for CompactLog<F, H> {
    ghost use Rattle.ledger_log.specs.View.{floor_or_zero};
    ghost use Rattle.ledger_compact.specs.View.{compact_root, with_batch};
    ghost use Rattle.ledger_examples.specs.Laws.{compact_size_after, compact_floor_after};

    ghost size_of = { λ log. log.size };

    ghost last_floor_of = { λ log. floor_or_zero (F.floor_of log.last) };

    ghost root_of = { compact_root H.digest };

    ghost appended = { with_batch H.digest F.Op.spelling };

    fn count(&self) -> Location {
        self.size()
    }

    fn last_floor(&self) -> Location {
        self.floor()
    }

    fn digest(&self) -> Digest {
        self.root()
    }

    fn take_batches(&mut self, ops: &[F::Op]) -> Result<(), LogFault> {
        extend_compact(self, ops)
    }

    ghost size_after = { compact_size_after H.digest F.Op.spelling };

    ghost floor_after = { compact_floor_after H.digest F.Op.spelling F.floor_of };
}
