//! The families of batches that raise the floor, and the roots that their databases show.
ghost use Rattle.std.specs.Prelude.{◌≡◌, ℕ, ◌+◌, ◌≤◌, ◌^◌, List, length, IfOk};
ghost use Rattle.ledger_log.specs.View.{LogView, log_size, log_root};
ghost use Rattle.ledger_compact.specs.View.{with_ops};

use ledger_activity::{CurrentFamily, current_root_behind};
use ledger_codec::{Digest, OutOfMemory};
use ledger_log::{AnyFamily, AnyOp, Log};
use ledger_merkle::Hasher;
use ledger_raising::RaisingFamily;
use std::alloc::Global;

/// A family whose databases batches are sealed over.
pub trait BatchFamily: RaisingFamily {
    // The root that a database shows, under a digest function.
    ghost shown_of: { (List ℕ → List ℕ) → LogView Self.Op → List ℕ };

    /// The root that the database shows once these operations stand behind it, which makes `ops_root` the root over
    /// its operations.
    fn shown_behind<H: Hasher>(
        alloc: Global,
        db: &Log<Self, H>,
        more: &[Self::Op],
        ops_root: &Digest,
    ) -> Result<Digest, OutOfMemory>
        requires room { log_size db.now + length more.now ≤ 2 ^ 62 }
        requires root { ops_root.now ≡ log_root H.digest Self.Op.spelling (with_ops db.now more.now) }
        ensures { IfOk result (λ root. root ≡ shown_of H.digest (with_ops db.now more.now)) };
}

impl BatchFamily for AnyFamily {
    ghost use Rattle.ledger_log.specs.Any.{any_spelling};
    ghost use Rattle.ledger_log.specs.View.{log_root};

    ghost shown_of = { λ hash log. log_root hash any_spelling log };

    fn shown_behind<H: Hasher>(
        _alloc: Global,
        _db: &Log<AnyFamily, H>,
        _more: &[AnyOp],
        ops_root: &Digest,
    ) -> Result<Digest, OutOfMemory> {
        Ok(*ops_root)
    }
}

impl BatchFamily for CurrentFamily {
    ghost use Rattle.ledger_batches.specs.Shown.{current_root};

    ghost shown_of = { current_root };

    fn shown_behind<H: Hasher>(
        alloc: Global,
        db: &Log<CurrentFamily, H>,
        more: &[AnyOp],
        ops_root: &Digest,
    ) -> Result<Digest, OutOfMemory> {
        current_root_behind(alloc, db, more, ops_root)
    }
}
