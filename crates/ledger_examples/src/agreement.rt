//! Full and compact databases agree: the law that either may serve.
ghost use Rattle.std.specs.Prelude.{◌≡◌, true, None, Some, List as Items};
ghost use Rattle.ledger_log.specs.View.{log_size, log_floor, floor_or_zero};
ghost use Rattle.ledger_compact.specs.View.{compact_of, with_ops, with_batch};
ghost use Rattle.ledger_examples.specs.Batches.{first_refusal, added_batches, with_batches};

use crate::CompactExampleFamily;
use ledger_compact::CompactLog;
use ledger_log::Log;
use ledger_merkle::Hasher;

/// Whether a full and a compact database have the same root. Where the one holds what is kept of the other they
/// always do, with the same size and the same shown floor; both then refuse the same additions, for the same fault,
/// and behind one that they take the one again holds what is kept of the other.
pub fn agree<F: CompactExampleFamily, H: Hasher>(
    full: &Log<F, H>,
    compact: &CompactLog<F, H>,
) -> bool
    requires { compact_of H.digest F.Op.spelling full.now ≡ Some compact.now }
    ensures root { result ≡ true }
    ensures size { compact.now.size ≡ log_size full.now }
    ensures floor { F.floor_shown (floor_or_zero (F.floor_of compact.now.last)) compact.now.size
        ≡ F.floor_shown (log_floor F.floor_of full.now) (log_size full.now) }
    ensures refusal { (ops : Items F.Op) →
        first_refusal F.floor_of compact.now.size (floor_or_zero (F.floor_of compact.now.last))
        (added_batches F.floor_of F.added_of (floor_or_zero (F.floor_of compact.now.last)) ops)
        ≡ first_refusal F.floor_of (log_size full.now) (log_floor F.floor_of full.now)
        (added_batches F.floor_of F.added_of (log_floor F.floor_of full.now) ops) }
    ensures after { (ops : Items F.Op) →
        first_refusal F.floor_of (log_size full.now) (log_floor F.floor_of full.now)
        (added_batches F.floor_of F.added_of (log_floor F.floor_of full.now) ops) ≡ None →
        compact_of H.digest F.Op.spelling (with_batches with_ops full.now
        (added_batches F.floor_of F.added_of (log_floor F.floor_of full.now) ops))
        ≡ Some (with_batches (with_batch H.digest F.Op.spelling) compact.now
        (added_batches F.floor_of F.added_of (floor_or_zero (F.floor_of compact.now.last)) ops)) }
{
    full.root() == compact.root()
}
