//! Where sealed batches of sets lead.
ghost use Rattle.std.specs.Prelude.{◌≡◌};
ghost use Rattle.ledger_log.specs.Immutable.{immutable_floor};
ghost use Rattle.ledger_databases.specs.Targets.{has_target, has_compact_target};

use ledger_log::{CompactTarget, Target};
use ledger_sets::{SealedSets, SetLog};

/// Whether a log whose last batch is this one has this target.
pub(crate) fn leads_to<D: SetLog>(batch: &SealedSets<D>, target: &Target) -> bool
    ensures { result ≡ has_target immutable_floor batch.now.own target.now }
{
    let floor = batch.floor();
    batch.root() == target.root && floor == target.start && batch.size() == target.end
}

/// Whether a log without its operations whose last batch is this one has this target.
pub(crate) fn leads_to_compact<D: SetLog>(batch: &SealedSets<D>, target: &CompactTarget) -> bool
    ensures { result ≡ has_compact_target batch.now.own target.now }
{
    batch.root() == target.root && batch.size() == target.leaf_count
}
