//! What full databases have in common.
ghost use Rattle.std.specs.Prelude.{◌≡◌, ◌++◌, ◌∷◌, [], Some, IfOk};
ghost use Rattle.ledger_log.specs.View.{log_root};
ghost use Rattle.ledger_compact.specs.View.{fresh_log};
ghost use Rattle.ledger_databases.specs.Targets.{IsTargetOf, initial_target, has_target};

use ledger_batches::Merkleized;
use ledger_codec::{Digest, OutOfMemory};
use ledger_log::{Family, Log, LogFault, Target};
use ledger_merkle::{Hasher, Location, hash_item, hash_root};
use std::alloc::Global;

/// A log of one commit, without metadata and with floor 0.
pub(crate) fn fresh_of<F: Family, H: Hasher>(alloc: Global) -> Result<Log<F, H>, OutOfMemory>
    ensures { IfOk result (λ log. log ≡ fresh_log F.commit_of) }
{
    match Log::fresh(alloc) {
        Ok(log) => Ok(log),
        Err(_) => Err(OutOfMemory),
    }
}

/// The root of such a log. It takes no memory.
#[tactic(auto, unfolding(ledger_merkle::specs::Tree::push))]
pub(crate) fn initial_root<F: Family, H: Hasher>() -> Digest
    ensures { result ≡ log_root H.digest F.Op.spelling (fresh_log F.commit_of) }
{
    let commit = F::commit(None, Location::ZERO);
    let peak = hash_item::<H, F::Op>(Location::ZERO, &commit);
    hash_root::<H>(Location::ZERO.plus(1), &[peak])
}

/// The target of such a log. It takes no memory.
pub(crate) fn initial_target_of<F: Family, H: Hasher>() -> Target
    ensures { result ≡ initial_target H.digest F.Op.spelling F.commit_of }
{
    match Target::new(
        initial_root::<F, H>(),
        Location::ZERO,
        Location::ZERO.plus(1),
    ) {
        Some(target) => target,
        None => unreachable!(),
    }
}

/// The target of a log: its root, and its places from its floor on.
pub(crate) fn target_of<F: Family, H: Hasher>(log: &Log<F, H>) -> Target
    ensures { IsTargetOf H.digest F.Op.spelling F.floor_of log.now result }
{
    let boundary = log.sync_boundary();
    match Target::new(log.root(), boundary, log.size()) {
        Some(target) => target,
        None => unreachable!(),
    }
}

/// Whether a log whose last batch is this one has this target.
pub(crate) fn leads_to<F: Family>(batch: &Merkleized<F>, target: &Target) -> bool
    ensures { result ≡ has_target F.floor_of batch.now.own target.now }
{
    let floor = batch.sync_boundary();
    batch.ops_root() == target.root && floor == target.start && batch.size() == target.end
}
