//! The database of the family current.
ghost use Rattle.std.specs.Prelude.{◌≡◌};

use crate::full::{fresh_of, initial_target_of, leads_to, target_of};
use crate::managed::ManagedDb;
use ledger_activity::CurrentFamily;
use ledger_batches::{CurrentMerkleized, CurrentUnmerkleized, apply};
use ledger_chain::ManagedFault;
use ledger_codec::OutOfMemory;
use ledger_log::{Log, LogFault, Target};
use ledger_merkle::Hasher;
use std::alloc::Global;
use std::random::RandomSource;

impl<H: Hasher> ManagedDb for Log<CurrentFamily, H> {
    ghost use Rattle.std.specs.Prelude.{◌≡◌};
    ghost use Rattle.ledger_log.specs.Any.{any_spelling, any_floor, any_commit, any_commit_has_floor};
    ghost use Rattle.ledger_log.specs.Faults.{prune_refusal};
    ghost use Rattle.ledger_log.specs.View.{pruned};
    ghost use Rattle.ledger_compact.specs.View.{fresh_log, with_ops};
    ghost use Rattle.ledger_chain.specs.Chain.{state_of};
    ghost use Rattle.ledger_chain.specs.Faults.{stale_batch};
    ghost use Rattle.ledger_batches.specs.Batches.{body_of};
    ghost use Rattle.ledger_batches.specs.Sealing.{lacking, completed, apply_refusal};
    ghost use Rattle.ledger_batches.specs.Applying.{StandFirst as StandBehind, with_taken as up_to_refused};
    ghost use Rattle.ledger_databases.specs.Managed.{unwritten};
    ghost use Rattle.ledger_databases.specs.Targets.{IsTargetOf, initial_target, has_target};
    ghost use Rattle.ledger_databases.specs.Laws.{fresh_log_has_target};

    type Unmerkleized = CurrentUnmerkleized;

    type Merkleized = CurrentMerkleized;

    type SyncTarget = Target;

    ghost IsFresh = { λ log. log ≡ fresh_log any_commit };

    ghost initial = { initial_target H.digest any_spelling any_commit };

    ghost HasTarget = { IsTargetOf H.digest any_spelling any_floor };

    ghost batch_over = { λ log. unwritten (state_of H.digest any_spelling log) };

    ghost leads_to = { λ batch. has_target any_floor batch.own };

    ghost taking_refusal = { λ batch. apply_refusal H.digest any_spelling any_floor (body_of batch) };

    ghost with_batch = { λ batch log. with_ops (completed H.digest any_spelling batch.chain log) batch.own.ops };

    ghost staleness = { λ batch log. stale_batch batch.chain (state_of H.digest any_spelling log) };

    ghost StandFirst = { λ batch log now. StandBehind log (lacking H.digest any_spelling batch.chain log) now };

    ghost with_taken = { λ batch log. up_to_refused any_floor log (lacking H.digest any_spelling batch.chain log) };

    ghost cutting_refusal = { λ target log. prune_refusal any_floor log target.start };

    ghost cut = { λ target log. pruned H.digest any_spelling log target.start };

    fn fresh(alloc: Global) -> Result<Log<CurrentFamily, H>, OutOfMemory> {
        fresh_of(alloc)
    }

    fn initial_sync_target() -> Target {
        initial_target_of::<CurrentFamily, H>()
    }

    fn new_batch<R: RandomSource>(
        &self,
        rt: &R,
        alloc: Global,
    ) -> Result<CurrentUnmerkleized, ManagedFault> {
        Ok(CurrentUnmerkleized::over(rt, alloc, self))
    }

    fn matches_sync_target(batch: &CurrentMerkleized, target: &Target) -> bool {
        leads_to(batch, target)
    }

    fn apply(&mut self, batch: CurrentMerkleized) -> Result<(), ManagedFault> {
        apply(self, batch)
    }

    fn prune(&mut self, target: &Target) -> Result<(), LogFault> {
        Log::prune(self, target.start)
    }

    fn sync_target(&self) -> Target {
        target_of(self)
    }

    ghost initial_is_fresh = { fresh_log_has_target H.digest any_spelling any_floor any_commit any_commit_has_floor };
}
