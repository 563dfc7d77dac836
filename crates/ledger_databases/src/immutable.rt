//! The database of the family immutable.

use crate::full::{fresh_of, initial_target_of, target_of};
use crate::managed::ManagedDb;
use crate::sets::leads_to;
use ledger_chain::ManagedFault;
use ledger_codec::OutOfMemory;
use ledger_log::{ImmutableFamily, Log, LogFault, Target};
use ledger_merkle::Hasher;
use ledger_sets::{SealedSets, SetBatch, apply};
use std::alloc::Global;
use std::random::RandomSource;

impl<H: Hasher> ManagedDb for Log<ImmutableFamily, H> {
    ghost use Rattle.std.specs.Prelude.{◌≡◌, None, []};
    ghost use Rattle.ledger_log.specs.Immutable.{immutable_spelling, immutable_floor, immutable_commit, immutable_commit_has_floor};
    ghost use Rattle.ledger_log.specs.Faults.{prune_refusal};
    ghost use Rattle.ledger_log.specs.View.{pruned};
    ghost use Rattle.ledger_compact.specs.View.{fresh_log, with_ops};
    ghost use Rattle.ledger_chain.specs.Chain.{state_of};
    ghost use Rattle.ledger_chain.specs.Faults.{stale_batch};
    ghost use Rattle.ledger_sets.specs.Logs.{log_meaning};
    ghost use Rattle.ledger_sets.specs.Meaning.{lacking, completed, apply_refusal, StandFirst as StandBehind, with_taken as up_to_refused};
    ghost use Rattle.ledger_databases.specs.Targets.{IsTargetOf, initial_target, has_target};
    ghost use Rattle.ledger_databases.specs.Laws.{fresh_log_has_target};

    type Unmerkleized = SetBatch<Log<ImmutableFamily, H>>;

    type Merkleized = SealedSets<Log<ImmutableFamily, H>>;

    type SyncTarget = Target;

    ghost IsFresh = { λ log. log ≡ fresh_log immutable_commit };

    ghost initial = { initial_target H.digest immutable_spelling immutable_commit };

    ghost HasTarget = { IsTargetOf H.digest immutable_spelling immutable_floor };

    ghost batch_over = { λ log. record { chain = record { base = state_of H.digest immutable_spelling log; links = [] }; writes = []; metadata = None; floor = 0 } };

    ghost leads_to = { λ batch. has_target immutable_floor batch.own };

    ghost staleness = { λ batch log. stale_batch batch.chain (state_of H.digest immutable_spelling log) };

    ghost taking_refusal = { apply_refusal (log_meaning H.digest) };

    ghost with_batch = { λ batch log. with_ops (completed (log_meaning H.digest) batch.chain log) batch.own.ops };

    ghost StandFirst = { λ batch before now. StandBehind (log_meaning H.digest) before (lacking (log_meaning H.digest) batch.chain before) now };

    ghost with_taken = { λ batch before. up_to_refused (log_meaning H.digest) before (lacking (log_meaning H.digest) batch.chain before) };

    ghost cutting_refusal = { λ target log. prune_refusal immutable_floor log target.start };

    ghost cut = { λ target log. pruned H.digest immutable_spelling log target.start };

    fn fresh(alloc: Global) -> Result<Log<ImmutableFamily, H>, OutOfMemory> {
        fresh_of(alloc)
    }

    fn initial_sync_target() -> Target {
        initial_target_of::<ImmutableFamily, H>()
    }

    fn new_batch<R: RandomSource>(
        &self,
        rt: &R,
        alloc: Global,
    ) -> Result<SetBatch<Log<ImmutableFamily, H>>, ManagedFault> {
        Ok(SetBatch::over(rt, alloc, self))
    }

    fn matches_sync_target(batch: &SealedSets<Log<ImmutableFamily, H>>, target: &Target) -> bool {
        leads_to(batch, target)
    }

    fn apply(&mut self, batch: SealedSets<Log<ImmutableFamily, H>>) -> Result<(), ManagedFault> {
        apply(self, batch)
    }

    fn prune(&mut self, target: &Target) -> Result<(), LogFault> {
        Log::prune(self, target.start)
    }

    fn sync_target(&self) -> Target {
        target_of(self)
    }

    ghost initial_is_fresh = { fresh_log_has_target H.digest immutable_spelling immutable_floor immutable_commit immutable_commit_has_floor };
}
