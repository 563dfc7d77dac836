//! The database of the family immutable without its operations.

use crate::full::initial_root;
use crate::managed::ManagedDb;
use crate::sets::leads_to_compact;
use ledger_chain::ManagedFault;
use ledger_codec::OutOfMemory;
use ledger_compact::CompactLog;
use ledger_log::{CompactTarget, ImmutableFamily, LogFault};
use ledger_merkle::{Hasher, Location};
use ledger_sets::{SealedSets, SetBatch, apply};
use std::alloc::Global;
use std::random::RandomSource;

impl<H: Hasher> ManagedDb for CompactLog<ImmutableFamily, H> {
    ghost use Rattle.std.specs.Prelude.{◌≡◌, None, Some, []};
    ghost use Rattle.ledger_log.specs.Immutable.{immutable_spelling, immutable_commit};
    ghost use Rattle.ledger_compact.specs.View.{compact_of, fresh_log, target_of, with_batch as with_operations};
    ghost use Rattle.ledger_chain.specs.Faults.{stale_batch};
    ghost use Rattle.ledger_sets.specs.Logs.{compact_meaning, compact_state};
    ghost use Rattle.ledger_sets.specs.Meaning.{lacking, completed, apply_refusal, StandFirst as StandBehind, with_taken as up_to_refused};
    ghost use Rattle.ledger_databases.specs.Targets.{initial_compact_target, has_compact_target};
    ghost use Rattle.ledger_databases.specs.Laws.{fresh_compact_has_target};

    type Unmerkleized = SetBatch<CompactLog<ImmutableFamily, H>>;

    type Merkleized = SealedSets<CompactLog<ImmutableFamily, H>>;

    type SyncTarget = CompactTarget;

    ghost IsFresh = { λ log. compact_of H.digest immutable_spelling (fresh_log immutable_commit) ≡ Some log };

    ghost initial = { initial_compact_target H.digest immutable_spelling immutable_commit };

    ghost HasTarget = { λ log target. target ≡ target_of H.digest log };

    ghost batch_over = { λ log. record { chain = record { base = compact_state H.digest log; links = [] }; writes = []; metadata = None; floor = 0 } };

    ghost leads_to = { λ batch. has_compact_target batch.own };

    ghost staleness = { λ batch log. stale_batch batch.chain (compact_state H.digest log) };

    ghost taking_refusal = { apply_refusal (compact_meaning H.digest) };

    ghost with_batch = { λ batch log. with_operations H.digest immutable_spelling (completed (compact_meaning H.digest) batch.chain log) batch.own.ops };

    ghost StandFirst = { λ batch before now. StandBehind (compact_meaning H.digest) before (lacking (compact_meaning H.digest) batch.chain before) now };

    ghost with_taken = { λ batch before. up_to_refused (compact_meaning H.digest) before (lacking (compact_meaning H.digest) batch.chain before) };

    ghost cutting_refusal = { λ _ _. None };

    ghost cut = { λ _ log. log };

    fn fresh(alloc: Global) -> Result<CompactLog<ImmutableFamily, H>, OutOfMemory> {
        match CompactLog::fresh(alloc) {
            Ok(log) => Ok(log),
            Err(_) => Err(OutOfMemory),
        }
    }

    fn initial_sync_target() -> CompactTarget {
        CompactTarget {
            root: initial_root::<ImmutableFamily, H>(),
            leaf_count: Location::ZERO.plus(1),
        }
    }

    fn new_batch<R: RandomSource>(
        &self,
        rt: &R,
        alloc: Global,
    ) -> Result<SetBatch<CompactLog<ImmutableFamily, H>>, ManagedFault> {
        Ok(SetBatch::over(rt, alloc, self))
    }

    fn matches_sync_target(
        batch: &SealedSets<CompactLog<ImmutableFamily, H>>,
        target: &CompactTarget,
    ) -> bool {
        leads_to_compact(batch, target)
    }

    fn apply(
        &mut self,
        batch: SealedSets<CompactLog<ImmutableFamily, H>>,
    ) -> Result<(), ManagedFault> {
        apply(self, batch)
    }

    fn prune(&mut self, _target: &CompactTarget) -> Result<(), LogFault> {
        Ok(())
    }

    fn sync_target(&self) -> CompactTarget {
        self.target()
    }

    ghost initial_is_fresh = { fresh_compact_has_target H.digest immutable_spelling immutable_commit };
}
