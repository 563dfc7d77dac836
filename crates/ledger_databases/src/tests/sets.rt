//! Worked databases of the family immutable, with and without their operations.
use crate::ManagedDb;
use ledger_chain::ManagedFault;
use ledger_compact::CompactLog;
use ledger_log::{ImmutableFamily, Log, LogFault};
use ledger_merkle::{Location, Sha256Hasher};
use ledger_sets::{SealedSets, SetBatch, SetLog};
use std::random::RandomSource;

type FullLog = Log<ImmutableFamily, Sha256Hasher>;

type ShortLog = CompactLog<ImmutableFamily, Sha256Hasher>;

/// A sealed batch over the database that sets the key of ones, with this floor.
fn sealed<D, R>(rt: &R, db: &D, floor: Location) -> Result<SealedSets<D>, ManagedFault>
where
    D: SetLog + ManagedDb<Unmerkleized = SetBatch<D>, Merkleized = SealedSets<D>>,
    R: RandomSource + AllocGlobal,
{
    let batch = db.new_batch(rt, rt.alloc())?.set([1; 32], [1; 32])?;
    batch.with_inactivity_floor(floor).merkleize(db)
}

/// The first bytes of the root and the size that a sealed batch with floor 1 leads to, whether a database
/// that it is applied to has the batch's target, and why one without a floor isn't sealed behind it.
fn grown<D, R>(rt: &R, mut db: D) -> Option<([u8; 2], u64, bool, Option<ManagedFault>)>
where
    D: SetLog + ManagedDb<Unmerkleized = SetBatch<D>, Merkleized = SealedSets<D>>,
    R: RandomSource + AllocGlobal,
{
    let batch = sealed(rt, &db, Location::ZERO.plus(1)).ok()?;
    let (root, size) = (batch.root(), batch.size().get());
    let again = batch.copy().ok()?;
    db.apply(batch).ok()?;
    let matches = D::matches_sync_target(&again, &db.sync_target());
    let fault = sealed(rt, &db, Location::ZERO).err();
    Some(([root[0], root[1]], size, matches, fault))
}

#[test]
fn full_and_compact_databases_grow_alike(rt: HostRuntime) {
    let fault = ManagedFault::Log(LogFault::FloorRegressed {
        floor: Location::ZERO,
        current: Location::ZERO.plus(1),
    });
    let expected = Some(([0x57, 0x79], 3, true, Some(fault)));
    let full = FullLog::init(rt.alloc(), None).ok();
    assert_eq!(rt; full.and_then(|db| grown(&rt, db)), expected);
    let short = ShortLog::init(rt.alloc(), None).ok();
    assert_eq!(rt; short.and_then(|db| grown(&rt, db)), expected);
}

/// Whether a database without its operations is as it was once it is pruned.
fn stays<R: AllocGlobal>(rt: &R) -> Option<bool> {
    let mut db = ShortLog::init(rt.alloc(), None).ok()?;
    let target = db.sync_target();
    ManagedDb::prune(&mut db, &target).ok()?;
    Some(db.sync_target() == target && target.leaf_count.get() == 1)
}

#[test]
fn nothing_is_pruned_without_operations(rt: HostRuntime) {
    assert_eq!(rt; stays(&rt), Some(true));
}
