//! Batches of sets. The expected values are those of vectors/sets.py.
use ledger_chain::ManagedFault;
use ledger_compact::CompactLog;
use ledger_log::{ImmutableFamily, ImmutableOp, Log, LogFault};
use ledger_merkle::{Hasher, Location, Sha256Hasher};
use ledger_sets::{SealedSets, SetBatch, SetLog, apply};
use std::alloc::Global;
use std::random::RandomSource;

type FullLog<H> = Log<ImmutableFamily, H>;

type BareLog<H> = CompactLog<ImmutableFamily, H>;

/// The size, the floor and the first bytes of the root after a batch, which tell enough.
type After = (u64, u64, [u8; 8]);

/// Whether a sealed batch leaves this.
fn leaves<D: SetLog>(batch: &SealedSets<D>, after: &After) -> bool {
    batch.size().get() == after.0
        && batch.floor().get() == after.1
        && batch.root().as_slice().starts_with(&after.2)
}

/// The batch with one set, sealed.
fn first_of<D: SetLog>(batch: SetBatch<D>, db: &D) -> Option<SealedSets<D>> {
    batch.set([1; 32], [2; 32]).ok()?.merkleize(db).ok()
}

/// A batch over that which sets 3, then 1, then 3 again, with metadata and the floor 1.
fn second_of<D: SetLog>(first: &SealedSets<D>, db: &D) -> Option<SealedSets<D>> {
    let batch = first.new_batch().ok()?.set([3; 32], [3; 32]).ok()?;
    let batch = batch
        .set([1; 32], [4; 32])
        .ok()?
        .set([3; 32], [5; 32])
        .ok()?;
    let floor = Location::ZERO.plus(1);
    batch
        .with_metadata([7; 32])
        .with_inactivity_floor(floor)
        .merkleize(db)
        .ok()
}

/// Whether the batch brings the log to its own size and root.
fn brings<D: SetLog>(db: &mut D, batch: SealedSets<D>) -> Option<bool> {
    let (size, root) = (batch.size(), batch.root());
    apply(db, batch).ok()?;
    let state = db.known_state();
    Some(state.size == size && state.root == root)
}

/// Whether two batches in a chain leave this and the log as they say, of which the second brings both.
fn brings_both<D: SetLog>(db: &mut D, batch: SetBatch<D>, wanted: &[After; 2]) -> Option<bool> {
    let first = first_of(batch, db)?;
    let second = second_of(&first, db)?.copy().ok()?;
    let are_so = leaves(&first, &wanted[0]) && leaves(&second, &wanted[1]);
    let is_brought = brings(db, second)?;
    Some(are_so && is_brought)
}

/// The same over a fresh log with its operations.
fn brings_both_full<H: Hasher, R: RandomSource + AllocGlobal>(
    rt: &R,
    wanted: &[After; 2],
) -> Option<bool> {
    let mut log = FullLog::<H>::fresh(rt.alloc()).ok()?;
    let batch = SetBatch::over(rt, rt.alloc(), &log);
    brings_both(&mut log, batch, wanted)
}

/// And over one without.
fn brings_both_bare<H: Hasher, R: RandomSource + AllocGlobal>(
    rt: &R,
    wanted: &[After; 2],
) -> Option<bool> {
    let mut log = BareLog::<H>::fresh(rt.alloc()).ok()?;
    let batch = SetBatch::over(rt, rt.alloc(), &log);
    brings_both(&mut log, batch, wanted)
}

#[test]
fn sealed_sets_leave_what_they_tell(rt: HostRuntime) {
    let wanted = [
        (3, 0, [0xe1, 0x2d, 0x56, 0x9f, 0x93, 0xac, 0x07, 0x33]),
        (6, 1, [0x0e, 0x40, 0x6f, 0x77, 0x4a, 0x29, 0xfb, 0xe9]),
    ];
    assert_eq!(rt;
        brings_both_full::<Sha256Hasher, _>(&rt, &wanted),
        Some(true)
    );
    assert_eq!(rt;
        brings_both_bare::<Sha256Hasher, _>(&rt, &wanted),
        Some(true)
    );
}

/// Whether a key that is set is read twice in the sealed batch.
fn reads_twice<H: Hasher>(log: &FullLog<H>, first: &SealedSets<FullLog<H>>) -> Option<bool> {
    let values = first.get_many(log, &[[1; 32], [1; 32]]).ok()?;
    Some(values.as_slice() == [Some([2; 32]), Some([2; 32])].as_slice())
}

/// Whether a batch over that reads its own set.
fn reads_own<H: Hasher>(log: &FullLog<H>, first: &SealedSets<FullLog<H>>) -> Option<bool> {
    let batch = first.new_batch().ok()?.set([1; 32], [3; 32]).ok()?;
    let values = batch.get_many(log, &[[1; 32], [2; 32]]).ok()?;
    Some(values.as_slice() == [Some([3; 32]), None].as_slice())
}

/// Whether a key is read twice in a sealed batch, before it is applied, and the batch over that reads its own set.
fn reads_sets<H: Hasher, R: RandomSource + AllocGlobal>(rt: &R) -> Option<bool> {
    let log = FullLog::<H>::fresh(rt.alloc()).ok()?;
    let batch = SetBatch::over(rt, rt.alloc(), &log);
    let is_none = batch.get(&log, &[1; 32]).ok() == Some(None);
    let first = first_of(batch, &log)?;
    let is_twice = reads_twice(&log, &first)?;
    let is_own = reads_own(&log, &first)?;
    Some(is_none && is_twice && is_own)
}

#[test]
fn sets_are_read_before_they_are_applied(rt: HostRuntime) {
    assert_eq!(rt; reads_sets::<Sha256Hasher, _>(&rt), Some(true));
}

/// A log with one batch of one set.
fn with_one_set<H: Hasher, R: RandomSource + AllocGlobal>(rt: &R) -> Option<FullLog<H>> {
    let mut log = FullLog::<H>::fresh(rt.alloc()).ok()?;
    let first = first_of(SetBatch::over(rt, rt.alloc(), &log), &log)?;
    apply(&mut log, first).ok()?;
    Some(log)
}

/// Appends a set and a commit, and tells whether the log has five operations then.
fn grows_to_five<H: Hasher>(log: &mut FullLog<H>) -> Option<bool> {
    let commit = ImmutableOp::Commit(None, Location::ZERO);
    log.append_batch(&[ImmutableOp::Set([5; 32], [5; 32]), commit])
        .ok()?;
    Some(log.size().get() == 5)
}

/// Whether the batches are stale over this log: one that is read, and one that is applied.
fn are_stale<H: Hasher>(
    log: &mut FullLog<H>,
    batch: SetBatch<FullLog<H>>,
    sealed: SealedSets<FullLog<H>>,
) -> bool {
    let (size, root) = (log.size(), log.root());
    let read = ManagedFault::StaleRead { size, root };
    let applied = ManagedFault::StaleBatch { size, root };
    let is_read = batch.get(log, &[1; 32]).err() == Some(read);
    let is_applied = apply(log, sealed).err() == Some(applied);
    is_read && is_applied
}

/// Whether a batch that was made at size 3 is stale once the log has size 5, and tells that and the root.
fn tells_the_state<H: Hasher, R: RandomSource + AllocGlobal>(rt: &R) -> Option<bool> {
    let mut log = with_one_set::<H, R>(rt)?;
    let batch = SetBatch::over(rt, rt.alloc(), &log);
    let sealed = first_of(SetBatch::over(rt, rt.alloc(), &log), &log)?;
    let is_five = grows_to_five(&mut log)?;
    let are_told = are_stale(&mut log, batch, sealed);
    Some(is_five && are_told)
}

#[test]
fn stale_sets_are_told_the_state(rt: HostRuntime) {
    assert_eq!(rt; tells_the_state::<Sha256Hasher, _>(&rt), Some(true));
}

/// Why a batch whose floor wasn't set isn't sealed over a log with the floor 1.
fn fault_of_no_floor<H: Hasher, R: RandomSource + AllocGlobal>(rt: &R) -> Option<ManagedFault> {
    let mut log = FullLog::<H>::fresh(rt.alloc()).ok()?;
    let floor = Location::ZERO.plus(1);
    log.append_batch(&[ImmutableOp::Commit(None, floor)]).ok()?;
    let batch = SetBatch::over(rt, rt.alloc(), &log);
    batch.merkleize(&log).err()
}

#[test]
fn a_floor_that_falls_is_refused(rt: HostRuntime) {
    let regressed = LogFault::FloorRegressed {
        floor: Location::ZERO,
        current: Location::ZERO.plus(1),
    };
    assert_eq!(rt;
        fault_of_no_floor::<Sha256Hasher, _>(&rt),
        Some(ManagedFault::Log(regressed))
    );
}
