//! Worked databases. The expected targets are those of vectors/targets.py.
use crate::{InitFault, ManagedDb};
use ledger_batches::AnyMerkleized;
use ledger_chain::ManagedFault;
use ledger_keeper::CountingKeeper;
use ledger_log::{AnyFamily, Log, LogFault, Target};
use ledger_merkle::{Location, Sha256Hasher};
use std::alloc::Global;
use std::random::RandomSource;

mod sets;

type AnyLog = Log<AnyFamily, Sha256Hasher>;

/// The places of a target, and the first bytes of its root, which tell enough.
fn told(target: Target) -> ([u8; 4], u64, u64) {
    let root = [
        target.root[0],
        target.root[1],
        target.root[2],
        target.root[3],
    ];
    (root, target.start.get(), target.end.get())
}

/// The target of a fresh database, made without an expected target and with its own.
fn shown<D: ManagedDb>(alloc: Global) -> Option<D::SyncTarget> {
    let found = D::init(alloc, None).ok()?.sync_target();
    let db = D::init(alloc, Some(found)).ok()?;
    Some(db.sync_target())
}

#[test]
fn a_fresh_database_has_one_place(rt: HostRuntime) {
    let target = shown::<AnyLog>(rt.alloc()).map(told);
    assert_eq!(rt; target, Some(([0x0b, 0xed, 0x12, 0x1a], 0, 1)));
}

/// Whether no database is made for this target, and the initial one is told.
fn is_mismatch<D: ManagedDb>(alloc: Global, expected: D::SyncTarget) -> bool {
    match D::init(alloc, Some(expected)) {
        Err(InitFault::Mismatch { found }) => found == D::initial_sync_target(),
        _ => false,
    }
}

/// Whether other targets than the initial one are refused: another root, another end.
fn refuses_others(alloc: Global) -> Option<[bool; 2]> {
    let initial = AnyLog::initial_sync_target();
    let root = Target::new([7; 32], initial.start, initial.end)?;
    let end = Target::new(initial.root, initial.start, Location::new(2)?)?;
    Some([
        is_mismatch::<AnyLog>(alloc, root),
        is_mismatch::<AnyLog>(alloc, end),
    ])
}

#[test]
fn another_target_is_a_mismatch(rt: HostRuntime) {
    assert_eq!(rt; refuses_others(rt.alloc()), Some([true, true]));
}

/// Which of three syncs of a database are kept where that with this number fails.
fn kept<D: ManagedDb>(alloc: Global, failing: u64) -> Option<([bool; 3], u64)> {
    let mut db = D::init(alloc, None).ok()?;
    let mut keeper = CountingKeeper::new(Vec::from_slice(alloc, &[failing]).ok()?);
    let first = db.finalize(&mut keeper).is_ok();
    let second = db.finalize(&mut keeper).is_ok();
    let third = db.finalize(&mut keeper).is_ok();
    Some(([first, second, third], keeper.kept()))
}

#[test]
fn each_sync_fails_in_turn(rt: HostRuntime) {
    assert_eq!(rt;
        kept::<AnyLog>(rt.alloc(), 0),
        Some(([false, true, true], 2))
    );
    assert_eq!(rt;
        kept::<AnyLog>(rt.alloc(), 1),
        Some(([true, false, true], 2))
    );
    assert_eq!(rt;
        kept::<AnyLog>(rt.alloc(), 2),
        Some(([true, true, false], 2))
    );
}

/// A sealed batch over the database that gives the key of ones this value.
fn sealed<R: RandomSource + AllocGlobal>(rt: &R, db: &AnyLog, byte: u8) -> Option<AnyMerkleized> {
    let batch = db.new_batch(rt, rt.alloc()).ok()?;
    let batch = batch.write([1; 32], Some([byte; 32])).ok()?;
    batch.merkleize(db).ok()
}

/// Whether a sealed batch matches its target alone: neither another root, nor another start, nor another
/// end.
fn matches_its_own(batch: &AnyMerkleized, own: &Target) -> Option<[bool; 4]> {
    let root = Target::new([7; 32], own.start, own.end)?;
    let start = Target::new(own.root, Location::ZERO, own.end)?;
    let end = Target::new(own.root, own.start, Location::new(9)?)?;
    Some([
        AnyLog::matches_sync_target(batch, own),
        AnyLog::matches_sync_target(batch, &root),
        AnyLog::matches_sync_target(batch, &start),
        AnyLog::matches_sync_target(batch, &end),
    ])
}

/// What a sealed batch matches, its target once it is applied, and whether a database of its own has that.
fn led<R: RandomSource + AllocGlobal>(rt: &R) -> Option<([bool; 4], ([u8; 4], u64, u64))> {
    let mut db = AnyLog::init(rt.alloc(), None).ok()?;
    let batch = sealed(rt, &db, 1)?;
    let own = Target::new(batch.root(), batch.sync_boundary(), batch.size())?;
    let matches = matches_its_own(&batch, &own)?;
    db.apply(batch).ok()?;
    Some((matches, told(db.sync_target())))
}

#[test]
fn a_sealed_batch_leads_to_its_target(rt: HostRuntime) {
    let target = ([0x21, 0x52, 0x8d, 0x43], 1, 3);
    assert_eq!(rt; led(&rt), Some(([true, false, false, false], target)));
}

/// The front of a database of two batches that is pruned at its target, and the refusal of a later place.
fn pruned<R: RandomSource + AllocGlobal>(rt: &R) -> Option<(u64, Option<LogFault>, u64)> {
    let mut db = AnyLog::init(rt.alloc(), None).ok()?;
    let first = sealed(rt, &db, 1)?;
    db.apply(first).ok()?;
    let second = sealed(rt, &db, 2)?;
    db.apply(second).ok()?;
    let target = db.sync_target();
    ManagedDb::prune(&mut db, &target).ok()?;
    let front = db.front().get();
    let later = Target::new(target.root, target.start.plus(1), target.end)?;
    let fault = ManagedDb::prune(&mut db, &later).err();
    Some((front, fault, db.front().get()))
}

#[test]
fn a_database_is_pruned_where_the_target_starts(rt: HostRuntime) {
    let floor = Location::ZERO.plus(3);
    assert_eq!(rt;
        pruned(&rt),
        Some((3, Some(LogFault::AboveFloor { floor }), 3))
    );
}

/// What is told of a batch that was applied already.
fn told_of_an_applied_batch<R: RandomSource + AllocGlobal>(rt: &R) -> Option<bool> {
    let mut db = AnyLog::init(rt.alloc(), None).ok()?;
    let batch = sealed(rt, &db, 1)?;
    let again = batch.copy().ok()?;
    db.apply(batch).ok()?;
    let stale = ManagedFault::StaleBatch {
        size: db.size(),
        root: db.root(),
    };
    Some(db.apply(again).err() == Some(stale))
}

#[test]
fn an_applied_batch_is_stale(rt: HostRuntime) {
    assert_eq!(rt; told_of_an_applied_batch(&rt), Some(true));
}
