//! Batches over logs of the family current. The expected values are those of vectors/appended.py.
use ledger_activity::{Activity, CurrentFamily};
use ledger_batches::{CurrentMerkleized, CurrentUnmerkleized, apply};
use ledger_log::{AnyOp, Key, Log, LogFault, Value};
use ledger_merkle::{Hasher, Location, Sha256Hasher};
use ledger_transfers::Slot;
use std::alloc::Global;
use std::random::RandomSource;

type CurrentLog<H> = Log<CurrentFamily, H>;

/// A log of a commit and of a batch that gives the key of ones the value of ones.
fn held<H: Hasher>(alloc: Global) -> Result<CurrentLog<H>, LogFault> {
    let mut log = CurrentLog::<H>::fresh(alloc)?;
    let commit = AnyOp::CommitFloor(None, Location::ZERO);
    log.append_batch(&[AnyOp::Update([1; 32], [1; 32]), commit])?;
    Ok(log)
}

/// A sealed batch whose slots for 1, 2 and 1 put 1, delete and put 2, with these unstaged writes.
fn sealed<H: Hasher, R: RandomSource + AllocGlobal>(
    rt: &R,
    log: &CurrentLog<H>,
    unstaged: &[(Key, Option<Value>)],
) -> Option<CurrentMerkleized> {
    let batch = CurrentUnmerkleized::over(rt, rt.alloc(), log);
    let (_, staged) = batch.stage(log, &[[1; 32], [2; 32], [1; 32]]).ok()?;
    let slots = [Slot::Put([1; 32]), Slot::Delete, Slot::Put([2; 32])];
    let slots = Vec::from_array(rt.alloc(), slots).ok()?;
    let unstaged = Vec::from_slice(rt.alloc(), unstaged).ok()?;
    staged.merkleize(log, slots, unstaged).ok()
}

/// The size and the floor after a batch, and the first bytes of the shown root and of that of the operations.
type After = (u64, u64, [u8; 4], [u8; 4]);

/// Whether a batch leaves this.
fn leaves(batch: &CurrentMerkleized, after: &After) -> bool {
    batch.size().get() == after.0
        && batch.sync_boundary().get() == after.1
        && batch.root().as_slice().starts_with(&after.2)
        && batch.ops_root().as_slice().starts_with(&after.3)
}

/// Whether a batch with these unstaged writes behind its slots leaves this.
fn leaves_with<H: Hasher, R: RandomSource + AllocGlobal>(
    rt: &R,
    log: &CurrentLog<H>,
    unstaged: &[(Key, Option<Value>)],
    after: &After,
) -> Option<bool> {
    let batch = sealed(rt, log, unstaged)?;
    Some(leaves(&batch, after))
}

/// Whether a key that is staged twice takes its last slot, and an unstaged deletion comes after that: these are left.
fn takes_last_slots<H: Hasher, R: RandomSource + AllocGlobal>(
    rt: &R,
    wanted: &[After; 2],
) -> Option<bool> {
    let log = held::<H>(rt.alloc()).ok()?;
    let is_put = leaves_with(rt, &log, &[], &wanted[0])?;
    let is_deleted = leaves_with(rt, &log, &[([1; 32], None)], &wanted[1])?;
    Some(is_put && is_deleted)
}

#[test]
fn a_key_takes_its_last_slot(rt: HostRuntime) {
    let wanted = [
        (5, 3, [0x17, 0x95, 0x6f, 0x27], [0x63, 0x1f, 0x83, 0x9e]),
        (5, 4, [0x0a, 0xed, 0x0a, 0x00], [0x10, 0xdf, 0xde, 0x43]),
    ];
    assert_eq!(rt;
        takes_last_slots::<Sha256Hasher, _>(&rt, &wanted),
        Some(true)
    );
}

/// The second of two batches over the log.
fn second_over<H: Hasher, R: RandomSource + AllocGlobal>(
    rt: &R,
    log: &CurrentLog<H>,
) -> Option<CurrentMerkleized> {
    let batch = sealed(rt, log, &[])?.new_batch().ok()?;
    batch.write([1; 32], None).ok()?.merkleize(log).ok()
}

/// Whether the log shows the batch's root once it brought what it lacks and the batch.
fn shows<H: Hasher>(log: &mut CurrentLog<H>, batch: CurrentMerkleized) -> Option<bool> {
    let root = batch.root();
    apply(log, batch).ok()?;
    Some(log.current_root().ok() == Some(root))
}

/// Whether the second of two batches leaves this, and has the root that the log shows once it brought both.
fn shows_its_root<H: Hasher, R: RandomSource + AllocGlobal>(
    rt: &R,
    wanted: &After,
) -> Option<bool> {
    let mut log = held::<H>(rt.alloc()).ok()?;
    let batch = second_over(rt, &log)?;
    let is_so = leaves(&batch, wanted);
    let is_shown = shows(&mut log, batch)?;
    Some(is_so && is_shown)
}

#[test]
fn a_batch_tells_the_root_that_is_shown(rt: HostRuntime) {
    let wanted = (7, 6, [0x06, 0x25, 0x91, 0x00], [0x3c, 0x65, 0x02, 0x36]);
    assert_eq!(rt; shows_its_root::<Sha256Hasher, _>(&rt, &wanted), Some(true));
}
