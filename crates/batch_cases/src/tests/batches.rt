//! Batches over logs of the family any. The expected values are those of vectors/appended.py.
use ledger_batches::{AnyMerkleized, AnyStaged, AnyUnmerkleized, ManagedFault, apply};
use ledger_codec::Digest;
use ledger_log::{AnyFamily, AnyOp, Log, LogFault, Value};
use ledger_merkle::{Hasher, Location, Sha256Hasher};
use ledger_transfers::Slot;
use std::alloc::Global;
use std::random::RandomSource;

type AnyLog<H> = Log<AnyFamily, H>;

/// The value that repeats the byte, none of 0.
fn value_of(byte: u8) -> Option<Value> {
    if byte == 0 { None } else { Some([byte; 32]) }
}

/// A batch of one write, which deletes the key where the byte is 0.
fn batch_of(key: u8, byte: u8) -> [AnyOp; 2] {
    let commit = AnyOp::CommitFloor(None, Location::ZERO);
    match value_of(byte) {
        Some(value) => [AnyOp::Update([key; 32], value), commit],
        None => [AnyOp::Delete([key; 32]), commit],
    }
}

/// A log of a commit and of a batch that gives the key of ones the value of ones.
fn opened<H: Hasher>(alloc: Global) -> Result<AnyLog<H>, LogFault> {
    let mut log = AnyLog::<H>::fresh(alloc)?;
    log.append_batch(&batch_of(1, 1))?;
    Ok(log)
}

/// A batch over the log.
fn over<H: Hasher, R: RandomSource + AllocGlobal>(rt: &R, log: &AnyLog<H>) -> AnyUnmerkleized {
    AnyUnmerkleized::over(rt, rt.alloc(), log)
}

/// The batch with one write more.
fn written(batch: AnyUnmerkleized, key: u8, byte: u8) -> Option<AnyUnmerkleized> {
    batch.write([key; 32], value_of(byte)).ok()
}

/// Whether the batch reads this byte's value at the key over the log.
fn reads<H: Hasher>(log: &AnyLog<H>, batch: &AnyUnmerkleized, key: u8, byte: u8) -> bool {
    batch.get(log, &[key; 32]).ok() == Some(value_of(byte))
}

/// Whether the batch reads one key before two writes, after them, and after its deletion.
fn reads_writes<H: Hasher>(log: &AnyLog<H>, batch: AnyUnmerkleized) -> Option<bool> {
    let is_held = reads(log, &batch, 1, 1);
    let batch = written(written(batch, 1, 5)?, 1, 2)?;
    let is_last = reads(log, &batch, 1, 2);
    let batch = written(batch, 1, 0)?;
    Some(is_held && is_last && reads(log, &batch, 1, 0))
}

/// The same of a batch over the log.
fn reads_last_writes<H: Hasher, R: RandomSource + AllocGlobal>(rt: &R) -> Option<bool> {
    let log = opened::<H>(rt.alloc()).ok()?;
    reads_writes(&log, over(rt, &log))
}

#[test]
fn the_last_write_of_a_key_is_read(rt: HostRuntime) {
    assert_eq!(rt; reads_last_writes::<Sha256Hasher, _>(&rt), Some(true));
}

/// The batch with three keys staged, where these have their values.
fn staged<H: Hasher>(log: &AnyLog<H>, batch: AnyUnmerkleized) -> Option<AnyStaged> {
    let (values, staged) = batch.stage(log, &[[1; 32], [2; 32], [1; 32]]).ok()?;
    let wanted = [value_of(1), None, value_of(1)];
    if values.as_slice() == wanted.as_slice() {
        Some(staged)
    } else {
        None
    }
}

/// Whether a key that is staged beside three others has a slot of its own.
fn has_fourth<H: Hasher>(log: &AnyLog<H>, staged: AnyStaged) -> Option<bool> {
    let (places, _, staged) = staged.expand(log, &[[1; 32]]).ok()?;
    Some(places.start == 3 && places.end == 4 && staged.len() == 4)
}

/// Whether three keys that are staged have their values, and a fourth has a slot of its own.
fn has_slots<H: Hasher, R: RandomSource + AllocGlobal>(rt: &R) -> Option<bool> {
    let log = opened::<H>(rt.alloc()).ok()?;
    let three = staged(&log, over(rt, &log))?;
    has_fourth(&log, three)
}

#[test]
fn staged_keys_have_a_slot_each(rt: HostRuntime) {
    assert_eq!(rt; has_slots::<Sha256Hasher, _>(&rt), Some(true));
}

/// How many operations the log has.
fn size_of<H: Hasher>(log: &AnyLog<H>) -> u64 {
    log.size().get()
}

/// What is told of the log to a batch that isn't read over it.
fn stale_over<H: Hasher>(log: &AnyLog<H>) -> Option<ManagedFault> {
    let size = log.size();
    let root = log.root();
    Some(ManagedFault::StaleRead { size, root })
}

/// Whether nothing is read over this log, which tells its state.
fn is_stale_over<H: Hasher>(log: &AnyLog<H>, batch: AnyUnmerkleized) -> bool {
    let is_read = batch.get(log, &[1; 32]).err() == stale_over(log);
    is_read && batch.stage(log, &[]).err() == stale_over(log)
}

/// Whether a batch over a log that went on reads nothing of it, and tells its state.
fn tells_another_state<H: Hasher, R: RandomSource + AllocGlobal>(rt: &R) -> Option<bool> {
    let mut log = opened::<H>(rt.alloc()).ok()?;
    let batch = over(rt, &log);
    log.append_batch(&batch_of(2, 2)).ok()?;
    Some(is_stale_over(&log, batch) && size_of(&log) == 5)
}

#[test]
fn another_state_is_told(rt: HostRuntime) {
    assert_eq!(rt; tells_another_state::<Sha256Hasher, _>(&rt), Some(true));
}

/// The size, the floor and the first bytes of the root after a batch, which tell enough.
type After = (u64, u64, [u8; 8]);

/// Whether a batch leaves this.
fn leaves(batch: &AnyMerkleized, after: &After) -> bool {
    let root: Digest = batch.root();
    batch.size().get() == after.0
        && batch.sync_boundary().get() == after.1
        && root.as_slice().starts_with(&after.2)
        && batch.ops_root() == root
}

/// A sealed batch that gives the key of twos a value.
fn first_over<H: Hasher, R: RandomSource + AllocGlobal>(
    rt: &R,
    log: &AnyLog<H>,
) -> Option<AnyMerkleized> {
    written(over(rt, log), 2, 2)?.merkleize(log).ok()
}

/// One over it that takes the old key's value, with metadata.
fn second_over<H: Hasher>(log: &AnyLog<H>, first: &AnyMerkleized) -> Option<AnyMerkleized> {
    let batch = written(first.new_batch().ok()?, 1, 0)?;
    written(batch, 5, 0)?
        .with_metadata([7; 32])
        .merkleize(log)
        .ok()
}

/// One over that with a write, slots and unstaged writes.
fn third_over<H: Hasher>(
    alloc: Global,
    log: &AnyLog<H>,
    second: &AnyMerkleized,
) -> Option<AnyMerkleized> {
    let batch = written(second.new_batch().ok()?, 4, 4)?;
    let (_, staged) = batch.stage(log, &[[2; 32], [1; 32], [2; 32]]).ok()?;
    let slots = Vec::from_array(alloc, [Slot::Put([8; 32]), Slot::Keep, Slot::Put([9; 32])]).ok()?;
    let unstaged = Vec::from_array(alloc, [([3; 32], value_of(3)), ([4; 32], None)]).ok()?;
    staged.merkleize(log, slots, unstaged).ok()
}

/// Whether the third of three batches leaves this.
fn third_leaves<H: Hasher>(
    alloc: Global,
    log: &AnyLog<H>,
    second: &AnyMerkleized,
    wanted: &After,
) -> Option<bool> {
    let third = third_over(alloc, log, second)?;
    Some(leaves(&third, wanted))
}

/// Whether the second and the third do.
fn later_leave<H: Hasher>(
    alloc: Global,
    log: &AnyLog<H>,
    first: &AnyMerkleized,
    wanted: &[After; 3],
) -> Option<bool> {
    let second = second_over(log, first)?;
    let are_so = third_leaves(alloc, log, &second, &wanted[2])?;
    Some(are_so && leaves(&second, &wanted[1]))
}

/// Whether three batches, each over the one before, leave these floors and roots of the logs with them.
fn leave_what_they_tell<H: Hasher, R: RandomSource + AllocGlobal>(
    rt: &R,
    wanted: &[After; 3],
) -> Option<bool> {
    let log = opened::<H>(rt.alloc()).ok()?;
    let first = first_over(rt, &log)?;
    let are_so = later_leave(rt.alloc(), &log, &first, wanted)?;
    Some(are_so && leaves(&first, &wanted[0]))
}

#[test]
fn sealed_batches_have_the_roots_after_them(rt: HostRuntime) {
    let wanted = [
        (6, 3, [0xe6, 0x3e, 0x6b, 0xf0, 0xc4, 0x6e, 0xc5, 0x63]),
        (9, 7, [0x47, 0xd9, 0x79, 0x40, 0x55, 0x22, 0x31, 0x4f]),
        (12, 9, [0xb0, 0x27, 0x71, 0x27, 0x3b, 0x46, 0xc8, 0x9b]),
    ];
    assert_eq!(rt;
        leave_what_they_tell::<Sha256Hasher, _>(&rt, &wanted),
        Some(true)
    );
}

/// Brings the log what it lacks of the batch, and the batch.
fn bring<H: Hasher>(log: &mut AnyLog<H>, batch: AnyMerkleized) -> Result<(), ManagedFault> {
    apply(log, batch)
}

/// Whether the log has this root, and the key of twos the value of nines.
fn holds_nine<H: Hasher>(log: &AnyLog<H>, root: &Digest) -> bool {
    log.root() == *root && log.get(&[2; 32]) == value_of(9)
}

/// Whether the batch brings the log to its own root, and reads nines in it before that.
fn brings_nine<H: Hasher>(log: &mut AnyLog<H>, batch: AnyMerkleized) -> Option<bool> {
    let root = batch.root();
    let is_read = batch.get(log, &[2; 32]).ok() == Some(value_of(9));
    bring(log, batch).ok()?;
    Some(is_read && holds_nine(log, &root))
}

/// The third of three batches over the log.
fn third_behind<H: Hasher>(
    alloc: Global,
    log: &AnyLog<H>,
    first: &AnyMerkleized,
) -> Option<AnyMerkleized> {
    let second = second_over(log, first)?;
    third_over(alloc, log, &second)
}

/// Whether the third of three batches brings the log what it lacks of them.
fn brings_what_lacks<H: Hasher, R: RandomSource + AllocGlobal>(rt: &R) -> Option<bool> {
    let mut log = opened::<H>(rt.alloc()).ok()?;
    let first = first_over(rt, &log)?;
    let third = third_behind(rt.alloc(), &log, &first)?;
    bring(&mut log, first).ok()?;
    brings_nine(&mut log, third)
}

#[test]
fn a_batch_brings_its_ancestors(rt: HostRuntime) {
    assert_eq!(rt; brings_what_lacks::<Sha256Hasher, _>(&rt), Some(true));
}

/// Whether a batch that was applied isn't once more, and the log's state is told.
fn is_refused<H: Hasher>(log: &mut AnyLog<H>, again: AnyMerkleized) -> bool {
    let fault = ManagedFault::StaleBatch {
        size: log.size(),
        root: log.root(),
    };
    bring(log, again).err() == Some(fault)
}

/// The same of a batch over a log, which then has six operations.
fn is_stale_once_applied<H: Hasher, R: RandomSource + AllocGlobal>(rt: &R) -> Option<bool> {
    let mut log = opened::<H>(rt.alloc()).ok()?;
    let first = first_over(rt, &log)?;
    let again = first.copy().ok()?;
    bring(&mut log, first).ok()?;
    Some(is_refused(&mut log, again) && size_of(&log) == 6)
}

#[test]
fn no_batch_is_applied_twice(rt: HostRuntime) {
    assert_eq!(rt; is_stale_once_applied::<Sha256Hasher, _>(&rt), Some(true));
}

/// A batch over the second of two batches over the log.
fn over_second<H: Hasher>(log: &AnyLog<H>, first: &AnyMerkleized) -> Option<AnyUnmerkleized> {
    second_over(log, first)?.new_batch().ok()
}

/// Whether a batch over two others reads the newer one's write, over the log and over that with the older one.
fn reads_newest<H: Hasher, R: RandomSource + AllocGlobal>(rt: &R) -> Option<bool> {
    let mut log = opened::<H>(rt.alloc()).ok()?;
    let first = first_over(rt, &log)?;
    let batch = over_second(&log, &first)?;
    let is_gone = reads(&log, &batch, 1, 0);
    bring(&mut log, first).ok()?;
    Some(is_gone && reads(&log, &batch, 1, 0))
}

#[test]
fn the_newest_ancestor_is_read(rt: HostRuntime) {
    assert_eq!(rt; reads_newest::<Sha256Hasher, _>(&rt), Some(true));
}
