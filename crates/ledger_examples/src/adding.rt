//! Adding operations batch by batch: all of them or none.
ghost use Rattle.std.specs.Prelude.{◌≡◌, ◌+◌, ◌<◌, ◌≤◌, ◌∷◌, None, MatchOption, IsOk, IsOkUnless, IfOk, OnOk, OnErr, length, map, take, drop, is_some};
ghost use Rattle.ledger_log.specs.View.{log_size, log_floor, last_floor, floor_or_zero};
ghost use Rattle.ledger_compact.specs.View.{with_ops, with_batch};
ghost use Rattle.ledger_examples.specs.Batches.{batches_of, first_refusal, added_batches, with_batches};

use crate::{BatchStore, ExampleFamily};
use ledger_compact::{CompactLog, admit};
use ledger_log::{CompactFamily, Family, Log, LogFault};
use ledger_merkle::{Hasher, Location};

/// Adds operations that end with a commit, each run up to a commit as one batch; nothing where they don't end
/// with one. All are tested first, so that a refusal is that of the first batch and changes nothing.
pub(crate) fn add<F: ExampleFamily, L: BatchStore<F>>(
    log: &mut L,
    operations: Vec<F::Op>,
) -> Result<(), LogFault>
    ensures refusal { MatchOption
        (first_refusal F.floor_of (L.size_of log.old) (L.last_floor_of log.old)
        (added_batches F.floor_of F.added_of (L.last_floor_of log.old) operations.items))
        (IsOkUnless result LogFault.OutOfMemory) (λ fault. result ≡ Err fault) }
    ensures ok { OnOk result (log.new
        ≡ with_batches L.appended log.old
        (added_batches F.floor_of F.added_of (L.last_floor_of log.old) operations.items)) }
    ensures err { OnErr result (log.new ≡ log.old) }
{
    if !ends_with_commit::<F>(operations.as_slice()) {
        return Ok(());
    }
    let mut operations = operations;
    set_floors::<F>(operations.as_mut_slice(), log.last_floor());
    append_all::<F, L>(log, operations.as_slice())
}

/// Appends the batches of these operations, or leaves the log as it was.
fn append_all<F: Family, L: BatchStore<F>>(log: &mut L, ops: &[F::Op]) -> Result<(), LogFault>
    ensures refusal { MatchOption
        (first_refusal F.floor_of (L.size_of log.old) (L.last_floor_of log.old)
        (batches_of F.floor_of ops.now))
        (IsOkUnless result LogFault.OutOfMemory) (λ fault. result ≡ Err fault) }
    ensures ok { OnOk result (log.new ≡ with_batches L.appended log.old (batches_of F.floor_of ops.now)) }
    ensures err { OnErr result (log.new ≡ log.old) }
{
    match test_all::<F>(log.count(), log.last_floor(), ops) {
        Ok(()) => {}
        Err(fault) => return Err(fault),
    }
    log.take_batches(ops)
}

/// Whether the last operation is a commit.
fn ends_with_commit<F: Family>(ops: &[F::Op]) -> bool
    ensures { result ≡ is_some (last_floor F.floor_of ops.now) }
{
    match ops.split_last() {
        Some((last, _)) => F::commit_floor(last).is_some(),
        None => false,
    }
}

/// Makes each operation what is added to a log of this floor.
fn set_floors<F: ExampleFamily>(ops: &mut [F::Op], floor: Location)
    ensures { ops.new ≡ map (F.added_of floor) ops.old }
{
    for op in ops.iter_mut() {
        *op = F::added(op, floor);
    }
}

/// How many operations the first batch has: those up to the first commit.
fn first_batch<F: Family>(ops: &[F::Op]) -> usize
    requires { 0 < length ops.now }
    ensures some { 0 < result }
    ensures most { result ≤ length ops.now }
    ensures cut { batches_of F.floor_of ops.now ≡ take result ops.now ∷ batches_of F.floor_of
        (drop result ops.now) }
{
    let mut count = 0;
    for op in ops {
        count += 1;
        if F::commit_floor(op).is_some() {
            return count;
        }
    }
    count
}

/// Tests the batches of these operations against a log of this size and floor, one after another. It takes no
/// memory.
fn test_all<F: Family>(size: Location, floor: Location, ops: &[F::Op]) -> Result<(), LogFault>
    ensures { MatchOption (first_refusal F.floor_of size floor (batches_of F.floor_of ops.now))
        (IsOk result) (λ fault. result ≡ Err fault) }
{
    let mut size = size;
    let mut floor = floor;
    let mut rest = ops;
    while rest.len() > 0 {
        let (batch, more) = rest.split_at(first_batch::<F>(rest));
        match admit::<F>(size, floor, batch) {
            Ok(next) => floor = next,
            Err(fault) => return Err(fault),
        }
        size = size.plus(batch.len() as u64);
        rest = more;
    }
    Ok(())
}

/// Appends the batches of these operations, which the log takes, as one run.
#[tactic(auto, using(crate::proofs::Runs::none_added))]
pub(crate) fn extend_log<F: Family, H: Hasher>(
    log: &mut Log<F, H>,
    ops: &[F::Op],
) -> Result<(), LogFault>
    requires { first_refusal F.floor_of (log_size log.old) (log_floor F.floor_of log.old)
        (batches_of F.floor_of ops.now)
        ≡ None }
    ensures may { IsOkUnless result LogFault.OutOfMemory }
    ensures ok { OnOk result (log.new ≡ with_batches with_ops log.old (batches_of F.floor_of ops.now)) }
    ensures err { OnErr result (log.new ≡ log.old) }
{
    if ops.len() == 0 {
        return Ok(());
    }
    append_run(log, ops)
}

/// The same of some operations.
fn append_run<F: Family, H: Hasher>(log: &mut Log<F, H>, ops: &[F::Op]) -> Result<(), LogFault>
    requires some { 0 < length ops.now }
    requires taken { first_refusal F.floor_of (log_size log.old) (log_floor F.floor_of log.old)
        (batches_of F.floor_of ops.now)
        ≡ None }
    ensures may { IsOkUnless result LogFault.OutOfMemory }
    ensures ok { OnOk result (log.new ≡ with_batches with_ops log.old (batches_of F.floor_of ops.now)) }
    ensures err { OnErr result (log.new ≡ log.old) }
{
    log.append_batches(ops)
}

/// Appends the batches of these operations, which the log takes: to a copy, as that has no operations.
pub(crate) fn extend_compact<F: CompactFamily, H: Hasher>(
    log: &mut CompactLog<F, H>,
    ops: &[F::Op],
) -> Result<(), LogFault>
    requires { first_refusal F.floor_of log.old.size (floor_or_zero (F.floor_of log.old.last))
        (batches_of F.floor_of ops.now)
        ≡ None }
    ensures may { IsOkUnless result LogFault.OutOfMemory }
    ensures ok { OnOk result (log.new
        ≡ with_batches (with_batch H.digest F.Op.spelling) log.old (batches_of F.floor_of ops.now)) }
    ensures err { OnErr result (log.new ≡ log.old) }
{
    match grown(log, ops) {
        Ok(grown) => {
            *log = grown;
            Ok(())
        }
        Err(fault) => Err(fault),
    }
}

/// A copy of the log with the batches of these operations, which it takes. Refused for want of memory alone.
fn grown<F: CompactFamily, H: Hasher>(
    log: &CompactLog<F, H>,
    ops: &[F::Op],
) -> Result<CompactLog<F, H>, LogFault>
    requires { first_refusal F.floor_of log.now.size (floor_or_zero (F.floor_of log.now.last))
        (batches_of F.floor_of ops.now)
        ≡ None }
    ensures may { IsOkUnless result LogFault.OutOfMemory }
    ensures ok { IfOk result (λ new.
        new ≡ with_batches (with_batch H.digest F.Op.spelling) log.now (batches_of F.floor_of ops.now)) }
{
    let mut grown = match log.copy() {
        Ok(copy) => copy,
        Err(fault) => return Err(fault),
    };
    let mut rest = ops;
    while rest.len() > 0 {
        let (batch, more) = rest.split_at(first_batch::<F>(rest));
        match grown.append_batch(batch) {
            Ok(()) => {}
            Err(fault) => return Err(fault),
        }
        rest = more;
    }
    Ok(grown)
}
