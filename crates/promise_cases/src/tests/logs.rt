//! What is promised of a log that is pruned, and of the batch that raises the floor of one.
ghost use Rattle.std.specs.Prelude.{◌≡◌, IfOk, IfSome, OnOk};
ghost use Rattle.sha2.specs.Sha256.{sha256};
ghost use Rattle.ledger_compact.specs.View.{fresh_log, with_ops};
ghost use Rattle.ledger_log.specs.Any.{any_commit, any_floor, any_write};
ghost use Rattle.ledger_log.specs.Keyless.{keyless_spelling};
ghost use Rattle.ledger_log.specs.View.{log_list, log_range, log_size};
ghost use Rattle.ledger_merkle.specs.Levels.{proof_digests};
ghost use Rattle.ledger_raising.specs.Raised.{FloorSound};

use ledger_log::{AnyFamily, AnyOp, KeylessFamily, KeylessOp, Log, LogFault};
use ledger_merkle::{Location, Sha256Hasher};
use ledger_raising::{RaisedBatch, raise};
use std::alloc::Global;

type Whole = Log<AnyFamily, Sha256Hasher>;

type Full = Log<KeylessFamily, Sha256Hasher>;

/// A commit, a value, and a commit from whose floor on the value stands.
fn three(alloc: Global) -> Option<Full>
    ensures front { IfSome result (λ log. log.front ≡ 0) }
    ensures size { IfSome result (λ log. log_size log ≡ 3) }
{
    let mut log = Full::fresh(alloc).ok()?;
    let batch = [
        KeylessOp::Append([1; 32]),
        KeylessOp::Commit(None, Location::ZERO.plus(1)),
    ];
    match log.append_batch(&batch) {
        Ok(()) => Some(log),
        Err(_) => None,
    }
}

/// Drops the first of three operations: the others, and the proof of both, are what they were.
fn drop_first(log: &mut Full) -> Result<(), LogFault>
    requires front { log.old.front ≡ 0 }
    requires size { log_size log.old ≡ 3 }
    ensures range { OnOk result (log_range log.new 1 2 ≡ log_range log.old 1 2) }
    ensures proof { OnOk result (proof_digests sha256 (log_list sha256 keyless_spelling log.new) 3 1 2
        ≡ proof_digests sha256 (log_list sha256 keyless_spelling log.old) 3 1 2) }
{
    log.prune(Location::ZERO.plus(1))
}

/// The log with which databases of the family any begin, None where memory is wanting.
fn fresh(alloc: Global) -> Option<Whole>
    ensures { IfSome result (λ log. log ≡ fresh_log any_commit) }
{
    match Whole::fresh(alloc) {
        Ok(log) => Some(log),
        Err(_) => None,
    }
}

/// What a batch of one update appends to the log with which databases begin: behind it no operation that counts stands
/// below the floor.
fn raised(alloc: Global) -> Option<Result<RaisedBatch<AnyFamily>, LogFault>>
    ensures { IfSome result (λ raised. IfOk raised (λ batch. FloorSound any_floor any_write
        (with_ops (fresh_log any_commit) batch.ops.items))) }
{
    let log = fresh(alloc)?;
    let update = [AnyOp::Update([1; 32], [2; 32])];
    Some(raise(alloc, &log, &[], Location::ZERO, &update, None))
}

/// Whether a log of three operations has its root and size when the first is dropped.
fn is_kept(alloc: Global) -> Option<bool> {
    let mut log = three(alloc)?;
    let root = log.root();
    drop_first(&mut log).ok()?;
    Some(log.front().get() == 1 && log.size().get() == 3 && log.root() == root)
}

#[test]
fn a_pruned_log_keeps_its_root(rt: HostRuntime) {
    assert_eq!(rt; is_kept(rt.alloc()), Some(true));
}

/// The floor and the count of operations of that batch.
fn raised_floor(alloc: Global) -> Option<(u64, usize)> {
    let batch = raised(alloc)?.ok()?;
    Some((batch.floor.get(), batch.ops.len()))
}

#[test]
fn a_raised_floor_stays_sound(rt: HostRuntime) {
    assert_eq!(rt; raised_floor(rt.alloc()), Some((1, 2)));
}
