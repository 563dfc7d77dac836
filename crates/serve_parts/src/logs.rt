//! Logs of test operations.
ghost use Rattle.std.specs.Prelude.{◌≡◌, ◌≤◌, Some, None, IfOk, OnOk};
ghost use Rattle.sha2.specs.Sha256.{sha256};
ghost use Rattle.ledger_compact.specs.View.{compact_of};
ghost use Rattle.ledger_examples.specs.Tests.{test_operations};
ghost use Rattle.ledger_examples.specs.Batches.{first_refusal, added_batches, with_batches};
ghost use Rattle.serve_parts.specs.Tests.{test_log};

use crate::family::TestedFamily;
use ledger_codec::OutOfMemory;
use ledger_compact::CompactLog;
use ledger_examples::{CompactExampleFamily, ExampleDatabase};
use ledger_log::Log;
use ledger_merkle::Sha256Hasher;
use std::alloc::Global;

/// A database of one commit of floor 0, with so many test operations behind it.
fn with_tests<F: TestedFamily, L: ExampleDatabase<F>>(
    alloc: Global,
    mut log: L,
    count: usize,
    seed: u64,
) -> Result<L, OutOfMemory>
    requires few { count ≤ 1000000 }
    requires size { L.size_of log ≡ 1 }
    requires floor { L.last_floor_of log ≡ 0 }
    ensures new { IfOk result (λ new. new ≡ with_batches L.appended log
        (added_batches F.floor_of F.added_of 0 (test_operations F.test_of F.test_commit_of seed 0 count))) }
    ensures taken { OnOk result (first_refusal F.floor_of 1 0
        (added_batches F.floor_of F.added_of 0 (test_operations F.test_of F.test_commit_of seed 0 count))
        ≡ None) }
{
    let start = log.current_floor();
    let Ok(operations) = L::create_test_operations(alloc, count, seed, start) else {
        return Err(OutOfMemory);
    };
    match log.add_operations(operations) {
        Ok(()) => Ok(log),
        Err(_) => Err(OutOfMemory),
    }
}

/// A log of the family's test operations: a fresh one, to which so many of this seed were added.
pub fn test_log<F: TestedFamily>(
    alloc: Global,
    count: usize,
    seed: u64,
) -> Result<Log<F, Sha256Hasher>, OutOfMemory>
    requires few { count ≤ 1000000 }
    ensures { IfOk result (λ log. log ≡ test_log F.floor_of F.commit_of F.test_of F.test_commit_of
        F.added_of count seed) }
{
    let log: Log<F, Sha256Hasher> = match Log::fresh(alloc) {
        Ok(log) => log,
        Err(_) => return Err(OutOfMemory),
    };
    with_tests::<F, Log<F, Sha256Hasher>>(alloc, log, count, seed)
}

/// The same as a compact log: what is kept of that full one.
pub fn compact_test_log<F: TestedFamily + CompactExampleFamily>(
    alloc: Global,
    count: usize,
    seed: u64,
) -> Result<CompactLog<F, Sha256Hasher>, OutOfMemory>
    requires few { count ≤ 1000000 }
    ensures { IfOk result (λ log. compact_of sha256 F.Op.spelling
        (test_log F.floor_of F.commit_of F.test_of F.test_commit_of F.added_of count seed) ≡ Some log) }
{
    let log: CompactLog<F, Sha256Hasher> = match CompactLog::fresh(alloc) {
        Ok(log) => log,
        Err(_) => return Err(OutOfMemory),
    };
    with_tests::<F, CompactLog<F, Sha256Hasher>>(alloc, log, count, seed)
}
