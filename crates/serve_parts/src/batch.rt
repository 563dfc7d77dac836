//! What is appended to a served log before a connection is served.
ghost use Rattle.std.specs.Prelude.{◌≡◌, ◌≤◌, ◌++◌, ◌∷◌, [], not, is_some, filter, IfOk};
ghost use Rattle.serve_parts.specs.Tests.{test_batch};

use ledger_codec::OutOfMemory;
use ledger_examples::{ExampleDatabase, ExampleFamily};
use ledger_log::Log;
use ledger_merkle::{Location, Sha256Hasher};
use std::alloc::Global;

/// These operations without the commits.
fn without_commits<F: ExampleFamily>(
    alloc: Global,
    ops: &[F::Op],
) -> Result<Vec<F::Op>, OutOfMemory>
    ensures { IfOk result (λ kept. kept.items ≡ filter (λ op. not (is_some (F.floor_of op))) ops.now) }
{
    let kept = ops
        .iter()
        .filter(|op| F::commit_floor(op).is_none())
        .copied()
        .collect(alloc)?;
    Ok(kept)
}

/// So many test operations of this seed without their commits, and behind them one commit of this floor.
pub fn test_batch<F: ExampleFamily>(
    alloc: Global,
    count: usize,
    seed: u64,
    floor: Location,
) -> Result<Vec<F::Op>, OutOfMemory>
    requires { count ≤ 9 }
    ensures { IfOk result (λ ops. ops.items ≡ test_batch F.floor_of F.commit_of F.test_of F.test_commit_of
        count seed floor) }
{
    let Ok(tests) = Log::<F, Sha256Hasher>::create_test_operations(alloc, count, seed, 0) else {
        return Err(OutOfMemory);
    };
    let mut ops = without_commits::<F>(alloc, &tests)?;
    ops.push(F::commit(None, floor))?;
    Ok(ops)
}
