//! How a served log grows: before each session a batch is appended, by a pass that no session has.
ghost use Rattle.std.specs.Prelude.{◌≡◌, ◌<◌, ◌≤◌, ◌+◌, ◌^◌, OnOk, IfErr, IfSome, is_some};
ghost use Rattle.ledger_program.specs.declared.outcome.RunFault.TheVariants.{OutOfMemory as memory_wanting};
ghost use Rattle.serve_parts.specs.Tests.{test_batch};
ghost use Rattle.sync_shared.specs.Replies.{Belongs};
ghost use Rattle.ledger_serve.specs.Growing.{turns, seed_for, Appended, Grown};

use ledger_merkle::Location;
use ledger_program::RunFault;
use serve_parts::{TestedFamily, test_batch};
use std::alloc::Global;
use std::sync::Wait;
use sync_shared::{Pass, ShareRefusal, SharedLog};

/// What is appended before each session: test operations, and a commit.
#[derive(Clone, Copy, PartialEq, Eq, Debug)]
pub(crate) struct Growth {
    /// How many test operations.
    pub count: u64,
    /// The seed before that of the first batch.
    pub seed: u64,
    /// The floor of the commits.
    pub floor: Location,
}

/// Appends a batch. One that the log refuses is left out.
#[tactic(auto, using(crate::proofs::Sharing::made_appended))]
fn append<R: Wait, F: TestedFamily>(
    rt: &R,
    alloc: Global,
    shared: &SharedLog<F>,
    pass: &mut Pass<F>,
    ops: &[F::Op],
) -> Result<(), RunFault>
    requires belongs { Belongs shared.now.from pass.old }
    requires left { pass.old.used < pass.old.turns }
    ensures grown { OnOk result (Appended ops.now pass.old pass.new) }
    ensures fails { IfErr result (λ fault. fault ≡ memory_wanting) }
{
    match shared.append(rt, alloc, pass, ops) {
        Ok(_) => Ok(()),
        Err(ShareRefusal::Log(_)) => Ok(()),
        Err(ShareRefusal::PassSpent) => unreachable!(),
        Err(ShareRefusal::OutOfMemory) => Err(RunFault::OutOfMemory),
    }
}

/// Appends the batch before the session of this number.
#[tactic(auto, using(crate::proofs::Sharing::grown_more))]
fn grow<R: Wait, F: TestedFamily>(
    rt: &R,
    alloc: Global,
    shared: &SharedLog<F>,
    growth: Growth,
    pass: &mut Pass<F>,
    number: u64,
) -> Result<(), RunFault>
    requires count { growth.count ≤ 9 }
    requires few { number < 8 }
    requires grown { Grown F.floor_of F.commit_of F.test_of F.test_commit_of shared.now.from growth number
        pass.old }
    ensures grown { OnOk result (Grown F.floor_of F.commit_of F.test_of F.test_commit_of shared.now.from
        growth (number + 1) pass.new) }
    ensures fails { IfErr result (λ fault. fault ≡ memory_wanting) }
{
    let seed = growth.seed.wrapping_add(number + 1);
    let Ok(ops) = test_batch::<F>(alloc, growth.count as usize, seed, growth.floor) else {
        return Err(RunFault::OutOfMemory);
    };
    match append(rt, alloc, shared, pass, &ops) {
        Ok(()) => Ok(()),
        Err(fault) => Err(fault),
    }
}

/// Appends the batch before the session of this number, where batches are appended.
pub(crate) fn grow_if<R: Wait, F: TestedFamily>(
    rt: &R,
    alloc: Global,
    shared: &SharedLog<F>,
    growth: Growth,
    own: &mut Option<Pass<F>>,
    number: u64,
) -> Result<(), RunFault>
    requires count { growth.count ≤ 9 }
    requires few { number < 8 }
    requires grown { IfSome own.old (Grown F.floor_of F.commit_of F.test_of F.test_commit_of shared.now.from
        growth number) }
    ensures same { is_some own.new ≡ is_some own.old }
    ensures grown { OnOk result (IfSome own.new (Grown F.floor_of F.commit_of F.test_of F.test_commit_of
        shared.now.from growth (number + 1))) }
    ensures fails { IfErr result (λ fault. fault ≡ memory_wanting) }
{
    match own {
        Some(pass) => match grow(rt, alloc, shared, growth, pass, number) {
            Ok(()) => Ok(()),
            Err(fault) => Err(fault),
        },
        None => Ok(()),
    }
}
