//! What is promised of following a log that grows meanwhile, over a link that serves it and whose calls don't fail: the
//! report is that of its first target or of the later one, unless memory is wanting.
ghost use Rattle.std.specs.Prelude.{◌≡◌, ◌≤◌, ◌⊎◌, ◌++◌, ◌∷◌, ◌^◌, [], Some, IfOk, IfSome, IsOkUnless};
ghost use Rattle.follow_promises.specs.Four.{fifth, five_log, four, four_log};
ghost use Rattle.ledger_program.specs.Run.{SpansLog};

use super::digest_of;
use super::four::{link_to, log, update, whole};
use super::vectors::{ROOT_FIVE, ROOT_FOUR};
use ledger_codec::Digest;
use ledger_job::Payment;
use ledger_log::{AnyFamily, AnyOp, Log, Target};
use ledger_merkle::{Location, Sha256Hasher};
use ledger_program::{Fault, follow};
use ledger_settling::Report;
use ledger_strategy::Sequential;
use ledger_transfers::Sequenced;
use std::alloc::{AllocError, Global};
use std::random::RandomSource;
use std::thread::Threads;
use sync_client::{Limits, ListTargets};
use sync_server::MemoryLink;

/// What grows behind the log of four accounts.
#[tactic(auto, unfolding(crate::specs::Four::fifth))]
fn addition(alloc: Global) -> Result<Vec<AnyOp>, AllocError>
    ensures { IfOk result (λ ops. ops.items ≡ fifth) }
{
    let mut ops = Vec::new(alloc);
    ops.push(update(5, 50, 5))?;
    ops.push(AnyOp::CommitFloor(None, Location::ZERO))?;
    Ok(ops)
}

/// The log with that behind it, None where memory is wanting.
pub(super) fn grown(
    alloc: Global,
    mut log: Log<AnyFamily, Sha256Hasher>,
) -> Option<Log<AnyFamily, Sha256Hasher>>
    requires { log ≡ four_log }
    ensures { IfSome result (λ log. log ≡ five_log) }
{
    let Ok(ops) = addition(alloc) else {
        return None;
    };
    match log.append_batch(ops.as_slice()) {
        Ok(()) => Some(log),
        Err(_) => None,
    }
}

/// A log, its target as it was followed first, and its later one.
#[derive(Drop)]
struct Growing {
    log: Log<AnyFamily, Sha256Hasher>,
    first: Target,
    later: Target,
}

/// The log of five accounts with the target of four, None where memory is wanting.
fn with_targets(alloc: Global) -> Option<Growing>
    ensures log { IfSome result (λ g. g.log ≡ five_log) }
    ensures first { IfSome result (λ g. SpansLog g.first four_log) }
    ensures later { IfSome result (λ g. SpansLog g.later five_log) }
{
    let Some(log) = log(alloc) else {
        return None;
    };
    let first = whole(&log);
    let Some(log) = grown(alloc, log) else {
        return None;
    };
    let later = whole(&log);
    Some(Growing { log, first, later })
}

/// The answers that name this target and no other.
fn naming(alloc: Global, later: Target) -> Result<ListTargets, AllocError>
    ensures { IfOk result (λ answers. answers ≡ Some later ∷ []) }
{
    let mut answers = Vec::new(alloc);
    answers.push(Some(later))?;
    Ok(ListTargets::new(answers))
}

/// What following the log of four accounts answers over a link that serves it with a fifth, where that is named as it
/// is fetched: the accounts of the one target or of the other, or memory was wanting.
fn followed<R: RandomSource + Threads + Sync + AllocGlobal>(
    rt: &R,
    limits: &Limits,
) -> Result<Report<Sequenced>, Fault>
    ensures complete { IsOkUnless result Fault.OutOfMemory }
    ensures serving { IfOk result (λ report. (report.kept ≡ four) ⊎ (report.kept ≡ four ++ fifth)) }
{
    let alloc = rt.alloc();
    let Some(growing) = with_targets(alloc) else {
        return Err(Fault::OutOfMemory);
    };
    let Growing { log, first, later } = growing;
    let Ok(mut updates) = naming(alloc, later) else {
        return Err(Fault::OutOfMemory);
    };
    let mut link = link_to(alloc, log);
    match follow::<R, Payment, Sequenced, MemoryLink<AnyFamily>, Sequential, ListTargets>(
        rt,
        alloc,
        &first,
        &mut updates,
        limits,
        &[],
        &mut link,
        &Sequential,
    ) {
        Ok(report) => Ok(report),
        Err(fault) => Err(fault),
    }
}

/// How many operations and accounts a report has, its size and its root, so many operations at a time.
fn told<R: RandomSource + Threads + Sync + AllocGlobal>(
    rt: &R,
    batch: u64,
) -> Option<(usize, usize, u64, Digest)> {
    let report = followed(rt, &Limits::new(batch, 1)?).ok()?;
    let kept = report.kept.as_slice().len();
    Some((kept, report.accounts.len(), report.size.get(), report.root))
}

#[test]
fn a_later_target_is_reported_where_it_is_named_in_time(rt: HostRuntime) {
    assert_eq!(rt;
        told(&rt, 50),
        digest_of(ROOT_FOUR).map(|root| (6, 4, 6, root))
    );
    assert_eq!(rt;
        told(&rt, 4),
        digest_of(ROOT_FIVE).map(|root| (8, 5, 8, root))
    );
}
