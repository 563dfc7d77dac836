//! What a link promises that serves the log of four accounts and whose calls don't fail: its target is fetched, and
//! following it gives a report, unless memory is wanting.
ghost use Rattle.std.specs.Prelude.{◌≡◌, ◌≤◌, ◌^◌, [], IfOk, IfSome, IsOkUnless, OnOk};
ghost use Rattle.follow_promises.specs.Four.{update_of, four, four_log};
ghost use Rattle.ledger_log.specs.Any.{any_floor, any_spelling};
ghost use Rattle.ledger_program.specs.Follow.{LeavesCount};
ghost use Rattle.ledger_program.specs.Run.{SpansLog};
ghost use Rattle.sync_client.specs.Owing.{OwesNothing};
ghost use Rattle.sync_net.specs.Core.{data_of};
ghost use Rattle.sync_net.specs.Service.{service_of};
ghost use Rattle.sync_server.specs.Links.{service_told};

use super::vectors::ROOT_FOUR;
use super::{digest_of, target};
use ledger_codec::Digest;
use ledger_job::Payment;
use ledger_log::{AnyFamily, AnyOp, Log, Target};
use ledger_managed::AccountValue;
use ledger_merkle::{Location, Sha256Hasher};
use ledger_program::{Fault, follow};
use ledger_settling::Report;
use ledger_strategy::Sequential;
use ledger_transfers::Sequenced;
use std::alloc::{AllocError, Global};
use std::random::RandomSource;
use std::thread::Threads;
use sync_client::{Limits, NoTargets, SyncFault};
use sync_fetch::fetch_target;
use sync_net::{Generator, Machine};
use sync_server::MemoryLink;

/// The account with this balance and nonce at the key that repeats one byte.
#[tactic(auto, unfolding(crate::specs::Four::update_of))]
pub(super) fn update(key: u8, balance: u64, nonce: u64) -> AnyOp
    ensures { result ≡ update_of key balance nonce }
{
    AnyOp::Update([key; 32], Sequenced { balance, nonce }.to_value())
}

/// A commit, the four accounts, and a commit.
#[tactic(auto, unfolding(crate::specs::Four::four))]
fn operations(alloc: Global) -> Result<Vec<AnyOp>, AllocError>
    ensures { IfOk result (λ ops. ops.items ≡ four) }
{
    let mut ops = Vec::new(alloc);
    ops.push(AnyOp::CommitFloor(None, Location::ZERO))?;
    ops.push(update(1, 10, 1))?;
    ops.push(update(2, 20, 2))?;
    ops.push(update(3, 30, 3))?;
    ops.push(update(4, 40, 4))?;
    ops.push(AnyOp::CommitFloor(None, Location::ZERO))?;
    Ok(ops)
}

/// The log of these operations, None where memory is wanting.
pub(super) fn log(alloc: Global) -> Option<Log<AnyFamily, Sha256Hasher>>
    ensures { IfSome result (λ log. log ≡ four_log) }
{
    let Ok(ops) = operations(alloc) else {
        return None;
    };
    match Log::from_parts(alloc, Vec::new(alloc), Location::ZERO, ops) {
        Ok(log) => Some(log),
        Err(_) => None,
    }
}

/// The target of the whole log.
pub(super) fn whole(log: &Log<AnyFamily, Sha256Hasher>) -> Target
    requires front { log.now.front ≡ 0 }
    requires pinned { log.now.pinned ≡ [] }
    ensures spans { SpansLog result log.now }
    ensures most { result.end ≤ 2 ^ 62 }
{
    let _floor = log.floor();
    match Target::new(log.root(), Location::ZERO, log.size()) {
        Some(target) => target,
        None => unreachable!(),
    }
}

/// A link that serves the log, and whose calls don't fail.
pub(super) fn link_to(alloc: Global, log: Log<AnyFamily, Sha256Hasher>) -> MemoryLink<AnyFamily>
    ensures steady { result.calls.failing ≡ [] }
    ensures count { result.calls.faults ≡ 0 }
    ensures serves { OwesNothing (data_of any_spelling any_floor log)
        (service_of result.lost (service_told any_spelling any_floor result)) }
{
    let order = Vec::new(alloc);
    let cuts = Vec::new(alloc);
    let failing = Vec::new(alloc);
    MemoryLink::new(alloc, log, order, cuts, failing)
}

/// What there is to sync to, asked over such a link.
fn asked(alloc: Global) -> Result<Target, SyncFault>
    ensures may { IsOkUnless result SyncFault.OutOfMemory }
    ensures own { IfOk result (λ target. SpansLog target four_log) }
{
    let Some(log) = log(alloc) else {
        return Err(SyncFault::OutOfMemory);
    };
    let mut link = link_to(alloc, log);
    let mut machine: Machine<AnyOp> = Machine::new(alloc, Generator::new());
    match fetch_target(&mut machine, &mut link) {
        Ok(target) => Ok(target),
        Err(fault) => Err(fault),
    }
}

/// What following the log over such a link answers.
fn followed<R: RandomSource + Threads + Sync + AllocGlobal>(
    rt: &R,
    limits: &Limits,
) -> Result<Report<Sequenced>, Fault>
    ensures complete { IsOkUnless result Fault.OutOfMemory }
    ensures serving { IfOk result (λ report. report.kept ≡ four) }
{
    let alloc = rt.alloc();
    let Some(log) = log(alloc) else {
        return Err(Fault::OutOfMemory);
    };
    let target = whole(&log);
    let mut link = link_to(alloc, log);
    match follow::<R, Payment, Sequenced, MemoryLink<AnyFamily>, Sequential, NoTargets>(
        rt,
        alloc,
        &target,
        &mut NoTargets,
        limits,
        &[],
        &mut link,
        &Sequential,
    ) {
        Ok(report) => Ok(report),
        Err(fault) => Err(fault),
    }
}

/// What following the log over a link that serves it answers. The link's count rises only where a call of it failed or
/// memory was wanting, and after a report the link owes nothing again.
fn counted<R: RandomSource + Threads + Sync + AllocGlobal>(
    rt: &R,
    target: &Target,
    limits: &Limits,
    link: &mut MemoryLink<AnyFamily>,
) -> Result<Report<Sequenced>, Fault>
    requires spans { SpansLog target.now four_log }
    requires most { target.now.end ≤ 2 ^ 62 }
    requires serves { OwesNothing (data_of any_spelling any_floor four_log)
        (service_of link.old.lost (service_told any_spelling any_floor link.old)) }
    ensures exact { LeavesCount result link.old.calls.faults link.new.calls.faults }
    ensures rests { OnOk result (OwesNothing (data_of any_spelling any_floor four_log)
        (service_of link.new.lost (service_told any_spelling any_floor link.new))) }
{
    match follow::<R, Payment, Sequenced, MemoryLink<AnyFamily>, Sequential, NoTargets>(
        rt,
        rt.alloc(),
        target,
        &mut NoTargets,
        limits,
        &[],
        link,
        &Sequential,
    ) {
        Ok(report) => Ok(report),
        Err(fault) => Err(fault),
    }
}

/// Whether following the log again over the same link, which owes nothing after the first time, reports the same root.
fn is_again<R: RandomSource + Threads + Sync + AllocGlobal>(rt: &R, limits: &Limits) -> bool {
    let alloc = rt.alloc();
    let Some(log) = log(alloc) else {
        return false;
    };
    let target = whole(&log);
    let mut link = link_to(alloc, log);
    let first = match counted(rt, &target, limits, &mut link) {
        Ok(report) => report.root,
        Err(_) => return false,
    };
    match counted(rt, &target, limits, &mut link) {
        Ok(report) => report.root == first,
        Err(_) => false,
    }
}

#[test]
fn a_link_can_be_followed_again(rt: HostRuntime) {
    assert_eq!(rt;
        Limits::new(2, 2).map(|limits| is_again(&rt, &limits)),
        Some(true)
    );
}

#[test]
fn its_target_is_fetched(rt: HostRuntime) {
    assert!(rt; asked(rt.alloc()).ok() == target(ROOT_FOUR, 6));
}

/// How many operations and accounts a report of it has, its size and its root, so many operations at a time.
fn told<R: RandomSource + Threads + Sync + AllocGlobal>(
    rt: &R,
    batch: u64,
) -> Option<(usize, usize, u64, Digest)> {
    let report = followed(rt, &Limits::new(batch, 2)?).ok()?;
    let kept = report.kept.as_slice().len();
    Some((kept, report.accounts.len(), report.size.get(), report.root))
}

#[test]
fn following_it_gives_a_report(rt: HostRuntime) {
    let report = digest_of(ROOT_FOUR).map(|root| (6, 4, 6, root));
    assert_eq!(rt; told(&rt, 4), report);
    assert_eq!(rt; told(&rt, 50), report);
}
