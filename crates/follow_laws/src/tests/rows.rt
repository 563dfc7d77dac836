//! A log of one account, a payment on it, and what the next run makes of the report. At the accounts that the programs
//! use there is no premise left: whatever was reported, the next run syncs to it, or memory was wanting.
ghost use Rattle.std.specs.Prelude.{◌≤◌, IfOk, IsOkUnless};
ghost use Rattle.follow_laws.specs.Chained.{Continues, HasAccounts};
ghost use Rattle.ledger_log.specs.Any.{any_floor};
ghost use Rattle.ledger_log.specs.View.{log_floor};
ghost use Rattle.ledger_managed.specs.SpelledProofs.{sequenced_same};
ghost use Rattle.ledger_program.specs.Peer.{payments};
ghost use Rattle.ledger_settling.specs.Blocks.{log_from};
ghost use Rattle.ledger_settling.specs.Reports.{ReportOf};

use super::{digest_of, named, opened};
use crate::{follow_floor, follow_report};
use ledger_codec::List;
use ledger_job::{Block, Payment};
use ledger_log::{AnyFamily, Target};
use ledger_merkle::Location;
use ledger_program::{Fault, follow};
use ledger_settling::Report;
use ledger_strategy::Sequential;
use ledger_transfers::Sequenced;
use std::alloc::Global;
use std::random::RandomSource;
use std::thread::Threads;
use sync_client::{Limits, NoTargets};
use sync_server::MemoryLink;

/// The root of the log of one account.
pub(super) const OPENED: &str = "4b8502c97e116f46fdb2d07ca4b5c9884bd337459c0711c9b7d3a97c0ed860e7";

/// Its root after the payment.
pub(super) const PAID: &str = "1a1e2649c723f287b24a0babda0bf74d3d758d02f61405f7d9cd3875542e23de";

/// One body, in which alice pays bob 6.
fn paying(alloc: Global) -> Option<Vec<Block<Payment>>> {
    let payment = Payment {
        from: named(b"alice"),
        to: named(b"bob"),
        amount: 6,
        nonce: 0,
    };
    let mut blocks = Vec::new(alloc);
    let body = List::from_vec(Vec::from_slice(alloc, &[payment]).ok()?);
    blocks.push(Block::Body(body)).ok()?;
    Some(blocks)
}

/// The balance and the nonce of an account, where it is held.
fn held(report: &Report<Sequenced>, name: &[u8]) -> Option<(u64, u64)> {
    let account = report.accounts.get(&named(name))?;
    Some((account.balance, account.nonce))
}

/// Whether a report says that alice has 4 and has paid once, that bob has 6, and that there are no others.
fn is_paid(report: &Report<Sequenced>) -> bool {
    report.accounts.len() == 2
        && held(report, b"alice") == Some((4, 1))
        && held(report, b"bob") == Some((6, 0))
}

/// Whether a report has the root of the paid log, its size, its accounts, and this many operations that were fetched.
pub(super) fn is_whole(report: &Report<Sequenced>, kept: usize) -> bool {
    report.size.get() == 6
        && Some(report.root) == digest_of(PAID)
        && is_paid(report)
        && report.kept.as_slice().len() == kept
}

/// What the blocks make of the log that a link serves.
fn settled<R: RandomSource + Threads + Sync + AllocGlobal>(
    rt: &R,
    target: &Target,
    limits: &Limits,
    blocks: &[Block<Payment>],
    link: &mut MemoryLink<AnyFamily>,
) -> Result<Report<Sequenced>, Fault>
    ensures { IfOk result (λ report. ReportOf payments report.target blocks.now report) }
{
    match follow::<R, Payment, Sequenced, MemoryLink<AnyFamily>, Sequential, NoTargets>(
        rt,
        rt.alloc(),
        target,
        &mut NoTargets,
        limits,
        blocks,
        link,
        &Sequential,
    ) {
        Ok(report) => Ok(report),
        Err(fault) => Err(fault),
    }
}

/// What the next run makes of a report.
fn continued<R: RandomSource + Threads + Sync + AllocGlobal>(
    rt: &R,
    limits: &Limits,
    blocks: &[Block<Payment>],
    report: Report<Sequenced>,
) -> Result<Report<Sequenced>, Fault>
    requires { ReportOf payments report.target blocks.now report }
    ensures complete { IsOkUnless result Fault.OutOfMemory }
    ensures continues { IfOk result (Continues sequenced_same report) }
{
    follow_report::<R, Payment, Sequenced, Sequential>(
        rt,
        rt.alloc(),
        blocks,
        report,
        limits,
        &Sequential,
    )
}

/// What the next run makes of a report's end, from its floor on.
fn rested<R: RandomSource + Threads + Sync + AllocGlobal>(
    rt: &R,
    limits: &Limits,
    blocks: &[Block<Payment>],
    report: Report<Sequenced>,
) -> Result<Report<Sequenced>, Fault>
    requires { ReportOf payments report.target blocks.now report }
    ensures complete { IsOkUnless result Fault.OutOfMemory }
    ensures accounts { log_floor any_floor (log_from report.target.start report.kept) ≤ report.target.start
        → IfOk result (HasAccounts sequenced_same report) }
{
    follow_floor::<R, Payment, Sequenced, Sequential>(
        rt,
        rt.alloc(),
        blocks,
        report,
        limits,
        &Sequential,
    )
}

/// Whether the report over a link is of the paid log, and the next run has its root and accounts from its floor on,
/// which is the place of what alice has now.
fn has_rest<R: RandomSource + Threads + Sync + AllocGlobal>(
    rt: &R,
    target: &Target,
    limits: &Limits,
    blocks: &[Block<Payment>],
    link: &mut MemoryLink<AnyFamily>,
) -> bool {
    match settled(rt, target, limits, blocks, link) {
        Ok(report) => {
            let is_first = is_whole(&report, 3);
            match rested(rt, limits, blocks, report) {
                Ok(next) => is_first && is_whole(&next, 3) && next.start.get() == 3,
                Err(_) => false,
            }
        }
        Err(_) => false,
    }
}

/// Whether the report over a link and that of the next run are of the paid log.
fn are_whole<R: RandomSource + Threads + Sync + AllocGlobal>(
    rt: &R,
    target: &Target,
    limits: &Limits,
    blocks: &[Block<Payment>],
    link: &mut MemoryLink<AnyFamily>,
) -> bool {
    match settled(rt, target, limits, blocks, link) {
        Ok(report) => {
            let is_first = is_whole(&report, 3);
            match continued(rt, limits, blocks, report) {
                Ok(next) => is_first && is_whole(&next, 6) && next.verdicts.as_slice().len() == 0,
                Err(_) => false,
            }
        }
        Err(_) => false,
    }
}

/// A link that serves the log of one account.
fn serving(alloc: Global) -> Option<MemoryLink<AnyFamily>> {
    let log = opened(alloc)?;
    let none = Vec::new(alloc);
    Some(MemoryLink::new(alloc, log, Vec::new(alloc), none, Vec::new(alloc)))
}

/// Whether the payment is settled on the log, and the next run syncs to what it was reported as.
fn is_chained<R: RandomSource + Threads + Sync + AllocGlobal>(rt: &R) -> Option<bool> {
    let limits = Limits::new(2, 2)?;
    let target = Target::new(digest_of(OPENED)?, Location::ZERO, Location::new(3)?)?;
    let blocks = paying(rt.alloc())?;
    let mut link = serving(rt.alloc())?;
    Some(are_whole(rt, &target, &limits, &blocks, &mut link))
}

/// The same from the raised floor on.
fn is_chained_above<R: RandomSource + Threads + Sync + AllocGlobal>(rt: &R) -> Option<bool> {
    let limits = Limits::new(2, 2)?;
    let target = Target::new(digest_of(OPENED)?, Location::ZERO, Location::new(3)?)?;
    let blocks = paying(rt.alloc())?;
    let mut link = serving(rt.alloc())?;
    Some(has_rest(rt, &target, &limits, &blocks, &mut link))
}

#[test]
fn the_end_above_a_raised_floor_is_enough(rt: HostRuntime) {
    assert_eq!(rt; is_chained_above(&rt), Some(true));
}

#[test]
fn what_one_reports_the_next_can_sync_to(rt: HostRuntime) {
    assert_eq!(rt; is_chained(&rt), Some(true));
}
