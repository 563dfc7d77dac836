//! What one run reports can be followed from its floor on, and that end has all accounts.
ghost use Rattle.std.specs.Prelude.{◌<◌, ◌≤◌, ◌^◌, IfOk, IsOkUnless};
ghost use Rattle.follow_laws.specs.Chained.{FloorTarget, HasAccounts, KeepSound};
ghost use Rattle.ledger_log.specs.Any.{any_floor, any_write};
ghost use Rattle.ledger_log.specs.View.{log_floor};
ghost use Rattle.ledger_raising.specs.Raised.{FloorSound};
ghost use Rattle.ledger_settling.specs.Blocks.{log_from, meaning};
ghost use Rattle.ledger_settling.specs.Reports.{ReportOf};

use crate::chained::{link_to, see_digests, see_operations};
use ledger_job::Block;
use ledger_log::{AnyFamily, Key, Target};
use ledger_managed::AccountValue;
use ledger_program::{Fault, follow};
use ledger_settling::Report;
use ledger_strategy::Strategy;
use ledger_transfers::Transfer;
use std::alloc::Global;
use std::random::RandomSource;
use std::thread::Threads;
use sync_client::{Limits, NoTargets};
use sync_server::MemoryLink;

/// The target of the end of a report's log, from its floor on.
fn floor_target_of<A>(report: &Report<A>) -> Target
    requires { log_floor any_floor report.now.log < report.now.size }
    ensures target { FloorTarget report.now result }
    ensures most { report.now.size ≤ 2 ^ 62 }
{
    let _size = report.size.get();
    let floor = report.log.floor();
    let _floor = floor.get();
    match Target::new(report.root, floor, report.size) {
        Some(target) => target,
        None => unreachable!(),
    }
}

/// Follows the end of a report's log, served in memory, from its floor on, without blocks. Where nothing that counts
/// lay below the floor of what was fetched for the report, it gives the report's accounts, also of what isn't fetched
/// again. It ends with a report, or memory was wanting. `blocks` are those that the report is of.
pub fn follow_floor<
    R: RandomSource + Threads + Sync,
    T: Transfer<Key = Key, Account = A>,
    A: AccountValue,
    St: Strategy,
>(
    rt: &R,
    alloc: Global,
    blocks: &[Block<T>],
    report: Report<A>,
    limits: &Limits,
    strategy: &St,
) -> Result<Report<A>, Fault>
    requires { ReportOf (meaning T.changes_of A.eq A.rules A.values) report.target blocks.now report }
    ensures complete { KeepSound A.sound A.rules A.values → IsOkUnless result Fault.OutOfMemory }
    ensures replayed { FloorSound any_floor any_write (log_from report.target.start report.kept)
        → IfOk result (HasAccounts A.eq report) }
{
    let target = floor_target_of(&report);
    let Report { pinned, log, .. } = report;
    let _front = log.front();
    see_digests(pinned.as_slice());
    see_operations(&log);
    let mut link = link_to(alloc, log);
    match follow::<R, T, A, MemoryLink<AnyFamily>, St, NoTargets>(
        rt,
        alloc,
        &target,
        &mut NoTargets,
        limits,
        &blocks[..0],
        &mut link,
        strategy,
    ) {
        Ok(next) => Ok(next),
        Err(fault) => Err(fault),
    }
}
