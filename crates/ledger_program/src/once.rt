//! A log, followed over a link that is let go once all is fetched.
ghost use Rattle.std.specs.Prelude.{◌≡◌, IfOk, IfErr};
ghost use Rattle.ledger_program.specs.Follow.{FollowsLog, Foretold, IsCalm};
ghost use Rattle.ledger_log.specs.Any.{any_spelling, IsSoundAny};
ghost use Rattle.ledger_log.specs.declared.target.Target.{Target};
ghost use Rattle.sync_client.specs.Owing.{OwesNothing};
ghost use Rattle.sync_client.specs.Serving.{Serves};
ghost use Rattle.sync_net.specs.Core.{LogData};
ghost use Rattle.ledger_settling.specs.Blocks.{meaning};
ghost use Rattle.ledger_settling.specs.Reports.{ReportOf};

use crate::fault::Fault;
use crate::following::sync_fault;
use ledger_job::Block;
use ledger_log::{AnyOp, Key, Target};
use ledger_managed::AccountValue;
use ledger_settling::{Report, report_of};
use ledger_strategy::Strategy;
use ledger_transfers::Transfer;
use std::alloc::Global;
use std::random::RandomSource;
use std::thread::Threads;
use sync_client::{HashedPart, Limits, Targets, sync_hashed};
use sync_net::{Generator, Link, Machine};

/// What `follow` answers over a link of its own. The link is let go as soon as all is fetched, so that what it holds
/// takes no memory while the blocks are settled.
pub(crate) fn follow_once<
    R: RandomSource + Threads + Sync,
    T: Transfer<Key = Key, Account = A>,
    A: AccountValue,
    L: Link + Drop,
    St: Strategy,
    Ts: Targets,
>(
    rt: &R,
    alloc: Global,
    target: &Target,
    updates: &mut Ts,
    limits: &Limits,
    blocks: &[Block<T>],
    mut link: L,
    strategy: &St,
) -> Result<Report<A>, Fault>
    ensures report { IfOk result (λ report. ReportOf (meaning T.changes_of A.eq A.rules A.values)
        report.target blocks.now report) }
    ensures serving { (held : LogData) (synced : Target)
        → (h : Serves any_spelling IsSoundAny held target.now)
        → OwesNothing held (L.service link)
        → Foretold h.log target.now (Ts.answers updates.old) (Ts.answers updates.new) synced
        → FollowsLog (meaning T.changes_of A.eq A.rules A.values) h.log synced blocks.now result }
    ensures calm { L.steady link → IsCalm result }
{
    let mut machine = Machine::<AnyOp>::new(alloc, Generator::new());
    // Its type keeps it small, so that request numbers don't run out.
    let _few = limits.outstanding();
    let fetched = match sync_hashed(alloc, target, updates, limits, &mut machine, &mut link) {
        Ok(fetched) => fetched,
        Err(fault) => return Err(sync_fault(fault)),
    };
    drop(link);
    let HashedPart { part, list } = fetched.1;
    match report_of(rt, alloc, &fetched.0, part, list, blocks, strategy) {
        Ok(report) => Ok(report),
        Err(fault) => Err(Fault::from(fault)),
    }
}
