//! A log, followed over a link: fetched, checked against its target, and settled on.
//!
//! ```text
//!   link --sync_hashed--> part --report_of--> report
//!             |                      |
//!      session's fault      no log, no account, no settled block
//! ```
ghost use Rattle.std.specs.Prelude.{◌≡◌, IfOk, IfErr, OnOk, IsOkUnless, IsTrue};
ghost use Rattle.ledger_program.specs.Follow.{beginning, Follows, FollowFails, FollowsLog, TakesLater, Foretold, IsValid, LeavesCount, IsSteady, MayStop, fault_of_sync};
ghost use Rattle.ledger_codec.specs.Causes.{Rose};
ghost use Rattle.ledger_log.specs.Any.{any_spelling, IsSoundAny};
ghost use Rattle.ledger_log.specs.declared.target.Target.{Target};
ghost use Rattle.sync_client.specs.Owing.{OwesNothing};
ghost use Rattle.sync_client.specs.Serving.{Serves};
ghost use Rattle.sync_net.specs.Core.{LogData};
ghost use Rattle.sync_client.specs.Runs.{SessionLaws};
ghost use Rattle.ledger_settling.specs.Blocks.{meaning};
ghost use Rattle.ledger_settling.specs.Reports.{ReportOf};

use crate::fault::Fault;
use ledger_job::Block;
use ledger_log::{AnyOp, Key, Target};
use ledger_managed::AccountValue;
use ledger_settling::{Report, report_of};
use ledger_strategy::Strategy;
use ledger_transfers::Transfer;
use std::alloc::Global;
use std::random::RandomSource;
use std::thread::Threads;
use sync_client::{HashedPart, Limits, SyncFault, Targets, sync_hashed};
use sync_net::{Generator, Link, Machine};

/// A fault of the session as one of the whole call.
pub(crate) fn sync_fault(fault: SyncFault) -> Fault
    requires { MayStop fault }
    ensures { result ≡ fault_of_sync fault }
{
    match fault {
        SyncFault::Network => Fault::Network,
        SyncFault::RequestChannelClosed => Fault::RequestChannelClosed,
        SyncFault::InvalidResponse => Fault::InvalidResponse,
        SyncFault::UnexpectedResponse { request_id } => Fault::UnexpectedResponse { request_id },
        SyncFault::Server { code, message } => Fault::Server { code, message },
        SyncFault::InvalidProof { request_id } => Fault::InvalidProof { request_id },
        SyncFault::TooManyStrays => Fault::TooManyStrays,
        SyncFault::StaleUpdate { start, end } => Fault::StaleUpdate { start, end },
        SyncFault::WrongRoot { found } => Fault::WrongRoot { found },
        SyncFault::Closed | SyncFault::Exhausted => unreachable!(),
        SyncFault::OutOfMemory => Fault::OutOfMemory,
    }
}

/// Fetches the target's range over the link, replays its accounts, and settles the blocks on it, one after
/// another. After each good answer that leaves something to fetch `updates` may name a later target, up to eight of
/// them; what is fetched then spans the first start to the end of the last one taken, and has its root. The report
/// has that target, what was fetched, what the blocks made of it, and the accounts and verdicts.
/// After a fault no log is handed out. Request numbers begin at 1. After Ok a link that serves owes nothing again.
pub fn follow<
    R: RandomSource + Threads + Sync,
    T: Transfer<Key = Key, Account = A>,
    A: AccountValue,
    L: Link,
    St: Strategy,
    Ts: Targets,
>(
    rt: &R,
    alloc: Global,
    target: &Target,
    updates: &mut Ts,
    limits: &Limits,
    blocks: &[Block<T>],
    link: &mut L,
    strategy: &St,
) -> Result<Report<A>, Fault>
    ensures report { IfOk result (λ report. ReportOf (meaning T.changes_of A.eq A.rules A.values)
        report.target blocks.now report) }
    ensures follows { IfOk result (Follows (meaning T.changes_of A.eq A.rules A.values)
        (beginning target.now (Ts.answers updates.old) limits.now (L.wire link.old) (L.faults link.old))
        (Ts.answers updates.new) (L.wire link.new) blocks.now) }
    ensures took { TakesLater result target.now (Ts.answers updates.old) (Ts.answers updates.new) }
    ensures fails { IfErr result (FollowFails (meaning T.changes_of A.eq A.rules A.values)
        (beginning target.now (Ts.answers updates.old) limits.now (L.wire link.old) (L.faults link.old))
        (Ts.answers updates.new) (L.wire link.new) (L.faults link.new) blocks.now) }
    ensures one_way { SessionLaws (beginning target.now (Ts.answers updates.old) limits.now
        (L.wire link.old) (L.faults link.old)).rules
        (beginning target.now (Ts.answers updates.old) limits.now (L.wire link.old)
        (L.faults link.old)).start }
    ensures serving { (held : LogData) (synced : Target)
        → (h : Serves any_spelling IsSoundAny held target.now)
        → OwesNothing held (L.service link.old)
        → Foretold h.log target.now (Ts.answers updates.old) (Ts.answers updates.new) synced
        → FollowsLog (meaning T.changes_of A.eq A.rules A.values) h.log synced blocks.now result }
    ensures complete { (held : LogData) (synced : Target)
        → (h : Serves any_spelling IsSoundAny held target.now)
        → OwesNothing held (L.service link.old)
        → Foretold h.log target.now (Ts.answers updates.old) (Ts.answers updates.new) synced
        → IsValid (meaning T.changes_of A.eq A.rules A.values) h.log synced blocks.now
        → (Rose (L.faults link.old) (L.faults link.new) → ⊥)
        → IsOkUnless result Fault.OutOfMemory }
    ensures rests { (held : LogData) (synced : Target)
        → (h : Serves any_spelling IsSoundAny held target.now)
        → OwesNothing held (L.service link.old)
        → Foretold h.log target.now (Ts.answers updates.old) (Ts.answers updates.new) synced
        → OnOk result (OwesNothing held (L.service link.new)) }
    ensures exact_count { IsTrue L.exact → LeavesCount result (L.faults link.old) (L.faults link.new) }
    ensures steady_on { L.steady link.old → L.steady link.new
        × IsSteady result (L.faults link.old) (L.faults link.new) }
{
    let mut machine = Machine::<AnyOp>::new(alloc, Generator::new());
    // Its type keeps it small, so that request numbers don't run out.
    let _few = limits.outstanding();
    let fetched = match sync_hashed(alloc, target, updates, limits, &mut machine, link) {
        Ok(fetched) => fetched,
        Err(fault) => return Err(sync_fault(fault)),
    };
    let HashedPart { part, list } = fetched.1;
    match report_of(rt, alloc, &fetched.0, part, list, blocks, strategy) {
        Ok(report) => Ok(report),
        Err(fault) => Err(Fault::from(fault)),
    }
}
