//! The accounts of the end of a log are those of all of it, where nothing that counts lies below its floor.
ghost use Rattle.std.specs.Prelude.{◌≡◌, [], IfOk};
ghost use Rattle.follow_laws.specs.Replayed.{IsAbove};
ghost use Rattle.ledger_log.specs.Any.{any_spelling, IsSoundAny};
ghost use Rattle.ledger_settling.specs.Reports.{IsReplay};
ghost use Rattle.sync_client.specs.Owing.{OwesNothing};
ghost use Rattle.sync_client.specs.Serving.{Serves};
ghost use Rattle.sync_net.specs.Core.{LogData};

use ledger_job::Block;
use ledger_log::{Key, Target};
use ledger_managed::AccountValue;
use ledger_program::{Fault, follow};
use ledger_settling::Report;
use ledger_strategy::Strategy;
use ledger_transfers::Transfer;
use std::alloc::Global;
use std::random::RandomSource;
use std::thread::Threads;
use sync_client::{Limits, NoTargets};
use sync_net::Link;

/// Follows a target; `blocks` are none. Over a link that serves a log which ends where the target does, whose floor is
/// sound, and from whose floor or below the target begins, the accounts are those of the whole log, also of what isn't
/// fetched.
pub fn follow_part<
    R: RandomSource + Threads + Sync,
    T: Transfer<Key = Key, Account = A>,
    A: AccountValue,
    L: Link,
    St: Strategy,
>(
    rt: &R,
    alloc: Global,
    target: &Target,
    limits: &Limits,
    blocks: &[Block<T>],
    link: &mut L,
    strategy: &St,
) -> Result<Report<A>, Fault>
    requires { blocks.now ≡ [] }
    ensures replayed { (held : LogData)
        → (h : Serves any_spelling IsSoundAny held target.now)
        → OwesNothing held (L.service link.old)
        → IsAbove target.now.start target.now.end h.log
        → IfOk result (λ report. IsReplay A.eq A.values report.accounts h.log.ops) }
{
    match follow::<R, T, A, L, St, NoTargets>(
        rt,
        alloc,
        target,
        &mut NoTargets,
        limits,
        blocks,
        link,
        strategy,
    ) {
        Ok(report) => Ok(report),
        Err(fault) => Err(fault),
    }
}
