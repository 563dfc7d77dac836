//! A fresh log, synced to its target over a link that serves it and whose calls don't fail: it comes whole, unless
//! memory is wanting.
ghost use Rattle.std.specs.Prelude.{◌≡◌, [], IfOk, IfSome, IsOkUnless};
ghost use Rattle.sha2.specs.Sha256.{sha256};
ghost use Rattle.ledger_compact.specs.View.{fresh_log};
ghost use Rattle.ledger_databases.specs.Targets.{IsTargetOf};
ghost use Rattle.ledger_log.specs.Any.{any_commit, any_floor, any_spelling};
ghost use Rattle.sync_client.specs.Owing.{OwesNothing};
ghost use Rattle.sync_client.specs.declared.fault.SyncFault.TheVariants.{OutOfMemory as memory_wanting};
ghost use Rattle.sync_fetch.specs.declared.fault.StateFault.TheVariants.{Fetch};
ghost use Rattle.sync_net.specs.Core.{data_of};
ghost use Rattle.sync_net.specs.Service.{service_of};
ghost use Rattle.sync_server.specs.Links.{service_told};

use super::AnyLog;
use crate::sync_log;
use ledger_databases::ManagedDb;
use ledger_log::{AnyFamily, Log, Target};
use ledger_merkle::Sha256Hasher;
use std::alloc::Global;
use sync_client::{Limits, SyncFault};
use sync_fetch::StateFault;
use sync_net::{Generator, Machine};
use sync_server::MemoryLink;

/// The log's target, and a link that serves it, None where memory is wanting.
fn served(alloc: Global) -> Option<(Target, MemoryLink<AnyFamily>)>
    ensures target { IfSome result
        (λ r. IsTargetOf sha256 any_spelling any_floor (fresh_log any_commit) r.0) }
    ensures steady { IfSome result (λ r. r.1.calls.failing ≡ []) }
    ensures serves { IfSome result (λ r. OwesNothing
        (data_of any_spelling any_floor (fresh_log any_commit))
        (service_of r.1.lost (service_told any_spelling any_floor r.1))) }
{
    let Ok(log) = Log::<AnyFamily, Sha256Hasher>::fresh(alloc) else {
        return None;
    };
    let target = log.sync_target();
    let order = Vec::new(alloc);
    let cuts = Vec::new(alloc);
    let failing = Vec::new(alloc);
    Some((target, MemoryLink::new(alloc, log, order, cuts, failing)))
}

/// The log that is synced over the link.
fn whole(alloc: Global, limits: &Limits) -> Result<AnyLog, StateFault>
    ensures own { IfOk result (λ log. log ≡ fresh_log any_commit) }
    ensures may { IsOkUnless result (Fetch memory_wanting) }
{
    let Some(made) = served(alloc) else {
        return Err(StateFault::Fetch(SyncFault::OutOfMemory));
    };
    let (target, mut link) = made;
    let _few = limits.outstanding();
    let mut machine = Machine::new(alloc, Generator::new());
    match sync_log::<AnyFamily, MemoryLink<AnyFamily>>(
        alloc,
        &target,
        limits,
        &mut machine,
        &mut link,
    ) {
        Ok(log) => Ok(log),
        Err(fault) => Err(fault),
    }
}

/// Its size.
fn size(alloc: Global) -> Option<u64> {
    let limits = Limits::new(50, 1)?;
    let log = whole(alloc, &limits).ok()?;
    Some(log.size().get())
}

#[test]
fn a_served_log_comes_whole(rt: HostRuntime) {
    assert_eq!(rt; size(rt.alloc()), Some(1));
}
