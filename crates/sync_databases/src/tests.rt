//! A fresh log that is served in memory, and databases of the family current, whose operations it has, that are
//! synced to its target. What the link's count
//! of failed calls says of the answer is derived here, each promise in the contract of a function.
ghost use Rattle.std.specs.Prelude.{◌≡◌, [], IsErrOf, IfSome};
ghost use Rattle.sync_client.specs.declared.fault.SyncFault.TheVariants.{Network};
ghost use Rattle.sync_fetch.specs.States.{KeptUnlessNetwork};
ghost use Rattle.sync_fetch.specs.declared.fault.StateFault.TheVariants.{Fetch};

mod serving;

use crate::StateSyncDb;
use ledger_activity::CurrentFamily;
use ledger_codec::Digest;
use ledger_compact::CompactLog;
use ledger_databases::ManagedDb;
use ledger_log::{AnyFamily, AnyOp, CompactTarget, ImmutableFamily, Log, LogFault, Target};
use ledger_merkle::Sha256Hasher;
use std::alloc::Global;
use sync_client::{Limits, SyncFault};
use sync_fetch::StateFault;
use sync_net::{Generator, Machine};
use sync_server::{MemoryLink, TapeLink};

type AnyLog = Log<AnyFamily, Sha256Hasher>;

type CurrentLog = Log<CurrentFamily, Sha256Hasher>;

type ShortLog = CompactLog<ImmutableFamily, Sha256Hasher>;

/// A link that serves a fresh log, with the log's target. Its calls with these numbers fail.
fn served(alloc: Global, failing: Vec<u64>) -> Option<(Target, MemoryLink<AnyFamily>)>
    ensures { IfSome result (λ r. r.1.calls.failing ≡ failing.items) }
{
    let log = AnyLog::init(alloc, None).ok()?;
    let target = log.sync_target();
    let link = MemoryLink::new(alloc, log, Vec::new(alloc), Vec::new(alloc), failing);
    Some((target, link))
}

/// The database with this target. A call that fails is told, and raises the link's count; nothing else
/// does.
fn counted<D: StateSyncDb<Op = AnyOp>>(
    alloc: Global,
    target: D::SyncTarget,
    limits: &Limits,
    link: &mut MemoryLink<AnyFamily>,
) -> Result<D, StateFault>
    ensures kept { KeptUnlessNetwork result link.old.calls.faults link.new.calls.faults }
{
    let mut machine = Machine::new(alloc, Generator::new());
    D::sync_db(alloc, target, limits, &mut machine, link)
}

/// The same over a link whose calls don't fail: no failed call is told.
fn calm<D: StateSyncDb<Op = AnyOp>>(
    alloc: Global,
    target: D::SyncTarget,
    limits: &Limits,
    link: &mut MemoryLink<AnyFamily>,
) -> Result<D, StateFault>
    requires { link.old.calls.failing ≡ [] }
    ensures { IsErrOf result (Fetch Network) → ⊥ }
{
    let mut machine = Machine::new(alloc, Generator::new());
    D::sync_db(alloc, target, limits, &mut machine, link)
}

/// The size of the database that is synced to the target of a fresh log, and whether it has that target.
fn synced(alloc: Global) -> Option<(u64, bool)> {
    let (target, mut link) = served(alloc, Vec::new(alloc))?;
    let db: CurrentLog = calm(alloc, target, &Limits::new(50, 1)?, &mut link).ok()?;
    Some((db.size().get(), db.sync_target() == target))
}

#[test]
fn a_fresh_log_is_synced(rt: HostRuntime) {
    assert_eq!(rt; synced(rt.alloc()), Some((1, true)));
}

/// Whether a failed call is told where the link's call with this number fails.
fn told(alloc: Global, failing: u64) -> Option<bool> {
    let (target, mut link) = served(alloc, Vec::from_slice(alloc, &[failing]).ok()?)?;
    let synced: Result<CurrentLog, StateFault> = counted(
        alloc,
        target,
        &Limits::new(50, 1)?,
        &mut link,
    );
    Some(matches!(synced, Err(StateFault::Fetch(SyncFault::Network))))
}

#[test]
fn each_call_of_the_link_fails_in_turn(rt: HostRuntime) {
    assert_eq!(rt; told(rt.alloc(), 0), Some(true));
    assert_eq!(rt; told(rt.alloc(), 1), Some(true));
    assert_eq!(rt; told(rt.alloc(), 9), Some(false));
}

/// The frame of the state of a fresh compact log under the number 1 (vectors/states.py).
const STATE: [u8; 50] = [
    49, 7, 0, 0, 0, 0, 0, 0, 0, 1, 1, 1, 7, 164, 71, 7, 138, 60, 78, 108, 75, 113, 59, 49, 98, 60,
    168, 120, 149, 98, 222, 215, 225, 31, 204, 43, 142, 77, 125, 245, 204, 108, 87, 122, 1, 0, 0,
    1, 0, 0,
];

/// What comes of that frame for this target.
fn brought(alloc: Global, target: CompactTarget) -> Option<Result<ShortLog, StateFault>> {
    let bytes = Vec::from_slice(alloc, &STATE).ok()?;
    let mut link = TapeLink::new(alloc, bytes, Vec::new(alloc), Vec::new(alloc));
    let mut machine = Machine::new(alloc, Generator::new());
    let limits = Limits::new(50, 1)?;
    Some(ShortLog::sync_db(alloc, target, &limits, &mut machine, &mut link))
}

/// Whether the database that is synced to the target of a fresh one has that target.
fn is_fresh(alloc: Global) -> Option<bool> {
    let own = ShortLog::initial_sync_target();
    let db = brought(alloc, own)?.ok()?;
    Some(db.sync_target() == own)
}

#[test]
fn a_fresh_state_is_synced(rt: HostRuntime) {
    assert_eq!(rt; is_fresh(rt.alloc()), Some(true));
}

/// The root that a state is refused for.
fn root_found(alloc: Global, target: CompactTarget) -> Option<Digest> {
    match brought(alloc, target)? {
        Err(StateFault::WrongState(LogFault::WrongRoot { found })) => Some(found),
        _ => None,
    }
}

#[test]
fn a_state_of_another_target_is_wrong(rt: HostRuntime) {
    let own = ShortLog::initial_sync_target();
    let nines = CompactTarget {
        root: [9; 32],
        leaf_count: own.leaf_count,
    };
    assert_eq!(rt; root_found(rt.alloc(), nines), Some(own.root));
}
