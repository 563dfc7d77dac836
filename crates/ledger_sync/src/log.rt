//! Fetching the log that a peer serves.
ghost use Rattle.std.specs.Prelude.{◌≡◌, [], IsTrue};
ghost use Rattle.sync_client.specs.Parts.{IsHashed};
ghost use Rattle.sync_fetch.specs.States.{KeptUnlessNetwork, KeptAndNoNetwork};
ghost use Rattle.sync_client.specs.Owing.{AreSent, Begins};
ghost use Rattle.sync_net.specs.Core.{LogData};
ghost use Rattle.ledger_sync.specs.Logs.{Opened, LogFetched, refused};
ghost use Rattle.ledger_sync.specs.Served.{StandsFor, LogServed};

use ledger_codec::Spell;
use ledger_log::{Family, Log, LogFault};
use ledger_merkle::Sha256Hasher;
use std::alloc::Global;
use sync_client::{HashedPart, Limits, NoTargets, SyncFault, sync_hashed};
use sync_fetch::{StateFault, fetch_target};
use sync_net::{Link, Machine};

/// The log that the peer serves, by a machine without pending requests, which owns the numbers: the target is
/// fetched, then its range, and a log is made of that part. `WrongState` says that the part is none.
pub fn fetch_log<F: Family, L: Link>(
    alloc: Global,
    limits: &Limits,
    machine: &mut Machine<F::Op>,
    link: &mut L,
) -> Result<Log<F, Sha256Hasher>, StateFault>
where
    F::Op: Spell,
    requires { machine.old.pending ≡ [] }
    ensures fetched { LogFetched F.Op.spelling F.floor_of limits.now result F.Op.reading F.Op.written
        machine.old machine.new (L.wire link.old) (L.wire link.new) (L.faults link.old)
        (L.faults link.new) }
    ensures exact { IsTrue L.exact → KeptUnlessNetwork result (L.faults link.old) (L.faults link.new) }
    ensures steady { L.steady link.old →
        L.steady link.new × KeptAndNoNetwork result (L.faults link.old) (L.faults link.new) }
    ensures serving { (held : LogData) (h : StandsFor F.Op.written F.Op.Spell.sound F.floor_of held)
        → AreSent F.Op.reading F.Op.written F.Op.spelling F.Op.Spell.sound
        → Begins held machine.old (L.service link.old)
        → LogServed F.Op.written held h.log result machine.new (L.service link.new) }
{
    let target = match fetch_target(machine, link) {
        Ok(target) => target,
        Err(fault) => return Err(StateFault::Fetch(fault)),
    };
    let synced = match sync_hashed(alloc, &target, &mut NoTargets, limits, machine, link) {
        Ok(synced) => synced,
        Err(fault) => return Err(StateFault::Fetch(fault)),
    };
    match opened::<F>(alloc, synced.1) {
        Ok(log) => Ok(log),
        Err(fault) => Err(fault),
    }
}

/// The log of a part, of which nothing is hashed again. `WrongState` says that it is none.
pub fn opened<F: Family>(
    alloc: Global,
    hashed: HashedPart<F::Op>,
) -> Result<Log<F, Sha256Hasher>, StateFault>
    requires { IsHashed F.Op.spelling hashed }
    ensures { Opened F.floor_of hashed.part result }
{
    let HashedPart { part, list } = hashed;
    match Log::from_list(alloc, list, part.ops.into_vec()) {
        Ok(log) => Ok(log),
        Err(fault) => Err(refused(fault)),
    }
}

/// The fault of a part that is no log.
fn refused(fault: LogFault) -> StateFault
    ensures { result ≡ refused fault }
{
    match fault {
        LogFault::OutOfMemory => StateFault::Fetch(SyncFault::OutOfMemory),
        other => StateFault::WrongState(other),
    }
}
