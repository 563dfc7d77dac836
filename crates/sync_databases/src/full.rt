//! Full databases.
ghost use Rattle.std.specs.Prelude.{◌≡◌, [], IsTrue, IfOk};
ghost use Rattle.ledger_sync.specs.Served.{StandsFor, LogServed};
ghost use Rattle.sync_client.specs.Owing.{AreSent, Begins};
ghost use Rattle.sync_fetch.specs.Served.{IsTargetOf};
ghost use Rattle.sync_fetch.specs.States.{KeptUnlessNetwork, KeptAndNoNetwork};
ghost use Rattle.sync_net.specs.Core.{LogData};
ghost use Rattle.sync_databases.specs.Synced.{IsAt, LogSynced};

use crate::state_sync::StateSyncDb;
use ledger_activity::CurrentFamily;
use ledger_codec::Spell;
use ledger_log::{AnyFamily, AnyOp, Family, ImmutableFamily, ImmutableOp, Log, Target};
use ledger_merkle::Sha256Hasher;
use ledger_sync::opened;
use std::alloc::Global;
use sync_client::{Limits, NoTargets, sync_hashed};
use sync_fetch::StateFault;
use sync_net::{Link, Machine};

/// The log of the target's range, by a machine without pending requests, which owns the numbers.
/// `WrongState` says that the part that came is none. Over a link that serves a log with this target, and owes nothing,
/// it is that log from its floor on, unless a call of the link failed, memory was wanting or no number was left.
pub fn sync_log<F: Family, L: Link>(
    alloc: Global,
    target: &Target,
    limits: &Limits,
    machine: &mut Machine<F::Op>,
    link: &mut L,
) -> Result<Log<F, Sha256Hasher>, StateFault>
where
    F::Op: Spell,
    requires { machine.old.pending ≡ [] }
    ensures synced { LogSynced F.Op.spelling F.floor_of limits.now target.now result F.Op.reading
        F.Op.written machine.old machine.new (L.wire link.old) (L.wire link.new) (L.faults link.old)
        (L.faults link.new) }
    ensures at { IfOk result (λ log. IsAt F.Op.spelling log target.now) }
    ensures exact { IsTrue L.exact → KeptUnlessNetwork result (L.faults link.old) (L.faults link.new) }
    ensures steady { L.steady link.old →
        L.steady link.new × KeptAndNoNetwork result (L.faults link.old) (L.faults link.new) }
    ensures serving { (held : LogData) (h : StandsFor F.Op.written F.Op.Spell.sound F.floor_of held)
        → AreSent F.Op.reading F.Op.written F.Op.spelling F.Op.Spell.sound
        → IsTargetOf F.Op.written held h.log target.now
        → Begins held machine.old (L.service link.old)
        → LogServed F.Op.written held h.log result machine.new (L.service link.new) }
{
    let synced = match sync_hashed(alloc, target, &mut NoTargets, limits, machine, link) {
        Ok(synced) => synced,
        Err(fault) => return Err(StateFault::Fetch(fault)),
    };
    match opened::<F>(alloc, synced.1) {
        Ok(log) => Ok(log),
        Err(fault) => Err(fault),
    }
}

impl StateSyncDb for Log<AnyFamily, Sha256Hasher> {
    ghost use Rattle.ledger_log.specs.Any.{any_spelling, any_floor};
    ghost use Rattle.ledger_log.specs.Spellings.{any_at};
    ghost use Rattle.sync_databases.specs.Synced.{IsAt, LogSynced};

    type Op = AnyOp;

    ghost Syncs = { λ target limits result. LogSynced any_spelling any_floor limits target result any_at any_spelling };

    ghost IsSyncedTo = { IsAt any_spelling };

    fn sync_db<L: Link>(
        alloc: Global,
        target: Target,
        limits: &Limits,
        machine: &mut Machine<AnyOp>,
        link: &mut L,
    ) -> Result<Log<AnyFamily, Sha256Hasher>, StateFault> {
        sync_log::<AnyFamily, L>(alloc, &target, limits, machine, link)
    }
}

impl StateSyncDb for Log<CurrentFamily, Sha256Hasher> {
    ghost use Rattle.ledger_log.specs.Any.{any_spelling, any_floor};
    ghost use Rattle.ledger_log.specs.Spellings.{any_at};
    ghost use Rattle.sync_databases.specs.Synced.{IsAt, LogSynced};

    type Op = AnyOp;

    ghost Syncs = { λ target limits result. LogSynced any_spelling any_floor limits target result any_at any_spelling };

    ghost IsSyncedTo = { IsAt any_spelling };

    fn sync_db<L: Link>(
        alloc: Global,
        target: Target,
        limits: &Limits,
        machine: &mut Machine<AnyOp>,
        link: &mut L,
    ) -> Result<Log<CurrentFamily, Sha256Hasher>, StateFault> {
        sync_log::<CurrentFamily, L>(alloc, &target, limits, machine, link)
    }
}

impl StateSyncDb for Log<ImmutableFamily, Sha256Hasher> {
    ghost use Rattle.ledger_log.specs.Immutable.{immutable_spelling, immutable_floor};
    ghost use Rattle.ledger_log.specs.Spellings.{immutable_at};
    ghost use Rattle.sync_databases.specs.Synced.{IsAt, LogSynced};

    type Op = ImmutableOp;

    ghost Syncs = { λ target limits result. LogSynced immutable_spelling immutable_floor limits target result immutable_at immutable_spelling };

    ghost IsSyncedTo = { IsAt immutable_spelling };

    fn sync_db<L: Link>(
        alloc: Global,
        target: Target,
        limits: &Limits,
        machine: &mut Machine<ImmutableOp>,
        link: &mut L,
    ) -> Result<Log<ImmutableFamily, Sha256Hasher>, StateFault> {
        sync_log::<ImmutableFamily, L>(alloc, &target, limits, machine, link)
    }
}
