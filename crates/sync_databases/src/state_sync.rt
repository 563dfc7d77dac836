//! A database that can be brought to a target.
ghost use Rattle.std.specs.Prelude.{◌≡◌, ℕ, [], Option, Result, IsTrue, IfOk};
ghost use Rattle.sync_client.specs.Asking.{LimitsView};
ghost use Rattle.sync_fetch.specs.declared.fault.StateFault.{StateFault as Fault};
ghost use Rattle.sync_fetch.specs.States.{KeptUnlessNetwork, KeptAndNoNetwork};
ghost use Rattle.sync_net.specs.View.{MachineView};
ghost use Rattle.sync_net.specs.Wire.{Wire};

use ledger_databases::ManagedDb;
use std::alloc::Global;
use sync_client::Limits;
use sync_fetch::StateFault;
use sync_net::{Link, Machine};

/// A database that can be brought to a target which a peer serves.
pub trait StateSyncDb: ManagedDb {
    /// Its operations.
    type Op;

    // What came of syncing to this target within these limits, by a machine over a link: the machine, the
    // link's wire and its count of faults are those before and after the call.
    ghost Syncs: { Self.SyncTarget → LimitsView → Result Self Fault → MachineView → MachineView → Option Wire → Option Wire → ℕ → ℕ → Type 0 };

    // The database is the target's.
    ghost IsSyncedTo: { Self → Self.SyncTarget → Type 0 };

    /// The database with this target, which the peer serves, by a machine without pending requests, which
    /// owns the numbers. `WrongState` says that what came is no database. A database without operations
    /// asks for its state at once, whatever the limits.
    fn sync_db<L: Link>(
        alloc: Global,
        target: Self::SyncTarget,
        limits: &Limits,
        machine: &mut Machine<Self::Op>,
        link: &mut L,
    ) -> Result<Self, StateFault>
        requires { machine.old.pending ≡ [] }
        ensures synced { Syncs target limits.now result machine.old machine.new (L.wire link.old)
            (L.wire link.new) (L.faults link.old) (L.faults link.new) }
        ensures at { IfOk result (λ db. IsSyncedTo db target) }
        ensures exact { IsTrue L.exact → KeptUnlessNetwork result (L.faults link.old) (L.faults link.new) }
        ensures steady { L.steady link.old →
            L.steady link.new × KeptAndNoNetwork result (L.faults link.old) (L.faults link.new) };
}
