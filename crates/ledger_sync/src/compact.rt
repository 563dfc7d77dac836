//! Fetching the compact log that a peer serves.
ghost use Rattle.std.specs.Prelude.{◌≡◌, [], IsTrue};
ghost use Rattle.sha2.specs.Sha256.{sha256};
ghost use Rattle.sync_fetch.specs.States.{KeptUnlessNetwork, KeptAndNoNetwork};
ghost use Rattle.ledger_sync.specs.Compacts.{CompactLogFetched};

use ledger_codec::Spell;
use ledger_compact::CompactLog;
use ledger_log::CompactFamily;
use ledger_merkle::Sha256Hasher;
use std::alloc::Global;
use sync_fetch::{StateFault, fetch_compact, fetch_compact_target};
use sync_net::{Link, Machine};

/// The compact log that the peer serves, by a machine without pending requests, which owns the numbers: the
/// target is fetched, then its state, and a compact log is made of it. `WrongState` says that the state is none.
pub fn fetch_compact_log<F: CompactFamily, L: Link>(
    alloc: Global,
    machine: &mut Machine<F::Op>,
    link: &mut L,
) -> Result<CompactLog<F, Sha256Hasher>, StateFault>
where
    F::Op: Spell,
    requires { machine.old.pending ≡ [] }
    ensures fetched { CompactLogFetched sha256 F.Op.spelling F.floor_of result F.Op.reading F.Op.written
        machine.old machine.new (L.wire link.old) (L.wire link.new) (L.faults link.old)
        (L.faults link.new) }
    ensures exact { IsTrue L.exact → KeptUnlessNetwork result (L.faults link.old) (L.faults link.new) }
    ensures steady { L.steady link.old →
        L.steady link.new × KeptAndNoNetwork result (L.faults link.old) (L.faults link.new) }
{
    let target = match fetch_compact_target(machine, link) {
        Ok(target) => target,
        Err(fault) => return Err(StateFault::Fetch(fault)),
    };
    match fetch_compact::<F, L>(alloc, &target, machine, link) {
        Ok(log) => Ok(log),
        Err(fault) => Err(fault),
    }
}
