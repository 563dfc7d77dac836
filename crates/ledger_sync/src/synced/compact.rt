//! A log of one family without its operations, brought over a link.
ghost use Rattle.std.specs.Prelude.{◌≡◌, IfOk, IfErr};
ghost use Rattle.ledger_sync.specs.Brought.{link_over, IsCompact, IsNoCompact, CanFail};

use super::Synced;
use crate::compact::fetch_compact_log;
use ledger_codec::Spell;
use ledger_examples::DatabaseType;
use ledger_log::CompactFamily;
use std::alloc::Global;
use sync_fetch::StateFault;
use sync_net::{Generator, Link, Machine};

/// The compact log that the peer serves, and what it shows of itself.
pub(crate) fn bring_compact<F: CompactFamily, L: Link>(
    alloc: Global,
    family: DatabaseType,
    link: &mut L,
) -> Result<Synced, StateFault>
where
    F::Op: Spell,
    ensures compact { IfOk result (λ synced. (synced.family ≡ family)
        × IsCompact F.Op.spelling F.floor_of F.Op.reading F.Op.written
        (link_over (L.service link.old) (L.wire link.old) (L.wire link.new) (L.faults link.old)
        (L.faults link.new)) synced) }
    ensures fails { IfErr result (IsNoCompact F.Op.spelling F.floor_of F.Op.reading F.Op.written
        (link_over (L.service link.old) (L.wire link.old) (L.wire link.new) (L.faults link.old)
        (L.faults link.new))) }
    ensures few { IfErr result CanFail }
{
    let mut machine = Machine::new(alloc, Generator::new());
    match fetch_compact_log::<F, L>(alloc, &mut machine, link) {
        Ok(log) => Ok(Synced {
            family,
            start: None,
            size: log.size(),
            floor: log.floor(),
            root: log.root(),
        }),
        Err(fault) => Err(fault),
    }
}
