//! A log of one family, brought over a link.
ghost use Rattle.std.specs.Prelude.{◌≡◌, ◌≤◌, IfOk, IfErr};
ghost use Rattle.sync_client.specs.Owing.{AreSent, OwesNothing};
ghost use Rattle.sync_net.specs.Core.{LogData};
ghost use Rattle.ledger_sync.specs.Served.{StandsFor};
ghost use Rattle.ledger_sync.specs.Brought.{link_over, IsFull, IsNoFull, CanFail, MayFail};

use super::Synced;
use crate::log::fetch_log;
use ledger_codec::Spell;
use ledger_examples::DatabaseType;
use ledger_log::Family;
use std::alloc::Global;
use sync_client::Limits;
use sync_fetch::StateFault;
use sync_net::{Generator, Link, Machine};

/// The log that the peer serves, and what it shows of itself.
pub(crate) fn bring_full<F: Family, L: Link>(
    alloc: Global,
    family: DatabaseType,
    limits: &Limits,
    link: &mut L,
) -> Result<Synced, StateFault>
where
    F::Op: Spell,
    ensures full { IfOk result (λ synced. (synced.family ≡ family)
        × IsFull F.Op.spelling F.floor_of F.Op.reading F.Op.written limits.now
        (link_over (L.service link.old) (L.wire link.old) (L.wire link.new) (L.faults link.old)
        (L.faults link.new)) synced) }
    ensures fails { IfErr result (IsNoFull F.Op.spelling F.floor_of F.Op.reading F.Op.written limits.now
        (link_over (L.service link.old) (L.wire link.old) (L.wire link.new) (L.faults link.old)
        (L.faults link.new))) }
    ensures few { IfErr result CanFail }
    ensures serving { (held : LogData) → StandsFor F.Op.written F.Op.Spell.sound F.floor_of held
        → AreSent F.Op.reading F.Op.written F.Op.spelling F.Op.Spell.sound
        → OwesNothing held (L.service link.old)
        → IfErr result MayFail }
{
    let _few = limits.outstanding();
    let mut machine = Machine::new(alloc, Generator::new());
    match fetch_log::<F, L>(alloc, limits, &mut machine, link) {
        Ok(log) => Ok(Synced {
            family,
            start: Some(log.front()),
            size: log.size(),
            floor: log.floor(),
            root: log.root(),
        }),
        Err(fault) => Err(fault),
    }
}
