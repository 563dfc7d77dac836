//! A log of the family and in the mode that a form asks for, brought over a link, and what it shows of itself.
ghost use Rattle.std.specs.Prelude.{◌≡◌, true, IfOk, IfErr};
ghost use Rattle.ledger_examples.specs.Names.{has_client_mode};
ghost use Rattle.ledger_examples.specs.declared.names.SyncMode.TheVariants.{Full as full_mode};
ghost use Rattle.ledger_sync.specs.Brought.{BringsFull, BringsNoFull, BringsCompact, BringsNoCompact};
ghost use Rattle.ledger_sync.specs.Brought.{Brings, BringsNone, CanFail, MayFail, IsServed, link_over};

use crate::form::SyncForm;
use ledger_activity::CurrentFamily;
use ledger_codec::Digest;
use ledger_examples::{DatabaseType, SyncMode};
use ledger_log::{AnyFamily, ImmutableFamily, KeylessFamily};
use ledger_merkle::Location;
use std::alloc::Global;
use sync_client::Limits;
use sync_fetch::StateFault;
use sync_net::Link;

mod compact;
mod full;

use compact::bring_compact;
use full::bring_full;

/// What a log that was synced shows of itself.
#[derive(Clone, Copy, PartialEq, Eq, Debug)]
pub struct Synced {
    /// Its family.
    pub family: DatabaseType,
    /// Where its operations begin; None of a log without them.
    pub start: Option<Location>,
    /// The number of its operations.
    pub size: Location,
    /// The floor of its last commit.
    pub floor: Location,
    /// Its root.
    pub root: Digest,
}

fn full_of<L: Link>(
    alloc: Global,
    family: DatabaseType,
    limits: &Limits,
    link: &mut L,
) -> Result<Synced, StateFault>
    ensures full { IfOk result (λ synced. (synced.family ≡ family)
        × BringsFull family limits.now (link_over (L.service link.old) (L.wire link.old) (L.wire link.new)
        (L.faults link.old) (L.faults link.new)) synced) }
    ensures fails { IfErr result (BringsNoFull family limits.now
        (link_over (L.service link.old) (L.wire link.old) (L.wire link.new) (L.faults link.old)
        (L.faults link.new))) }
    ensures few { IfErr result CanFail }
    ensures serving { IsServed family (L.service link.old) → IfErr result MayFail }
{
    match family {
        DatabaseType::Any => bring_full::<AnyFamily, L>(alloc, family, limits, link),
        DatabaseType::Current => bring_full::<CurrentFamily, L>(alloc, family, limits, link),
        DatabaseType::Immutable => bring_full::<ImmutableFamily, L>(alloc, family, limits, link),
        DatabaseType::Keyless => bring_full::<KeylessFamily, L>(alloc, family, limits, link),
    }
}

fn compact_of<L: Link>(
    alloc: Global,
    family: DatabaseType,
    link: &mut L,
) -> Result<Synced, StateFault>
    requires { has_client_mode family SyncMode.Compact ≡ true }
    ensures compact { IfOk result (λ synced. (synced.family ≡ family)
        × BringsCompact family (link_over (L.service link.old) (L.wire link.old) (L.wire link.new)
        (L.faults link.old) (L.faults link.new)) synced) }
    ensures fails { IfErr result (BringsNoCompact family
        (link_over (L.service link.old) (L.wire link.old) (L.wire link.new) (L.faults link.old)
        (L.faults link.new))) }
    ensures few { IfErr result CanFail }
{
    match family {
        DatabaseType::Immutable => bring_compact::<ImmutableFamily, L>(alloc, family, link),
        DatabaseType::Keyless => bring_compact::<KeylessFamily, L>(alloc, family, link),
        DatabaseType::Any | DatabaseType::Current => unreachable!(),
    }
}

/// Brings the log that the peer serves, of the form's family and in its mode, under request numbers from 1 on, and
/// answers what it shows of itself. Refused where no log came, or what came is none.
pub fn bring<L: Link>(alloc: Global, form: &SyncForm, link: &mut L) -> Result<Synced, StateFault>
    requires { has_client_mode form.now.family form.now.mode ≡ true }
    ensures brings { IfOk result (Brings form.now (link_over (L.service link.old) (L.wire link.old)
        (L.wire link.new) (L.faults link.old) (L.faults link.new))) }
    ensures fails { IfErr result (BringsNone form.now
        (link_over (L.service link.old) (L.wire link.old) (L.wire link.new) (L.faults link.old)
        (L.faults link.new))) }
    ensures few { IfErr result CanFail }
    ensures serving { form.now.mode ≡ full_mode → IsServed form.now.family (L.service link.old)
        → IfErr result MayFail }
{
    match form.mode {
        SyncMode::Full => full_of(alloc, form.family, &form.limits, link),
        SyncMode::Compact => compact_of(alloc, form.family, link),
    }
}
