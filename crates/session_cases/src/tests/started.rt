//! Two sessions that are started over one log.
ghost use Rattle.std.specs.Prelude.{◌≡◌, IfSome};
ghost use Rattle.std.specs.Arc.{arc_value};
ghost use Rattle.sync_shared.specs.Replies.{Belongs};

use ledger_codec::Spell;
use ledger_log::{Family, Log};
use ledger_merkle::Sha256Hasher;
use session_spawner::Spawner;
use std::alloc::Global;
use std::sync::{Arc, Wait};
use std::thread::Threads;
use sync_net::Link;
use sync_sessions::{Gate, ServedFamily, Session};
use sync_shared::{Pass, SharedLog};

/// A log that is shared by two passes.
struct Sharing<F: Family> {
    log: Arc<SharedLog<F>, Global>,
    first: Pass<F>,
    second: Pass<F>,
}

/// Shares a log by two passes of so many turns.
fn two_shared<F: Family>(alloc: Global, log: Log<F, Sha256Hasher>, turns: u32) -> Option<Sharing<F>>
    ensures first { IfSome result (λ r. Belongs (arc_value r.log).from r.first) }
    ensures second { IfSome result (λ r. Belongs (arc_value r.log).from r.second) }
{
    let (shared, mut passes) = SharedLog::share(alloc, log, 2, turns).ok()?;
    let second = passes.pop()?;
    let first = passes.pop()?;
    let log = Arc::new(alloc, shared).ok()?;
    Some(Sharing { log, first, second })
}

/// A session by a pass of a shared log, which others share too.
fn session_by<F: Family, L: Drop, G>(
    alloc: Global,
    log: &Arc<SharedLog<F>, Global>,
    pass: Pass<F>,
    link: L,
    gate: &Arc<G, Global>,
    number: usize,
) -> Option<Session<F, L, G>>
    requires { Belongs (arc_value log.now).from pass }
    ensures { IfSome result (λ session. session.number ≡ number) }
{
    let log = Arc::try_clone(log).ok()?;
    let gate = Arc::try_clone(gate).ok()?;
    Some(Session::new(alloc, log, pass, link, gate, number))
}

/// Two sessions over a log, by passes of so many turns.
pub(super) fn two_sessions<F: Family, L: Drop, G: Drop>(
    alloc: Global,
    log: Log<F, Sha256Hasher>,
    turns: u32,
    links: (L, L),
    gate: &Arc<G, Global>,
) -> Option<(Session<F, L, G>, Session<F, L, G>)>
    ensures first { IfSome result (λ r. r.0.number ≡ 0) }
    ensures second { IfSome result (λ r. r.1.number ≡ 1) }
{
    let sharing = two_shared(alloc, log, turns)?;
    let Sharing { log, first, second } = sharing;
    let first = session_by(alloc, &log, first, links.0, gate, 0)?;
    let second = session_by(alloc, &log, second, links.1, gate, 1)?;
    Some((first, second))
}

/// Starts two sessions, and joins them.
pub(super) fn run_two<
    R: Threads + Wait + Copy + Send + 'static,
    Sp: Spawner,
    F: ServedFamily + Send + Sync + 'static,
    L: Link + Send + Drop + 'static,
    G: Gate + Send + Sync + Drop + 'static,
>(rt: &R, spawner: &mut Sp, first: Session<F, L, G>, second: Session<F, L, G>)
where
    F::Op: Spell + Send + Sync + 'static,
    requires none { Sp.started spawner.old ≡ 0 }
    requires first { first.number ≡ 0 }
    requires second { second.number ≡ 1 }
{
    spawner.start(rt, first);
    spawner.start(rt, second);
    spawner.join_all(rt);
}
