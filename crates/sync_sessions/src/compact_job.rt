//! A connection with all that its session over a log that never changes needs.

use crate::compact::{CompactServed, run_compact};
use crate::ending::SessionEnd;
use crate::family::ServedFamily;
use crate::gate::Gate;
use ledger_codec::Spell;
use ledger_log::CompactFamily;
use std::alloc::Global;
use std::marker::PhantomData;
use std::sync::{Arc, Wait};
use sync_net::Link;

/// A session that is to run: one log, full or compact, and one link.
#[derive(Drop)]
pub struct CompactSession<F, DB, L, G> {
    /// What it takes memory from.
    pub alloc: Global,
    /// The log.
    pub served: Arc<DB, Global>,
    /// Its connection.
    pub link: L,
    /// What it passes before each request.
    pub gate: Arc<G, Global>,
    /// Its number, from 0.
    pub number: usize,
    /// The family of the log.
    pub of: PhantomData<F>,
}

impl<F, DB, L, G> CompactSession<F, DB, L, G> {
    ghost use Rattle.std.specs.Prelude.{◌≡◌};

    /// The session of this number, over this log.
    pub fn new(
        alloc: Global,
        served: Arc<DB, Global>,
        link: L,
        gate: Arc<G, Global>,
        number: usize,
    ) -> CompactSession<F, DB, L, G>
        ensures served { result.served ≡ served }
        ensures link { result.link ≡ link }
        ensures gate { result.gate ≡ gate }
        ensures number { result.number ≡ number }
    {
        CompactSession {
            alloc,
            served,
            link,
            gate,
            number,
            of: PhantomData,
        }
    }
}

impl<
    F: ServedFamily + CompactFamily,
    DB: CompactServed<F> + Drop,
    L: Link + Drop,
    G: Gate + Drop,
> CompactSession<F, DB, L, G>
where
    F::Op: Spell,
{
    ghost use Rattle.std.specs.Arc.{arc_value};
    ghost use Rattle.sync_sessions.specs.Running.{RunsCompact};

    /// Answers the messages that come over the link, each as [`sync_compact::CompactMode`] does over the log, until
    /// the link ends or cannot go on, and lets it go. Before each it passes the gate.
    pub fn run<R: Wait>(self, rt: &R) -> SessionEnd
        ensures { RunsCompact F.Op.reading F.Op.written (DB.CompactSyncable.kept (arc_value self.served))
            L.wire L.faults self.link result }
    {
        let CompactSession {
            alloc,
            served,
            mut link,
            gate,
            number,
            of: _,
        } = self;
        run_compact::<R, F, DB, L, G>(rt, alloc, &served, &mut link, &*gate, number)
    }
}
