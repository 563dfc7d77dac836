//! A connection with all that its session over a shared log needs.
ghost use Rattle.std.specs.Arc.{arc_value};
ghost use Rattle.sync_shared.specs.Replies.{Belongs};

use crate::ending::SessionEnd;
use crate::family::ServedFamily;
use crate::gate::Gate;
use crate::session::run_session;
use ledger_codec::Spell;
use ledger_log::Family;
use std::alloc::Global;
use std::sync::{Arc, Wait};
use sync_net::Link;
use sync_shared::{Pass, SharedLog};

/// A session that is to run: one pass of one shared log, and one link.
#[derive(Drop)]
pub struct Session<F: Family, L, G> {
    /// What it takes memory from.
    pub alloc: Global,
    /// The shared log.
    pub shared: Arc<SharedLog<F>, Global>,
    /// Its pass.
    pub pass: Pass<F>,
    /// Its connection.
    pub link: L,
    /// What it passes before each request.
    pub gate: Arc<G, Global>,
    /// Its number, from 0.
    pub number: usize,
    // The pass is one of the shared log.
    pub ghost belongs: { Belongs (arc_value shared).from pass },
}

impl<F: Family, L, G> Session<F, L, G> {
    ghost use Rattle.std.specs.Prelude.{◌≡◌};
    ghost use Rattle.std.specs.Arc.{arc_value};
    ghost use Rattle.sync_shared.specs.Replies.{Belongs};

    /// The session of this number, by this pass of the shared log.
    pub fn new(
        alloc: Global,
        shared: Arc<SharedLog<F>, Global>,
        pass: Pass<F>,
        link: L,
        gate: Arc<G, Global>,
        number: usize,
    ) -> Session<F, L, G>
        requires { Belongs (arc_value shared).from pass }
        ensures shared { result.shared ≡ shared }
        ensures pass { result.pass ≡ pass }
        ensures link { result.link ≡ link }
        ensures gate { result.gate ≡ gate }
        ensures number { result.number ≡ number }
    {
        Session {
            alloc,
            shared,
            pass,
            link,
            gate,
            number,
        }
    }
}

impl<F: ServedFamily, L: Link + Drop, G: Gate + Drop> Session<F, L, G>
where
    F::Op: Spell,
{
    ghost use Rattle.std.specs.Arc.{arc_value};
    ghost use Rattle.sync_sessions.specs.Running.{RunsSession};

    /// Does what [`run_session`] does, and lets the link go.
    pub fn run<R: Wait>(self, rt: &R) -> SessionEnd
        ensures { RunsSession F.Op.reading F.Op.written F.floor_of (arc_value self.shared).opening
            F.Op.spelling L.wire L.faults self.pass self.link result }
    {
        let Session {
            alloc,
            shared,
            mut pass,
            mut link,
            gate,
            number,
        } = self;
        run_session(rt, alloc, &shared, &mut pass, &mut link, &*gate, number)
    }
}
