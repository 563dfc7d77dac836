//! Serving in compact mode: a session a connection, over one log that never changes.
ghost use Rattle.std.specs.Prelude.{◌≡◌, ◌<◌, ◌≤◌, ◌+◌, OnOk, IfOk, IfErr};
ghost use Rattle.ledger_program.specs.declared.outcome.RunFault.TheVariants.{OutOfMemory as memory_wanting};
ghost use Rattle.ledger_serve.specs.Lines.{both_lines};
ghost use Rattle.ledger_serve.specs.Links.{Took, StartFails};
ghost use Rattle.ledger_serve.specs.Serving.{Served, Stops, Leaves};

use crate::ending::finish;
use crate::lines::write_listening;
use ledger_codec::{Sink, Spell};
use ledger_log::CompactFamily;
use ledger_program::RunFault;
use session_spawner::Spawner;
use std::alloc::Global;
use std::sync::{Arc, Wait};
use std::thread::Threads;
use sync_dial::Listener;
use sync_net::Link;
use sync_sessions::{CompactServed, CompactSession, Gate, ServedFamily};

/// What all sessions of a log have.
#[derive(Drop)]
struct Common<DB, G> {
    alloc: Global,
    log: Arc<DB, Global>,
    gate: Arc<G, Global>,
}

/// The session of this number over this link.
fn session_of<F, DB: Drop, L: Drop, G>(
    common: &Common<DB, G>,
    link: L,
    number: u64,
) -> Result<CompactSession<F, DB, L, G>, RunFault>
    ensures link { IfOk result (λ job. job.link ≡ link) }
    ensures number { IfOk result (λ job. job.number ≡ number) }
    ensures fails { IfErr result (λ fault. fault ≡ memory_wanting) }
{
    let Ok(log) = Arc::try_clone(&common.log) else {
        return Err(RunFault::OutOfMemory);
    };
    let Ok(gate) = Arc::try_clone(&common.gate) else {
        return Err(RunFault::OutOfMemory);
    };
    Ok(CompactSession::new(common.alloc, log, link, gate, number as usize))
}

/// Takes the next link, and starts its session.
#[tactic(auto, using(crate::proofs::Taking::took_one))]
fn start_next<
    R: Threads + Wait + Copy + Send + 'static,
    F: ServedFamily + CompactFamily + Send + Sync + 'static,
    DB: CompactServed<F> + Send + Sync + Drop + 'static,
    Li: Listener,
    Sp: Spawner,
    G: Gate + Send + Sync + Drop + 'static,
>(
    rt: &R,
    common: &Common<DB, G>,
    number: u64,
    listener: &mut Li,
    spawner: &mut Sp,
) -> Result<(), RunFault>
where
    F::Op: Spell + Send + Sync + 'static,
    requires few { number < 8 }
    requires number { Sp.started spawner.old ≡ number }
    ensures took { OnOk result (Took 1 (Li.coming listener.old) (Li.coming listener.new)) }
    ensures started { OnOk result (Sp.started spawner.new ≡ number + 1) }
    ensures fails { IfErr result (StartFails (Li.faults listener.old) (Li.faults listener.new)) }
    ensures later { Li.faults listener.old ≤ Li.faults listener.new }
{
    let Ok(link) = listener.accept() else {
        return Err(RunFault::Dial);
    };
    match session_of::<F, DB, Li::Link, G>(common, link, number) {
        Ok(job) => {
            spawner.start_compact(rt, job);
            Ok(())
        }
        Err(fault) => Err(fault),
    }
}

/// Takes so many links, and starts a session for each.
#[tactic(auto, using(crate::proofs::Taking::took_more, crate::proofs::Taking::took_none))]
fn start_all<
    R: Threads + Wait + Copy + Send + 'static,
    F: ServedFamily + CompactFamily + Send + Sync + 'static,
    DB: CompactServed<F> + Send + Sync + Drop + 'static,
    Li: Listener,
    Sp: Spawner,
    G: Gate + Send + Sync + Drop + 'static,
>(
    rt: &R,
    common: &Common<DB, G>,
    count: u64,
    listener: &mut Li,
    spawner: &mut Sp,
) -> Result<(), RunFault>
where
    F::Op: Spell + Send + Sync + 'static,
    requires few { count ≤ 8 }
    requires fresh { Sp.started spawner.old ≡ 0 }
    ensures took { OnOk result (Took count (Li.coming listener.old) (Li.coming listener.new)) }
    ensures started { OnOk result (Sp.started spawner.new ≡ count) }
    ensures fails { IfErr result (StartFails (Li.faults listener.old) (Li.faults listener.new)) }
    ensures later { Li.faults listener.old ≤ Li.faults listener.new }
{
    'links: for number in 0..count {
        match start_next::<R, F, DB, Li, Sp, G>(rt, common, number, listener, spawner) {
            Ok(()) => {}
            Err(fault) => return Err(fault),
        }
    }
    Ok(())
}

/// Serves so many connections over this log.
#[tactic(auto, using(crate::proofs::Texts::unannounced, crate::proofs::Texts::unannounced_stops, crate::proofs::Texts::unfinished, crate::proofs::Texts::unfinished_stops, crate::proofs::Texts::both_went, crate::proofs::Texts::unshared, crate::proofs::Texts::unshared_stops))]
pub(crate) fn serve_compact<
    R: Threads + Wait + Copy + Send + 'static,
    F: ServedFamily + CompactFamily + Send + Sync + 'static,
    DB: CompactServed<F> + Send + Sync + Drop + 'static,
    Li: Listener,
    Sp: Spawner,
    G: Gate + Send + Sync + Drop + 'static,
    K: Sink,
>(
    rt: &R,
    alloc: Global,
    log: DB,
    count: u64,
    listener: &mut Li,
    spawner: &mut Sp,
    gate: &Arc<G, Global>,
    out: &mut K,
) -> Result<(), RunFault>
where
    F::Op: Spell + Send + Sync + 'static,
    requires few { count ≤ 8 }
    requires fresh { Sp.started spawner.old ≡ 0 }
    ensures served { OnOk result (Served count (Li.coming listener.old) (Li.coming listener.new)
        (Sp.started spawner.new) (Sp.joined spawner.new) (K.written out.old) (K.written out.new)) }
    ensures stops { IfErr result (Stops (Li.faults listener.old) (Li.faults listener.new) (K.faults out.old)
        (K.faults out.new)) }
    ensures leaves { IfErr result (Leaves (both_lines count) (K.written out.old) (K.written out.new)) }
    ensures later { K.faults out.old ≤ K.faults out.new }
{
    let (Ok(log), Ok(gate)) = (Arc::new(alloc, log), Arc::try_clone(gate)) else {
        return Err(RunFault::OutOfMemory);
    };
    let common = Common { alloc, log, gate };
    match write_listening(out) {
        Ok(()) => {}
        Err(fault) => return Err(fault),
    }
    let started = start_all::<R, F, DB, Li, Sp, G>(rt, &common, count, listener, spawner);
    match finish(rt, started, count, spawner, out) {
        Ok(()) => Ok(()),
        Err(fault) => Err(fault),
    }
}
