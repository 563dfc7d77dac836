//! Serving in full mode: a session a connection, over one shared log.
ghost use Rattle.std.specs.Prelude.{◌≡◌, ◌<◌, ◌≤◌, ◌+◌, ◌==◌, ◌∷◌, true, false, not, map, OnOk, IfOk, IfErr, IfSome, length};
ghost use Rattle.std.specs.Arc.{arc_value};
ghost use Rattle.std.specs.List.{All, range_with_len};
ghost use Rattle.ledger_program.specs.declared.outcome.RunFault.TheVariants.{OutOfMemory as memory_wanting};
ghost use Rattle.serve_parts.specs.Forms.{Sound};
ghost use Rattle.sync_shared.specs.Replies.{Belongs};
ghost use Rattle.turn_lock.specs.Passes.{fresh};
ghost use Rattle.ledger_serve.specs.Growing.{turns, Grown, SetsAside};
ghost use Rattle.ledger_serve.specs.Lines.{both_lines};
ghost use Rattle.ledger_serve.specs.Links.{Took, StartFails};
ghost use Rattle.ledger_serve.specs.Serving.{Served, Stops, Leaves};

use crate::ending::finish;
use crate::growing::{Growth, grow_if};
use crate::lines::write_listening;
use ledger_codec::{Sink, Spell};
use ledger_log::{Family, Log};
use ledger_merkle::Sha256Hasher;
use ledger_program::RunFault;
use serve_parts::{ServeForm, TestedFamily};
use session_spawner::Spawner;
use std::alloc::Global;
use std::sync::{Arc, Wait};
use std::thread::Threads;
use sync_dial::Listener;
use sync_net::Link;
use sync_sessions::{Gate, ServedFamily, Session};
use sync_shared::{Pass, SharedLog};

/// What all sessions of a log have.
#[derive(Drop)]
struct Common<F: Family, G> {
    alloc: Global,
    log: Arc<SharedLog<F>, Global>,
    gate: Arc<G, Global>,
    growth: Growth,
}

/// The session of this number over this link.
fn session_of<F: Family, L: Drop, G>(
    common: &Common<F, G>,
    pass: Pass<F>,
    link: L,
    number: u64,
) -> Result<Session<F, L, G>, RunFault>
    requires belongs { Belongs (arc_value common.now.log).from pass }
    ensures link { IfOk result (λ job. job.link ≡ link) }
    ensures number { IfOk result (λ job. job.number ≡ number) }
    ensures fails { IfErr result (λ fault. fault ≡ memory_wanting) }
{
    let Ok(log) = Arc::try_clone(&common.log) else {
        return Err(RunFault::OutOfMemory);
    };
    let Ok(gate) = Arc::try_clone(&common.gate) else {
        return Err(RunFault::OutOfMemory);
    };
    Ok(Session::new(common.alloc, log, pass, link, gate, number as usize))
}

/// Takes the next link, appends the batch before its session, and starts that.
#[tactic(auto, using(crate::proofs::Taking::took_one))]
fn start_next<
    R: Threads + Wait + Copy + Send + 'static,
    F: TestedFamily + ServedFamily + Send + Sync + 'static,
    Li: Listener,
    Sp: Spawner,
    G: Gate + Send + Sync + Drop + 'static,
>(
    rt: &R,
    common: &Common<F, G>,
    own: &mut Option<Pass<F>>,
    pass: Pass<F>,
    number: u64,
    listener: &mut Li,
    spawner: &mut Sp,
) -> Result<(), RunFault>
where
    F::Op: Spell + Send + Sync + 'static,
    requires belongs { Belongs (arc_value common.now.log).from pass }
    requires count { common.now.growth.count ≤ 9 }
    requires few { number < 8 }
    requires number { Sp.started spawner.old ≡ number }
    requires grown { IfSome own.old (Grown F.floor_of F.commit_of F.test_of F.test_commit_of
        (arc_value common.now.log).from common.now.growth number) }
    ensures took { OnOk result (Took 1 (Li.coming listener.old) (Li.coming listener.new)) }
    ensures started { OnOk result (Sp.started spawner.new ≡ number + 1) }
    ensures grown { OnOk result (IfSome own.new (Grown F.floor_of F.commit_of F.test_of F.test_commit_of
        (arc_value common.now.log).from common.now.growth (number + 1))) }
    ensures fails { IfErr result (StartFails (Li.faults listener.old) (Li.faults listener.new)) }
    ensures later { Li.faults listener.old ≤ Li.faults listener.new }
{
    let Ok(link) = listener.accept() else {
        return Err(RunFault::Dial);
    };
    match grow_if(rt, common.alloc, &common.log, common.growth, own, number) {
        Ok(()) => {}
        Err(fault) => return Err(fault),
    }
    match session_of(common, pass, link, number) {
        Ok(job) => {
            spawner.start(rt, job);
            Ok(())
        }
        Err(fault) => Err(fault),
    }
}

/// The first of some passes.
#[tactic(auto, using(crate::proofs::Sharing::taken_first))]
fn take_first<F: Family>(passes: &mut Vec<Pass<F>>) -> Pass<F>
    requires some { 0 < length passes.old.items }
    ensures first { passes.old.items ≡ result ∷ passes.new.items }
{
    passes.remove(0)
}

/// Takes as many links as there are passes, and starts a session for each.
#[tactic(auto, using(crate::proofs::Taking::took_more, crate::proofs::Taking::took_none))]
fn start_all<
    R: Threads + Wait + Copy + Send + 'static,
    F: TestedFamily + ServedFamily + Send + Sync + 'static,
    Li: Listener,
    Sp: Spawner,
    G: Gate + Send + Sync + Drop + 'static,
>(
    rt: &R,
    common: &Common<F, G>,
    own: &mut Option<Pass<F>>,
    passes: &mut Vec<Pass<F>>,
    count: u64,
    listener: &mut Li,
    spawner: &mut Sp,
) -> Result<(), RunFault>
where
    F::Op: Spell + Send + Sync + 'static,
    requires belongs { All (Belongs (arc_value common.now.log).from) passes.old.items }
    requires passes { length passes.old.items ≡ count }
    requires batch { common.now.growth.count ≤ 9 }
    requires few { count ≤ 8 }
    requires fresh { Sp.started spawner.old ≡ 0 }
    requires grown { IfSome own.old (Grown F.floor_of F.commit_of F.test_of F.test_commit_of
        (arc_value common.now.log).from common.now.growth 0) }
    ensures took { OnOk result (Took count (Li.coming listener.old) (Li.coming listener.new)) }
    ensures started { OnOk result (Sp.started spawner.new ≡ count) }
    ensures grown { OnOk result (IfSome own.new (Grown F.floor_of F.commit_of F.test_of F.test_commit_of
        (arc_value common.now.log).from common.now.growth count)) }
    ensures fails { IfErr result (StartFails (Li.faults listener.old) (Li.faults listener.new)) }
    ensures later { Li.faults listener.old ≤ Li.faults listener.new }
{
    'links: for number in 0..count {
        let pass = take_first(passes);
        match start_next(rt, common, own, pass, number, listener, spawner) {
            Ok(()) => {}
            Err(fault) => return Err(fault),
        }
    }
    Ok(())
}

/// Serves the connections over a log that is shared by these passes, one a connection, and by one for batches where
/// some are appended.
#[tactic(auto, using(crate::proofs::Texts::unannounced, crate::proofs::Texts::unannounced_stops, crate::proofs::Texts::unfinished, crate::proofs::Texts::unfinished_stops, crate::proofs::Texts::both_went))]
fn serve_shared<
    R: Threads + Wait + Copy + Send + 'static,
    F: TestedFamily + ServedFamily + Send + Sync + 'static,
    Li: Listener,
    Sp: Spawner,
    G: Gate + Send + Sync + Drop + 'static,
    K: Sink,
>(
    rt: &R,
    common: &Common<F, G>,
    own: &mut Option<Pass<F>>,
    passes: &mut Vec<Pass<F>>,
    count: u64,
    listener: &mut Li,
    spawner: &mut Sp,
    out: &mut K,
) -> Result<(), RunFault>
where
    F::Op: Spell + Send + Sync + 'static,
    requires belongs { All (Belongs (arc_value common.now.log).from) passes.old.items }
    requires batch { common.now.growth.count ≤ 9 }
    requires passes { length passes.old.items ≡ count }
    requires few { count ≤ 8 }
    requires fresh { Sp.started spawner.old ≡ 0 }
    requires grown { IfSome own.old (Grown F.floor_of F.commit_of F.test_of F.test_commit_of
        (arc_value common.now.log).from common.now.growth 0) }
    ensures served { OnOk result (Served count (Li.coming listener.old) (Li.coming listener.new)
        (Sp.started spawner.new) (Sp.joined spawner.new) (K.written out.old) (K.written out.new)) }
    ensures stops { IfErr result (Stops (Li.faults listener.old) (Li.faults listener.new) (K.faults out.old)
        (K.faults out.new)) }
    ensures leaves { IfErr result (Leaves (both_lines count) (K.written out.old) (K.written out.new)) }
    ensures later { K.faults out.old ≤ K.faults out.new }
{
    match write_listening(out) {
        Ok(()) => {}
        Err(fault) => return Err(fault),
    }
    let started = start_all(rt, common, own, passes, count, listener, spawner);
    match finish(rt, started, count, spawner, out) {
        Ok(()) => Ok(()),
        Err(fault) => Err(fault),
    }
}

/// A log under its lock, and so many passes.
fn shared_by<F: Family>(
    alloc: Global,
    log: Log<F, Sha256Hasher>,
    count: usize,
) -> Result<(Arc<SharedLog<F>, Global>, Vec<Pass<F>>), RunFault>
    requires some { 0 < count }
    requires few { count ≤ 8 }
    ensures opening { IfOk result (λ r. (arc_value r.0).opening ≡ log) }
    ensures passes { IfOk result (λ r. r.1.items ≡ map (fresh (arc_value r.0).from turns)
        (range_with_len 0 count)) }
    ensures fails { IfErr result (λ fault. fault ≡ memory_wanting) }
{
    let Ok((log, passes)) = SharedLog::share(alloc, log, count, u32::MAX) else {
        return Err(RunFault::OutOfMemory);
    };
    match Arc::new(alloc, log) {
        Ok(log) => Ok((log, passes)),
        Err(_) => Err(RunFault::OutOfMemory),
    }
}

/// The pass for batches, where some are appended.
fn own_pass<F: Family>(grows: bool, passes: &mut Vec<Pass<F>>) -> Option<Pass<F>>
    requires { 0 < length passes.old.items }
    ensures { SetsAside grows passes.old.items result passes.new.items }
{
    if grows {
        Some(take_first(passes))
    } else {
        None
    }
}

/// How many passes the form's connections have, with one for batches where some are appended.
fn pass_count(form: &ServeForm, grows: bool) -> usize
    requires form { Sound form.now }
    requires grows { grows ≡ not (form.now.batch == 0) }
    ensures some { 0 < result }
    ensures few { result ≤ 8 }
    ensures more { grows ≡ true → result ≡ form.now.connections + 1 }
    ensures same { grows ≡ false → result ≡ form.now.connections }
{
    let connections = form.connections as usize;
    if grows { connections + 1 } else { connections }
}

/// Serves the form's connections over this log, with a batch before each session where the form has some. Each
/// session has a pass of the one shared log.
#[tactic(auto, using(crate::proofs::Sharing::left_belong, crate::proofs::Sharing::left_count, crate::proofs::Sharing::own_grown, crate::proofs::Texts::unshared, crate::proofs::Texts::unshared_stops))]
pub(crate) fn serve_full<
    R: Threads + Wait + Copy + Send + 'static,
    F: TestedFamily + ServedFamily + Send + Sync + 'static,
    Li: Listener,
    Sp: Spawner,
    G: Gate + Send + Sync + Drop + 'static,
    K: Sink,
>(
    rt: &R,
    alloc: Global,
    log: Log<F, Sha256Hasher>,
    form: &ServeForm,
    listener: &mut Li,
    spawner: &mut Sp,
    gate: &Arc<G, Global>,
    out: &mut K,
) -> Result<(), RunFault>
where
    F::Op: Spell + Send + Sync + 'static,
    requires form { Sound form.now }
    requires fresh { Sp.started spawner.old ≡ 0 }
    ensures served { OnOk result (Served form.now.connections (Li.coming listener.old)
        (Li.coming listener.new) (Sp.started spawner.new) (Sp.joined spawner.new) (K.written out.old)
        (K.written out.new)) }
    ensures stops { IfErr result (Stops (Li.faults listener.old) (Li.faults listener.new) (K.faults out.old)
        (K.faults out.new)) }
    ensures leaves { IfErr result (Leaves (both_lines form.now.connections) (K.written out.old)
        (K.written out.new)) }
    ensures later { K.faults out.old ≤ K.faults out.new }
{
    let growth = Growth {
        count: form.batch,
        seed: form.seed,
        floor: log.floor(),
    };
    let grows = form.batch != 0;
    let (log, mut passes) = match shared_by(alloc, log, pass_count(form, grows)) {
        Ok(shared) => shared,
        Err(fault) => return Err(fault),
    };
    let mut own = own_pass(grows, &mut passes);
    let Ok(gate) = Arc::try_clone(gate) else {
        return Err(RunFault::OutOfMemory);
    };
    let common = Common {
        alloc,
        log,
        gate,
        growth,
    };
    match serve_shared(
        rt,
        &common,
        &mut own,
        &mut passes,
        form.connections,
        listener,
        spawner,
        out,
    ) {
        Ok(()) => Ok(()),
        Err(fault) => Err(fault),
    }
}
