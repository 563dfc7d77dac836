//! Serving logs of test operations.
ghost use Rattle.std.specs.Prelude.{◌≡◌, ◌≤◌, true, Some, OnOk, IfOk, IfErr};
ghost use Rattle.ledger_examples.specs.declared.names.SyncMode.TheVariants.{Compact};
ghost use Rattle.ledger_examples.specs.Names.{is_compact_family};
ghost use Rattle.ledger_compact.specs.View.{compact_of};
ghost use Rattle.sha2.specs.Sha256.{sha256};
ghost use Rattle.ledger_program.specs.declared.outcome.RunFault.TheVariants.{OutOfMemory as memory_wanting};
ghost use Rattle.serve_parts.specs.Tests.{test_log};
ghost use Rattle.serve_parts.specs.Forms.{Sound};
ghost use Rattle.ledger_serve.specs.Lines.{both_lines};
ghost use Rattle.ledger_serve.specs.Serving.{Served, Stops, Leaves};

use crate::compact::serve_compact;
use crate::full::serve_full;
use ledger_activity::CurrentFamily;
use ledger_codec::{Sink, Spell};
use ledger_compact::CompactLog;
use ledger_examples::{CompactExampleFamily, DatabaseType, StorageKind, SyncMode};
use ledger_log::{AnyFamily, CompactFamily, ImmutableFamily, KeylessFamily, Log};
use ledger_merkle::Sha256Hasher;
use ledger_program::RunFault;
use serve_parts::{ServeForm, TestedFamily, compact_test_log, test_log};
use session_spawner::Spawner;
use std::alloc::Global;
use std::sync::{Arc, Wait};
use std::thread::Threads;
use sync_dial::Listener;
use sync_sessions::{CompactServed, Gate, ServedFamily};

/// The log of the form's test operations.
fn log_of<F: TestedFamily>(
    alloc: Global,
    form: &ServeForm,
) -> Result<Log<F, Sha256Hasher>, RunFault>
    requires { Sound form.now }
    ensures log { IfOk result (λ log. log ≡ test_log F.floor_of F.commit_of F.test_of F.test_commit_of
        F.added_of form.now.initial form.now.seed) }
    ensures fails { IfErr result (λ fault. fault ≡ memory_wanting) }
{
    match test_log::<F>(alloc, form.initial as usize, form.seed) {
        Ok(log) => Ok(log),
        Err(_) => Err(RunFault::OutOfMemory),
    }
}

/// The same as a compact log.
fn compact_log_of<F: TestedFamily + CompactExampleFamily>(
    alloc: Global,
    form: &ServeForm,
) -> Result<CompactLog<F, Sha256Hasher>, RunFault>
    requires { Sound form.now }
    ensures log { IfOk result (λ log. compact_of sha256 F.Op.spelling
        (test_log F.floor_of F.commit_of F.test_of F.test_commit_of F.added_of form.now.initial
        form.now.seed) ≡ Some log) }
    ensures fails { IfErr result (λ fault. fault ≡ memory_wanting) }
{
    match compact_test_log::<F>(alloc, form.initial as usize, form.seed) {
        Ok(log) => Ok(log),
        Err(_) => Err(RunFault::OutOfMemory),
    }
}

/// Serves a log of the family's test operations, in full mode.
#[tactic(auto, using(crate::proofs::Texts::unshared, crate::proofs::Texts::unshared_stops))]
fn serve_log<
    R: Threads + Wait + Copy + Send + 'static,
    F: TestedFamily + ServedFamily + Send + Sync + 'static,
    Li: Listener,
    Sp: Spawner,
    G: Gate + Send + Sync + Drop + 'static,
    K: Sink,
>(
    rt: &R,
    alloc: Global,
    form: &ServeForm,
    listener: &mut Li,
    spawner: &mut Sp,
    gate: &Arc<G, Global>,
    out: &mut K,
) -> Result<(), RunFault>
where
    F::Op: Spell + Send + Sync + 'static,
    requires form { Sound form.now }
    requires fresh { Sp.started spawner.old ≡ 0 }
    ensures served { OnOk result (Served form.now.connections (Li.coming listener.old)
        (Li.coming listener.new) (Sp.started spawner.new) (Sp.joined spawner.new) (K.written out.old)
        (K.written out.new)) }
    ensures stops { IfErr result (Stops (Li.faults listener.old) (Li.faults listener.new) (K.faults out.old)
        (K.faults out.new)) }
    ensures leaves { IfErr result (Leaves (both_lines form.now.connections) (K.written out.old)
        (K.written out.new)) }
    ensures later { K.faults out.old ≤ K.faults out.new }
{
    match log_of::<F>(alloc, form) {
        Ok(log) => serve_full(rt, alloc, log, form, listener, spawner, gate, out),
        Err(fault) => Err(fault),
    }
}

/// Serves a log of the form's family in full mode.
fn serve_family<
    R: Threads + Wait + Copy + Send + 'static,
    Li: Listener,
    Sp: Spawner,
    G: Gate + Send + Sync + Drop + 'static,
    K: Sink,
>(
    rt: &R,
    alloc: Global,
    form: &ServeForm,
    listener: &mut Li,
    spawner: &mut Sp,
    gate: &Arc<G, Global>,
    out: &mut K,
) -> Result<(), RunFault>
    requires form { Sound form.now }
    requires fresh { Sp.started spawner.old ≡ 0 }
    ensures served { OnOk result (Served form.now.connections (Li.coming listener.old)
        (Li.coming listener.new) (Sp.started spawner.new) (Sp.joined spawner.new) (K.written out.old)
        (K.written out.new)) }
    ensures stops { IfErr result (Stops (Li.faults listener.old) (Li.faults listener.new) (K.faults out.old)
        (K.faults out.new)) }
    ensures leaves { IfErr result (Leaves (both_lines form.now.connections) (K.written out.old)
        (K.written out.new)) }
    ensures later { K.faults out.old ≤ K.faults out.new }
{
    match form.family {
        DatabaseType::Any => serve_log::<R, AnyFamily, Li, Sp, G, K>(
            rt, alloc, form, listener, spawner, gate, out,
        ),
        DatabaseType::Current => serve_log::<R, CurrentFamily, Li, Sp, G, K>(
            rt, alloc, form, listener, spawner, gate, out,
        ),
        DatabaseType::Immutable => serve_log::<R, ImmutableFamily, Li, Sp, G, K>(
            rt, alloc, form, listener, spawner, gate, out,
        ),
        DatabaseType::Keyless => serve_log::<R, KeylessFamily, Li, Sp, G, K>(
            rt, alloc, form, listener, spawner, gate, out,
        ),
    }
}

/// Serves a log of the family's test operations in compact mode, from a full log or a compact one.
#[tactic(auto, using(crate::proofs::Texts::unshared, crate::proofs::Texts::unshared_stops))]
fn serve_kept<
    R: Threads + Wait + Copy + Send + 'static,
    F: TestedFamily + CompactExampleFamily + ServedFamily + Send + Sync + 'static,
    Li: Listener,
    Sp: Spawner,
    G: Gate + Send + Sync + Drop + 'static,
    K: Sink,
>(
    rt: &R,
    alloc: Global,
    form: &ServeForm,
    listener: &mut Li,
    spawner: &mut Sp,
    gate: &Arc<G, Global>,
    out: &mut K,
) -> Result<(), RunFault>
where
    F::Op: Spell + Send + Sync + 'static,
    requires form { Sound form.now }
    requires fresh { Sp.started spawner.old ≡ 0 }
    ensures served { OnOk result (Served form.now.connections (Li.coming listener.old)
        (Li.coming listener.new) (Sp.started spawner.new) (Sp.joined spawner.new) (K.written out.old)
        (K.written out.new)) }
    ensures stops { IfErr result (Stops (Li.faults listener.old) (Li.faults listener.new) (K.faults out.old)
        (K.faults out.new)) }
    ensures leaves { IfErr result (Leaves (both_lines form.now.connections) (K.written out.old)
        (K.written out.new)) }
    ensures later { K.faults out.old ≤ K.faults out.new }
{
    match form.storage {
        StorageKind::Full => match log_of::<F>(alloc, form) {
            Ok(log) => serve_compact::<R, F, Log<F, Sha256Hasher>, Li, Sp, G, K>(
                rt,
                alloc,
                log,
                form.connections,
                listener,
                spawner,
                gate,
                out,
            ),
            Err(fault) => Err(fault),
        },
        StorageKind::Compact => match compact_log_of::<F>(alloc, form) {
            Ok(log) => serve_compact::<R, F, CompactLog<F, Sha256Hasher>, Li, Sp, G, K>(
                rt,
                alloc,
                log,
                form.connections,
                listener,
                spawner,
                gate,
                out,
            ),
            Err(fault) => Err(fault),
        },
    }
}

/// Serves a log of the form's family in compact mode.
fn serve_compact_family<
    R: Threads + Wait + Copy + Send + 'static,
    Li: Listener,
    Sp: Spawner,
    G: Gate + Send + Sync + Drop + 'static,
    K: Sink,
>(
    rt: &R,
    alloc: Global,
    form: &ServeForm,
    listener: &mut Li,
    spawner: &mut Sp,
    gate: &Arc<G, Global>,
    out: &mut K,
) -> Result<(), RunFault>
    requires compact { is_compact_family form.now.family ≡ true }
    requires form { Sound form.now }
    requires fresh { Sp.started spawner.old ≡ 0 }
    ensures served { OnOk result (Served form.now.connections (Li.coming listener.old)
        (Li.coming listener.new) (Sp.started spawner.new) (Sp.joined spawner.new) (K.written out.old)
        (K.written out.new)) }
    ensures stops { IfErr result (Stops (Li.faults listener.old) (Li.faults listener.new) (K.faults out.old)
        (K.faults out.new)) }
    ensures leaves { IfErr result (Leaves (both_lines form.now.connections) (K.written out.old)
        (K.written out.new)) }
    ensures later { K.faults out.old ≤ K.faults out.new }
{
    match form.family {
        DatabaseType::Any | DatabaseType::Current => unreachable!(),
        DatabaseType::Immutable => serve_kept::<R, ImmutableFamily, Li, Sp, G, K>(
            rt, alloc, form, listener, spawner, gate, out,
        ),
        DatabaseType::Keyless => serve_kept::<R, KeylessFamily, Li, Sp, G, K>(
            rt, alloc, form, listener, spawner, gate, out,
        ),
    }
}

/// Serves a log of test operations.
pub(crate) fn serve_tested<
    R: Threads + Wait + Copy + Send + 'static,
    Li: Listener,
    Sp: Spawner,
    G: Gate + Send + Sync + Drop + 'static,
    K: Sink,
>(
    rt: &R,
    alloc: Global,
    form: &ServeForm,
    listener: &mut Li,
    spawner: &mut Sp,
    gate: &Arc<G, Global>,
    out: &mut K,
) -> Result<(), RunFault>
    requires form { Sound form.now }
    requires compact { form.now.mode ≡ Compact → is_compact_family form.now.family ≡ true }
    requires fresh { Sp.started spawner.old ≡ 0 }
    ensures served { OnOk result (Served form.now.connections (Li.coming listener.old)
        (Li.coming listener.new) (Sp.started spawner.new) (Sp.joined spawner.new) (K.written out.old)
        (K.written out.new)) }
    ensures stops { IfErr result (Stops (Li.faults listener.old) (Li.faults listener.new) (K.faults out.old)
        (K.faults out.new)) }
    ensures leaves { IfErr result (Leaves (both_lines form.now.connections) (K.written out.old)
        (K.written out.new)) }
    ensures later { K.faults out.old ≤ K.faults out.new }
{
    match form.mode {
        SyncMode::Full => serve_family(rt, alloc, form, listener, spawner, gate, out),
        SyncMode::Compact => serve_compact_family(rt, alloc, form, listener, spawner, gate, out),
    }
}
