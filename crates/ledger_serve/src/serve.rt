//! The call that serves what the words ask for.
ghost use Rattle.std.specs.Prelude.{◌≡◌, ◌≤◌, ◌==◌, ◌++◌, [], List as Items, Some, None, true, false, not, map, is_some, OnOk, IfOk, IfErr, IfSome, string_bytes};
ghost use Rattle.std.specs.Io.KnownBytes.{Appends};
ghost use Rattle.ledger_examples.specs.declared.names.SyncMode.TheVariants.{Compact};
ghost use Rattle.ledger_examples.specs.Names.{is_compact_family};
ghost use Rattle.ledger_job.specs.declared.line.Open.{Open as Opened};
ghost use Rattle.ledger_program.specs.ErrorLines.{line_of};
ghost use Rattle.ledger_program.specs.Run.{LineWent, status_of};
ghost use Rattle.ledger_program.specs.Served.{served};
ghost use Rattle.ledger_program.specs.Writing.{AppendsFront};
ghost use Rattle.serve_parts.specs.Forms.{form_of, Sound};
ghost use Rattle.ledger_serve.specs.Lines.{both_lines};
ghost use Rattle.ledger_serve.specs.Serving.{IsJob, ReadFails, Served, ServedAs, Leaves, Caused, lines_for, line_in, reads_job, Completes};
ghost use Rattle.ledger_serve.specs.Outcomes.{JobStops, Ends};

use crate::full::serve_full;
use crate::outcome::ServeOutcome;
use crate::reading::read_accounts;
use crate::tested::serve_tested;
use ledger_codec::{Sink, Source};
use ledger_log::{AnyFamily, Log};
use ledger_merkle::Sha256Hasher;
use ledger_program::{RunFault, served_log, status_of, write_line};
use serve_parts::{ServeForm, ServedFrom, serve_form};
use session_spawner::Spawner;
use std::alloc::Global;
use std::sync::{Arc, Wait};
use std::thread::Threads;
use sync_dial::Listener;
use sync_sessions::Gate;

/// The log that the job serves which a source holds.
fn log_of_job<S: Source>(
    alloc: Global,
    job: &mut S,
) -> Result<Log<AnyFamily, Sha256Hasher>, RunFault>
    ensures log { IfOk result (λ log. (accounts : Items Opened) ×
        (log ≡ record { front = 0; pinned = []; ops = served accounts }) × IfSome (S.left job.old)
        (λ text. IsJob text accounts)) }
    ensures fails { IfErr result (ReadFails (S.left job.old) (S.faults job.old) (S.faults job.new)) }
{
    let accounts = match read_accounts(alloc, job) {
        Ok(accounts) => accounts,
        Err(fault) => return Err(fault),
    };
    match served_log(alloc, &accounts) {
        Ok(log) => Ok(log),
        Err(_) => Err(RunFault::OutOfMemory),
    }
}

/// Serves the log of the job that is read.
#[tactic(auto, using(crate::proofs::Texts::unread, crate::proofs::Causing::read_stops, crate::proofs::Causing::serve_stops))]
fn serve_job<
    R: Threads + Wait + Copy + Send + 'static,
    S: Source,
    Li: Listener,
    Sp: Spawner,
    G: Gate + Send + Sync + Drop + 'static,
    K: Sink,
>(
    rt: &R,
    alloc: Global,
    form: &ServeForm,
    job: &mut S,
    listener: &mut Li,
    spawner: &mut Sp,
    gate: &Arc<G, Global>,
    out: &mut K,
) -> Result<(), RunFault>
    requires form { Sound form.now }
    requires fresh { Sp.started spawner.old ≡ 0 }
    ensures job { OnOk result (IfSome (S.left job.old)
        (λ text. (accounts : Items Opened) × IsJob text accounts)) }
    ensures served { OnOk result (Served form.now.connections (Li.coming listener.old)
        (Li.coming listener.new) (Sp.started spawner.new) (Sp.joined spawner.new) (K.written out.old)
        (K.written out.new)) }
    ensures stops { IfErr result (JobStops (S.left job.old) (S.faults job.old) (S.faults job.new)
        (Li.faults listener.old) (Li.faults listener.new) (K.faults out.old) (K.faults out.new)) }
    ensures leaves { IfErr result (Leaves (both_lines form.now.connections) (K.written out.old)
        (K.written out.new)) }
    ensures later { K.faults out.old ≤ K.faults out.new }
{
    let log = match log_of_job(alloc, job) {
        Ok(log) => log,
        Err(fault) => return Err(fault),
    };
    match serve_full(rt, alloc, log, form, listener, spawner, gate, out) {
        Ok(()) => Ok(()),
        Err(fault) => Err(fault),
    }
}

/// Serves what a form asks for.
#[tactic(auto, using(crate::proofs::Causing::stops_caused, crate::proofs::Causing::job_caused))]
fn serve_asked<
    R: Threads + Wait + Copy + Send + 'static,
    S: Source,
    Li: Listener,
    Sp: Spawner,
    G: Gate + Send + Sync + Drop + 'static,
    K: Sink,
>(
    rt: &R,
    alloc: Global,
    form: &ServeForm,
    job: &mut S,
    listener: &mut Li,
    spawner: &mut Sp,
    gate: &Arc<G, Global>,
    out: &mut K,
) -> Result<(), RunFault>
    requires form { Sound form.now }
    requires compact { form.now.mode ≡ Compact → is_compact_family form.now.family ≡ true }
    requires fresh { Sp.started spawner.old ≡ 0 }
    ensures served { OnOk result (ServedAs (Some form.now) (S.left job.old) (Li.coming listener.old)
        (Li.coming listener.new) (Sp.started spawner.new) (Sp.joined spawner.new) (K.written out.old)
        (K.written out.new)) }
    ensures caused { IfErr result (Caused (Some form.now) (S.left job.old) (S.faults job.old)
        (S.faults job.new) (Li.faults listener.old) (Li.faults listener.new) (K.faults out.old)
        (K.faults out.new)) }
    ensures leaves { IfErr result (Leaves (both_lines form.now.connections) (K.written out.old)
        (K.written out.new)) }
    ensures later { K.faults out.old ≤ K.faults out.new }
    ensures unread { reads_job (Some form.now) ≡ false → job.new ≡ job.old }
{
    match form.source {
        ServedFrom::Test => match serve_tested(rt, alloc, form, listener, spawner, gate, out) {
            Ok(()) => Ok(()),
            Err(fault) => Err(fault),
        },
        ServedFrom::Job => match serve_job(rt, alloc, form, job, listener, spawner, gate, out) {
            Ok(()) => Ok(()),
            Err(fault) => Err(fault),
        },
    }
}

/// Serves what the words ask for.
#[tactic(auto, using(crate::proofs::Texts::unasked, crate::proofs::Causing::caused_as, crate::proofs::Causing::leaves_as, crate::proofs::Causing::served_as))]
fn serve_words<
    R: Threads + Wait + Copy + Send + 'static,
    S: Source,
    Li: Listener,
    Sp: Spawner,
    G: Gate + Send + Sync + Drop + 'static,
    K: Sink,
>(
    rt: &R,
    alloc: Global,
    words: &[String],
    job: &mut S,
    listener: &mut Li,
    spawner: &mut Sp,
    gate: &Arc<G, Global>,
    out: &mut K,
) -> Result<(), RunFault>
    requires fresh { Sp.started spawner.old ≡ 0 }
    ensures served { OnOk result (ServedAs (form_of (map string_bytes words.now)) (S.left job.old)
        (Li.coming listener.old) (Li.coming listener.new) (Sp.started spawner.new) (Sp.joined spawner.new)
        (K.written out.old) (K.written out.new)) }
    ensures caused { IfErr result (Caused (form_of (map string_bytes words.now)) (S.left job.old)
        (S.faults job.old) (S.faults job.new) (Li.faults listener.old) (Li.faults listener.new)
        (K.faults out.old) (K.faults out.new)) }
    ensures leaves { IfErr result (Leaves (lines_for (form_of (map string_bytes words.now)))
        (K.written out.old) (K.written out.new)) }
    ensures later { K.faults out.old ≤ K.faults out.new }
    ensures unread { reads_job (form_of (map string_bytes words.now)) ≡ false → job.new ≡ job.old }
{
    let Some(form) = serve_form(words) else {
        return Err(RunFault::Usage);
    };
    match serve_asked(rt, alloc, &form, job, listener, spawner, gate, out) {
        Ok(()) => Ok(()),
        Err(fault) => Err(fault),
    }
}

/// The line of a job that a fault names.
fn line_in(fault: &RunFault) -> Option<u64>
    ensures { result ≡ line_in (Some fault.now) }
{
    match fault {
        RunFault::BadJob { line } => Some(*line),
        _ => None,
    }
}

/// The outcome of a fault, whose line is written.
fn refused<K: Sink>(fault: RunFault, out: &mut K) -> ServeOutcome
    ensures status { result.status ≡ status_of (Some fault) }
    ensures line { result.line ≡ line_in (Some fault) }
    ensures front { AppendsFront (K.written out.old) (K.written out.new) (line_of fault) }
    ensures whole { LineWent K.grows (K.faults out.old) (K.faults out.new)
        (Appends (K.written out.old) (K.written out.new) (line_of fault)) }
    ensures later { K.faults out.old ≤ K.faults out.new }
{
    write_line(&fault, out);
    ServeOutcome {
        status: status_of(&fault),
        line: line_in(&fault),
    }
}

/// Serves what the words ask for, and writes the line of a fault.
#[tactic(auto, using(crate::proofs::Causing::caused_later, crate::proofs::Texts::wrote_behind))]
fn act<
    R: Threads + Wait + Copy + Send + 'static,
    S: Source,
    Li: Listener,
    Sp: Spawner,
    G: Gate + Send + Sync + Drop + 'static,
    K: Sink,
>(
    rt: &R,
    alloc: Global,
    words: &[String],
    job: &mut S,
    listener: &mut Li,
    spawner: &mut Sp,
    gate: &Arc<G, Global>,
    out: &mut K,
) -> ServeOutcome
    requires { Sp.started spawner.old ≡ 0 }
    ensures ends { Ends (form_of (map string_bytes words.now)) (S.left job.old) (S.faults job.old)
        (S.faults job.new) (Li.faults listener.old) (Li.faults listener.new) (Li.coming listener.old)
        (Li.coming listener.new) (Sp.started spawner.new) (Sp.joined spawner.new) K.grows
        (K.written out.old) (K.written out.new) (K.faults out.old) (K.faults out.new) result.status
        result.line }
    ensures unread { reads_job (form_of (map string_bytes words.now)) ≡ false → job.new ≡ job.old }
{
    match serve_words(rt, alloc, words, job, listener, spawner, gate, out) {
        Ok(()) => ServeOutcome {
            status: 0,
            line: None,
        },
        Err(fault) => refused(fault, out),
    }
}

/// Serves what the words ask for: a log of test operations, or that of the job which is read. Each connection has a
/// session of its own, started with its number; before it, a batch is appended where the words say so. The lines of
/// `serve` are written, or the line that says why it ended: then too all sessions that were started are joined.
/// It waits for connections, and for the sessions to end.
#[tactic(auto, using(crate::proofs::Causing::usage_of, crate::proofs::Causing::complete_of))]
pub fn run_serve<
    R: Threads + Wait + Copy + Send + 'static,
    S: Source,
    Li: Listener,
    Sp: Spawner,
    G: Gate + Send + Sync + Drop + 'static,
    K: Sink,
>(
    rt: &R,
    alloc: Global,
    words: &[String],
    job: &mut S,
    listener: &mut Li,
    spawner: &mut Sp,
    gate: &Arc<G, Global>,
    out: &mut K,
) -> ServeOutcome
    requires { Sp.started spawner.old ≡ 0 }
    ensures ends { Ends (form_of (map string_bytes words.now)) (S.left job.old) (S.faults job.old)
        (S.faults job.new) (Li.faults listener.old) (Li.faults listener.new) (Li.coming listener.old)
        (Li.coming listener.new) (Sp.started spawner.new) (Sp.joined spawner.new) K.grows
        (K.written out.old) (K.written out.new) (K.faults out.old) (K.faults out.new) result.status
        result.line }
    ensures usage { (result.status == 2) ≡ not (is_some (form_of (map string_bytes words.now))) }
    ensures complete { Completes (form_of (map string_bytes words.now)) (S.left job.old) (S.faults job.old)
        (S.faults job.new) (Li.faults listener.old) (Li.faults listener.new) (K.faults out.old)
        (K.faults out.new) result.status }
    ensures unread { reads_job (form_of (map string_bytes words.now)) ≡ false → job.new ≡ job.old }
{
    act(rt, alloc, words, job, listener, spawner, gate, out)
}
