//! `serve`: a log is served on a port of this machine.
ghost use Rattle.std.specs.Prelude.{◌≡◌, ◌==◌, not, map, is_some, string_bytes};
ghost use Rattle.std.specs.Process.{exit_status};
ghost use Rattle.ledger_program.specs.Run.{status_of};
ghost use Rattle.ledger_serve.specs.Serving.{Completes};
ghost use Rattle.serve_parts.specs.Forms.{form_of};

use ledger_codec::{Sink, Source};
use ledger_program::{RunFault, status_of, write_line};
use ledger_serve::run_serve;
use serve_parts::serve_form;
use session_spawner::ThreadSpawner;
use std::alloc::Global;
use std::net::{Ipv4Addr, Net, TcpListener, TcpStream};
use std::process::ExitCode;
use std::sync::{Arc, Wait};
use std::thread::Threads;
use sync_dial::{Listener, TcpAccepting};
use sync_sessions::OpenGate;

/// Writes the line of a refusal, and ends with its status.
fn refused<K: Sink>(fault: RunFault, out: &mut K) -> ExitCode
    ensures { exit_status result ≡ status_of (Some fault) }
{
    write_line(&fault, out);
    ExitCode::from(status_of(&fault))
}

/// Serves what the words ask for over a listener, each session on a thread of its own, and ends with the status of
/// the outcome.
fn ended<R: Threads + Wait + Copy + Send + 'static, S: Source, Li: Listener, K: Sink>(
    rt: &R,
    alloc: Global,
    words: &[String],
    job: &mut S,
    listener: &mut Li,
    gate: &Arc<OpenGate, Global>,
    out: &mut K,
) -> ExitCode
    ensures usage { (exit_status result == 2) ≡ not (is_some (form_of (map string_bytes words.now))) }
    ensures complete { Completes (form_of (map string_bytes words.now)) (S.left job.old) (S.faults job.old)
        (S.faults job.new) (Li.faults listener.old) (Li.faults listener.new) (K.faults out.old)
        (K.faults out.new) (exit_status result) }
{
    let mut spawner = ThreadSpawner::new();
    let outcome = run_serve(rt, alloc, words, job, listener, &mut spawner, gate, out);
    ExitCode::from(outcome.status)
}

/// Binds the port that the words name on this machine, and serves on it. A port that can't be bound is told as
/// `error dial`.
pub fn serve<
    R: Net<Stream = TcpStream, Listener = TcpListener> + Threads + Wait + Copy + Send + 'static,
    S: Source,
    K: Sink,
>(rt: &R, alloc: Global, words: &[String], job: &mut S, out: &mut K) -> ExitCode
    ensures usage { (exit_status result == 2) ≡ not (is_some (form_of (map string_bytes words.now))) }
{
    let Some(form) = serve_form(words) else {
        return refused(RunFault::Usage, out);
    };
    let Ok(gate) = Arc::new(alloc, OpenGate) else {
        return refused(RunFault::OutOfMemory, out);
    };
    match TcpListener::bind(rt, (Ipv4Addr::LOCALHOST, form.port)) {
        Ok(bound) => ended(
            rt,
            alloc,
            words,
            job,
            &mut TcpAccepting::new(bound),
            &gate,
            out,
        ),
        Err(_) => refused(RunFault::Dial, out),
    }
}
