//! A run of `serve` none of whose calls fails: the clauses that suppose so promise it without a premise.
ghost use Rattle.std.specs.Prelude.{◌≡◌, ◌⊎◌, ◌∷◌, [], IfOk, codes, map, string_bytes};

use ledger_codec::{MemorySource, Sink, SinkError, Source, SourceFailed};
use ledger_serve::{ServeOutcome, run_serve};
use session_spawner::CallerSpawner;
use std::alloc::{AllocError, Global};
use std::sync::{Arc, Wait};
use std::test::Fail;
use std::thread::Threads;
use sync_dial::{ListenFailed, Listener};
use sync_net::{Link, LinkError};
use sync_sessions::OpenGate;

/// A link over which nothing comes, and which takes what it is sent.
#[derive(Drop)]
struct Silent;

impl Link for Silent {
    ghost use Rattle.std.specs.Prelude.{None, false};

    ghost faults = { λ _. 0 };

    ghost exact = { false };

    ghost steady = { λ _. ⊥ };

    ghost wire = { λ _. None };

    ghost service = { λ _. None };

    fn send(&mut self, _bytes: &[u8]) -> Result<(), LinkError> {
        Ok(())
    }

    fn recv(&mut self, _buffer: &mut [u8]) -> Result<usize, LinkError> {
        Ok(0)
    }
}

/// A listener to which silent links come for ever.
#[derive(Drop)]
struct Patient;

impl Listener for Patient {
    ghost use Rattle.std.specs.Prelude.{None};

    type Link = Silent;

    ghost faults = { λ _. 0 };

    ghost coming = { λ _. None };

    fn accept(&mut self) -> Result<Silent, ListenFailed> {
        Ok(Silent)
    }
}

/// A source without bytes.
#[derive(Drop)]
struct Empty;

impl Source for Empty {
    ghost use Rattle.std.specs.Prelude.{Some, []};

    ghost left = { λ _. Some [] };

    ghost faults = { λ _. 0 };

    fn read(&mut self, _buffer: &mut [u8]) -> Result<usize, SourceFailed> {
        Ok(0)
    }
}

/// A sink that takes all, and tells nothing.
#[derive(Drop)]
struct Taking;

impl Sink for Taking {
    ghost use Rattle.std.specs.Prelude.{None, false};

    ghost written = { λ _. None };

    ghost faults = { λ _. 0 };

    ghost grows = { false };

    fn write(&mut self, bytes: &[u8]) -> Result<usize, SinkError> {
        Ok(bytes.len())
    }
}

/// The word `serve`.
fn serve(alloc: Global) -> Result<Vec<String>, AllocError>
    ensures { IfOk result (λ words. map string_bytes words.items ≡ codes "serve" ∷ []) }
{
    let word = String::from_str(alloc, "serve")?;
    let mut words = Vec::new(alloc);
    words.push(word)?;
    Ok(words)
}

/// A run where nothing fails: all is served, or memory is wanting.
fn calm<R: Threads + Wait + Copy + Send + 'static>(
    rt: &R,
    alloc: Global,
) -> Result<ServeOutcome, AllocError>
    ensures { IfOk result (λ outcome. (outcome.status ≡ 0) ⊎ (outcome.status ≡ 11)) }
{
    let words = serve(alloc)?;
    let gate = Arc::new(alloc, OpenGate)?;
    let mut spawner = CallerSpawner::new();
    Ok(run_serve(
        rt,
        alloc,
        &words,
        &mut Empty,
        &mut Patient,
        &mut spawner,
        &gate,
        &mut Taking,
    ))
}

/// A run whose words ask for no job: what holds one is left as it was.
fn unread<R: Threads + Wait + Copy + Send + 'static>(
    rt: &R,
    alloc: Global,
    job: &mut MemorySource,
) -> Result<ServeOutcome, AllocError>
    ensures { job.new ≡ job.old }
{
    let words = serve(alloc)?;
    let gate = Arc::new(alloc, OpenGate)?;
    let mut spawner = CallerSpawner::new();
    Ok(run_serve(
        rt,
        alloc,
        &words,
        job,
        &mut Patient,
        &mut spawner,
        &gate,
        &mut Taking,
    ))
}

#[test]
fn a_calm_run_serves_all(rt: HostRuntime) -> Result<(), Fail> {
    let served = ServeOutcome {
        status: 0,
        line: None,
    };
    assert!(rt; calm(&rt, rt.alloc())? == served);
    Ok(())
}

#[test]
fn no_job_is_read_unasked(rt: HostRuntime) -> Result<(), Fail> {
    let alloc = rt.alloc();
    let mut job = MemorySource::new(b"open alice 100 7\n".to_vec(alloc)?, [0u64].to_vec(alloc)?);
    assert_eq!(rt; unread(&rt, alloc, &mut job)?.status, 0);
    let mut buffer = [0; 4];
    assert!(rt; job.read(&mut buffer).is_err());
    assert_eq!(rt; job.read(&mut buffer), Ok(4));
    Ok(())
}
