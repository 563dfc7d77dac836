//! What is promised of runs of the program, of what they read and print, and of jobs that are served.
ghost use Rattle.std.specs.Prelude.{◌≡◌, ◌⊎◌, ◌∷◌, [], None, Some, IfErr, IfOk, IsErrOf, codes, map, string_bytes};
ghost use Rattle.ledger_codec.specs.Memory.{source_bytes};
ghost use Rattle.ledger_program.specs.Run.{LocalFails, ReportsJob};
ghost use Rattle.ledger_program.specs.declared.outcome.RunFault.TheVariants.{Output};
ghost use Rattle.ledger_program.specs.declared.reading.ReadFault.TheVariants as reads;
ghost use Rattle.follow_promises.specs.Runs.{nothing_asked};

use ledger_codec::{List, MemorySource, Sink, SinkError, Source, SourceFailed};
use ledger_program::{Outcome, ReadFault, RunFault, follow_opened, printed, read_all, run};
use ledger_settling::Report;
use ledger_strategy::Sequential;
use ledger_transfers::Sequenced;
use std::alloc::{AllocError, Global};
use std::random::RandomSource;
use std::test::Fail;
use std::thread::Threads;
use sync_client::Limits;
use sync_net::{DialFailed, Dialer, Link, LinkError};

/// A source without bytes.
#[derive(Drop)]
struct Empty;

impl Source for Empty {
    ghost use Rattle.std.specs.Prelude.{Some, []};

    ghost left = { λ _. Some [] };

    ghost faults = { λ _. 0 };

    fn read(&mut self, _buffer: &mut [u8]) -> Result<usize, SourceFailed> {
        Ok(0)
    }
}

/// A sink that takes all, and tells nothing.
#[derive(Drop)]
pub(super) struct Taking;

impl Sink for Taking {
    ghost use Rattle.std.specs.Prelude.{None, false};

    ghost written = { λ _. None };

    ghost faults = { λ _. 0 };

    ghost grows = { false };

    fn write(&mut self, bytes: &[u8]) -> Result<usize, SinkError> {
        Ok(bytes.len())
    }
}

/// A dialer that always reaches a link over which nothing comes. It counts its dials.
#[derive(Drop)]
struct Silent {
    dialed: u64,
}

impl Link for Silent {
    ghost use Rattle.std.specs.Prelude.{None, false};

    ghost faults = { λ _. 0 };

    ghost exact = { false };

    ghost steady = { λ _. ⊥ };

    ghost wire = { λ _. None };

    ghost service = { λ _. None };

    fn send(&mut self, _bytes: &[u8]) -> Result<(), LinkError> {
        Ok(())
    }

    fn recv(&mut self, _buffer: &mut [u8]) -> Result<usize, LinkError> {
        Ok(0)
    }
}

impl Dialer for Silent {
    ghost dials = { λ _. 0 };

    fn dial(&mut self, _address: &str) -> Result<(), DialFailed> {
        self.dialed = self.dialed.saturating_add(1);
        Ok(())
    }
}

/// The word `local`.
fn local(alloc: Global) -> Result<Vec<String>, AllocError>
    ensures { IfOk result (λ words. map string_bytes words.items ≡ codes "local" ∷ []) }
{
    let word = String::from_str(alloc, "local")?;
    let mut words = Vec::new(alloc);
    words.push(word)?;
    Ok(words)
}

/// The words `follow a`.
pub(super) fn follow(alloc: Global) -> Result<Vec<String>, AllocError>
    ensures { IfOk result (λ words. map string_bytes words.items ≡ codes "follow" ∷ codes "a" ∷ []) }
{
    let word = String::from_str(alloc, "follow")?;
    let address = String::from_str(alloc, "a")?;
    let mut words = Vec::new(alloc);
    words.push(word)?;
    words.push(address)?;
    Ok(words)
}

/// A run of an empty job where nothing fails: it reports, or memory is wanting.
fn of_nothing<R: RandomSource + Threads + Sync>(
    rt: &R,
    alloc: Global,
) -> Result<Outcome, AllocError>
    ensures { IfOk result (λ outcome. (outcome.status ≡ 0) ⊎ (outcome.status ≡ 11)) }
{
    let words = local(alloc)?;
    let mut dialer = Silent { dialed: 0 };
    Ok(run(rt, alloc, &words, &mut Empty, &mut dialer, &mut Taking))
}

/// A run that would follow a peer, but whose job is one line that is none: nobody is dialed and there is no report,
/// unless memory is wanting.
fn misread<R: RandomSource + Threads + Sync>(
    rt: &R,
    alloc: Global,
    job: &mut MemorySource,
    dialer: &mut Silent,
) -> Result<Outcome, AllocError>
    requires { source_bytes job.old ≡ 63 ∷ [] }
    ensures early { IfOk result (λ outcome. (outcome.status ≡ 11) ⊎ (dialer.new ≡ dialer.old)) }
    ensures unreported { IfOk result (λ outcome. (outcome.status ≡ 11) ⊎ (outcome.report ≡ None)) }
{
    let words = follow(alloc)?;
    Ok(run(rt, alloc, &words, job, dialer, &mut Taking))
}

/// What is read of a source without bytes, none of whose reads fails: its end, or memory was wanting.
fn read_nothing(alloc: Global) -> Result<Vec<u8>, ReadFault>
    ensures failed { IsErrOf result reads.Failed → ⊥ }
    ensures too_large { IsErrOf result reads.TooLarge → ⊥ }
{
    read_all(alloc, &mut Empty, 10)
}

/// The outcome of a report whose text is taken whole: the sink didn't fail.
fn print_calmly(report: Report<Sequenced>, text: &str) -> Outcome
    ensures { result.fault ≡ Some Output → ⊥ }
{
    printed(report, text, &mut Taking)
}

/// The report of a job without accounts and blocks, which is that job's; without one a block of it has none, or memory
/// was wanting.
fn of_none<R: RandomSource + Threads + Sync>(
    rt: &R,
    alloc: Global,
    limits: &Limits,
) -> Result<Report<Sequenced>, RunFault>
    ensures reports { IfOk result (ReportsJob nothing_asked) }
    ensures fails { IfErr result (LocalFails nothing_asked) }
{
    let opens = List::new(alloc);
    let blocks = List::new(alloc);
    follow_opened(rt, alloc, opens, limits, blocks, &Sequential)
}

#[test]
fn an_empty_job_is_reported(rt: HostRuntime) -> Result<(), Fail> {
    assert_eq!(rt; of_nothing(&rt, rt.alloc())?.status, 0);
    assert!(rt; read_nothing(rt.alloc()).is_ok_and(|bytes| bytes.is_empty()));
    Ok(())
}

#[test]
fn nobody_is_dialed_for_a_bad_job(rt: HostRuntime) -> Result<(), Fail> {
    let alloc = rt.alloc();
    let mut job = MemorySource::new(b"?".to_vec(alloc)?, Vec::new(alloc));
    let mut dialer = Silent { dialed: 0 };
    let outcome = misread(&rt, alloc, &mut job, &mut dialer)?;
    assert_eq!(rt; outcome.status, 3);
    assert!(rt; outcome.report.is_none());
    assert_eq!(rt; dialer.dialed, 0);
    Ok(())
}

/// The status of a job without accounts and blocks whose report is printed, None where memory is wanting.
fn status_of_none<R: RandomSource + Threads + Sync>(rt: &R, alloc: Global) -> Option<u8> {
    let limits = Limits::new(50, 1)?;
    let report = of_none(rt, alloc, &limits).ok()?;
    Some(print_calmly(report, "text").status)
}

#[test]
fn nothing_is_settled_and_printed(rt: HostRuntime) {
    assert_eq!(rt; status_of_none(&rt, rt.alloc()), Some(0));
}
