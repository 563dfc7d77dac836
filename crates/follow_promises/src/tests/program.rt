//! What the program promises of its words, of the job that it reads and of its report, each promise kept once.
ghost use Rattle.std.specs.Prelude.{◌≡◌, [], IfSome};
ghost use Rattle.ledger_codec.specs.Memory.{source_bytes};

use super::digest_of;
use ledger_codec::{Digest, MemorySink, MemorySource};
use ledger_program::{Outcome, run};
use ledger_settling::Report;
use ledger_transfers::Sequenced;
use std::alloc::Global;
use std::random::RandomSource;
use std::thread::Threads;
use sync_dial::MemoryDialer;
use sync_server::TapeLink;

/// The status of a run without words, which reads no job and dials nobody.
fn wordless<R: RandomSource + Threads + Sync + AllocGlobal>(
    rt: &R,
    words: &[String],
    job: &mut MemorySource,
    dialer: &mut MemoryDialer<TapeLink>,
    out: &mut MemorySink,
) -> u8
    requires { words.now ≡ [] }
    ensures usage { result ≡ 2 }
    ensures unread { job.new ≡ job.old }
    ensures undialed { dialer.new ≡ dialer.old }
{
    run(rt, rt.alloc(), words, job, dialer, out).status
}

/// The report of a run that has no fault: it has one, and the job was read to its end.
fn printed<R: RandomSource + Threads + Sync + AllocGlobal>(
    rt: &R,
    words: &[String],
    job: &mut MemorySource,
    dialer: &mut MemoryDialer<TapeLink>,
    out: &mut MemorySink,
) -> Option<Report<Sequenced>>
    ensures { IfSome result (λ _. source_bytes job.new ≡ []) }
{
    let Outcome { report, fault, .. } = run(rt, rt.alloc(), words, job, dialer, out);
    match fault {
        None => match report {
            Some(report) => Some(report),
            None => unreachable!(),
        },
        Some(_) => None,
    }
}

/// A dialer that reaches a tape without bytes.
fn dialer(alloc: Global) -> MemoryDialer<TapeLink> {
    let none = Vec::new(alloc);
    let tape = TapeLink::new(alloc, Vec::new(alloc), Vec::new(alloc), none);
    MemoryDialer::new(tape, false)
}

/// A source of this text.
fn source(alloc: Global, text: &str) -> Option<MemorySource> {
    let bytes = Vec::from_slice(alloc, text.as_bytes()).ok()?;
    Some(MemorySource::new(bytes, Vec::new(alloc)))
}

/// The status of a run without words over a job.
fn without_words<R: RandomSource + Threads + Sync + AllocGlobal>(rt: &R) -> Option<u8> {
    let alloc = rt.alloc();
    let mut job = source(alloc, "body\n")?;
    let mut out = MemorySink::new(alloc, Vec::new(alloc));
    Some(wordless(rt, &[], &mut job, &mut dialer(alloc), &mut out))
}

/// The size and the root of the report of an empty job.
fn of_nothing<R: RandomSource + Threads + Sync + AllocGlobal>(rt: &R) -> Option<(u64, Digest)> {
    let alloc = rt.alloc();
    let mut words = Vec::new(alloc);
    words.push(String::from_str(alloc, "local").ok()?).ok()?;
    let mut job = source(alloc, "")?;
    let mut out = MemorySink::new(alloc, Vec::new(alloc));
    let report = printed(rt, &words, &mut job, &mut dialer(alloc), &mut out)?;
    Some((report.size.get(), report.root))
}

#[test]
fn words_say_what_is_read_and_reported(rt: HostRuntime) {
    assert_eq!(rt; without_words(&rt), Some(2));
    let root = digest_of("0ec7dfecfdb7a88afb2baaed4c7fadecd6f71374a6b102ad7b367d8e9f656b03");
    assert_eq!(rt; of_nothing(&rt), root.map(|root| (2, root)));
}
