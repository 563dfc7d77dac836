//! A job over a log that a dialed link serves: the dial, each read of the job, each call of the link and the write of
//! the text failing in turn. The text is that of tests/reference.py.

use ledger_codec::{MemorySink, MemorySource};
use ledger_log::{AnyFamily, AnyOp, Key, Log};
use ledger_merkle::Location;
use ledger_program::run;
use std::alloc::Global;
use std::random::RandomSource;
use std::thread::Threads;
use sync_dial::MemoryDialer;
use sync_server::MemoryLink;

const JOB: &str =
    "target 4b8502c97e116f46fdb2d07ca4b5c9884bd337459c0711c9b7d3a97c0ed860e7 0 3\nbody\npay alice bob 6 0\n";

const TEXT: &str =
    "synced 0 3\nblock 0 body\naccount alice 4 1\naccount bob 6 0\nsize 6\nroot 1a1e2649c723f287b24a0babda0bf74d3d758d02f61405f7d9cd3875542e23de\n";

/// One call that fails, of one of the objects.
#[derive(Clone, Copy)]
enum Failing {
    Dial,
    /// The read of this number, from 0.
    Read(u64),
    /// The send or recv of this number, from 0.
    Call(u64),
    /// The write of this number, from 0.
    Write(u64),
}

/// The key of alice.
fn alice() -> Key {
    let mut key = [0; 32];
    key[..5].copy_from_slice(b"alice");
    key
}

/// The log of one account, which each dial reaches unless it fails.
fn dialer(
    alloc: Global,
    fails: bool,
    failing: Vec<u64>,
) -> Option<MemoryDialer<MemoryLink<AnyFamily>>> {
    let mut ten = [0; 32];
    ten[7] = 10;
    let ops = [
        AnyOp::CommitFloor(None, Location::ZERO),
        AnyOp::Update(alice(), ten),
        AnyOp::CommitFloor(None, Location::ZERO),
    ];
    let ops = Vec::from_slice(alloc, &ops).ok()?;
    let log = Log::from_parts(alloc, Vec::new(alloc), Location::ZERO, ops).ok()?;
    let link = MemoryLink::new(alloc, log, Vec::new(alloc), Vec::new(alloc), failing);
    Some(MemoryDialer::new(link, fails))
}

/// The numbers of the failing calls, which are none or one.
fn numbers(alloc: Global, one: Option<u64>) -> Option<Vec<u64>> {
    let mut numbers = Vec::new(alloc);
    if let Some(number) = one {
        numbers.push(number).ok()?;
    }
    Some(numbers)
}

fn read_of(failing: Failing) -> Option<u64> {
    match failing {
        Failing::Read(number) => Some(number),
        _ => None,
    }
}

fn call_of(failing: Failing) -> Option<u64> {
    match failing {
        Failing::Call(number) => Some(number),
        _ => None,
    }
}

fn write_of(failing: Failing) -> Option<u64> {
    match failing {
        Failing::Write(number) => Some(number),
        _ => None,
    }
}

/// The words `follow x`.
fn words(alloc: Global) -> Option<Vec<String>> {
    let mut words = Vec::new(alloc);
    words.push(String::from_str(alloc, "follow").ok()?).ok()?;
    words.push(String::from_str(alloc, "x").ok()?).ok()?;
    Some(words)
}

/// Whether the job ends with this status and this text where one call fails.
fn ends<R: RandomSource + Threads + Sync + AllocGlobal>(
    rt: &R,
    failing: Failing,
    status: u8,
    text: &str,
) -> Option<bool> {
    let alloc = rt.alloc();
    let job = Vec::from_slice(alloc, JOB.as_bytes()).ok()?;
    let mut source = MemorySource::new(job, numbers(alloc, read_of(failing))?);
    let is_dial = matches!(failing, Failing::Dial);
    let mut dialer = dialer(alloc, is_dial, numbers(alloc, call_of(failing))?)?;
    let mut sink = MemorySink::new(alloc, numbers(alloc, write_of(failing))?);
    let words = words(alloc)?;
    let outcome = run(rt, alloc, &words, &mut source, &mut dialer, &mut sink);
    Some(outcome.status == status && sink.bytes() == text.as_bytes())
}

#[test]
fn each_call_of_each_object_may_fail(rt: HostRuntime) {
    for (failing, status, text) in [
        (Failing::Dial, 6, "error dial\n"),
        (Failing::Read(0), 4, "error job read\n"),
        (Failing::Read(1), 4, "error job read\n"),
        (Failing::Call(0), 7, "error network\n"),
        (Failing::Call(1), 7, "error network\n"),
        (Failing::Write(0), 10, ""),
    ] {
        assert_eq!(rt; ends(&rt, failing, status, text), Some(true));
    }
}

#[test]
fn no_later_call_is_made(rt: HostRuntime) {
    for failing in [Failing::Read(2), Failing::Call(2), Failing::Write(1)] {
        assert_eq!(rt; ends(&rt, failing, 0, TEXT), Some(true));
    }
}
