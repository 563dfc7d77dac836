//! Words with an option for workers.
use super::*;
use crate::words::{form_of, workers_in};
use ledger_job::JobKind;
use ledger_strategy::Strategy;
use std::alloc::Global;

/// What a line of words asks for: the kind of job, and the number of workers, 0 where none is named.
fn asked(alloc: Global, line: &str) -> Result<(Option<JobKind>, usize), Fail> {
    let mut words = Vec::new(alloc);
    for word in line.split(' ') {
        words.push(String::from_str(alloc, word)?)?;
    }
    let workers = match workers_in(&words) {
        Some(workers) => workers.workers(),
        None => 0,
    };
    Ok((form_of(&words), workers))
}

#[test]
fn workers_are_an_option(rt: HostRuntime) -> Result<(), Fail> {
    let cases = [
        ("local", Some(JobKind::Local), 0),
        ("local --workers 1", Some(JobKind::Local), 1),
        ("local --workers 64", Some(JobKind::Local), 64),
        ("follow x", Some(JobKind::Follow), 0),
        ("follow --workers", Some(JobKind::Follow), 0),
        ("follow x --workers 8", Some(JobKind::Follow), 8),
        ("local --workers 0", None, 0),
        ("local --workers 65", None, 0),
        ("local --workers 08", None, 0),
        ("local --workers", None, 0),
        ("follow --workers 8", None, 8),
        ("follow x --worker 8", None, 0),
        ("local --workers 2 --workers 2", None, 0),
    ];
    for (line, kind, workers) in cases {
        assert_eq!(rt; asked(rt.alloc(), line)?, (kind, workers), "{line}");
    }
    Ok(())
}

#[test]
fn workers_change_no_report(rt: HostRuntime) -> Result<(), Fail> {
    let alloc = rt.alloc();
    let mut words = Vec::new(alloc);
    for word in ["local", "--workers", "3"] {
        words.push(String::from_str(alloc, word)?)?;
    }
    let mut source = MemorySource::new(FIRST.as_bytes().to_vec(alloc)?, Vec::new(alloc));
    let mut sink = MemorySink::new(alloc, Vec::new(alloc));
    let outcome = run(&rt, alloc, &words, &mut source, &mut Nowhere, &mut sink);
    let mut alone = String::new(alloc);
    assert_eq!(rt; local(&rt, FIRST, &[], &[], &mut alone)?, 0);
    assert_eq!(rt; outcome.status, 0);
    assert!(rt; sink.bytes() == alone.as_bytes());
    Ok(())
}
