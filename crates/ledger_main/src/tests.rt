//! Refusals, over jobs in memory: each ends with its status, and with one line.
use crate::{following, generating, syncing};
use ledger_codec::{MemorySink, MemorySource};
use std::alloc::Global;
use std::net::Net;
use std::process::ExitCode;
use std::random::RandomSource;
use std::test::Fail;
use std::thread::Threads;
use sync_dial::TcpDialer;

/// These words, as the program gets them.
fn owned(alloc: Global, words: &[&str]) -> Result<Vec<String>, Fail> {
    let mut owned = Vec::new(alloc);
    for word in words {
        owned.push(String::from_str(alloc, word)?)?;
    }
    Ok(owned)
}

/// Whether these words end with a status over a job, and print this line.
fn ends<R: RandomSource + Threads + Sync + Net + AllocGlobal>(
    rt: &R,
    words: &[&str],
    job: &str,
    status: u8,
    line: &str,
) -> Result<bool, Fail> {
    let alloc = rt.alloc();
    let owned = owned(alloc, words)?;
    let mut source = MemorySource::new(job.as_bytes().to_vec(alloc)?, Vec::new(alloc));
    let mut sink = MemorySink::new(alloc, Vec::new(alloc));
    let mut dialer = TcpDialer::new(rt);
    let end = following::ended(rt, alloc, &owned, &mut source, &mut dialer, &mut sink);
    Ok(end == ExitCode::from(status) && sink.bytes() == line.as_bytes())
}

const TARGET: &str =
    "target 4b8502c97e116f46fdb2d07ca4b5c9884bd337459c0711c9b7d3a97c0ed860e7 0 3\n";

#[test]
fn refusals_have_their_statuses(rt: HostRuntime) -> Result<(), Fail> {
    assert!(rt; ends(&rt, &[], "", 2, "error usage\n")?);
    assert!(rt; ends(&rt, &["local"], TARGET, 3, "error job line 1\n")?);
    assert!(rt; ends(&rt, &["follow", "nowhere"], "", 3, "error job line 1\n")?);
    assert!(rt; ends(&rt, &["follow", "nowhere"], TARGET, 6, "error dial\n")?);
    assert!(rt;
        ends(
            &rt,
            &["local"],
            "body\npay a b 1 0\n",
            9,
            "error insufficient 0 a\n"
        )?
    );
    Ok(())
}

/// Whether these words of `sync` end with a status, and print this line.
fn sync_ends<R: Net + AllocGlobal>(
    rt: &R,
    words: &[&str],
    status: u8,
    line: &str,
) -> Result<bool, Fail> {
    let alloc = rt.alloc();
    let owned = owned(alloc, words)?;
    let mut sink = MemorySink::new(alloc, Vec::new(alloc));
    let end = syncing::ended(alloc, &owned, &mut TcpDialer::new(rt), &mut sink);
    Ok(end == ExitCode::from(status) && sink.bytes() == line.as_bytes())
}

#[test]
fn syncs_have_their_statuses(rt: HostRuntime) -> Result<(), Fail> {
    assert!(rt; sync_ends(&rt, &["sync"], 2, "error usage\n")?);
    assert!(rt; sync_ends(&rt, &["sync", "nowhere"], 6, "error dial\n")?);
    Ok(())
}

#[test]
fn generates_a_job(rt: HostRuntime) -> Result<(), Fail> {
    let alloc = rt.alloc();
    let words = owned(alloc, &["generate", "7", "4", "6"])?;
    let mut sink = MemorySink::new(alloc, Vec::new(alloc));
    assert!(rt; generating::ended(&rt, alloc, &words, &mut sink) == ExitCode::from(0));
    assert!(rt; sink.bytes().starts_with(b"generated 4 6\nsize 11\n"));
    Ok(())
}
