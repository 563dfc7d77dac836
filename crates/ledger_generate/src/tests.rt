//! Generated jobs. Sizes and roots are those of vectors/generated.py.
mod calm;

use super::*;
use ledger_codec::MemorySink;
use std::alloc::Global;
use std::random::RandomSource;
use std::test::Fail;
use std::thread::Threads;

/// The words of a line.
fn words(alloc: Global, line: &str) -> Result<Vec<String>, Fail> {
    let mut words = Vec::new(alloc);
    for word in line.split(' ') {
        words.push(String::from_str(alloc, word)?)?;
    }
    Ok(words)
}

/// Whether the words of this line end with a status, and print this text.
fn ends<R: RandomSource + Threads + Sync + AllocGlobal>(
    rt: &R,
    line: &str,
    status: u8,
    text: &str,
) -> Result<bool, Fail> {
    let alloc = rt.alloc();
    let words = words(alloc, line)?;
    let mut sink = MemorySink::new(alloc, Vec::new(alloc));
    let outcome = run_generate(rt, alloc, &words, &mut sink);
    Ok(outcome.status == status && sink.bytes() == text.as_bytes())
}

#[test]
fn jobs_end_as_worked(rt: HostRuntime) -> Result<(), Fail> {
    let cases = [
        (
            "generate 7 4 6",
            "generated 4 6\nsize 11\nroot e994d3527b8bdfbcfb1bce588ea301367768e1caf60ce6ddb181d80f175ef915\n",
        ),
        (
            "generate 1 2 1",
            "generated 2 1\nsize 7\nroot daa3a78d8062f6c473ff45a8d8c8ca57b6009367239bd4cbae5d8a003c17a66c\n",
        ),
        (
            "generate 1000000 2 1 --workers 1",
            "generated 2 1\nsize 7\nroot d4da3cdc4c51d41f206b36f4e6379c528212352b74984cc90d7746bcd9023ff3\n",
        ),
        (
            "generate 18446744073709551615 3 10 --workers 64",
            "generated 3 10\nsize 9\nroot 9177d7be642805c791d49ef56b57fbb92fc99c67a57c0b8e95a59e41a23bca32\n",
        ),
    ];
    for (line, text) in cases {
        assert!(rt; ends(&rt, line, 0, text)?, "{line}");
    }
    Ok(())
}

#[test]
fn a_large_job_ends_as_worked(rt: HostRuntime) -> Result<(), Fail> {
    let text =
        "generated 20000 100000\nsize 40003\nroot 381e7390553da1fa735831b7fef2a06bc81573bf9f5669b54f1073e789aecfb5\n";
    assert!(rt; ends(&rt, "generate 1 20000 100000 --workers 8", 0, text)?);
    Ok(())
}

#[test]
fn other_words_are_no_form(rt: HostRuntime) -> Result<(), Fail> {
    let lines = [
        "",
        "generate",
        "local 7 4 6",
        "generate 7 4",
        "generate 7 4 6 8",
        "generate 07 4 6",
        "generate 18446744073709551616 4 6",
        "generate 7 1 6",
        "generate 7 20001 6",
        "generate 7 4 0",
        "generate 7 4 100001",
        "generate 7 4 6 --workers",
        "generate 7 4 6 --workers 0",
        "generate 7 4 6 --workers 65",
        "generate 7 4 6 --worker 2",
        "generate 7 4 6 --workers 2 --workers 2",
        "generate --workers 2 7 4 6",
    ];
    for line in lines {
        assert!(rt; ends(&rt, line, 2, "error usage\n")?, "{line}");
    }
    Ok(())
}

#[test]
fn a_failed_write_has_its_status(rt: HostRuntime) -> Result<(), Fail> {
    let alloc = rt.alloc();
    let words = words(alloc, "generate 7 4 6")?;
    let mut sink = MemorySink::new(alloc, [0u64].to_vec(alloc)?);
    let outcome = run_generate(&rt, alloc, &words, &mut sink);
    assert_eq!(rt; outcome.status, 10);
    assert_eq!(rt; sink.bytes().len(), 0);
    Ok(())
}
