//! Syncs over tapes in memory. What peers answer and the roots are those of vectors/sync.py.
use ledger_codec::MemorySink;
use std::alloc::Global;
use std::test::Fail;
use sync_dial::MemoryDialer;
use sync_program::run_sync;
use sync_server::TapeLink;

mod promised;
mod served;
mod vectors;

use vectors::*;

/// The words of a line.
fn words_of(alloc: Global, line: &str) -> Result<Vec<String>, Fail> {
    let mut words = Vec::new(alloc);
    for word in line.split(' ') {
        words.push(String::from_str(alloc, word)?)?;
    }
    Ok(words)
}

/// Whether the words of a line end with a status over a peer that answers these bytes, and print this text.
fn ends(alloc: Global, line: &str, answers: &[u8], status: u8, text: &str) -> Result<bool, Fail> {
    let words = words_of(alloc, line)?;
    let bytes = answers.to_vec(alloc)?;
    let link = TapeLink::new(alloc, bytes, Vec::new(alloc), Vec::new(alloc));
    let mut dialer = MemoryDialer::new(link, false);
    let mut sink = MemorySink::new(alloc, Vec::new(alloc));
    let outcome = run_sync(alloc, &words, &mut dialer, &mut sink);
    let has_fault = status == 7 || status == 8;
    Ok(
        outcome.status == status
            && outcome.fault.is_some() == has_fault
            && sink.bytes() == text.as_bytes(),
    )
}

/// The lines of the log of the family any, from this start on.
const WHOLE_ANY: &str = "synced any full\nstart 0\nsize 5\nfloor 2\nroot \
     55e175a7f6298d7a71a57b26c0629f83e08815a086126ecff8e148186f67b8b0\n";

const LATER_CURRENT: &str = "synced current full\nstart 2\nsize 5\nfloor 2\nroot \
     55e175a7f6298d7a71a57b26c0629f83e08815a086126ecff8e148186f67b8b0\n";

const FULL_IMMUTABLE: &str = "synced immutable full\nstart 1\nsize 3\nfloor 1\nroot \
     751e06757b863c95897dd420982a2793dd6a041eff780c13f9a9fccfafe8bb84\n";

const FULL_KEYLESS: &str = "synced keyless full\nstart 1\nsize 3\nfloor 1\nroot \
     054eaeee0cb33164ff218c82c1027154ed2c00e045e9b4ebfb830819d5557e27\n";

const SMALL_IMMUTABLE: &str = "synced immutable compact\nsize 3\nfloor 1\nroot \
     751e06757b863c95897dd420982a2793dd6a041eff780c13f9a9fccfafe8bb84\n";

const SMALL_KEYLESS: &str = "synced keyless compact\nsize 3\nfloor 1\nroot \
     054eaeee0cb33164ff218c82c1027154ed2c00e045e9b4ebfb830819d5557e27\n";

#[test]
fn logs_of_each_family_are_synced(rt: HostRuntime) -> Result<(), Fail> {
    let cases = [
        ("sync x", ANY.as_slice(), WHOLE_ANY),
        (
            "sync x --family current --batch-size 3",
            ANY_FROM_2.as_slice(),
            LATER_CURRENT,
        ),
        (
            "sync x --family immutable",
            IMMUTABLE.as_slice(),
            FULL_IMMUTABLE,
        ),
        ("sync x --family keyless", KEYLESS.as_slice(), FULL_KEYLESS),
        (
            "sync x --family immutable --mode compact",
            COMPACT_IMMUTABLE.as_slice(),
            SMALL_IMMUTABLE,
        ),
        (
            "sync x --mode compact --family keyless",
            COMPACT_KEYLESS.as_slice(),
            SMALL_KEYLESS,
        ),
    ];
    for (line, answers, text) in cases {
        assert!(rt; ends(rt.alloc(), line, answers, 0, text)?, "{line}");
    }
    Ok(())
}

#[test]
fn faults_have_their_statuses_and_lines(rt: HostRuntime) -> Result<(), Fail> {
    let compact = "sync x --mode compact --family keyless";
    let cases = [
        ("sync", ANY.as_slice(), 2, "error usage\n"),
        ("sync x --mode compact", ANY.as_slice(), 2, "error usage\n"),
        ("sync x", [].as_slice(), 7, "error closed\n"),
        ("sync x", &ANY[..60], 7, "error closed\n"),
        ("sync x", NO_MESSAGE.as_slice(), 7, "error response\n"),
        (
            "sync x",
            COMPACT_KEYLESS.as_slice(),
            7,
            "error unexpected 1\n",
        ),
        ("sync x", REFUSAL.as_slice(), 7, "error server 3 no\n"),
        (compact, REFUSAL.as_slice(), 7, "error server 3 no\n"),
        ("sync x", DAMAGED.as_slice(), 8, "error proof 2\n"),
        ("sync x", NO_LOG.as_slice(), 8, "error state\n"),
        (compact, OTHER_STATE.as_slice(), 8, "error state\n"),
    ];
    for (line, answers, status, text) in cases {
        assert!(rt;
            ends(rt.alloc(), line, answers, status, text)?,
            "{line}: {text}"
        );
    }
    Ok(())
}

#[test]
fn a_failed_dial_is_told(rt: HostRuntime) -> Result<(), Fail> {
    let alloc = rt.alloc();
    let words = words_of(alloc, "sync x")?;
    let tape = TapeLink::new(alloc, Vec::new(alloc), Vec::new(alloc), Vec::new(alloc));
    let mut dialer = MemoryDialer::new(tape, true);
    let mut sink = MemorySink::new(alloc, Vec::new(alloc));
    let outcome = run_sync(alloc, &words, &mut dialer, &mut sink);
    assert_eq!(rt; outcome.status, 6);
    assert!(rt; sink.bytes() == b"error dial\n".as_slice());
    Ok(())
}

#[test]
fn a_failed_write_is_told(rt: HostRuntime) -> Result<(), Fail> {
    let alloc = rt.alloc();
    let words = words_of(alloc, "sync x")?;
    let tape = TapeLink::new(alloc, ANY.to_vec(alloc)?, Vec::new(alloc), Vec::new(alloc));
    let mut dialer = MemoryDialer::new(tape, false);
    let mut failing = Vec::new(alloc);
    failing.push(2)?;
    let mut sink = MemorySink::new(alloc, failing);
    let outcome = run_sync(alloc, &words, &mut dialer, &mut sink);
    assert_eq!(rt; outcome.status, 10);
    assert!(rt; sink.bytes() == b"synced any".as_slice());
    Ok(())
}
