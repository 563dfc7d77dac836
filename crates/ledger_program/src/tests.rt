//! Runs over jobs in memory. Roots and texts are those of tests/reference.py.
use super::*;
use crate::error_line::error_line;
use crate::outcome::status_of;
use crate::reading::{ReadFault, read_all};
use ledger_codec::{MemorySink, MemorySource, Sink, SinkError, Text};
use ledger_merkle::Location;
use std::process::Abort;
use std::random::RandomSource;
use std::test::Fail;
use std::thread::Threads;
use sync_net::{DialFailed, Dialer, ErrorCode, Link, LinkError};

mod options;
mod rounds;

/// A dialer that is never called.
#[derive(Drop)]
struct Nowhere;

impl Link for Nowhere {
    ghost use Rattle.std.specs.Prelude.{◌^◌, None, false};

    ghost faults = { λ _. 2 ^ 64 };

    ghost exact = { false };

    ghost steady = { λ _. ⊥ };

    ghost wire = { λ _. None };

    ghost service = { λ _. None };

    fn send(&mut self, _bytes: &[u8]) -> Result<(), LinkError> {
        Err(LinkError::Failed)
    }

    fn recv(&mut self, _buffer: &mut [u8]) -> Result<usize, LinkError> {
        Err(LinkError::Failed)
    }
}

impl Dialer for Nowhere {
    ghost use Rattle.std.specs.Prelude.{◌^◌};

    ghost dials = { λ _. 2 ^ 64 };

    fn dial(&mut self, _address: &str) -> Result<(), DialFailed> {
        Err(DialFailed)
    }
}

/// A sink that takes the first byte of each piece alone.
#[derive(Drop)]
struct ByteByByte {
    bytes: Vec<u8>,
}

impl Sink for ByteByByte {
    ghost use Rattle.std.specs.Prelude.{Some, true};

    ghost written = { λ s. Some s.bytes.items };

    ghost faults = { λ _. 0 };

    ghost grows = { true };

    fn write(&mut self, bytes: &[u8]) -> Result<usize, SinkError> {
        let Some(first) = bytes.first() else {
            return Ok(0);
        };
        match self.bytes.push(*first) {
            Ok(()) => Ok(1),
            Err(_) => Err(SinkError::OutOfMemory),
        }
    }
}

/// The status of `local` over a job, and what it printed.
fn local<R: RandomSource + Threads + Sync + AllocGlobal>(
    rt: &R,
    job: &str,
    failing_reads: &[u64],
    failing_writes: &[u64],
    printed: &mut String,
) -> Result<u8, Fail> {
    let alloc = rt.alloc();
    let mut words = Vec::new(alloc);
    words.push(String::from_str(alloc, "local")?)?;
    let bytes = job.as_bytes().to_vec(alloc)?;
    let mut source = MemorySource::new(bytes, failing_reads.to_vec(alloc)?);
    let mut sink = MemorySink::new(alloc, failing_writes.to_vec(alloc)?);
    let outcome = run(rt, alloc, &words, &mut source, &mut Nowhere, &mut sink);
    printed.push_str(std::str::from_utf8(sink.bytes())?)?;
    Ok(outcome.status)
}

const FIRST: &str = "open alice 10 0\nbody\npay alice bob 6 0\n";

#[test]
fn a_body_settles(rt: HostRuntime) -> Result<(), Fail> {
    let mut printed = String::new(rt.alloc());
    let status = local(&rt, FIRST, &[], &[], &mut printed)?;
    assert_eq!(rt; status, 0);
    assert_eq!(rt;
        printed.as_str(),
        "synced 0 3\nblock 0 body\naccount alice 4 1\naccount bob 6 0\nsize 6\nroot 1a1e2649c723f287b24a0babda0bf74d3d758d02f61405f7d9cd3875542e23de\n"
    );
    Ok(())
}

#[test]
fn an_empty_job_is_reported(rt: HostRuntime) -> Result<(), Fail> {
    let mut printed = String::new(rt.alloc());
    let status = local(&rt, "", &[], &[], &mut printed)?;
    assert_eq!(rt; status, 0);
    assert_eq!(rt;
        printed.as_str(),
        "synced 0 2\nsize 2\nroot 0ec7dfecfdb7a88afb2baaed4c7fadecd6f71374a6b102ad7b367d8e9f656b03\n"
    );
    Ok(())
}

#[test]
fn a_failed_read_has_its_status(rt: HostRuntime) -> Result<(), Fail> {
    let mut printed = String::new(rt.alloc());
    let status = local(&rt, FIRST, &[0], &[], &mut printed)?;
    assert_eq!(rt; status, 4);
    assert_eq!(rt; printed.as_str(), "error job read\n");
    Ok(())
}

#[test]
fn a_failed_write_has_its_status(rt: HostRuntime) -> Result<(), Fail> {
    let mut printed = String::new(rt.alloc());
    let status = local(&rt, FIRST, &[], &[0], &mut printed)?;
    assert_eq!(rt; status, 10);
    assert_eq!(rt; printed.as_str(), "");
    Ok(())
}

#[test]
fn a_body_that_costs_too_much_is_named(rt: HostRuntime) -> Result<(), Fail> {
    let mut printed = String::new(rt.alloc());
    let status = local(
        &rt,
        "open alice 10 0\nbody\npay alice bob 11 0\n",
        &[],
        &[],
        &mut printed,
    )?;
    assert_eq!(rt; status, 9);
    assert_eq!(rt; printed.as_str(), "error insufficient 0 alice\n");
    Ok(())
}

#[test]
fn the_least_offending_line_is_named(rt: HostRuntime) -> Result<(), Fail> {
    let jobs = [
        ("open alice 10\n", "error job line 1\n"),
        ("pay a b 1 0\n", "error job line 1\n"),
        ("limits 0 1\n", "error job line 1\n"),
        (
            "# a comment\n\nopen a 007 0\nopen b\n",
            "error job line 3\n",
        ),
    ];
    for (job, line) in jobs {
        let mut printed = String::new(rt.alloc());
        let status = local(&rt, job, &[], &[], &mut printed)?;
        assert_eq!(rt; status, 3);
        assert_eq!(rt; printed.as_str(), line);
    }
    Ok(())
}

#[test]
fn a_sink_that_takes_one_byte_at_a_time_gets_the_same_text(rt: HostRuntime) -> Result<(), Fail> {
    let alloc = rt.alloc();
    let mut words = Vec::new(alloc);
    words.push(String::from_str(alloc, "local")?)?;
    let mut source = MemorySource::new(FIRST.as_bytes().to_vec(alloc)?, Vec::new(alloc));
    let mut sink = ByteByByte {
        bytes: Vec::new(alloc),
    };
    let outcome = run(&rt, alloc, &words, &mut source, &mut Nowhere, &mut sink);
    let mut whole = String::new(alloc);
    let status = local(&rt, FIRST, &[], &[], &mut whole)?;
    assert_eq!(rt; outcome.status, 0);
    assert_eq!(rt; status, 0);
    assert!(rt; sink.bytes.as_slice() == whole.as_bytes());
    Ok(())
}

#[test]
fn each_read_can_fail_in_turn(rt: HostRuntime) -> Result<(), Fail> {
    for (failing, status) in [(0, 4), (1, 4), (2, 0)] {
        let mut printed = String::new(rt.alloc());
        assert_eq!(rt; local(&rt, FIRST, &[failing], &[], &mut printed)?, status);
    }
    Ok(())
}

#[test]
fn each_write_can_fail_in_turn(rt: HostRuntime) -> Result<(), Fail> {
    for (failing, status) in [(0, 10), (1, 0)] {
        let mut printed = String::new(rt.alloc());
        assert_eq!(rt; local(&rt, FIRST, &[], &[failing], &mut printed)?, status);
    }
    Ok(())
}

/// Whether a source of `held` bytes is read to its end with a limit of 5000.
fn fits<R: AllocGlobal + Abort>(rt: &R, held: usize) -> Result<bool, Fail> {
    let alloc = rt.alloc();
    let mut bytes = Vec::new(alloc);
    for _ in 0..held {
        bytes.push(b'a')?;
    }
    let mut source = MemorySource::new(bytes, Vec::new(alloc));
    match read_all(alloc, &mut source, 5000) {
        Ok(read) => Ok(read.len() == held),
        Err(fault) => {
            assert_eq!(rt; fault, ReadFault::TooLarge);
            Ok(false)
        }
    }
}

#[test]
fn a_source_is_read_up_to_the_limit(rt: HostRuntime) -> Result<(), Fail> {
    for (held, read) in [
        (0, true),
        (4096, true),
        (5000, true),
        (5001, false),
        (9000, false),
    ] {
        assert_eq!(rt; fits(&rt, held)?, read);
    }
    Ok(())
}

/// Checks the status and the line of a fault of following a log.
fn prints<R: AllocGlobal + Abort>(
    rt: &R,
    fault: Fault,
    status: u8,
    line: &str,
) -> Result<(), Fail> {
    let fault = RunFault::Follow(fault);
    assert_eq!(rt; status_of(&fault), status);
    let alloc = rt.alloc();
    let mut sink = MemorySink::new(alloc, Vec::new(alloc));
    assert!(rt; error_line(&mut sink, &fault).is_ok());
    assert!(rt; sink.bytes() == line.as_bytes());
    Ok(())
}

#[test]
fn what_a_link_gave_has_its_line(rt: HostRuntime) -> Result<(), Fail> {
    prints(&rt, Fault::Network, 7, "error network\n")?;
    prints(&rt, Fault::RequestChannelClosed, 7, "error closed\n")?;
    prints(&rt, Fault::InvalidResponse, 7, "error response\n")?;
    prints(
        &rt,
        Fault::UnexpectedResponse { request_id: 12 },
        7,
        "error unexpected 12\n",
    )?;
    prints(&rt, Fault::TooManyStrays, 7, "error strays\n")
}

#[test]
fn what_is_not_proved_has_its_line(rt: HostRuntime) -> Result<(), Fail> {
    prints(
        &rt,
        Fault::InvalidProof { request_id: 3 },
        8,
        "error proof 3\n",
    )?;
    let found = [0xAB; 32];
    let line = "error root abababababababababababababababababababababababababababababababab\n";
    prints(&rt, Fault::WrongRoot { found }, 8, line)
}

#[test]
fn a_stale_target_has_its_line(rt: HostRuntime) -> Result<(), Fail> {
    let fault = Fault::StaleUpdate {
        start: Location::ZERO,
        end: Location::ZERO.plus(6),
    };
    prints(&rt, fault, 8, "error update 0 6\n")
}

#[test]
fn a_server_s_text_is_printed_safely(rt: HostRuntime) -> Result<(), Fail> {
    let code = ErrorCode::StaleTarget;
    let message = Text::from_string(String::from_str(rt.alloc(), "a~ \u{7f}\u{e9}\u{1F600}\n!")?);
    prints(
        &rt,
        Fault::Server { code, message },
        7,
        "error server 3 a~ ????!\n",
    )
}
