//! Runs of `serve` over links in memory. What is sent is that of vectors/replies.py.
mod calm;

use ledger_codec::{MemorySink, MemorySource};
use ledger_serve::{ServeOutcome, run_serve};
use session_spawner::CallerSpawner;
use std::alloc::Global;
use std::sync::{Arc, Mutex, Wait};
use std::test::Fail;
use std::thread::Threads;
use sync_dial::ListListener;
use sync_net::{Link, LinkError};
use sync_sessions::OpenGate;

/// A link that asks one thing, and puts what it is sent behind what others were sent.
#[derive(Drop)]
struct Asking<R: Wait> {
    rt: R,
    asked: &'static [u8],
    at: usize,
    sent: Arc<Mutex<Vec<u8>>, Global>,
}

impl<R: Wait> Link for Asking<R> {
    ghost use Rattle.std.specs.Prelude.{None, false};

    ghost faults = { λ _. 0 };

    ghost exact = { false };

    ghost steady = { λ _. ⊥ };

    ghost wire = { λ _. None };

    ghost service = { λ _. None };

    fn send(&mut self, bytes: &[u8]) -> Result<(), LinkError> {
        match self.sent.lock(&self.rt).extend_from_slice(bytes) {
            Ok(()) => Ok(()),
            Err(_) => Err(LinkError::OutOfMemory),
        }
    }

    fn recv(&mut self, buffer: &mut [u8]) -> Result<usize, LinkError> {
        if self.at < self.asked.len() && buffer.len() > 0 {
            buffer[0] = self.asked[self.at];
            self.at += 1;
            Ok(1)
        } else {
            Ok(0)
        }
    }
}

/// A request for the target under the number 9.
const TARGET: [u8; 10] = [9, 2, 0, 0, 0, 0, 0, 0, 0, 9];

/// A request for the compact target under the number 9.
const COMPACT: [u8; 10] = [9, 4, 0, 0, 0, 0, 0, 0, 0, 9];

/// What a run is given beside its words.
#[derive(Clone, Copy)]
struct Given {
    job: &'static str,
    links: usize,
    asked: &'static [u8],
    failing_reads: &'static [u64],
    failing_writes: &'static [u64],
}

/// No job, and so many links that ask for the target.
const fn links(links: usize) -> Given {
    Given {
        job: "",
        links,
        asked: &TARGET,
        failing_reads: &[],
        failing_writes: &[],
    }
}

/// The words of a line.
fn words_of(alloc: Global, line: &str) -> Result<Vec<String>, Fail> {
    let mut words = Vec::new(alloc);
    for word in line.split(' ') {
        words.push(String::from_str(alloc, word)?)?;
    }
    Ok(words)
}

/// Whether a run ends like this, with these bytes written, and these sent over its links.
fn ends<R: Threads + Wait + Copy + Send + 'static>(
    rt: &R,
    alloc: Global,
    line: &str,
    given: Given,
    want: (u8, Option<u64>, &str),
    sent: &[u8],
) -> Result<bool, Fail> {
    let words = words_of(alloc, line)?;
    let all = Arc::new(alloc, Mutex::new(Vec::new(alloc)))?;
    let mut list = Vec::new(alloc);
    for _ in 0..given.links {
        list.push(Asking {
            rt: *rt,
            asked: given.asked,
            at: 0,
            sent: Arc::try_clone(&all)?,
        })?;
    }
    let mut job = MemorySource::new(
        given.job.as_bytes().to_vec(alloc)?,
        given.failing_reads.to_vec(alloc)?,
    );
    let mut listener = ListListener::new(list);
    let mut spawner = CallerSpawner::new();
    let gate = Arc::new(alloc, OpenGate)?;
    let mut out = MemorySink::new(alloc, given.failing_writes.to_vec(alloc)?);
    let outcome = run_serve(
        rt,
        alloc,
        &words,
        &mut job,
        &mut listener,
        &mut spawner,
        &gate,
        &mut out,
    );
    let told = all.lock(rt);
    Ok(
        outcome
            == ServeOutcome {
                status: want.0,
                line: want.1,
            }
            && *out.bytes() == *want.2.as_bytes()
            && told.as_slice() == sent,
    )
}

/// The targets of two connections, with a batch before each: they end at 11 and 15.
const GROWING: [u8; 88] = [
    43, 3, 0, 0, 0, 0, 0, 0, 0, 9, 241, 171, 40, 180, 31, 205, 102, 180, 0, 158, 108, 170, 40, 101,
    158, 124, 103, 163, 54, 231, 146, 139, 149, 75, 188, 101, 218, 158, 93, 167, 191, 42, 0, 11,
    43, 3, 0, 0, 0, 0, 0, 0, 0, 9, 216, 119, 108, 10, 172, 105, 131, 211, 109, 111, 20, 169, 146,
    240, 44, 201, 23, 179, 114, 180, 103, 174, 26, 108, 81, 237, 242, 221, 116, 37, 127, 96, 0, 15,
];

/// The target of the log that a job of one account serves.
const JOB: [u8; 44] = [
    43, 3, 0, 0, 0, 0, 0, 0, 0, 9, 173, 222, 93, 224, 10, 139, 72, 249, 152, 13, 133, 174, 74, 186,
    63, 134, 3, 145, 105, 133, 17, 50, 229, 253, 81, 246, 248, 14, 244, 148, 131, 187, 0, 3,
];

/// The compact target of a log of the family keyless.
const KEPT: [u8; 43] = [
    42, 5, 0, 0, 0, 0, 0, 0, 0, 9, 237, 11, 61, 164, 186, 196, 255, 83, 218, 63, 236, 251, 71, 2,
    81, 58, 83, 101, 64, 124, 14, 122, 144, 95, 240, 62, 101, 71, 234, 141, 88, 80, 15,
];

#[test]
fn each_session_sees_its_batch(rt: HostRuntime) -> Result<(), Fail> {
    let line = "serve --initial-ops 5 --connections 2 --ops-per-connection 3";
    let want = (0, None, "listening\nsessions 2\n");
    assert!(rt; ends(&rt, rt.alloc(), line, links(2), want, &GROWING)?);
    Ok(())
}

#[test]
fn a_job_is_served(rt: HostRuntime) -> Result<(), Fail> {
    let given = Given {
        job: "# one account\nopen alice 100 7\n",
        ..links(1)
    };
    let want = (0, None, "listening\nsessions 1\n");
    assert!(rt; ends(&rt, rt.alloc(), "serve --source job", given, want, &JOB)?);
    Ok(())
}

#[test]
fn compact_targets_are_served(rt: HostRuntime) -> Result<(), Fail> {
    let given = Given {
        asked: &COMPACT,
        ..links(1)
    };
    let want = (0, None, "listening\nsessions 1\n");
    let full = "serve --mode compact --family keyless --initial-ops 12 --seed 42";
    assert!(rt; ends(&rt, rt.alloc(), full, given, want, &KEPT)?);
    let compact =
        "serve --mode compact --family keyless --initial-ops 12 --seed 42 --storage compact";
    assert!(rt; ends(&rt, rt.alloc(), compact, given, want, &KEPT)?);
    Ok(())
}

#[test]
fn faults_have_their_lines(rt: HostRuntime) -> Result<(), Fail> {
    let one = links(1);
    let bad = Given {
        job: "open a 1 0\nbody\n",
        ..one
    };
    let unread = Given {
        failing_reads: &[0],
        ..one
    };
    let unwritten = Given {
        failing_writes: &[0],
        ..one
    };
    let none = links(0);
    let cases = [
        (
            "serve --connections 8 --ops-per-connection 1",
            one,
            (2, None, "error usage\n"),
        ),
        (
            "serve --source job",
            bad,
            (3, Some(2), "error job line 2\n"),
        ),
        ("serve --source job", unread, (4, None, "error job read\n")),
        (
            "serve --initial-ops 1",
            none,
            (6, None, "listening\nerror dial\n"),
        ),
        ("serve --initial-ops 1", unwritten, (10, None, "")),
    ];
    for (line, given, want) in cases {
        assert!(rt; ends(&rt, rt.alloc(), line, given, want, &[])?, "{line}");
    }
    Ok(())
}
