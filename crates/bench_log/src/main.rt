//! Fills a log, proves ranges of it and drops it from the front, to be timed. Its words are five numbers: how many
//! operations are appended, how many a batch holds, how many ranges are proved, how many operations a range holds,
//! and in how many steps the log is pruned.
//!
//! ```text
//! words --> batches --append_batch--> Log --historical_proof--> check_range
//!                                      |                             |
//!                                      +--> size, root               +--> ranges that are right
//! ```
//!
//! What it prints depends on its words alone, so that two programs can be compared.
#![tactic(auto)]

ghost use Rattle.std.specs.Prelude.{◌≡◌, ◌+◌, ◌<◌, ◌≤◌, ◌↔◌, true, Err, length, map, IsTrue, IfOk, IsOkUnless, MatchOption};
ghost use Rattle.ledger_log.specs.Faults.{range_refusal};
ghost use Rattle.ledger_log.specs.Any.{any_spelling};
ghost use Rattle.ledger_log.specs.View.{log_size};
ghost use Rattle.ledger_merkle.specs.Range.{RangeOk};

#[cfg(test)]
mod tests;

use ledger_codec::Digest;
use ledger_log::{AnyFamily, AnyOp, Key, Log, LogFault};
use ledger_merkle::{Hasher, Location, Proof, Sha256Hasher, check_range};
use std::alloc::Global;
use std::env;
use std::num::NonZeroU64;
use std::process::ExitCode;
use std::rt::Env;

type AnyLog = Log<AnyFamily, Sha256Hasher>;

/// What is done. A word that is missing or no number is 0.
#[derive(Clone, Copy)]
struct Work {
    operations: u64,
    batch: u64,
    ranges: u64,
    span: u64,
    steps: u64,
}

/// The number that a word spells.
fn number(word: Option<String>) -> u64 {
    match word {
        Some(word) => word.parse::<u64>().unwrap_or(0),
        None => 0,
    }
}

/// The work that the words ask for.
fn read_work<R: Env + AllocGlobal>(rt: &R) -> Work {
    let Ok(args) = env::args(rt) else {
        return Work {
            operations: 0,
            batch: 0,
            ranges: 0,
            span: 0,
            steps: 0,
        };
    };
    let mut words = args.skip(1);
    Work {
        operations: number(words.next()),
        batch: number(words.next()),
        ranges: number(words.next()),
        span: number(words.next()),
        steps: number(words.next()),
    }
}

/// The key of this number.
fn key(number: u64) -> Key {
    let mut key = [0; 32];
    for (place, byte) in number.to_be_bytes().iter().enumerate() {
        key[place] = *byte;
    }
    key
}

/// So many operations: updates of keys from `first` on, and a commit.
fn batch_of(
    alloc: Global,
    first: u64,
    count: u64,
    floor: Location,
) -> Result<Vec<AnyOp>, LogFault> {
    let mut ops = Vec::new(alloc);
    for i in 1..count {
        let key = key(first.saturating_add(i));
        ops.push(AnyOp::Update(key, key))?;
    }
    ops.push(AnyOp::CommitFloor(None, floor))?;
    Ok(ops)
}

/// Appends the operations, batch by batch.
fn fill(alloc: Global, log: &mut AnyLog, work: Work) -> Result<(), LogFault> {
    if work.batch == 0 {
        return Ok(());
    }
    for i in 0..work.operations / work.batch {
        let first = i.saturating_mul(work.batch);
        let ops = batch_of(alloc, first, work.batch, log.floor())?;
        log.append_batch(ops.as_slice())?;
    }
    Ok(())
}

/// Whether these are the operations from `start` on of the log of this root and size, by this proof.
fn is_right<H: Hasher>(
    root: &Digest,
    proof: &Proof,
    size: Location,
    start: Location,
    ops: &[AnyOp],
) -> bool
    requires some { 0 < length ops.now }
    requires within { start + length ops.now ≤ size }
    ensures { IsTrue result
        ↔ RangeOk H.digest root.now proof.now.leaves proof.now.inactive_peaks proof.now.digests size start
        (map any_spelling ops.now) }
{
    check_range::<H, AnyOp>(root, proof, size, start, ops).is_ok()
}

/// Proves the range from this place on, and says whether the proof is right, as it always is.
fn prove_at(log: &AnyLog, start: Location, span: NonZeroU64) -> Result<bool, LogFault>
    requires { start < log_size log.now }
    ensures refusal { MatchOption (range_refusal log.now (log_size log.now) start)
        (IsOkUnless result LogFault.OutOfMemory) (λ fault. result ≡ Err fault) }
    ensures right { IfOk result (λ right. right ≡ true) }
{
    let size = log.size();
    let (proof, ops) = log.historical_proof(size, start, span)?;
    Ok(is_right::<Sha256Hasher>(&log.root(), &proof, size, start, ops.as_slice()))
}

/// Proves one of the ranges that are spread over the log, and says whether the proof is right.
fn prove_spread(log: &AnyLog, i: u64, span: NonZeroU64) -> Result<bool, LogFault> {
    let size = log.size().get();
    if size == 0 {
        return Ok(false);
    }
    match Location::new(i.wrapping_mul(7_919) % size) {
        Some(start) => prove_at(log, start, span),
        None => Ok(false),
    }
}

/// Proves so many ranges, and gives the number of those that are right.
fn prove_ranges(log: &AnyLog, work: Work) -> Result<u64, LogFault> {
    let Some(span) = NonZeroU64::new(work.span) else {
        return Ok(0);
    };
    let mut right = 0u64;
    for i in 0..work.ranges {
        if prove_spread(log, i, span)? {
            right = right.saturating_add(1);
        }
    }
    Ok(right)
}

/// Drops what stands before the last operation, in so many steps of one length.
fn prune_in(log: &mut AnyLog, steps: u64) -> Result<(), LogFault> {
    if steps == 0 {
        return Ok(());
    }
    let last = log.size().get().saturating_sub(1);
    let Some(floor) = Location::new(last) else {
        return Ok(());
    };
    log.append_batch(&[AnyOp::CommitFloor(None, floor)])?;
    for step in 1..=steps {
        if let Some(place) = Location::new((last / steps).saturating_mul(step)) {
            log.prune(place)?;
        }
    }
    Ok(())
}

/// Does the work, and prints what came of it.
fn measure<R: Print + AllocGlobal>(rt: &R, work: Work) -> Result<(), LogFault> {
    let alloc = rt.alloc();
    let mut log = AnyLog::fresh(alloc)?;
    fill(alloc, &mut log, work)?;
    let right = prove_ranges(&log, work)?;
    prune_in(&mut log, work.steps)?;
    let _ = println!(rt; "size {}", log.size().get());
    let _ = println!(rt; "right {right}");
    let _ = println!(rt; "root {}", hex::encode(alloc, log.root())?);
    Ok(())
}

fn main(rt: HostRuntime) -> ExitCode {
    match measure(&rt, read_work(&rt)) {
        Ok(()) => ExitCode::SUCCESS,
        Err(_) => ExitCode::FAILURE,
    }
}
