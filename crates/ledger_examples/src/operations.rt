//! Test operations: hashes of their numbers.
ghost use Rattle.std.specs.Prelude.{◌≡◌, ◌+◌, ◌<◌, ◌≤◌, ◌^◌, ◌++◌, IfOk, OnOk};
ghost use Rattle.ledger_examples.specs.Tests.{test_key, test_value, test_step, test_operations};

use crate::ExampleFamily;
use ledger_codec::{Digest, OutOfMemory};
use ledger_log::{Key, Value};
use ledger_merkle::{Hasher, Location, Sha256Hasher};
use std::alloc::Global;

/// The test operations of this count and seed, with a commit behind each tenth and behind all. `start` is the
/// floor of those commits whose floor doesn't move.
pub(crate) fn make_operations<F: ExampleFamily>(
    alloc: Global,
    count: usize,
    seed: u64,
    start: Location,
) -> Result<Vec<F::Op>, OutOfMemory>
    requires { count ≤ 2 ^ 32 }
    ensures { IfOk result (λ ops. ops.items ≡ test_operations F.test_of F.test_commit_of seed start count) }
{
    let mut ops = Vec::new(alloc);
    for number in 0..count as u64 {
        add_test::<F>(&mut ops, seed, start, number)?;
    }
    ops.push(F::test_commit(start, Location::ZERO.plus(count as u64), true))?;
    Ok(ops)
}

/// Appends the test operation of this number, and a commit behind each tenth.
fn add_test<F: ExampleFamily>(
    ops: &mut Vec<F::Op>,
    seed: u64,
    start: Location,
    number: u64,
) -> Result<(), OutOfMemory>
    requires { number < 2 ^ 32 }
    ensures { OnOk result (ops.new.items ≡ ops.old.items
        ++ test_step F.test_of F.test_commit_of seed start number) }
{
    let key = key_of(seed, number);
    ops.push(F::test(key, value_of(&key)))?;
    let next = number + 1;
    if next % 10 == 0 {
        ops.push(F::test_commit(start, Location::ZERO.plus(next), false))?;
    }
    Ok(())
}

/// The key of the test operation with this number.
fn key_of(seed: u64, number: u64) -> Key
    ensures { result ≡ test_key seed number }
{
    hash_both::<Sha256Hasher>(&number.to_be_bytes(), &seed.to_be_bytes())
}

/// The value of a test key.
#[tactic(auto, unfolding(crate::specs::Tests::test_value))]
fn value_of(key: &Key) -> Value
    ensures { result ≡ test_value key.now }
{
    hash_both::<Sha256Hasher>(key, b"value")
}

/// The digest of one list of bytes behind another.
fn hash_both<H: Hasher>(first: &[u8], second: &[u8]) -> Digest
    ensures { result ≡ H.digest (first.now ++ second.now) }
{
    let mut hasher = H::new();
    hasher.update(first);
    hasher.update(second);
    hasher.finish()
}
