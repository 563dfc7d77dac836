//! The digests of a proof by a plain walk over leaf digests, with nothing kept: the law that a list's proofs
//! are measured by. It hashes every subtree anew, so nobody but a test calls it.
ghost use Rattle.std.specs.Prelude.{◌≡◌, ◌+◌, ◌-◌, ◌≤◌, ◌^◌, ◌++◌, [], length, IfOk};
ghost use Rattle.ledger_merkle.specs.Levels.{tree, outside_of, proof_digests};

use crate::Hasher;
use crate::hashed::hash_node;
use crate::merkle_list::{index_of, lies_outside, place_of};
use crate::range::width_of;
use ledger_codec::{Digest, OutOfMemory};
use std::alloc::Global;

/// The digests that prove the leaves from `start` to before `end` in the tree of all these leaves.
pub fn plain_digests<H: Hasher>(
    alloc: Global,
    leaves: &[Digest],
    start: u64,
    end: u64,
) -> Result<Vec<Digest>, OutOfMemory>
    requires order { start ≤ end }
    requires most { length leaves.now ≤ 2 ^ 62 }
    ensures { IfOk result (λ digests. digests.items
        ≡ proof_digests H.digest (record { front = 0; pinned = []; leaves = leaves.now })
        (length leaves.now) start (end - start)) }
{
    let size = leaves.len() as u64;
    let mut digests = Vec::new(alloc);
    let mut height = 63;
    while height > 0 {
        height -= 1;
        let index = index_of(size, height);
        if index % 2 == 1 {
            let at = place_of(height, index - 1);
            add_plain::<H>(&mut digests, leaves, start, end, height, at)?;
        }
    }
    Ok(digests)
}

/// Appends the digests of a proof within the subtree of this height over the leaves from `at` on.
fn add_plain<H: Hasher>(
    digests: &mut Vec<Digest>,
    leaves: &[Digest],
    start: u64,
    end: u64,
    height: u32,
    at: u64,
) -> Result<(), OutOfMemory>
    requires high { height ≤ 62 }
    requires within { at + 2 ^ height ≤ length leaves.now }
    requires most { length leaves.now ≤ 2 ^ 62 }
    ensures { IfOk result (λ _. digests.new.items ≡ digests.old.items
        ++ outside_of (tree H.digest [] 0 leaves.now) start end height at) }
{
    if lies_outside(start, end, height, at) {
        digests.push(plain_node::<H>(leaves, height, at))?;
        return Ok(());
    }
    if height == 0 {
        return Ok(());
    }
    let below = height - 1;
    add_plain::<H>(digests, leaves, start, end, below, at)?;
    add_plain::<H>(digests, leaves, start, end, below, at + width_of(below))?;
    Ok(())
}

/// The perfect subtree of this height over the leaves from `at` on.
fn plain_node<H: Hasher>(leaves: &[Digest], height: u32, at: u64) -> Digest
    requires high { height ≤ 62 }
    requires within { at + 2 ^ height ≤ length leaves.now }
    ensures { result ≡ tree H.digest [] 0 leaves.now height at }
{
    if height == 0 {
        return leaves[at as usize];
    }
    let below = height - 1;
    let left = plain_node::<H>(leaves, below, at);
    let right = plain_node::<H>(leaves, below, at + width_of(below));
    hash_node::<H>(&left, &right)
}
