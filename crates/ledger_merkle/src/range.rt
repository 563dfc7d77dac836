//! Deciding a proof of a range.
ghost use Rattle.std.specs.Prelude.{◌≡◌, ◌≢◌, ◌+◌, ◌<◌, ◌≤◌, ◌^◌, ◌⊎◌, ◌↔◌, length, map, IsOk};
ghost use Rattle.ledger_merkle.specs.Range.{subtree, subtree_needs, needed, range_root, RangeOk};

use crate::hashed::{hash_item, hash_node};
use crate::{Hasher, Leaf, Location, Proof};
use ledger_codec::Digest;
use thiserror::Error;

/// Why a proof of a range doesn't hold.
#[derive(Debug, Drop, Error)]
pub enum RangeFault {
    /// The proof is for another size, or has inactive peaks.
    #[error("proof for {} leaves with {inactive} inactive peaks", .found.get())]
    WrongSize { found: Location, inactive: u64 },
    /// The number of digests is wrong.
    #[error("proof without the {needed} digests that its range needs")]
    Count { needed: usize },
    /// The proof gives another root.
    #[error("proof of another root")]
    Root { found: Digest },
}

/// The number of leaves of a subtree of this height.
pub fn width_of(height: u32) -> u64
    requires { height ≤ 62 }
    ensures width { result ≡ 2 ^ height }
    ensures most { result ≤ 2 ^ 62 }
{
    1 << height
}

/// How many digests the subtree of this height at this place takes.
fn subtree_count(start: u64, end: u64, height: u32, at: u64) -> usize
    requires high { height ≤ 62 }
    requires room { at + 2 ^ height ≤ 2 ^ 62 }
    ensures count { result ≡ subtree_needs start end height at }
    ensures most { result ≤ 2 ^ height }
{
    let width = width_of(height);
    if at + width <= start || end <= at {
        return 1;
    }
    if height == 0 {
        return 0;
    }
    let half = width_of(height - 1);
    subtree_count(start, end, height - 1, at) + subtree_count(start, end, height - 1, at + half)
}

/// The digest of the subtree of this height at this place, and how many digests it takes.
fn subtree_digest<H: Hasher, T: Leaf>(
    start: u64,
    items: &[T],
    digests: &[Digest],
    height: u32,
    at: u64,
) -> (Digest, usize)
    requires high { height ≤ 62 }
    requires room { at + 2 ^ height ≤ 2 ^ 62 }
    requires items { start + length items.now ≤ 2 ^ 62 }
    requires enough { subtree_needs start (start + length items.now) height at ≤ length digests.now }
    ensures digest { result.0 ≡ subtree H.digest start (start + length items.now) (map T.spelling items.now)
        height at digests.now }
    ensures used { result.1 ≡ subtree_needs start (start + length items.now) height at }
{
    let width = width_of(height);
    let end = start + items.len() as u64;
    if at + width <= start || end <= at {
        return (digests[0], 1);
    }
    if height == 0 {
        let location = Location::ZERO.plus(at);
        return (
            hash_item::<H, T>(location, &items[(at - start) as usize]),
            0,
        );
    }
    let half = width_of(height - 1);
    let (left, used) = subtree_digest::<H, T>(start, items, digests, height - 1, at);
    let (right, more) = subtree_digest::<H, T>(
        start,
        items,
        &digests[used..],
        height - 1,
        at + half,
    );
    (hash_node::<H>(&left, &right), used + more)
}

/// How many digests prove `count` leaves from `start` on in a tree of `size` leaves.
fn digests_needed(size: u64, start: u64, count: u64) -> usize
    requires within { start + count ≤ size }
    requires most { size ≤ 2 ^ 62 }
    ensures { result ≡ needed size start count }
{
    let end = start + count;
    let mut needed = 0;
    let mut at = 0;
    let mut height = 63;
    while height > 0 {
        height -= 1;
        let width = width_of(height);
        if size / width % 2 == 1 {
            needed += subtree_count(start, end, height, at);
            at += width;
        }
    }
    needed
}

/// The root that these digests give with the items at `start`.
fn root_of_range<H: Hasher, T: Leaf>(
    size: u64,
    start: u64,
    items: &[T],
    digests: &[Digest],
) -> Digest
    requires within { start + length items.now ≤ size }
    requires most { size ≤ 2 ^ 62 }
    requires enough { needed size start (length items.now) ≤ length digests.now }
    ensures { result ≡ range_root H.digest size start (map T.spelling items.now) digests.now }
{
    let mut hasher = H::new();
    hasher.update(&[2]);
    hasher.update(&size.to_be_bytes());
    let mut used = 0;
    let mut at = 0;
    let mut height = 63;
    while height > 0 {
        height -= 1;
        let width = width_of(height);
        if size / width % 2 == 1 {
            let (peak, more) = subtree_digest::<H, T>(start, items, &digests[used..], height, at);
            hasher.update(&peak);
            used += more;
            at += width;
        }
    }
    hasher.finish()
}

/// Tests that the items are the leaves from `start` on of the tree of `size` leaves with this root.
#[tactic(auto, using(crate::proofs::Ranges::range_steps))]
pub fn check_range<H: Hasher, T: Leaf>(
    root: &Digest,
    proof: &Proof,
    size: Location,
    start: Location,
    items: &[T],
) -> Result<(), RangeFault>
    requires some { 0 < length items.now }
    requires within { start + length items.now ≤ size }
    ensures wrong_size { ((proof.now.leaves ≢ size) ⊎ (proof.now.inactive_peaks ≢ 0))
        → result ≡ Err (RangeFault.WrongSize proof.now.leaves proof.now.inactive_peaks) }
    ensures count { proof.now.leaves ≡ size → proof.now.inactive_peaks ≡ 0
        → length proof.now.digests ≢ needed size start (length items.now)
        → result ≡ Err (RangeFault.Count (needed size start (length items.now))) }
    ensures root { proof.now.leaves ≡ size → proof.now.inactive_peaks ≡ 0
        → length proof.now.digests ≡ needed size start (length items.now)
        → range_root H.digest size start (map T.spelling items.now) proof.now.digests ≢ root.now
        → result ≡ Err (RangeFault.Root (range_root H.digest size start (map T.spelling items.now)
        proof.now.digests)) }
    ensures ok { IsOk result ↔ RangeOk H.digest root.now proof.now.leaves proof.now.inactive_peaks
        proof.now.digests size start (map T.spelling items.now) }
{
    if proof.leaves != size || proof.inactive_peaks != 0 {
        return Err(RangeFault::WrongSize {
            found: proof.leaves,
            inactive: proof.inactive_peaks,
        });
    }
    let digests = proof.digests.as_slice();
    let needed = digests_needed(size.get(), start.get(), items.len() as u64);
    if digests.len() != needed {
        return Err(RangeFault::Count { needed });
    }
    let found = root_of_range::<H, T>(size.get(), start.get(), items, digests);
    if found != *root {
        return Err(RangeFault::Root { found });
    }
    Ok(())
}
