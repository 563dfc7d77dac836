//! Two different parts of one root hand out a collision of the digest function.
//!
//! The peaks of both parts grow side by side, leaf by leaf. Two different inputs of one digest are a collision, and
//! end the walk. While there are none, peaks that agree after a leaf agreed before it, and so did the leaf. So
//! parts that differ end in peaks that differ, and then the collision is what stands under the root.
//!
//! ```text
//! a.pinned --op--> peaks --op--> .. --> peaks --+
//!            =?              =?          =?     +--> root
//! b.pinned --op--> peaks --op--> .. --> peaks --+
//! ```
//!
//! Memory is taken for the two inputs alone, so equal parts take none.
ghost use Rattle.std.specs.Prelude.{ℕ, List, ◌≡◌, ◌≢◌, ◌+◌, ◌<◌, ◌≤◌, ◌^◌, ◌∷◌, ◌++◌, [], length, take, map, All, count_ones, MatchOption, IfOk, IfErr, OnOk, OnErr};
ghost use Rattle.std.specs.List.{concat};
ghost use Rattle.ledger_merkle.specs.Tree.{be64, leaf, node, root, push, part_root};
ghost use Rattle.ledger_merkle.specs.Collision.{Collides, Meets};

use crate::hashed::{hash_leaf, hash_node};
use crate::spine::Spine;
use crate::{Hasher, Leaf, Location, Part};
use ledger_codec::{Digest, OutOfMemory};
use std::alloc::Global;

/// What ends a walk over two parts before its end.
#[derive(Drop)]
enum Met {
    /// Two different inputs of one digest.
    Inputs(Vec<u8>, Vec<u8>),
    /// There was no memory for the inputs.
    OutOfMemory,
}

/// What two inputs of one digest come to.
fn inputs(one: Result<Vec<u8>, OutOfMemory>, other: Result<Vec<u8>, OutOfMemory>) -> Met
    ensures { (hash : List ℕ → List ℕ) → IfOk one (λ a. IfOk other (λ b. Collides hash a.items b.items))
        → Meets hash result }
{
    match (one, other) {
        (Ok(one), Ok(other)) => Met::Inputs(one, other),
        _ => Met::OutOfMemory,
    }
}

/// Two different lists of bytes with one digest, from two parts of one root, and None exactly where the parts are
/// equal. Whoever holds two accepted parts of one target calls it: either they hold the same, or they hold a
/// proof that the digest function is broken. Memory is taken for the two lists alone.
pub fn collision<H: Hasher, T: Leaf>(
    alloc: Global,
    a: &Part<T>,
    b: &Part<T>,
) -> Result<Option<(Vec<u8>, Vec<u8>)>, OutOfMemory>
    requires start { a.now.start ≡ b.now.start }
    requires count { length a.now.ops ≡ length b.now.ops }
    requires within { a.now.start + length a.now.ops ≤ 2 ^ 62 }
    requires nodes { (length a.now.pinned ≡ count_ones a.now.start)
        × (length b.now.pinned ≡ count_ones b.now.start) }
    requires root { part_root H.digest a.now.pinned a.now.start (map T.spelling a.now.ops)
        ≡ part_root H.digest b.now.pinned b.now.start (map T.spelling b.now.ops) }
    ensures none { IfOk result (λ met. MatchOption met (a.now ≡ b.now) (λ _. a.now ≢ b.now)) }
    ensures collides { IfOk result (λ met. MatchOption met (Unit {0})
        (λ pair. Collides H.digest pair.0.items pair.1.items)) }
    ensures memory { OnErr result (a.now ≢ b.now) }
{
    match walk::<H, T>(alloc, a, b) {
        Ok(()) => Ok(None),
        Err(Met::Inputs(one, other)) => Ok(Some((one, other))),
        Err(Met::OutOfMemory) => Err(OutOfMemory),
    }
}

/// Grows the peaks of both parts side by side: Ok exactly where the parts are equal.
fn walk<H: Hasher, T: Leaf>(alloc: Global, a: &Part<T>, b: &Part<T>) -> Result<(), Met>
    requires start { a.now.start ≡ b.now.start }
    requires count { length a.now.ops ≡ length b.now.ops }
    requires within { a.now.start + length a.now.ops ≤ 2 ^ 62 }
    requires nodes { (length a.now.pinned ≡ count_ones a.now.start)
        × (length b.now.pinned ≡ count_ones b.now.start) }
    requires root { part_root H.digest a.now.pinned a.now.start (map T.spelling a.now.ops)
        ≡ part_root H.digest b.now.pinned b.now.start (map T.spelling b.now.ops) }
    ensures ok { OnOk result (a.now ≡ b.now) }
    ensures met { IfErr result (Meets H.digest) }
    ensures differ { OnErr result (a.now ≢ b.now) }
{
    let mut left = Spine::of(a.pinned.as_slice());
    let mut right = Spine::of(b.pinned.as_slice());
    let (ones, others) = (a.ops.as_slice(), b.ops.as_slice());
    let mut at = a.start;
    for index in 0..ones.len() {
        let (one, other) = leaves_of::<H, T>(alloc, at, &ones[index], &others[index])?;
        push_both::<H>(alloc, at, &mut left, &mut right, one, other)?;
        at = at.plus(1);
    }
    if left.nodes() != right.nodes() {
        let input = root_input(alloc, at, left.nodes());
        return Err(inputs(input, root_input(alloc, at, right.nodes())));
    }
    Ok(())
}

/// The digests of two items as the leaf at one place.
fn leaves_of<H: Hasher, T: Leaf>(
    alloc: Global,
    at: Location,
    one: &T,
    other: &T,
) -> Result<(Digest, Digest), Met>
    ensures leaves { IfOk result (λ d. (d.0 ≡ leaf H.digest at (T.spelling one.now))
        × (d.1 ≡ leaf H.digest at (T.spelling other.now))) }
    ensures same { IfOk result (λ d. d.0 ≡ d.1 → one.now ≡ other.now) }
    ensures met { IfErr result (Meets H.digest) }
    ensures differ { OnErr result (one.now ≢ other.now) }
{
    let mut left = [0; 96];
    let len = one.leaf_bytes(&mut left);
    let left = &left[..len];
    let mut right = [0; 96];
    let len = other.leaf_bytes(&mut right);
    let right = &right[..len];
    let digests = (hash_leaf::<H>(at, left), hash_leaf::<H>(at, right));
    if digests.0 == digests.1 && left != right {
        let input = leaf_input(alloc, at, left);
        return Err(inputs(input, leaf_input(alloc, at, right)));
    }
    Ok(digests)
}

/// One leaf more on either side.
fn push_both<H: Hasher>(
    alloc: Global,
    size: Location,
    left: &mut Spine,
    right: &mut Spine,
    one: Digest,
    other: Digest,
) -> Result<(), Met>
    requires most { size < 2 ^ 62 }
    requires left { length left.old ≡ count_ones size }
    requires right { length right.old ≡ count_ones size }
    ensures left { OnOk result (left.new ≡ push H.digest size left.old one) }
    ensures right { OnOk result (right.new ≡ push H.digest size right.old other) }
    ensures same { OnOk result (left.new ≡ right.new → (left.old ≡ right.old) × (one ≡ other)) }
    ensures met { IfErr result (Meets H.digest) }
    ensures differ { OnErr result (left.old ≡ right.old → one ≢ other) }
{
    let (kept, one, other) = join_both::<H>(
        alloc,
        size.get(),
        left.nodes(),
        right.nodes(),
        one,
        other,
    )?;
    left.replace_tail(kept, one);
    right.replace_tail(kept, other);
    Ok(())
}

/// How many peaks stay as they are under a new leaf, and the peak behind them on either side.
fn join_both<H: Hasher>(
    alloc: Global,
    size: u64,
    lefts: &[Digest],
    rights: &[Digest],
    one: Digest,
    other: Digest,
) -> Result<(usize, Digest, Digest), Met>
    requires { length lefts.now ≡ length rights.now }
    ensures within { IfOk result (λ j. j.0 ≤ length lefts.now) }
    ensures left { IfOk result (λ j. push H.digest size lefts.now one ≡ take j.0 lefts.now ++ j.1 ∷ []) }
    ensures right { IfOk result (λ j. push H.digest size rights.now other ≡ take j.0 rights.now
        ++ j.2 ∷ []) }
    ensures same { IfOk result (λ j. take j.0 lefts.now ≡ take j.0 rights.now → j.1 ≡ j.2
        → (lefts.now ≡ rights.now) × (one ≡ other)) }
    ensures met { IfErr result (Meets H.digest) }
    ensures differ { OnErr result (lefts.now ≡ rights.now → one ≢ other) }
{
    let mut kept = lefts.len();
    let mut left = one;
    let mut right = other;
    let mut rest = size;
    while kept > 0 && rest % 2 == 1 {
        kept -= 1;
        (left, right) = nodes_of::<H>(alloc, &lefts[kept], &left, &rights[kept], &right)?;
        rest /= 2;
    }
    Ok((kept, left, right))
}

/// The digests of two nodes, each over its two halves.
fn nodes_of<H: Hasher>(
    alloc: Global,
    left: &Digest,
    one: &Digest,
    right: &Digest,
    other: &Digest,
) -> Result<(Digest, Digest), Met>
    ensures nodes { IfOk result (λ d. (d.0 ≡ node H.digest left.now one.now)
        × (d.1 ≡ node H.digest right.now other.now)) }
    ensures same { IfOk result (λ d. d.0 ≡ d.1 → (left.now ≡ right.now) × (one.now ≡ other.now)) }
    ensures met { IfErr result (Meets H.digest) }
    ensures differ { OnErr result (left.now ≡ right.now → one.now ≢ other.now) }
{
    let digests = (hash_node::<H>(left, one), hash_node::<H>(right, other));
    if digests.0 == digests.1 && (left != right || one != other) {
        let input = node_input(alloc, left, one);
        return Err(inputs(input, node_input(alloc, right, other)));
    }
    Ok(digests)
}

/// The bytes under the digest of a leaf.
#[tactic(auto, unfolding(crate::specs::Tree::be64))]
fn leaf_input(alloc: Global, at: Location, bytes: &[u8]) -> Result<Vec<u8>, OutOfMemory>
    ensures { IfOk result (λ input. input.items ≡ 0 ∷ be64 at ++ bytes.now) }
{
    let mut input = Vec::from_slice(alloc, &[0])?;
    input.extend_from_slice(&at.get().to_be_bytes())?;
    input.extend_from_slice(bytes)?;
    Ok(input)
}

/// The bytes under the digest of a node.
fn node_input(alloc: Global, left: &Digest, right: &Digest) -> Result<Vec<u8>, OutOfMemory>
    ensures { IfOk result (λ input. input.items ≡ 1 ∷ left.now ++ right.now) }
{
    let mut input = Vec::from_slice(alloc, &[1])?;
    input.extend_from_slice(left)?;
    input.extend_from_slice(right)?;
    Ok(input)
}

/// The bytes under the root of `size` leaves with these peaks.
#[tactic(auto, unfolding(crate::specs::Tree::be64))]
fn root_input(alloc: Global, size: Location, peaks: &[Digest]) -> Result<Vec<u8>, OutOfMemory>
    ensures input { IfOk result (λ input. input.items ≡ 2 ∷ be64 size ++ concat peaks.now) }
    ensures digests { All (λ digest. length digest ≡ 32) peaks.now }
{
    let mut input = Vec::from_slice(alloc, &[2])?;
    input.extend_from_slice(&size.get().to_be_bytes())?;
    for peak in peaks {
        input.extend_from_slice(peak)?;
    }
    Ok(input)
}
