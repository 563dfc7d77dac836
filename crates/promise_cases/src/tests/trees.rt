//! What is promised of hashers, proofs and their check.
ghost use Rattle.std.specs.Prelude.{◌≡◌, ◌≤◌, ◌^◌, ◌∷◌, [], Err, IfOk, replicate};
ghost use Rattle.promise_cases.specs.Cases.{three_leaves};
ghost use Rattle.sha2.specs.Sha256.{sha256};
ghost use Rattle.ledger_merkle.specs.Digests.{toy_digest};
ghost use Rattle.ledger_merkle.specs.Leaves.{list_size, peaks_at, root_at};
ghost use Rattle.ledger_merkle.specs.Range.{RangeOk, range_root};
ghost use Rattle.ledger_merkle.specs.declared.range.RangeFault.TheVariants as faults;

use ledger_codec::{Digest, List, OutOfMemory};
use ledger_merkle::{
    Hasher, Location, MerkleList, Proof, RangeFault, Sha256Hasher, Toy, check_range,
};
use std::alloc::Global;

fn at(value: u64) -> Location
    requires { value ≤ 2 ^ 62 }
    ensures { result ≡ value }
{
    Location::ZERO.plus(value)
}

/// The digest of two pieces that were fed one after the other.
fn digest_of_two() -> Digest
    ensures { result ≡ sha256 (1 ∷ 2 ∷ 3 ∷ []) }
{
    let mut hasher = Sha256Hasher::new();
    hasher.update(&[1, 2]);
    hasher.update(&[3]);
    hasher.finish()
}

/// The answer to a proof that is of a tree of two leaves, where the tree has one.
fn of_another_size(alloc: Global, item: [u8; 32]) -> Result<(), RangeFault>
    ensures { result ≡ Err (faults.WrongSize 2 0) }
{
    let proof = Proof {
        leaves: at(2),
        inactive_peaks: 0,
        digests: List::new(alloc),
    };
    check_range::<Toy, [u8; 32]>(&[0; 32], &proof, at(1), at(0), &[item])
}

/// The answer to a proof without digests of the first of two leaves.
fn of_too_few(alloc: Global, item: [u8; 32]) -> Result<(), RangeFault>
    ensures { result ≡ Err (faults.Count 1) }
{
    let proof = Proof {
        leaves: at(2),
        inactive_peaks: 0,
        digests: List::new(alloc),
    };
    check_range::<Toy, [u8; 32]>(&[0; 32], &proof, at(2), at(0), &[item])
}

/// The answer to a proof of the one leaf under a root that is no digest of the toy hasher.
fn of_another_root(alloc: Global, item: [u8; 32]) -> Result<(), RangeFault>
    ensures { result ≡ Err (faults.Root (range_root toy_digest 1 0 (item ∷ []) [])) }
{
    let proof = Proof {
        leaves: at(1),
        inactive_peaks: 0,
        digests: List::new(alloc),
    };
    check_range::<Toy, [u8; 32]>(&[1; 32], &proof, at(1), at(0), &[item])
}

/// The list of three items.
#[tactic(auto, unfolding(crate::specs::Cases::three_items))]
fn three(alloc: Global) -> Result<MerkleList<Sha256Hasher>, OutOfMemory>
    ensures { IfOk result (λ list. list ≡ three_leaves) }
{
    let mut list = MerkleList::new(alloc);
    list.extend(&[[1; 32], [2; 32], [3; 32]])?;
    Ok(list)
}

/// The proof of the last of three leaves: its digests are the peaks before it, and it is right.
fn last_of_three(alloc: Global) -> Result<Proof, OutOfMemory>
    ensures digests { IfOk result (λ proof. proof.digests ≡ peaks_at sha256 three_leaves 2) }
    ensures right { IfOk result (λ proof. RangeOk sha256 (root_at sha256 three_leaves 3) proof.leaves
        proof.inactive_peaks proof.digests 3 2 (replicate 32 3 ∷ [])) }
{
    let list = three(alloc)?;
    list.proof(at(3), at(2), 1)
}

/// The node of the first two of three leaves.
const FIRST_TWO: Digest = [
    0xde, 0xf8, 0xee, 0x5b, 0x05, 0x97, 0xd1, 0x90, 0xf3, 0x86, 0xca, 0x7c, 0x73, 0xc0, 0x12, 0x80,
    0xe1, 0xa7, 0x2c, 0xf3, 0x35, 0x1c, 0x20, 0x2a, 0x21, 0x8c, 0x11, 0xa1, 0x37, 0xba, 0xd8, 0x94,
];

/// SHA-256 of the bytes 1, 2 and 3.
const ONE_TWO_THREE: Digest = [
    0x03, 0x90, 0x58, 0xc6, 0xf2, 0xc0, 0xcb, 0x49, 0x2c, 0x53, 0x3b, 0x0a, 0x4d, 0x14, 0xef, 0x77,
    0xcc, 0x0f, 0x78, 0xab, 0xcc, 0xce, 0xd5, 0x28, 0x7d, 0x84, 0xa1, 0xa2, 0x01, 0x1c, 0xfb, 0x81,
];

#[test]
fn pieces_are_hashed_in_a_row(rt: HostRuntime) {
    assert_eq!(rt; digest_of_two(), ONE_TWO_THREE);
}

#[test]
fn wrong_proofs_are_told(rt: HostRuntime) {
    let alloc = rt.alloc();
    let item = [7; 32];
    assert!(rt; of_another_size(alloc, item).is_err());
    assert!(rt; of_too_few(alloc, item).is_err());
    assert!(rt; of_another_root(alloc, item).is_err());
}

#[test]
fn the_last_leaf_is_proved_by_the_peaks_before_it(rt: HostRuntime) {
    let digests = last_of_three(rt.alloc()).map(|proof| proof.digests);
    assert!(rt; digests.is_ok_and(|digests| digests.as_slice() == [FIRST_TWO].as_slice()));
}
