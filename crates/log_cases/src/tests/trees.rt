//! Worked examples. The expected roots are those of vectors/roots.py.
ghost use Rattle.std.specs.Prelude.{◌≡◌, ◌≤◌, ◌^◌, [], IfOk, OnOk, length, vec_len};
ghost use Rattle.ledger_merkle.specs.Leaves.{list_size, peaks_at};
ghost use Rattle.ledger_merkle.specs.Levels.{proof_digests};

use ledger_codec::{Digest, List, OutOfMemory};
use ledger_merkle::{
    Hasher, Location, MerkleList, Peaks, Proof, RangeFault, Retained, Sha256Hasher, check_range,
    hash_item, plain_digests,
};
use std::alloc::Global;

type Sha = Sha256Hasher;

const ITEMS: [[u8; 32]; 12] = [
    [0; 32], [1; 32], [2; 32], [3; 32], [4; 32], [5; 32], [6; 32], [7; 32], [8; 32], [9; 32],
    [10; 32], [11; 32],
];

fn at(value: u64) -> Location
    requires { value ≤ 2 ^ 62 }
    ensures { result ≡ value }
{
    Location::ZERO.plus(value)
}

/// The list of the items.
fn twelve(alloc: Global) -> Result<MerkleList<Sha>, OutOfMemory>
    ensures front { IfOk result (λ list. list.front ≡ 0) }
    ensures size { IfOk result (λ list. list_size list ≡ 12) }
{
    let mut list = MerkleList::new(alloc);
    list.extend(&ITEMS)?;
    Ok(list)
}

/// The leaf digests of the items.
fn leaves(alloc: Global) -> Result<Vec<Digest>, OutOfMemory> {
    let mut leaves = Vec::new(alloc);
    let mut place = at(0);
    for item in &ITEMS {
        leaves.push(hash_item::<Sha, [u8; 32]>(place, item))?;
        place = Location::new(place.get() + 1).unwrap_or(place);
    }
    Ok(leaves)
}

#[test]
fn needs_as_many_nodes_as_binary_ones(rt: HostRuntime) -> Result<(), OutOfMemory> {
    let alloc = rt.alloc();
    let one = Vec::from_slice(alloc, &[[0; 32]])?;
    assert!(rt; Peaks::<Sha>::from_parts(alloc, at(5), one).is_none());
    let two = Vec::from_slice(alloc, &[[0; 32], [1; 32]])?;
    assert!(rt; Peaks::<Sha>::from_parts(alloc, at(5), two).is_some());
    let one = Vec::from_slice(alloc, &[[0; 32]])?;
    assert!(rt; MerkleList::<Sha>::from_parts(alloc, at(5), one).is_none());
    Ok(())
}

/// The roots of the first items, so many of them.
const ROOTS: [(usize, Digest); 4] = [
    (
        0,
        [
            0x43, 0x22, 0xfd, 0x2b, 0xc0, 0xa1, 0x37, 0xd1, 0x37, 0x5b, 0x37, 0xb3, 0xb2, 0xe2,
            0xb4, 0x71, 0x5b, 0x3d, 0x3d, 0xd7, 0xca, 0x96, 0x82, 0x43, 0x8d, 0x4f, 0xea, 0x0f,
            0x84, 0x37, 0xfa, 0xd3,
        ],
    ),
    (
        1,
        [
            0xbb, 0x5d, 0xe8, 0x46, 0x88, 0xce, 0x6b, 0xfa, 0x9d, 0x2f, 0x14, 0xb4, 0xae, 0xad,
            0xfd, 0xdf, 0x27, 0x75, 0x0f, 0xdd, 0x2b, 0x36, 0x0a, 0xa4, 0x8b, 0x42, 0xab, 0x72,
            0x33, 0xad, 0xb1, 0xdd,
        ],
    ),
    (
        5,
        [
            0x3a, 0x73, 0xbf, 0xac, 0x0a, 0x7a, 0x67, 0xd6, 0x4a, 0x63, 0x05, 0xdb, 0xb3, 0x53,
            0x89, 0xea, 0xe1, 0x4a, 0x7d, 0x2a, 0xa8, 0xe6, 0x43, 0x08, 0x88, 0xde, 0x68, 0xdb,
            0x76, 0xb1, 0x93, 0xa6,
        ],
    ),
    (
        12,
        [
            0xad, 0xa8, 0x41, 0xee, 0x63, 0xce, 0xe6, 0x68, 0xf0, 0xae, 0x9b, 0x6e, 0x03, 0x89,
            0x98, 0x3f, 0x0c, 0x60, 0x7b, 0x7d, 0xe7, 0x83, 0x85, 0x72, 0x1d, 0x58, 0x9c, 0xaa,
            0x30, 0x48, 0x05, 0x6f,
        ],
    ),
];

#[test]
fn roots_are_the_vectors(rt: HostRuntime) -> Result<(), OutOfMemory> {
    let alloc = rt.alloc();
    for (count, want) in ROOTS {
        let items = &ITEMS[..count.min(12)];
        let peaks = Peaks::<Sha>::new(alloc).extended(items)?;
        assert_eq!(rt; peaks.root(), want, "peaks of {count}");
        let mut list = MerkleList::<Sha>::new(alloc);
        list.extend(items)?;
        assert_eq!(rt; list.root(), want, "list of {count}");
    }
    Ok(())
}

/// The root after these leaves, pushed one by one to a list and to peaks. None where the two differ.
fn pushed_root(alloc: Global, leaves: &[Digest]) -> Result<Option<Digest>, OutOfMemory> {
    let mut list = MerkleList::<Sha>::new(alloc);
    let mut peaks = Peaks::<Sha>::new(alloc);
    for leaf in leaves {
        if list.size().get() < 12 && peaks.size().get() < 12 {
            list.push(*leaf)?;
            peaks.push(*leaf)?;
        }
        if list.root() != peaks.copy()?.root() {
            return Ok(None);
        }
    }
    Ok(Some(list.root()))
}

#[test]
fn pushes_as_it_extends(rt: HostRuntime) -> Result<(), OutOfMemory> {
    let alloc = rt.alloc();
    let root = pushed_root(alloc, leaves(alloc)?.as_slice())?;
    assert_eq!(rt; root, Some(twelve(alloc)?.root()));
    Ok(())
}

#[test]
fn proves_three_of_twelve(rt: HostRuntime) -> Result<(), OutOfMemory> {
    let list = twelve(rt.alloc())?;
    assert_eq!(rt; list.pinned(at(5))?.len(), 2);
    let proof = list.proof(at(12), at(5), 3)?;
    assert_eq!(rt; proof.digests.as_slice().len(), 3);
    let verdict = check_range::<Sha, [u8; 32]>(&list.root(), &proof, at(12), at(5), &ITEMS[5..8]);
    assert!(rt; verdict.is_ok());
    let other = check_range::<Sha, [u8; 32]>(&list.root(), &proof, at(12), at(5), &ITEMS[4..7]);
    assert!(rt; matches!(other, Err(RangeFault::Root { .. })));
    Ok(())
}

#[test]
fn refuses_other_proofs(rt: HostRuntime) -> Result<(), OutOfMemory> {
    let list = twelve(rt.alloc())?;
    let root = list.root();
    let mut digests = list.proof(at(12), at(5), 3)?.digests.into_vec();
    digests.pop();
    let mut proof = Proof {
        leaves: at(12),
        inactive_peaks: 0,
        digests: List::from_vec(digests),
    };
    let short = check_range::<Sha, [u8; 32]>(&root, &proof, at(12), at(5), &ITEMS[5..8]);
    assert!(rt; matches!(short, Err(RangeFault::Count { needed: 3 })));
    proof.leaves = at(11);
    let smaller = check_range::<Sha, [u8; 32]>(&root, &proof, at(12), at(5), &ITEMS[5..8]);
    assert!(rt;
        matches!(
            smaller,
            Err(RangeFault::WrongSize {
                found: _,
                inactive: 0
            })
        )
    );
    Ok(())
}

/// Drops the first five of twelve leaves: the proof of the next three and the peaks of seven stay.
fn drop_five<H: Hasher>(list: &mut MerkleList<H>) -> Result<(), OutOfMemory>
    requires front { list.old.front ≡ 0 }
    requires size { list_size list.old ≡ 12 }
    ensures proof { OnOk result (proof_digests H.digest list.new 12 5 3
        ≡ proof_digests H.digest list.old 12 5 3) }
    ensures peaks { OnOk result (peaks_at H.digest list.new 7 ≡ peaks_at H.digest list.old 7) }
{
    list.prune(at(5))?;
    Ok(())
}

#[test]
fn drops_and_keeps_the_rest(rt: HostRuntime) -> Result<(), OutOfMemory> {
    let mut list = twelve(rt.alloc())?;
    let root = list.root();
    drop_five(&mut list)?;
    assert_eq!(rt; list.front().get(), 5);
    assert_eq!(rt; list.root(), root);
    Ok(())
}

#[test]
fn retains_what_is_not_dropped(rt: HostRuntime) -> Result<(), OutOfMemory> {
    let alloc = rt.alloc();
    let mut kept = Retained::from_vec(alloc, Vec::from_slice(alloc, &[0_u32, 1, 2, 3])?);
    for (count, want) in [(1, 3), (0, 3), (2, 1), (9, 0)] {
        kept.skip(count);
        assert_eq!(rt; kept.len(), want);
    }
    kept.extend_from_slice(&[4, 5, 6])?;
    kept.skip(1);
    kept.truncate(1);
    kept.push(7)?;
    assert!(rt; kept.copy()?.as_slice() == [5, 7].as_slice());
    Ok(())
}

#[test]
fn prunes_and_proves_the_same(rt: HostRuntime) -> Result<(), OutOfMemory> {
    let list = twelve(rt.alloc())?;
    let mut cut = list.copy()?;
    cut.prune(at(5))?;
    assert_eq!(rt; cut.root(), list.root());
    assert!(rt; cut.pinned(at(5))? == list.pinned(at(5))?);
    let proof = cut.proof(at(12), at(5), 3)?.digests.into_vec();
    assert!(rt; proof == list.proof(at(12), at(5), 3)?.digests.into_vec());
    assert!(rt; !cut.has_range(at(12), at(4), 1));
    assert!(rt; cut.has_range(at(12), at(5), 1));
    Ok(())
}

#[test]
fn walks_as_the_plain_tree(rt: HostRuntime) -> Result<(), OutOfMemory> {
    let alloc = rt.alloc();
    let leaves = leaves(alloc)?;
    for front in 0..12 {
        let mut list = twelve(alloc)?;
        list.prune(at(front))?;
        assert!(rt; proves_as_plain(alloc, &list, leaves.as_slice())?);
    }
    Ok(())
}

/// Whether all proofs of the list, in the trees of its first leaves, are those of the plain walk.
fn proves_as_plain(
    alloc: Global,
    list: &MerkleList<Sha>,
    leaves: &[Digest],
) -> Result<bool, OutOfMemory> {
    for size in 1..13 {
        for start in 0..size {
            for count in 1..13 {
                if !is_plain(alloc, list, leaves, (size, start, count))? {
                    return Ok(false);
                }
            }
        }
    }
    Ok(true)
}

/// Whether one proof is that of the plain walk, where the list has that range.
fn is_plain(
    alloc: Global,
    list: &MerkleList<Sha>,
    leaves: &[Digest],
    range: (u64, u64, u64),
) -> Result<bool, OutOfMemory>
    requires size { range.0 ≤ 12 }
    requires start { range.1 ≤ 12 }
{
    let (size, start, count) = range;
    if leaves.len() != 12 {
        return Ok(false);
    }
    if !list.has_range(at(size), at(start), count) {
        return Ok(true);
    }
    let proof = list.proof(at(size), at(start), count)?.digests.into_vec();
    let first = &leaves[..size as usize];
    Ok(proof == plain_digests::<Sha>(alloc, first, start, start + count)?)
}
