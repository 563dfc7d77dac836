//! Parts of one root under a weak digest. The constants are those of vectors/collisions.py.
ghost use Rattle.std.specs.Prelude.{◌≡◌, ◌+◌, ◌≤◌, ◌^◌, length, map, count_ones, MatchOption, IfOk};
ghost use Rattle.ledger_merkle.specs.Tree.{part_root};
ghost use Rattle.ledger_merkle.specs.Digests.{toy_digest};

use ledger_codec::{Digest, List, OutOfMemory};
use ledger_merkle::{Location, Part, Peaks, Toy, collision};
use std::alloc::Global;

type Chunk = [u8; 32];

const LEAF: [u8; 41] = [
    0, 0, 0, 0, 0, 0, 0, 0, 1, 2, 0, 0, 0, 0, 0, 0, 0, 0, 0, 0, 0, 0, 0, 0, 0, 0, 0, 0, 0, 0, 0, 0,
    0, 0, 0, 0, 0, 0, 0, 0, 0,
];

const OTHER_LEAF: [u8; 41] = [
    0, 0, 0, 0, 0, 0, 0, 0, 1, 1, 1, 0, 0, 0, 0, 0, 0, 0, 0, 0, 0, 0, 0, 0, 0, 0, 0, 0, 0, 0, 0, 0,
    0, 0, 0, 0, 0, 0, 0, 0, 0,
];

const NODE: [u8; 65] = [
    1, 0, 0, 0, 0, 0, 0, 0, 0, 0, 0, 0, 0, 0, 0, 0, 0, 0, 0, 0, 0, 0, 0, 0, 0, 0, 0, 0, 0, 0, 0, 0,
    2, 0, 0, 0, 0, 0, 0, 0, 0, 0, 0, 0, 0, 0, 0, 0, 0, 0, 0, 0, 0, 0, 0, 0, 0, 0, 0, 0, 0, 0, 0, 0,
    8,
];

const OTHER_NODE: [u8; 65] = [
    1, 0, 0, 0, 0, 0, 0, 0, 0, 0, 0, 0, 0, 0, 0, 0, 0, 0, 0, 0, 0, 0, 0, 0, 0, 0, 0, 0, 0, 0, 0, 1,
    1, 0, 0, 0, 0, 0, 0, 0, 0, 0, 0, 0, 0, 0, 0, 0, 0, 0, 0, 0, 0, 0, 0, 0, 0, 0, 0, 0, 0, 0, 0, 0,
    8,
];

const ROOT: [u8; 73] = [
    2, 0, 0, 0, 0, 0, 0, 0, 3, 0, 0, 0, 0, 0, 0, 0, 0, 0, 0, 0, 0, 0, 0, 0, 0, 0, 0, 0, 0, 0, 0, 0,
    0, 0, 0, 0, 0, 0, 0, 0, 2, 0, 0, 0, 0, 0, 0, 0, 0, 0, 0, 0, 0, 0, 0, 0, 0, 0, 0, 0, 0, 0, 0, 0,
    0, 0, 0, 0, 0, 0, 0, 0, 9,
];

const OTHER_ROOT: [u8; 73] = [
    2, 0, 0, 0, 0, 0, 0, 0, 3, 0, 0, 0, 0, 0, 0, 0, 0, 0, 0, 0, 0, 0, 0, 0, 0, 0, 0, 0, 0, 0, 0, 0,
    0, 0, 0, 0, 0, 0, 0, 1, 1, 0, 0, 0, 0, 0, 0, 0, 0, 0, 0, 0, 0, 0, 0, 0, 0, 0, 0, 0, 0, 0, 0, 0,
    0, 0, 0, 0, 0, 0, 0, 0, 9,
];

/// A chunk that begins with these two bytes.
fn item(first: u8, second: u8) -> Chunk {
    let mut item = [0; 32];
    item[0] = first;
    item[1] = second;
    item
}

/// A digest that ends in these two bytes.
fn peak(high: u8, low: u8) -> Digest {
    let mut peak = [0; 32];
    peak[30] = high;
    peak[31] = low;
    peak
}

fn part(
    alloc: Global,
    start: Location,
    pinned: &[Digest],
    ops: &[Chunk],
) -> Result<Part<Chunk>, OutOfMemory> {
    Ok(Part {
        start,
        pinned: List::from_vec(Vec::from_slice(alloc, pinned)?),
        ops: List::from_vec(Vec::from_slice(alloc, ops)?),
    })
}

/// The root of a part, None where it has the wrong number of pinned nodes or too many operations.
fn root_of(alloc: Global, part: &Part<Chunk>) -> Result<Option<Digest>, OutOfMemory>
    ensures { IfOk result (λ root. MatchOption root (Unit {0})
        (λ digest. (part.now.start + length part.now.ops ≤ 2 ^ 62)
        × (length part.now.pinned ≡ count_ones part.now.start)
        × (digest ≡ part_root toy_digest part.now.pinned part.now.start (map (λ x. x) part.now.ops)))) }
{
    let pinned = Vec::from_slice(alloc, part.pinned.as_slice())?;
    let ops = part.ops.as_slice();
    match Peaks::<Toy>::from_parts(alloc, part.start, pinned) {
        Some(peaks) if part.start.get() + ops.len() as u64 <= 0x4000_0000_0000_0000 => {
            Ok(Some(peaks.extended(ops)?.root()))
        }
        _ => Ok(None),
    }
}

/// What two parts of one root hand out, None where they aren't of one root.
fn compared(
    alloc: Global,
    a: &Part<Chunk>,
    b: &Part<Chunk>,
) -> Result<Option<Option<(Vec<u8>, Vec<u8>)>>, OutOfMemory> {
    let (root, other) = (root_of(alloc, a)?, root_of(alloc, b)?);
    let is_alike = a.start == b.start && a.ops.as_slice().len() == b.ops.as_slice().len();
    match (root, other) {
        (Some(root), Some(other)) if root == other && is_alike => {
            Ok(Some(collision::<Toy, Chunk>(alloc, a, b)?))
        }
        _ => Ok(None),
    }
}

#[test]
fn equal_parts_hand_out_nothing(rt: HostRuntime) -> Result<(), OutOfMemory> {
    let alloc = rt.alloc();
    let start = Location::ZERO.plus(1);
    let pinned = [peak(0, 2)];
    let ops = [item(2, 0), item(7, 0)];
    let one = part(alloc, start, &pinned, &ops)?;
    let other = part(alloc, start, &pinned, &ops)?;
    assert!(rt; matches!(compared(alloc, &one, &other)?, Some(None)));
    Ok(())
}

/// A part's pinned nodes and operations, and the input that is to be handed out.
#[derive(Clone, Copy)]
struct Side<'a> {
    pinned: &'a [Digest],
    ops: &'a [Chunk],
    input: &'a [u8],
}

/// Whether two parts from `start` on hand out these inputs.
fn hands_out(
    alloc: Global,
    start: Location,
    one: Side<'_>,
    other: Side<'_>,
) -> Result<bool, OutOfMemory> {
    let a = part(alloc, start, one.pinned, one.ops)?;
    let b = part(alloc, start, other.pinned, other.ops)?;
    match compared(alloc, &a, &b)? {
        Some(Some((x, y))) => Ok(x.as_slice() == one.input && y.as_slice() == other.input),
        _ => Ok(false),
    }
}

#[test]
fn different_leaves_are_handed_out(rt: HostRuntime) -> Result<(), OutOfMemory> {
    let first = item(0, 0);
    let one = Side {
        pinned: &[],
        ops: &[first, item(2, 0)],
        input: &LEAF,
    };
    let other = Side {
        pinned: &[],
        ops: &[first, item(1, 1)],
        input: &OTHER_LEAF,
    };
    assert!(rt; hands_out(rt.alloc(), Location::ZERO, one, other)?);
    Ok(())
}

#[test]
fn different_peaks_are_handed_out(rt: HostRuntime) -> Result<(), OutOfMemory> {
    for (start, inputs) in [
        (1, (&NODE[..], &OTHER_NODE[..])),
        (2, (&ROOT[..], &OTHER_ROOT[..])),
    ] {
        let ops = [item(7, 0)];
        let one = Side {
            pinned: &[peak(0, 2)],
            ops: &ops,
            input: inputs.0,
        };
        let other = Side {
            pinned: &[peak(1, 1)],
            ops: &ops,
            input: inputs.1,
        };
        let start = Location::new(start).unwrap_or(Location::ZERO);
        assert!(rt; hands_out(rt.alloc(), start, one, other)?);
    }
    Ok(())
}
