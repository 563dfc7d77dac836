//! An operation that was never written, under a digest that is too weak: the root and the proof of the honest one let
//! it through, and the two parts hand out the two inputs of one digest. The inputs are those of vectors/promises.py.
ghost use Rattle.std.specs.Prelude.{◌≡◌, ◌+◌, ◌≤◌, ◌^◌, length, map, count_ones, MatchOption, IfOk};
ghost use Rattle.ledger_log.specs.Any.{any_spelling};
ghost use Rattle.ledger_merkle.specs.Digests.{toy_digest};
ghost use Rattle.ledger_merkle.specs.Tree.{part_root};

use super::vectors::{FORGED, HONEST};
use ledger_codec::{Digest, List, OutOfMemory};
use ledger_log::{AnyFamily, AnyOp, Log};
use ledger_merkle::{Location, Part, Peaks, Toy, check_range, collision};
use std::alloc::Global;
use std::num::NonZeroU64;

/// The part of a commit, an account of this value at the key of zeros, and a commit.
fn part(alloc: Global, value: [u8; 32]) -> Result<Part<AnyOp>, OutOfMemory> {
    let ops = [
        AnyOp::CommitFloor(None, Location::ZERO),
        AnyOp::Update([0; 32], value),
        AnyOp::CommitFloor(None, Location::ZERO),
    ];
    Ok(Part {
        start: Location::ZERO,
        pinned: List::new(alloc),
        ops: List::from_vec(Vec::from_slice(alloc, &ops)?),
    })
}

/// The root of a part under the toy digest, None where it has the wrong number of pinned nodes or too many operations.
fn root_of(alloc: Global, part: &Part<AnyOp>) -> Result<Option<Digest>, OutOfMemory>
    ensures { IfOk result (λ root. MatchOption root (Unit {0})
        (λ digest. (part.now.start + length part.now.ops ≤ 2 ^ 62)
        × (length part.now.pinned ≡ count_ones part.now.start)
        × (digest ≡ part_root toy_digest part.now.pinned part.now.start (map any_spelling part.now.ops)))) }
{
    let pinned = Vec::from_slice(alloc, part.pinned.as_slice())?;
    let ops = part.ops.as_slice();
    match Peaks::<Toy>::from_parts(alloc, part.start, pinned) {
        Some(peaks) if part.start.get() + ops.len() as u64 <= 0x4000_0000_0000_0000 => {
            Ok(Some(peaks.extended(ops)?.root()))
        }
        _ => Ok(None),
    }
}

/// What two parts of one root hand out, None where they aren't of one root.
fn compared(
    alloc: Global,
    a: &Part<AnyOp>,
    b: &Part<AnyOp>,
) -> Result<Option<Option<(Vec<u8>, Vec<u8>)>>, OutOfMemory> {
    let (root, other) = (root_of(alloc, a)?, root_of(alloc, b)?);
    let is_alike = a.start == b.start && a.ops.as_slice().len() == b.ops.as_slice().len();
    match (root, other) {
        (Some(root), Some(other)) if root == other && is_alike => {
            Ok(Some(collision::<Toy, AnyOp>(alloc, a, b)?))
        }
        _ => Ok(None),
    }
}

/// The values of the honest and of the forged account.
fn values() -> [[u8; 32]; 2] {
    let mut forged = [1; 32];
    forged[0] = 2;
    forged[1] = 0;
    [[1; 32], forged]
}

/// Whether the honest operation's root and proof let the forged one through.
fn is_let_through(alloc: Global) -> Option<bool> {
    let [honest, forged] = values();
    let ops = part(alloc, honest).ok()?.ops.into_vec();
    let log = Log::<AnyFamily, Toy>::from_parts(alloc, Vec::new(alloc), Location::ZERO, ops).ok()?;
    let (one, three) = (Location::new(1)?, Location::new(3)?);
    let (proof, _ops) = log.historical_proof(three, one, NonZeroU64::MIN).ok()?;
    let forged = AnyOp::Update([0; 32], forged);
    Some(check_range::<Toy, AnyOp>(&log.root(), &proof, three, one, &[forged]).is_ok())
}

/// Whether the two parts hand out the leaf inputs of the two accounts.
fn is_handed_out(alloc: Global) -> Option<bool> {
    let [honest, forged] = values();
    let one = part(alloc, honest).ok()?;
    let other = part(alloc, forged).ok()?;
    let (x, y) = compared(alloc, &one, &other).ok()???;
    let of = |text: &str| hex::decode(alloc, text).ok();
    Some(x == of(HONEST)? && y == of(FORGED)?)
}

#[test]
fn a_weak_digest_lets_a_forged_part_through(rt: HostRuntime) {
    assert_eq!(rt; is_let_through(rt.alloc()), Some(true));
    assert_eq!(rt; is_handed_out(rt.alloc()), Some(true));
}
