//! The part that kept pieces make.
ghost use Rattle.std.specs.Prelude.{◌≡◌, ◌+◌, ◌≤◌, ◌^◌, length, count_ones, IfOk, flat_map, map};
ghost use Rattle.sha2.specs.Sha256.{sha256};
ghost use Rattle.sync_client.specs.Parts.{IsJoined, leaves_behind};

use crate::collector::Piece;
use ledger_codec::{Digest, OutOfMemory};
use ledger_merkle::{Leaf, Location, MerkleList, Sha256Hasher};
use std::alloc::{AllocError, Global};

/// The operations of the pieces in the order of their places, with room for so many.
pub(crate) fn operations<Op: Copy>(
    alloc: Global,
    kept: Vec<Piece<Op>>,
    count: usize,
) -> Result<Vec<Op>, AllocError>
    ensures { IfOk result (λ v. IsJoined kept.items v.items) }
{
    let mut sorted = kept;
    sorted.sort_unstable_by_key(|piece| piece.at.get());
    let ops = joined(alloc, &sorted, count)?;
    Ok(ops)
}

/// The operations of the pieces, one after the other.
fn joined<Op: Copy>(
    alloc: Global,
    pieces: &[Piece<Op>],
    count: usize,
) -> Result<Vec<Op>, AllocError>
    ensures { IfOk result (λ v. v.items ≡ flat_map (λ p. p.ops) pieces.now) }
{
    let mut ops = Vec::with_capacity(alloc, count)?;
    for piece in pieces {
        ops.extend_from_slice(piece.ops.as_slice())?;
    }
    Ok(ops)
}

/// Pinned nodes with the leaves of the operations behind them.
pub(crate) fn list_behind<Op: Leaf>(
    alloc: Global,
    start: Location,
    nodes: Vec<Digest>,
    ops: &[Op],
) -> Result<MerkleList<Sha256Hasher>, OutOfMemory>
    requires nodes { length nodes.items ≡ count_ones start }
    requires room { start + length ops.now ≤ 2 ^ 62 }
    ensures { IfOk result (λ list. list ≡ leaves_behind sha256 nodes.items start
        (map Op.spelling ops.now)) }
{
    match MerkleList::<Sha256Hasher>::from_parts(alloc, start, nodes) {
        Some(list) => {
            let mut list = list;
            list.extend(ops)?;
            Ok(list)
        }
        None => unreachable!(),
    }
}
