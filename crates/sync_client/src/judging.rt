//! Which answers are kept.
ghost use Rattle.std.specs.Prelude.{◌≡◌, ◌+◌, ◌<◌, ◌≤◌, length, count_ones, if◌then◌else◌};
ghost use Rattle.sha2.specs.Sha256.{sha256};
ghost use Rattle.sync_client.specs.Asking.{judged_by, nodes_good, nodes_of, good};

use crate::ranges::fits;
use ledger_codec::{Digest, List};
use ledger_log::Target;
use ledger_merkle::{Leaf, Location, Proof, Sha256Hasher, check_range};
use std::alloc::Global;
use std::ops::Range;
use sync_net::GetOperationsResponse;

/// Whether these are as many nodes as the start has peaks.
fn has_nodes(start: Location, nodes: &Option<List<Digest>>) -> bool
    ensures { result ≡ nodes_good (count_ones start) nodes.now }
{
    match nodes {
        Some(nodes) => nodes.as_slice().len() == start.get().count_ones() as usize,
        None => false,
    }
}

/// Whether a proof holds in a target's tree.
#[tactic(auto, unfolding(crate::specs::Asking::range_ok))]
fn is_proved<Op: Leaf>(target: &Target, proof: &Proof, start: Location, ops: &[Op]) -> bool
    requires some { 0 < length ops.now }
    requires within { start + length ops.now ≤ target.now.end }
    ensures { result ≡ judged_by sha256 Op.spelling target.now proof.now start ops.now }
{
    check_range::<Sha256Hasher, Op>(&target.root, proof, target.end, start, ops).is_ok()
}

/// Whether an answer to a range, which was asked for a target, is kept in a part with this start.
#[tactic(auto, unfolding(crate::specs::Asking::good))]
pub(crate) fn is_good<Op: Leaf + Copy>(
    start: Location,
    target: &Target,
    asked: &Range<Location>,
    answer: &GetOperationsResponse<Op>,
) -> bool
    requires some { asked.now.start < asked.now.end }
    requires within { asked.now.end ≤ target.now.end }
    ensures { result ≡ good (judged_by sha256 Op.spelling target.now) start asked.now answer.now }
{
    let ops = answer.operations.as_slice();
    if !fits(asked, ops.len()) {
        return false;
    }
    if asked.start.get() == start.get() && !has_nodes(start, &answer.pinned_nodes) {
        return false;
    }
    is_proved::<Op>(target, &answer.proof, asked.start, ops)
}

/// Keeps the nodes of the first range.
pub(crate) fn put_nodes(
    alloc: Global,
    nodes: &mut List<Digest>,
    is_first: bool,
    given: Option<List<Digest>>,
)
    ensures { nodes.new ≡ (if is_first then nodes_of given else nodes.old) }
{
    if is_first {
        match given {
            Some(given) => *nodes = given,
            None => *nodes = List::from_vec(Vec::new(alloc)),
        }
    }
}
