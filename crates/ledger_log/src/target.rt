//! What a client is told to sync to.
ghost use Rattle.std.specs.Prelude.{◌≡◌, ◌<◌, ◌≤◌, MatchOption};

use ledger_codec::{Digest, List};
use ledger_merkle::{Location, Proof};

/// A range of a log, and the root of the tree that ends with it.
#[derive(Clone, Copy, PartialEq, Eq, Debug)]
pub struct Target {
    /// The root over the first `end` operations.
    pub root: Digest,
    /// The first place of the range.
    pub start: Location,
    /// The place behind the range.
    pub end: Location,
    ghost ordered: { start < end },
}

impl Target {
    /// This target, None exactly where the range is empty.
    pub fn new(root: Digest, start: Location, end: Location) -> Option<Target>
        ensures { MatchOption result (end ≤ start)
            (λ t. (t.root ≡ root) × (t.start ≡ start) × (t.end ≡ end)) }
    {
        if start.get() < end.get() {
            Some(Target { root, start, end })
        } else {
            None
        }
    }
}

/// A log without its operations: its root and its size.
#[derive(Clone, Copy, PartialEq, Eq, Debug)]
pub struct CompactTarget {
    /// The root over all operations.
    pub root: Digest,
    /// The number of operations.
    pub leaf_count: Location,
}

/// All that is needed to go on with a log without its operations, with the proof of its last commit.
#[derive(Drop)]
pub struct CompactState<Op> {
    /// The number of operations.
    pub leaf_count: Location,
    /// The peaks of all operations, from left to right.
    pub pinned_nodes: List<Digest>,
    /// The last operation, which is a commit.
    pub last_commit_op: Op,
    /// The proof of the last operation in the tree of all.
    pub last_commit_proof: Proof,
}
