//! What is sent to somebody who knows a root.

use crate::Location;
use ledger_codec::{Digest, List};

/// A proof that some items are a range of the leaves of a tree. [`crate::check_range`] decides it.
#[derive(Drop)]
pub struct Proof {
    /// The number of leaves of the tree.
    pub leaves: Location,
    /// Always 0: no peak of a tree is inactive.
    pub inactive_peaks: u64,
    /// The digests of the subtrees wholly outside the range, in the order of the walk from left to right.
    pub digests: List<Digest>,
}

/// The operations of a range, with the peaks of the leaves before it.
#[derive(Drop)]
pub struct Part<T> {
    /// The place of the first operation.
    pub start: Location,
    /// The peaks of the first `start` leaves, from left to right.
    pub pinned: List<Digest>,
    /// The operations from `start` on.
    pub ops: List<T>,
}
