//! A part with its leaves.

use ledger_merkle::{MerkleList, Part, Sha256Hasher};

/// A part with the digests of its leaves, which were worked out for its root: who opens a log of it has nothing
/// to hash again.
#[derive(Drop)]
pub struct HashedPart<Op> {
    /// The part.
    pub part: Part<Op>,
    /// The part's pinned nodes and the leaves of its operations.
    pub list: MerkleList<Sha256Hasher>,
}
