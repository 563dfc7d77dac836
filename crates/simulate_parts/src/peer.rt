//! Who takes part, and when a block is final.

/// A validator, named by a number.
#[derive(Clone, Copy, Debug, PartialEq, Eq, PartialOrd, Ord)]
pub struct Peer(pub u64);

/// A round of consensus. Rounds are ordered by epoch, then by view.
#[derive(Clone, Copy, Debug, PartialEq, Eq, PartialOrd, Ord)]
pub struct Round {
    pub epoch: u64,
    pub view: u64,
}
