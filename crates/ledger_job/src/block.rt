//! Blocks of transfers, and the verdicts on their candidates.
use ledger_codec::List;

/// A list of transfers that settles whole, or rounds of candidates to choose from.
#[derive(Debug, Drop)]
pub enum Block<T> {
    /// Transfers that settle together or not at all.
    Body(List<T>),
    /// Rounds of candidates, in the order in which they came.
    Rounds(List<List<T>>),
}

/// What was decided on a block's candidates.
#[derive(Debug, Drop)]
pub enum BlockVerdicts {
    /// A body has no verdicts: it settled.
    Body,
    /// One list a round, with `true` for each candidate that was taken.
    Rounds(List<List<bool>>),
}
