//! The report of a run.

use ledger_codec::{Digest, List};
use ledger_job::BlockVerdicts;
use ledger_log::{AnyFamily, AnyOp, Key, Log, Target};
use ledger_merkle::{Location, Sha256Hasher};
use std::collections::BTreeMap;

/// Accounts by their keys, in ascending order.
pub type Accounts<A> = BTreeMap<Key, A>;

/// What was fetched, what the blocks made of it, and the accounts and verdicts.
#[derive(Drop)]
pub struct Report<A> {
    /// The target that was synced.
    pub target: Target,
    /// The first location that was fetched.
    pub start: Location,
    /// The location behind the last one that was fetched.
    pub end: Location,
    /// The peaks of the `start` operations before the part, from left to right.
    pub pinned: List<Digest>,
    /// The fetched operations.
    pub kept: List<AnyOp>,
    /// The log that the blocks made of the part.
    pub log: Log<AnyFamily, Sha256Hasher>,
    /// The accounts that the log holds.
    pub accounts: Accounts<A>,
    /// One a block.
    pub verdicts: List<BlockVerdicts>,
    /// The log's root.
    pub root: Digest,
    /// The number of the log's operations, with those before the part.
    pub size: Location,
}
