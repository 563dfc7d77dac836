//! Batches over logs of the family immutable, full and compact: sets of keys that are read, sealed and applied, in
//! chains.
//!
//! ```text
//! log --over--> SetBatch --merkleize--> SealedSets --apply--> log
//!                |   ^  ^                   |
//!                +---+  +-----new_batch-----+
//!                 set
//! ```
//!
//! Such batches need no more of a log than its size, root and floor, and that a batch can stand behind it. So one type
//! of them serves both logs with their operations and logs without, over which nothing is read.
#![tactic(auto)]

mod applying;
mod batch;
mod reading;
mod sealed;
mod sealing;
mod store;

pub use applying::apply;
pub use batch::SetBatch;
use ledger_compact::CompactLog;
use ledger_log::{ImmutableFamily, Log};
use ledger_merkle::Sha256Hasher;
pub use sealed::SealedSets;
pub use store::SetLog;

/// A batch over an immutable log.
pub type ImmutableUnmerkleized = SetBatch<Log<ImmutableFamily, Sha256Hasher>>;

/// A sealed batch over an immutable log.
pub type ImmutableMerkleized = SealedSets<Log<ImmutableFamily, Sha256Hasher>>;

/// A batch over an immutable log without its operations.
pub type ImmutableUnjournaledUnmerkleized = SetBatch<CompactLog<ImmutableFamily, Sha256Hasher>>;

/// A sealed batch over an immutable log without its operations.
pub type ImmutableUnjournaledMerkleized = SealedSets<CompactLog<ImmutableFamily, Sha256Hasher>>;
