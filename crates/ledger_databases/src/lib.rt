//! Databases as whoever manages them sees them: made, changed by sealed batches, kept, pruned, and known to
//! clients by a target, whatever their family, and whether or not they hold their operations.
//!
//! ```text
//! init --> ManagedDb --new_batch--> .. --merkleize--> sealed batch --matches_sync_target--> bool
//!          |  ^   |                                       |
//!          |  |   +--finalize--> Keeper::sync             |
//!          |  +------------------apply--------------------+
//!          +--sync_target--> target --prune--> ManagedDb
//! ```
#![tactic(auto)]

mod any;
mod compact;
mod current;
mod fault;
mod full;
mod immutable;
mod managed;
mod sets;
#[cfg(test)]
mod tests;

pub use fault::InitFault;
pub use managed::ManagedDb;
