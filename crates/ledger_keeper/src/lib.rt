//! What keeps a database beyond the run of a program, as seen by whoever asks it to.
//!
//! ```text
//! applied batches --finalize--> Keeper::sync --> kept, or failed
//! ```
//!
//! A keeper tells two numbers: how often a sync failed, and how often one was kept.
#![tactic(auto)]

mod counting;
mod keeper;
#[cfg(test)]
mod tests;

pub use counting::CountingKeeper;
pub use keeper::{Keeper, KeeperFailed};
