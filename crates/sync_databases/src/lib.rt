//! Databases that are brought to a target that a peer serves.
//!
//! ```text
//! target, link --sync_hashed----> part  --from_list---> full database
//!              --fetch_compact--> state --from_state--> compact database
//! ```
#![tactic(auto)]

mod compact;
mod full;
mod state_sync;
#[cfg(test)]
mod tests;

pub use full::sync_log;
pub use state_sync::StateSyncDb;
