//! What runs sessions beside each other, and joins them.
//!
//! ```text
//!   Session, CompactSession --start--> on a thread of its own (ThreadSpawner), or on the caller (CallerSpawner)
//!   join_all --> every started session has ended
//! ```
//!
//! A spawner tells how many sessions were started, and how many it has joined. That a started session runs is in no
//! contract: tests show it.
#![tactic(auto)]

mod caller;
mod jobs;
mod spawner;
mod threads;

pub use caller::CallerSpawner;
pub use spawner::{MAX_SESSIONS, Spawner};
pub use threads::ThreadSpawner;
