//! Logs without their operations.
//!
//! ```text
//! Log --state--> CompactState --from_state--> CompactLog --append_batch--> CompactLog
//!  |                                              |
//!  +--target--> CompactTarget <-------target------+
//! ```
//!
//! Of a log of a family whose batches don't depend on what was written before, it is enough to keep the
//! peaks, the last commit and what proves it: a [`CompactLog`] goes on from there and answers each batch as
//! the full log does. Somebody who knows a root gets one as a state, which proves itself.
#![tactic(auto)]

mod admission;
mod agreement;
mod compact;
mod growth;
mod item;
mod syncable;

pub use admission::admit;
pub use agreement::{Twins, run_both};
pub use compact::CompactLog;
pub use syncable::CompactSyncable;
