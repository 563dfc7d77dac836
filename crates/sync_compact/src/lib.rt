//! Serving logs without their operations.
//!
//! ```text
//!   request --CompactMode::reply--> target or state, over a Log or a CompactLog
//! ```
//!
//! A reply is a function of what is kept of the log and of the message, the same for a full log and for the
//! compact log that stands for it.
#![tactic(auto)]

mod compact;

pub use compact::CompactMode;
