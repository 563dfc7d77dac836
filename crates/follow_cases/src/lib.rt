//! Worked cases of following a log over links, and a link that keeps what was asked over it.
//!
//! ```text
//!   follow ──asks──▶ Noted ──▶ any link
//!                      │
//!                      └──▶ sent: the frames, one behind the other
//! ```
#![tactic(auto)]

mod noted;

pub use noted::Noted;

#[cfg(test)]
mod tests;
