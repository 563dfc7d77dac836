//! What following a log over a link promises, each promise kept once, as tests.
//!
//! ```text
//!   the log of four accounts ──▶ a link that serves it ──▶ follow ──▶ its report
//!                                                └───────▶ another part of its root: equal, or a collision
//!   words, a job, a dialer ──▶ run ──▶ a status and a text, whichever call fails
//! ```
#![tactic(auto)]

#[cfg(test)]
mod tests;
