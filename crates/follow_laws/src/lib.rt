//! Laws of following a log: what two runs, or a run and what it reported, come to together.
//!
//! ```text
//!   one link ──follow──▶ answer ═╗
//!   other link ─follow─▶ answer ═╩═ one answer, where both links gave the same bytes        (alike)
//!
//!   link ──follow──▶ report ──its log, behind a link──follow──▶ report with its root         (chained)
//!
//!   link ──follow──▶ report ──its log from its floor on──follow──▶ report with its accounts  (floored)
//!
//!   served log ──follow──▶ accounts of its end part ═══ accounts of all of it                (replayed)
//! ```
//! Each is a function over public calls whose own contract says the law.
#![tactic(auto)]

mod alike;
mod chained;
mod floored;
mod replayed;
#[cfg(test)]
mod tests;

pub use alike::{Runs, follow_twice};
pub use chained::follow_report;
pub use floored::follow_floor;
pub use replayed::follow_part;
