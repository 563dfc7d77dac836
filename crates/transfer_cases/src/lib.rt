//! Worked cases of settling, and the plain settling that a selection is compared with.
//!
//! ```text
//!  payments ─▶ play (a selection) ─▶ verdicts ─┐
//!           └▶ verdicts_anew      ─▶ verdicts ─┴─ the same
//! ```
#![tactic(auto)]

mod anew;
mod cases;
mod five;
mod payment;
mod promised;
mod stated;

pub use anew::verdicts_anew;
pub use cases::{Played, Unmet, body, play};
pub use five::Five;
pub use payment::Payment;
pub use promised::{Both, both_ways, either_order, never_funded, unaffordable};
pub use stated::Stated;

#[cfg(test)]
mod tests;
