//! How work that falls into parts is run. A caller cuts its work into numbered parts and hands a [`Strategy`] one closure; the
//! strategy decides where the parts run, and the answers come back in the order of the parts:
//!
//! ```text
//! work ── part 0, 1, .. ──▶ Strategy::map_parts ──▶ [work(0), work(1), ..]
//! ```
#![tactic(auto)]

mod lanes;
mod strategy;
mod workers;

pub use lanes::{joined, row_of};
pub use strategy::{Sequential, Strategy};
pub use workers::Workers;
