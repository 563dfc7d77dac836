//! Chains of sealed batches: what a batch stands on, what its writes change there, and where that leaves a log.
//!
//! ```text
//! Chain: State -- Link -- Link ..     writes --Chain::changes--> operations
//! log, links --standing_behind--> size and floor with them behind it
//! ```
//!
//! A chain knows a log by its size and root alone, and holds no log. What a sealed batch holds is shared by all
//! chains that it is a part of.
#![tactic(auto)]

mod chain;
mod changes;
mod fault;
mod link;
mod standing;
mod state;
mod writes;

pub use chain::Chain;
pub use fault::ManagedFault;
pub use link::Link;
pub use standing::{Standing, joined_ops, standing_behind};
pub use state::{State, state_behind, state_of};
pub use writes::Writes;
