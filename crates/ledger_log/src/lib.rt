//! Logs: lists of operations that end in a commit, with a root and a floor.
//!
//! ```text
//! batch of operations --append_batch--> Log --historical_proof--> operations of a range, and their proof
//!                                        |
//!                                        +--root, size--> what a client syncs to
//!                                        +--prune--> a log that begins at a later front
//! ```
//!
//! A batch is some operations and one commit behind them. The commit's floor says from where on a client
//! needs the log, and never falls; a log may drop what lies below it. What differs between the families
//! of logs is their operations alone. The bytes of the operations are those of docs/FORMATS.md.
#![tactic(auto)]

mod any;
mod bytes;
mod family;
mod fault;
mod immutable;
mod index;
mod keyless;
mod log;
mod spelling;
mod target;
#[cfg(test)]
mod tests;

pub use any::{AnyFamily, AnyOp};
pub use family::{CompactFamily, Family, Key, KeyedFamily, Value};
pub use fault::LogFault;
pub use immutable::{ImmutableFamily, ImmutableOp};
pub use keyless::{KeylessFamily, KeylessOp};
pub use log::Log;
pub use target::{CompactState, CompactTarget, Target};
