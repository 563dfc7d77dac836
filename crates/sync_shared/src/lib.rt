//! A log that sessions share: each call is answered at a point of one legal history.
//!
//! ```text
//!   message --serve-->  the reply of the core over the log as it is in the pass's turn
//!   batch   --append--> the new size, or the fault with which the log refuses it then
//! ```
//!
//! Every call with an entry is in the history once, in the order of the turns. No reply comes from a copy of the
//! log: it is made in the turn, from the log itself.
#![tactic(auto)]

mod event;
mod refusal;
mod shared;
mod turns;

pub use event::{Event, EventOutcome, LogCalls};
pub use refusal::ShareRefusal;
pub use shared::{Closed, Entry, Note, Pass, SharedLog};
