//! A value that threads share by turns, each call answered at a point of one legal history.
//!
//! ```text
//!   share --> TurnLock, and passes
//!
//!   pass --take, in its turn--> Held { value, history } --give_back--> the pass has seen the history
//!   pass --note--> Note --meet--> another pass has seen it too
//!
//!   close, from all passes --> Held { value, history }
//! ```
//!
//! A turn is a ticket: passes draw numbers, and whoever has the number of the turns that are over takes the
//! value, alone. A history is legal where each outcome is one that the value gives after the entries before it;
//! what may be given back is the value behind at most one entry more, so a history is always legal. What a pass
//! has seen is a beginning of the one history, which has none of its calls but those that it has seen.
#![tactic(auto)]

mod entry;
mod guarded;
mod held;
mod lock;
mod passes;
mod rule;
mod seats;
mod share;

pub use entry::Entry;
pub use guarded::Guarded;
pub use held::Held;
pub use lock::TurnLock;
pub use passes::{Note, Pass};

#[cfg(test)]
mod tests;
