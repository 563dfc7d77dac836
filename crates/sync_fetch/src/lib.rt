//! Asking a peer what there is to sync to, and for a log without its operations.
//!
//! ```text
//! a request --Machine::submit_*--> frame --Link::send--> the peer
//!                                                            |
//! its answer <--Machine::next_answer-- bytes <--Link::recv---+
//! ```
//!
//! One request is sent, and frames are taken until one holds the message under its number. Messages under
//! other numbers are strays, and only so many are let through. A target isn't proved by anything: what is
//! fetched afterwards is proved against it. A state is, by the root of its target.
#![tactic(auto)]

mod exchange;
mod fault;
mod state;
mod target;

pub use fault::StateFault;
pub use state::fetch_compact;
pub use target::{fetch_compact_target, fetch_target};
