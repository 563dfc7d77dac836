//! Sessions: connections whose messages are answered, one after the other.
//!
//! ```text
//!   link --recv--> bytes --frames--> messages --gate, a turn of the pass--> replies --frames, send--> link
//! ```
//!
//! A session over a shared log (`run_session`, `Session`) answers each message in a turn of its pass, so sessions on
//! threads of their own read one log, each at points of its one history. A `CompactSession` answers from a log that
//! never changes. A frame that is no message gets no reply. What runs sessions beside each other is a spawner.
#![tactic(auto)]

mod compact;
mod compact_job;
mod ending;
mod family;
mod gate;
mod hearing;
mod job;
mod sending;
mod session;

pub use compact::CompactServed;
pub use compact_job::CompactSession;
pub use ending::SessionEnd;
pub use family::ServedFamily;
pub use gate::{Gate, OpenGate};
pub use job::Session;
pub use session::run_session;
