//! What reaches the network, and what stands in for it: dialers and listeners.
//!
//! ```text
//!   address --dial--> MemoryDialer over any link    |   TcpDialer over a runtime's sockets
//!   accept  --------> ListListener over any links   |   TcpAccepting over a bound listener, as StreamLinks
//! ```
//!
//! The forms in memory tell what their links tell. The forms over sockets tell their counts of failed calls
//! alone, since no contract can say what a socket gives.
#![tactic(auto)]

mod accept;
mod list;
mod listener;
mod memory;
mod stream;
mod tcp;

pub use accept::TcpAccepting;
pub use list::ListListener;
pub use listener::{ListenFailed, Listener};
pub use memory::MemoryDialer;
pub use stream::StreamLink;
pub use tcp::TcpDialer;

#[cfg(test)]
mod tests;
