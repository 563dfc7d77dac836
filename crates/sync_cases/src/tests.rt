//! Worked examples.

mod client;
mod compact;
mod fetch;
mod server;
