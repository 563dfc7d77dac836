//! Worked examples.

mod activity;
mod compact;
mod examples;
