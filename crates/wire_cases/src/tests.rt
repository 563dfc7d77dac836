//! Worked examples.

mod bytes;
mod net;
