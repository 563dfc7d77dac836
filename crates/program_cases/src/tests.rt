//! Worked examples.

mod forms;
mod parts;
mod serve;
mod sync;
