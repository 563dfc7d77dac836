//! Worked examples.

mod parts;
mod replays;
mod runs;
mod telling;
