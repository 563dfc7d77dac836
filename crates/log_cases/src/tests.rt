//! Worked examples.

mod binding;
mod logs;
mod trees;
