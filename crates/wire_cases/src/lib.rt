//! Worked cases of bytes, as tests: numbers, lists, texts and frames; each kind of message, and what the machine answers.
#![tactic(auto)]

#[cfg(test)]
mod tests;
