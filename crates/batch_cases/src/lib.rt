//! Worked cases of batches, as tests: what they read, the slots and sets that they take, the roots after them against
//! an independent computation, what they bring a log, and which logs refuse them.
#![tactic(auto)]

#[cfg(test)]
mod tests;
