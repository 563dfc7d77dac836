//! Worked sessions, as tests: what they answer and how they end, alone, on the caller, and on threads.
#![tactic(auto)]

#[cfg(test)]
mod tests;
