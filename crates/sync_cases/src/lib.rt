//! Worked cases of what is served and fetched, as tests: replies, links, collectors, sessions, targets and states.
#![tactic(auto)]

#[cfg(test)]
mod tests;
