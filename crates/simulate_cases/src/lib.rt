//! Worked cases of simulated networks, as tests: trackers, teams and draws, and whole runs.
#![tactic(auto)]

#[cfg(test)]
mod tests;
