//! Worked cases of the program's calls, as tests: the words of `sync` and `serve`, what is fetched over links in memory,
//! and what is printed and sent.
#![tactic(auto)]

#[cfg(test)]
mod tests;
