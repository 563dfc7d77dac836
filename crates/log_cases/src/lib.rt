//! Worked cases of trees and logs, as tests: roots, proofs and prunes against an independent computation, what a log
//! refuses, and two parts of one root under a weak digest.
#![tactic(auto)]

#[cfg(test)]
mod tests;
