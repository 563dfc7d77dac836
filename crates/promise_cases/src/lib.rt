//! Promises that stand under a premise, each kept once: for every public clause that says something only where
//! something else holds, one function below meets the premise at a type and a value of its own, and says the
//! conclusion in its own contract. A clause that nobody could use would have no function here.
#![tactic(auto)]

#[cfg(test)]
mod tests;
