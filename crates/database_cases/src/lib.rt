//! Worked cases of databases, as tests: full and compact logs side by side, which operations of a current log count, and
//! the test operations of each family. Roots are those of ledger_examples' vectors/families.py.
#![tactic(auto)]

#[cfg(test)]
mod tests;
