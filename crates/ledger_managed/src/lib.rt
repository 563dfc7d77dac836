//! Accounts as values of a log.
//!
//! A log keeps values of 32 bytes under its keys. An [`AccountValue`] says which account a value spells and
//! which value an account has, so that accounts can be replayed from a log's operations and written back
//! to it.
#![tactic(auto)]

mod value;

pub use value::AccountValue;
