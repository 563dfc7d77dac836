//! Accounts of up to four numbers as values of a log.
//!
//! ```text
//!   account <──> Numbers <── to_value, from_value ──> 32 bytes
//! ```
//!
//! The bytes and all that is to be proved of them is done here: `specs/Laws.antt` has the laws of the values of any
//! account that is made of these numbers, as [`ledger_managed::AccountValue`] wants them.
#![tactic(auto)]

mod numbers;

pub use numbers::Numbers;
