//! The parts of `serve`: what its words ask for, the accounts of a job that is served, and the logs of test
//! operations.
//!
//! ```text
//!   words --serve_form--> ServeForm
//!   job   --parse_accounts--> the accounts that its log opens with, or the least offending line
//!   number, seed --test_log, compact_test_log--> a log with that many test operations
//!   number, seed, floor --test_batch--> what is appended before a connection is served
//! ```
#![tactic(auto)]

mod accounts;
mod batch;
mod family;
mod form;
mod logs;
mod options;

pub use accounts::parse_accounts;
pub use batch::test_batch;
pub use family::TestedFamily;
pub use form::{ServeForm, ServedFrom, serve_form};
pub use logs::{compact_test_log, test_log};
