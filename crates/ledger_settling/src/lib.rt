//! The report of a fetched part of a log: its accounts replayed, and blocks of transfers settled on them.
//!
//! ```text
//!   Part --open--> Log --replay--> accounts
//!                   ^                 |
//!                   |        per block: plan or selection --> slots
//!                   +--apply-- a batch: one operation per changed key, copies, a commit
//! ```
//!
//! Each block settles against the accounts that it opens with: a credit of the block funds no debit of the
//! block. What a report says is `ReportOf` of `specs/Reports.antt`, which stands on the meaning of blocks
//! in `specs/Blocks.antt`; why there is none is `RunFails` of `specs/Faults.antt`.
#![tactic(auto)]

mod applying;
mod fault;
mod open;
mod replay;
mod report;
mod rounds;
mod settle;
mod slots;

pub use fault::ReportFault;
pub use open::report_of;
pub use report::{Accounts, Report};
