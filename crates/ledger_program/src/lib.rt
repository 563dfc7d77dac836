//! The program as calls over what they are given: words, a job to read, and a sink to write to.
//!
//! ```text
//!   words, job --read_job--> Job --served, or dial--> a link to the log --follow--> Report --report_text--> sink
//!                 |                         |                              |
//!                 +--------------------- RunFault -------------------------+--error_line--> sink
//! ```
//!
//! [`follow`] takes any link: it fetches the target's range, checks it against the root, and settles blocks on it.
//! Its contract stands over the definitions of `specs/Follow.antt`.
//!
//! [`follow_opened`] settles blocks on a log of accounts that are given, as a run does on the log that a job serves;
//! [`printed`], [`unprinted`] and [`refused`] end a run.
//!
//! What a run answers is said by the contract of [`run`], over the definitions of `specs/Run.antt`: the report is that
//! of the job's blocks over the log that the job serves, or over what a dialed link gave, and each fault has its cause.
//! The job, the printed report and the error lines are described in docs/FORMATS.md.
#![tactic(auto)]

mod digits;
mod ending;
mod error_line;
mod fault;
mod following;
mod key_text;
mod local;
mod once;
mod outcome;
mod peer;
mod printable;
mod program;
mod reading;
mod report_text;
mod served;
mod words;
mod writing;

pub use digits::decimal_digits;
pub use ending::{printed, refused, starved, unprinted, write_line};
pub use error_line::{number_line, root_line, server_line, update_line};
pub use fault::Fault;
pub use following::follow;
pub use key_text::hex_digits;
pub use local::follow_opened;
pub use outcome::{Outcome, RunFault, status_of};
pub use program::run;
pub use reading::{ReadFault, read_all};
pub use report_text::push_end;
pub use served::served_log;
pub use words::workers_of;
pub use writing::{write_all, write_pieces};

#[cfg(test)]
mod tests;
