//! What a run is asked to do, and the text that says so.
//!
//! ```text
//!   bytes --cut--> a line --cut--> its fields --parse_line--> Line --Gathered::push--> Job { opens, target, updates, limits, blocks }
//!                                                             |
//!                                                             +--> the least offending line, counted from 1
//! ```
//!
//! A job opens accounts, or names the range of a peer's log, and then lists blocks of transfers: a body, which settles whole, or rounds of
//! candidates, of which those are taken that settle with the ones taken before them. The text is stated
//! in `specs/Lines.antt` and `specs/Jobs.antt`, and in words in docs/FORMATS.md. It is read line by line:
//! what isn't asked for takes no memory.
#![tactic(auto)]

mod block;
mod build;
mod job;
mod key;
mod kind;
mod limits;
mod line;
mod number;
mod payment;
mod place;
mod split;
mod target;

pub use block::{Block, BlockVerdicts};
pub use job::{Job, JobFault, parse_job};
pub use key::{filled, is_name};
pub use kind::JobKind;
pub use limits::JobLimits;
pub use line::{Line, Open, parse_line};
pub use number::parse_number;
pub use payment::Payment;
pub use place::Section;
pub use split::{all_lines, cut};
