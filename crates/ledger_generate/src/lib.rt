//! `generate SEED ACCOUNTS TRANSFERS`: a large job that is made from three numbers, and settled.
//!
//! ```text
//!   words --form_of--> Sizes --opens, payments--> accounts, one body --follow_opened--> Report --lines--> sink
//! ```
//!
//! The job is that of `specs/Generated.antt`, and in words in docs/FORMATS.md: so many accounts, and payments that go
//! round among them. Its body settles whatever the sizes, which `proofs/Settled.antt` shows.
#![tactic(auto)]

mod generate;
mod job;
mod sizes;
mod text;
mod words;

pub use generate::run_generate;
pub use sizes::Sizes;

#[cfg(test)]
mod tests;
