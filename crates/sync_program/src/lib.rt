//! `sync ADDRESS`: words, a dialer and a sink.
//!
//! ```text
//!   words --sync_form--> form --dial--> a link --bring--> Synced --write_synced--> sink
//!            |                    |                |
//!            +---------------- Refusal ------------+--write_line--> sink
//! ```
//!
//! What is printed stands over the definitions of `specs/Text.antt`, what came over the link over those of
//! `ledger_sync`, and how a call ends over those of `specs/Run.antt`. The lines are described in
//! docs/FORMATS.md.
#![tactic(auto)]

mod lines;
mod outcome;
mod program;
mod text;

pub use outcome::SyncOutcome;
pub use program::run_sync;
