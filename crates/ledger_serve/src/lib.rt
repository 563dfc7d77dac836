//! `serve`: a log is served to connections, each in a session of its own.
//!
//! ```text
//!   words, job --run_serve--> a log, shared --accept--> link --start--> Session --> spawner
//!                                  ^                                              |
//!                                  +-- a batch before each session      join_all -+--> `sessions N`
//! ```
//!
//! In full mode all sessions share one log, each by a pass of its own; batches are appended by a further pass. In
//! compact mode they read one log that never changes. What a run answers is said by the contract of [`run_serve`],
//! over the definitions of `specs/Serving.antt` and `specs/Outcomes.antt`.
#![tactic(auto)]

mod compact;
mod ending;
mod full;
mod growing;
mod lines;
mod outcome;
mod reading;
mod serve;
mod tested;

pub use outcome::ServeOutcome;
pub use serve::run_serve;
