//! `sync ADDRESS`: a database is brought to the root that a peer serves.
//!
//! ```text
//!   words --sync_form--> family, mode, limits
//!   link  --fetch_log--> target, its range, the log of that part
//!         --fetch_compact_log--> compact target, its state, the compact log of that state
//!   form, link --bring--> Synced: what the log of the form shows of itself
//! ```
#![tactic(auto)]

mod compact;
mod form;
mod log;
mod options;
mod synced;

pub use compact::fetch_compact_log;
pub use form::{SyncForm, sync_form};
pub use log::{fetch_log, opened};
pub use synced::{Synced, bring};
