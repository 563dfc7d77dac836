//! Fetching a range of a log from a peer that isn't trusted.
//!
//! A target is a root and a range below it. The range is asked in batches, several at once; each answer is
//! kept only with a proof against the root, and what a short answer leaves is asked again. When every
//! location is kept, the operations and the pinned nodes before them are a part whose root is the target's.
//! While answers come, a later target may be named: from then on it is asked for up to its end, and what was
//! asked before is still judged by the target that it was asked for.
//!
//! ```text
//! Target, Limits --> Collector --next_ask--> Machine --frame--> Link --> the peer
//!                     ^  ^  |                   |                            |
//! Targets --retarget--+  |  +--finish--> Part   |                            |
//!                        +--------accept--------+<----------bytes-----------+
//! ```
//!
//! `sync_full` is this loop over a link. What it does with the bytes that come is a definition of its own,
//! `specs/Session` and `specs/Runs`, which knows frames and asks and neither buffers nor collections: over
//! the same bytes a session ends in one way, however they were cut.
#![tactic(auto)]

mod asked;
mod collector;
mod fault;
mod hashed;
mod joining;
mod judging;
mod limits;
mod ranges;
mod receiving;
mod session;
mod steps;
mod targets;

pub use asked::Asked;
pub use collector::{Collector, Piece};
pub use fault::{CollectFault, SyncFault};
pub use hashed::HashedPart;
pub use limits::Limits;
pub use receiving::receive;
pub use session::{sync_full, sync_hashed};
pub use steps::MAX_STRAYS;
pub use targets::{ListTargets, MAX_UPDATES, NoTargets, Targets};
