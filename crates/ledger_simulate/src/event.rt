//! What a run handles.

use ledger_codec::List;
use simulate_parts::{Action, Peer};

/// An event of a run.
#[derive(Drop)]
pub enum Event {
    /// An engine was started. Its number is the engine's birth.
    Started {
        pk: Peer,
    },
    /// A timer of the engine of this birth runs out.
    Timer {
        pk: Peer,
        birth: u64,
    },
    /// A message arrives.
    Received {
        from: Peer,
        to: Peer,
        channel: u64,
        bytes: List<u8>,
    },
    /// A schedule's action is due.
    Act(Action),
    /// A random crash is due.
    CrashTick,
    /// The exit condition is polled.
    ExitPoll,
    /// The downtime of a peer ends.
    Recover {
        pk: Peer,
    },
}
