//! The parts of a simulated network of consensus engines: peers and rounds, links that lose and delay
//! messages, schedules of failures, engines and the checks of a run, and the tracker that finds a fork.
//!
//! ```text
//!   EngineDefinition --init, step--> engines in a Team --StepOut--> FinalizationUpdate --> ProgressTracker
//! ```
//!
//! `ledger_simulate` runs them. Everything here is a value or a small machine that a run is built of.
#![tactic(auto)]

mod check;
pub mod dkg;
mod engine;
mod exit;
mod link;
mod lists;
pub mod orchestrator;
mod peer;
pub mod probe;
mod reporter;
mod schedule;
mod seats;
mod team;
mod tracker;
mod words;

pub use check::{CheckFault, ExitCondition, FinalizationProperty, Property};
pub use engine::{EngineDefinition, InitContext, ProcessedHeight, StateView, StepEvent, StepOut};
pub use exit::{MinimumFinalizations, ProcessedHeightAtLeast};
pub use link::{FaultConfig, Fraction, SimLink};
pub use lists::{copy_bytes, copy_items, push};
pub use peer::{Peer, Round};
pub use reporter::{Activity, MonitorReporter, Reporter};
pub use schedule::{Action, Crash, Schedule};
pub use seats::{
    Running, Seat, Seats, Start, active_keys, active_states, is_current, is_running, start_engine,
    step_engine, stop_engine,
};
pub use team::{Team, is_among};
pub use tracker::{FinalizationUpdate, ObserveFault, ProgressTracker};
pub use words::draw;
