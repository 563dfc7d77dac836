//! A deterministic simulated network, in which consensus engines are stepped, crash, restart and report
//! finalized blocks, one seed at a time. A run is a success only where no two reports disagree, the exit
//! condition was met, every property holds and every configured failure came to something.
//!
//! ```text
//!   PlanBuilder --build--> Plan --new--> Simulation --step--> On | Done(PlanResult) | SimEnd
//!
//!   queue --first event--> engine --timers, messages--> queue
//!                             \----reports--> tracker --> exit condition, properties
//! ```
//!
//! The parts that a run is built of stand in `simulate_parts`, and are handed on here.
#![tactic(auto)]

mod agenda;
mod asks;
mod event;
mod exercise;
mod fault;
mod handling;
mod links;
mod meaning;
mod messages;
mod opening;
mod plan;
mod queue;
mod reports;
mod run;
mod setting;
mod simulation;
mod spelling;
mod watch;
mod world;

pub use event::Event;
pub use fault::PlanFault;
pub use plan::{Plan, PlanBuilder};
pub use simulate_parts::{
    Action, Activity, CheckFault, Crash, EngineDefinition, ExitCondition, FaultConfig,
    FinalizationProperty, FinalizationUpdate, Fraction, InitContext, MinimumFinalizations,
    MonitorReporter, ObserveFault, Peer, ProcessedHeight, ProcessedHeightAtLeast, ProgressTracker,
    Property, Reporter, Round, Schedule, SimLink, StateView, StepEvent, StepOut, Team, dkg, draw,
    orchestrator, probe,
};
pub use simulation::{Ended, PlanResult, SimEnd, Simulation, Stepped};
