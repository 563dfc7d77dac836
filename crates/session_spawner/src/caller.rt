//! Sessions on the caller.
ghost use Rattle.std.specs.Prelude.{◌≡◌, ◌≤◌};

use crate::spawner::Spawner;
use std::sync::Wait;
use std::thread::{JoinHandle, Threads};
use sync_sessions::SessionEnd;

/// Runs each session on the caller, to its end.
#[derive(Debug, Drop)]
pub struct CallerSpawner {
    started: usize,
    joined: usize,
}

impl CallerSpawner {
    /// None was started.
    pub fn new() -> CallerSpawner
        ensures { result ≡ record { started = 0; joined = 0 } }
    {
        CallerSpawner {
            started: 0,
            joined: 0,
        }
    }
}

impl Spawner for CallerSpawner {
    ghost use Rattle.std.specs.Prelude.{false};

    ghost started = { λ s. s.started };

    ghost joined = { λ s. s.joined };

    ghost beside = { λ _. false };

    fn runs_beside(&self) -> bool {
        false
    }

    fn keep(&mut self, _thread: Option<JoinHandle<SessionEnd>>) {
        self.started += 1;
    }

    fn join_all<R: Threads + Wait>(&mut self, _rt: &R) {
        self.joined = self.started;
    }
}
