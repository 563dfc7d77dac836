//! Sessions on threads.
ghost use Rattle.std.specs.Prelude.{◌≡◌};

use crate::spawner::Spawner;
use std::sync::Wait;
use std::thread::{JoinHandle, Threads};
use sync_sessions::SessionEnd;

/// Runs each session on a thread of its own. It is to be joined before it is let go: a thread that isn't joined may
/// be cut off when the program ends.
#[derive(Drop)]
pub struct ThreadSpawner {
    threads: [Option<JoinHandle<SessionEnd>>; 8],
    started: usize,
    joined: usize,
}

impl ThreadSpawner {
    /// None was started.
    pub fn new() -> ThreadSpawner
        ensures started { result.started ≡ 0 }
        ensures joined { result.joined ≡ 0 }
    {
        ThreadSpawner {
            threads: [None, None, None, None, None, None, None, None],
            started: 0,
            joined: 0,
        }
    }
}

impl Spawner for ThreadSpawner {
    ghost use Rattle.std.specs.Prelude.{true};

    ghost started = { λ s. s.started };

    ghost joined = { λ s. s.joined };

    ghost beside = { λ _. true };

    fn runs_beside(&self) -> bool {
        true
    }

    fn keep(&mut self, thread: Option<JoinHandle<SessionEnd>>) {
        self.threads[self.started] = thread;
        self.started += 1;
    }

    fn join_all<R: Threads + Wait>(&mut self, rt: &R) {
        for thread in &mut self.threads {
            if let Some(thread) = thread.take() {
                thread.join(rt);
            }
        }
        self.joined = self.started;
    }
}
