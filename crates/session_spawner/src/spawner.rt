//! What starts sessions.
ghost use Rattle.std.specs.Prelude.{◌≡◌, ℕ, ◌+◌, ◌<◌, Bool, IsSome, IsTrue};

use crate::jobs::run_beside;
use ledger_codec::Spell;
use ledger_log::CompactFamily;
use std::sync::Wait;
use std::thread::{JoinHandle, Threads};
use sync_net::Link;
use sync_sessions::{CompactServed, CompactSession, Gate, ServedFamily, Session, SessionEnd};

/// How many sessions a spawner may start.
pub const MAX_SESSIONS: usize = 8;

/// Runs sessions beside the caller, and joins them.
pub trait Spawner {
    /// How many sessions were started.
    ghost started: { Self → ℕ };

    /// How many of them were joined.
    ghost joined: { Self → ℕ };

    /// Whether it runs sessions on threads of their own.
    ghost beside: { Self → Bool };

    /// Whether it runs sessions on threads of their own.
    fn runs_beside(&self) -> bool
        ensures { result ≡ beside self.now };

    /// Takes note of a session that was started: its thread, or none where it has ended.
    fn keep(&mut self, thread: Option<JoinHandle<SessionEnd>>)
        requires room { started self.old < 8 }
        requires threads { IsSome thread → IsTrue (beside self.old) }
        ensures started { started self.new ≡ started self.old + 1 }
        ensures joined { joined self.new ≡ joined self.old }
        ensures beside { beside self.new ≡ beside self.old };

    /// Comes back once each started session has ended.
    fn join_all<R: Threads + Wait>(&mut self, rt: &R)
        ensures started { started self.new ≡ started self.old }
        ensures joined { joined self.new ≡ started self.old }
        ensures beside { beside self.new ≡ beside self.old };

    /// Runs a session over a shared log beside the caller, or on the caller where no thread can be made. It may wait
    /// as the session does.
    final fn start<
        R: Threads + Wait + Copy + Send + 'static,
        F: ServedFamily + Send + Sync + 'static,
        L: Link + Send + Drop + 'static,
        G: Gate + Send + Sync + Drop + 'static,
    >(&mut self, rt: &R, job: Session<F, L, G>)
    where
        F::Op: Spell + Send + Sync + 'static,
        requires number { job.number ≡ started self.old }
        requires room { started self.old < 8 }
        ensures started { started self.new ≡ started self.old + 1 }
        ensures joined { joined self.new ≡ joined self.old }
        ensures beside { beside self.new ≡ beside self.old }
    {
        if self.runs_beside() {
            self.keep(run_beside(rt, job));
            return;
        }
        job.run(rt);
        self.keep(None);
    }

    /// Runs a session over a log that never changes, as [`Spawner::start`] does.
    final fn start_compact<
        R: Threads + Wait + Copy + Send + 'static,
        F: ServedFamily + CompactFamily + Send + Sync + 'static,
        DB: CompactServed<F> + Send + Sync + Drop + 'static,
        L: Link + Send + Drop + 'static,
        G: Gate + Send + Sync + Drop + 'static,
    >(&mut self, rt: &R, job: CompactSession<F, DB, L, G>)
    where
        F::Op: Spell + Send + Sync + 'static,
        requires number { job.number ≡ started self.old }
        requires room { started self.old < 8 }
        ensures started { started self.new ≡ started self.old + 1 }
        ensures joined { joined self.new ≡ joined self.old }
        ensures beside { beside self.new ≡ beside self.old }
    {
        if self.runs_beside() {
            self.keep(run_beside(rt, job));
            return;
        }
        job.run(rt);
        self.keep(None);
    }
}
