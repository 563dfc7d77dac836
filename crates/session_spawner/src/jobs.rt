//! Sessions as jobs of a thread.

use ledger_codec::Spell;
use ledger_log::CompactFamily;
use std::sync::Wait;
use std::thread;
use std::thread::{JoinHandle, Threads};
use sync_net::Link;
use sync_sessions::{CompactServed, CompactSession, Gate, ServedFamily, Session, SessionEnd};

/// A session, over whatever it is answered from.
pub(crate) trait Job {
    /// Runs it to its end.
    fn run_to_end<R: Wait>(self, rt: &R) -> SessionEnd;
}

impl<F: ServedFamily, L: Link + Drop, G: Gate + Drop> Job for Session<F, L, G>
where
    F::Op: Spell,
{
    fn run_to_end<R: Wait>(self, rt: &R) -> SessionEnd {
        self.run(rt)
    }
}

impl<
    F: ServedFamily + CompactFamily,
    DB: CompactServed<F> + Drop,
    L: Link + Drop,
    G: Gate + Drop,
> Job for CompactSession<F, DB, L, G>
where
    F::Op: Spell,
{
    fn run_to_end<R: Wait>(self, rt: &R) -> SessionEnd {
        self.run(rt)
    }
}

/// The thread that runs this job; where none can be made, the job is run on the caller.
pub(crate) fn run_beside<R: Threads + Wait + Copy + Send + 'static, J: Job + Send + Drop + 'static>(
    rt: &R,
    job: J,
) -> Option<JoinHandle<SessionEnd>> {
    let theirs = *rt;
    match thread::spawn(rt, move || job.run_to_end(&theirs)) {
        Ok(thread) => Some(thread),
        Err(refused) => {
            (refused.value)();
            None
        }
    }
}
