//! Sessions beside each other: one waits in the gate until the other was answered.

use super::started::{run_two, two_sessions};
use super::three;
use session_spawner::ThreadSpawner;
use std::alloc::Global;
use std::sync::atomic::{AtomicU64, Ordering};
use std::sync::{Arc, Wait};
use std::test::Fail;
use std::thread::Threads;
use sync_server::TapeLink;
use sync_sessions::Gate;

/// How often session 0 looks for session 1.
const LOOKS: u64 = 1_000_000_000;

/// The frame of a request for the target.
const ONE: [u8; 10] = [9, 2, 0, 0, 0, 0, 0, 0, 0, 1];

/// Two such frames.
const TWO: [u8; 20] = [9, 2, 0, 0, 0, 0, 0, 0, 0, 1, 9, 2, 0, 0, 0, 0, 0, 0, 0, 2];

/// Holds session 0's first request until session 1's second one comes.
#[derive(Drop)]
struct Meeting {
    came: AtomicU64,
    met: AtomicU64,
}

impl Meeting {
    /// Looks until the other came.
    fn wait(&self) {
        for _ in 0..LOOKS {
            if self.came.load(Ordering::SeqCst) == 1 {
                self.met.store(1, Ordering::SeqCst);
                return;
            }
        }
    }

    /// Whether session 0 saw session 1.
    fn was_held(&self) -> bool {
        self.met.load(Ordering::SeqCst) == 1
    }
}

impl Gate for Meeting {
    fn pass(&self, session: usize, request: usize) {
        match (session, request) {
            (0, 0) => self.wait(),
            (1, 1) => self.came.store(1, Ordering::SeqCst),
            _ => {}
        }
    }
}

/// A gate in which none was yet.
fn new_gate(alloc: Global) -> Option<Arc<Meeting, Global>> {
    let came = AtomicU64::new(0);
    let met = AtomicU64::new(0);
    Arc::new(alloc, Meeting { came, met }).ok()
}

/// A tape of these bytes.
fn tape(alloc: Global, bytes: &[u8]) -> Option<TapeLink> {
    let bytes = Vec::from_slice(alloc, bytes).ok()?;
    Some(TapeLink::new(alloc, bytes, Vec::new(alloc), Vec::new(alloc)))
}

/// Whether session 0 waited in the gate until session 1 was answered once and came again.
fn meet<R: Threads + Wait + Copy + Send + 'static>(rt: &R, alloc: Global) -> Option<bool> {
    let log = three(alloc)?;
    let gate = new_gate(alloc)?;
    let links = (tape(alloc, &ONE)?, tape(alloc, &TWO)?);
    let (first, second) = two_sessions(alloc, log, 2, links, &gate)?;
    let mut spawner = ThreadSpawner::new();
    run_two(rt, &mut spawner, first, second);
    Some(gate.was_held())
}

#[test]
fn sessions_go_side_by_side(rt: HostRuntime) -> Result<(), Fail> {
    assert_eq!(rt; meet(&rt, rt.alloc()), Some(true));
    Ok(())
}
