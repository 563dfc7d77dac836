//! The strategy that runs parts in threads.
ghost use Rattle.std.specs.Prelude.{◌≡◌, ℕ, ◌≤◌, ◌&&◌, Some, None, nat_le, if◌then◌else◌};
ghost use Rattle.ledger_strategy.specs.Parts.{max_workers};

use crate::strategy::Strategy;
use std::marker::Model;

/// Runs parts in at most this many threads, each of which takes parts in turn, and joins them.
#[derive(Clone, Copy, Debug, PartialEq, Eq)]
pub struct Workers {
    count: usize,
}

impl Model for Workers {
    ghost Value = { ℕ };

    ghost view = { λ w. w.count };

    ghost invariant = { λ w. (1 ≤ w.count) × (w.count ≤ max_workers) };

    ghost inverse = { λ n. record { count = n } };
}

/// The greatest number of workers.
pub const MAX_WORKERS: usize = 64;

impl Workers {
    /// So many workers, or none where that is 0 or above 64.
    pub fn new(n: usize) -> Option<Workers>
        ensures { result ≡ (if nat_le 1 n && nat_le n max_workers then Some n else None) }
    {
        if 1 <= n && n <= MAX_WORKERS {
            Some(Workers { count: n })
        } else {
            None
        }
    }
}

impl Strategy for Workers {
    ghost workers = { λ w. w };

    fn workers(&self) -> usize {
        self.count
    }

    fn begins(&self, _part: usize) {}
}

#[cfg(test)]
mod tests {
    use super::*;
    use std::sync::atomic::{AtomicU64, Ordering};
    use std::test::Fail;

    /// Raises a flag, and looks for the other one for a while.
    fn meets(mine: &AtomicU64, theirs: &AtomicU64) -> bool {
        mine.store(1, Ordering::SeqCst);
        for _ in 0..200_000_000u64 {
            if theirs.load(Ordering::SeqCst) == 1 {
                return true;
            }
        }
        false
    }

    #[test]
    fn two_workers_run_side_by_side(rt: HostRuntime) -> Result<(), Fail> {
        let first = AtomicU64::new(0);
        let second = AtomicU64::new(0);
        let Some(two) = Workers::new(2) else {
            return Ok(());
        };
        let met = two.map_parts(&rt, rt.alloc(), 2, |part: usize| {
            if part == 0 {
                meets(&first, &second)
            } else {
                meets(&second, &first)
            }
        })?;
        assert_eq!(rt; met.as_slice(), [true, true].as_slice());
        Ok(())
    }

    /// Whether more than three parts run as this one does.
    fn is_crowded(running: &AtomicU64) -> bool {
        let before = running.fetch_add(1, Ordering::SeqCst);
        for _ in 0..10_000u64 {
            running.load(Ordering::SeqCst);
        }
        running.fetch_sub(1, Ordering::SeqCst);
        before >= 3
    }

    #[test]
    fn three_workers_run_three_parts_at_most(rt: HostRuntime) -> Result<(), Fail> {
        let running = AtomicU64::new(0);
        let Some(three) = Workers::new(3) else {
            return Ok(());
        };
        let crowded = three.map_parts(&rt, rt.alloc(), 11, |_part: usize| is_crowded(&running))?;
        assert_eq!(rt; crowded.as_slice(), [false; 11].as_slice());
        Ok(())
    }

    #[test]
    fn workers_are_1_to_64(rt: HostRuntime) -> Result<(), Fail> {
        for (n, count) in [(0usize, 0usize), (1, 1), (3, 3), (64, 64), (65, 0)] {
            let workers = match Workers::new(n) {
                Some(workers) => workers.workers(),
                None => 0,
            };
            assert_eq!(rt; workers, count);
        }
        Ok(())
    }

    #[test]
    fn squares_are_in_order(rt: HostRuntime) -> Result<(), Fail> {
        let Some(three) = Workers::new(3) else {
            return Ok(());
        };
        let squares = three.map_parts(&rt, rt.alloc(), 5, |part: usize| part.saturating_mul(part))?;
        assert_eq!(rt; squares.as_slice(), [0usize, 1, 4, 9, 16].as_slice());
        Ok(())
    }
}
