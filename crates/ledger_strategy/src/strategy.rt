//! The trait, and the strategy that runs every part on the caller.
ghost use Rattle.std.specs.Prelude.{◌≡◌, ℕ, IfOk};
ghost use Rattle.ledger_strategy.specs.Parts.{AreResults};

use crate::lanes::side_by_side;
use ledger_codec::OutOfMemory;
use std::alloc::Global;
use std::thread::Threads;

/// Runs work that falls into parts.
pub trait Strategy: Sync {
    ghost workers: { Self → ℕ };

    /// How many parts may run at one time. With at most one, every part runs on the caller.
    fn workers(&self) -> usize
        ensures { result ≡ workers self.now };

    /// Called before each part that runs beside others, in the thread that runs it, so that a strategy can count or trace its
    /// parts.
    fn begins(&self, part: usize);

    /// What `work` answers for 0, 1 and so on, in order. `final`, so that every strategy gives this answer; one differs from
    /// another only in where the parts run.
    final fn map_parts<Rt: Threads + Sync, R: Send + Drop, F: Fn(usize) -> R + Sync>(
        &self,
        rt: &Rt,
        alloc: Global,
        parts: usize,
        work: F,
    ) -> Result<Vec<R>, OutOfMemory>
        requires { F.IsAlwaysCallable work }
        ensures { IfOk result (λ answers. AreResults (F.post work) parts answers.items) }
    {
        let threads = self.workers().min(parts);
        if threads <= 1 {
            return one_by_one(alloc, parts, work);
        }
        side_by_side(rt, alloc, self, threads, parts, &work)
    }
}

/// What `work` answers for each part, run one after another on the caller.
fn one_by_one<R: Send + Drop, F: Fn(usize) -> R + Sync>(
    alloc: Global,
    parts: usize,
    work: F,
) -> Result<Vec<R>, OutOfMemory>
    requires { F.IsAlwaysCallable work }
    ensures { IfOk result (λ answers. AreResults (F.post work) parts answers.items) }
{
    let mut answers = Vec::with_capacity(alloc, parts)?;
    for part in 0..parts {
        answers.push(work(part))?;
    }
    Ok(answers)
}

/// Runs each part on the caller.
#[derive(Clone, Copy, Debug, PartialEq, Eq)]
pub struct Sequential;

impl Strategy for Sequential {
    ghost workers = { λ _. 1 };

    fn workers(&self) -> usize {
        1
    }

    fn begins(&self, _part: usize) {}
}

#[cfg(test)]
mod tests {
    use super::*;
    use std::sync::atomic::{AtomicU64, Ordering};
    use std::test::Fail;

    /// Two workers that count the parts that they run.
    #[derive(Drop)]
    struct Counting {
        parts: AtomicU64,
    }

    impl Strategy for Counting {
        ghost workers = { λ _. 2 };

        fn workers(&self) -> usize {
            2
        }

        fn begins(&self, _part: usize) {
            self.parts.fetch_add(1, Ordering::SeqCst);
        }
    }

    /// The squares of 0 to 4, through the bound.
    fn squares<S: Strategy, Rt: Threads + Sync>(
        strategy: &S,
        rt: &Rt,
        alloc: Global,
    ) -> Result<Vec<usize>, OutOfMemory> {
        strategy.map_parts(rt, alloc, 5, |part: usize| part.saturating_mul(part))
    }

    #[test]
    fn parts_answer_in_order(rt: HostRuntime) -> Result<(), Fail> {
        let one = squares(&Sequential, &rt, rt.alloc())?;
        assert_eq!(rt; one.as_slice(), [0usize, 1, 4, 9, 16].as_slice());
        assert_eq!(rt; Sequential.workers(), 1);
        Ok(())
    }

    #[test]
    fn every_part_beside_others_is_counted(rt: HostRuntime) -> Result<(), Fail> {
        let strategy = Counting {
            parts: AtomicU64::new(0),
        };
        let two = squares(&strategy, &rt, rt.alloc())?;
        assert_eq!(rt; two.as_slice(), [0usize, 1, 4, 9, 16].as_slice());
        assert_eq!(rt; strategy.parts.load(Ordering::SeqCst), 5);
        Ok(())
    }
}
