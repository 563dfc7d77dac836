//! Parts that are run by few threads: each takes a row of parts that follow one another, and runs them in turn.
ghost use Rattle.std.specs.Prelude.{◌≡◌, ℕ, ◌+◌, ◌<◌, ◌≤◌, length, IfOk, IfErr};
ghost use mathlib.Core.Logic.{◌⊎◌};
ghost use Rattle.std.specs.List.{All};
ghost use Rattle.ledger_strategy.specs.Parts.{AreResults, AreResultsFrom, start_of, pieces, IsPiece, HasFault};

use crate::strategy::Strategy;
use ledger_codec::OutOfMemory;
use std::alloc::Global;
use std::ops::Range;
use std::thread;
use std::thread::Threads;

/// The places of a row, of `rows` rows that follow one another and cut `len` places evenly. Behind the last row there is none.
pub fn row_of(row: usize, rows: usize, len: usize) -> Range<usize>
    requires { 0 < rows }
    ensures start { result.start ≡ start_of row rows len }
    ensures end { result.end ≡ start_of (row + 1) rows len }
    ensures order { result.start ≤ result.end }
    ensures within { result.end ≤ len }
{
    let share = len.div_ceil(rows);
    let start = row.saturating_mul(share).min(len);
    start..start.saturating_add(share).min(len)
}

/// What `work` answers for the parts of a row, one after another.
fn run_row<S: Strategy, R: Send + Drop, F: Fn(usize) -> R + Sync>(
    alloc: Global,
    strategy: &S,
    from: usize,
    upto: usize,
    work: &F,
) -> Result<Vec<R>, OutOfMemory>
    requires order { from ≤ upto }
    requires callable { F.IsAlwaysCallable work.now }
    ensures { IfOk result (λ answers. AreResultsFrom (F.post work.now) from upto answers.items) }
{
    let mut answers = Vec::with_capacity(alloc, upto - from)?;
    for part in from..upto {
        strategy.begins(part);
        answers.push(work(part))?;
    }
    Ok(answers)
}

/// The lists that parts answered, one after another, or the first fault that one of them answered, or want of memory.
pub fn joined<X: Drop, E: From<OutOfMemory> + Drop>(
    alloc: Global,
    lists: Vec<Result<Vec<X>, E>>,
) -> Result<Vec<X>, E>
    ensures all { IfOk result (λ whole. All IsPiece lists.items) }
    ensures whole { IfOk result (λ whole. whole.items ≡ pieces lists.items) }
    ensures refused { IfErr result (λ fault. HasFault lists.items fault
        ⊎ ((wanting : _) × E.from_gives wanting fault)) }
{
    let mut whole = Vec::new(alloc);
    for list in lists {
        let mut list = match list {
            Ok(list) => list,
            Err(fault) => return Err(fault),
        };
        if whole.append(&mut list).is_err() {
            return Err(E::from(OutOfMemory));
        }
    }
    Ok(whole)
}

/// What `work` answers for each part, in so many threads at most.
pub(crate) fn side_by_side<
    Rt: Threads + Sync,
    S: Strategy,
    R: Send + Drop,
    F: Fn(usize) -> R + Sync,
>(
    rt: &Rt,
    alloc: Global,
    strategy: &S,
    threads: usize,
    parts: usize,
    work: &F,
) -> Result<Vec<R>, OutOfMemory>
    requires some { 0 < threads }
    requires callable { F.IsAlwaysCallable work.now }
    ensures { IfOk result (λ answers. AreResults (F.post work.now) parts answers.items) }
{
    let rows = thread::map_indices(
        rt,
        alloc,
        threads,
        &|row: usize| -> Result<Vec<R>, OutOfMemory>
            requires { F.IsAlwaysCallable work.now × (0 < threads) }
            ensures { IfOk result (λ answers. AreResultsFrom (F.post work.entry.now)
                (start_of row threads parts) (start_of (row + 1) threads parts) answers.items) }
        {
            let places = row_of(row, threads, parts);
            run_row(alloc, strategy, places.start, places.end, work)
        },
    )?;
    joined(alloc, rows)
}
