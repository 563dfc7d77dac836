//! A generated job, settled.
ghost use Rattle.std.specs.Prelude.{◌≡◌, ◌==◌, Some, None, not, map, is_some, true, IfOk, IfSome, IsSome, string_bytes};
ghost use Rattle.ledger_codec.specs.Causes.{Rose};
ghost use Rattle.ledger_generate.specs.Generated.{generated};
ghost use Rattle.ledger_generate.specs.Runs.{IsGenerated, lines_if, Caused, Completes};
ghost use Rattle.ledger_generate.specs.Text.{lines_of};
ghost use Rattle.ledger_generate.specs.Words.{form_of};
ghost use Rattle.ledger_program.specs.Run.{status_of, ReportsJob, WroteText, LineBehind, IsLate, has_report};
ghost use Rattle.ledger_program.specs.declared.outcome.RunFault.TheVariants.{Output, OutOfMemory as memory_wanting};

use crate::job::{opens, payments};
use crate::sizes::Sizes;
use crate::text::lines;
use crate::words::{form_of, workers_in};
use ledger_codec::{List, OutOfMemory, Sink};
use ledger_job::Block;
use ledger_program::{Outcome, RunFault, follow_opened, printed, refused, unprinted};
use ledger_settling::Report;
use ledger_strategy::{Sequential, Strategy, Workers};
use ledger_transfers::Sequenced;
use std::alloc::Global;
use std::random::RandomSource;
use std::thread::Threads;
use sync_client::Limits;

/// How much is asked at once: 50 operations, in one request at a time.
fn limits() -> Limits {
    match Limits::new(50, 1) {
        Some(limits) => limits,
        None => unreachable!(),
    }
}

/// Want of memory, which is the one fault of a generated job: its body settles.
fn wanting(_fault: RunFault) -> OutOfMemory
    requires { _fault ≡ memory_wanting }
{
    OutOfMemory
}

/// The report of the generated job.
fn report_of<R: RandomSource + Threads + Sync, St: Strategy>(
    rt: &R,
    alloc: Global,
    sizes: Sizes,
    strategy: &St,
) -> Result<Report<Sequenced>, OutOfMemory>
    ensures { IfOk result (ReportsJob (generated sizes)) }
{
    // Its type says that the sizes are within their ranges.
    let _within = sizes.accounts();
    let accounts = opens(alloc, sizes)?;
    let batch = payments(alloc, sizes, &accounts)?;
    let mut blocks = Vec::with_capacity(alloc, 1)?;
    blocks.push(Block::Body(List::from_vec(batch)))?;
    let accounts = List::from_vec(accounts);
    let blocks = List::from_vec(blocks);
    match follow_opened(rt, alloc, accounts, &limits(), blocks, strategy) {
        Ok(report) => Ok(report),
        Err(fault) => Err(wanting(fault)),
    }
}

/// The same by so many workers, or on the caller.
fn report_by<R: RandomSource + Threads + Sync>(
    rt: &R,
    alloc: Global,
    sizes: Sizes,
    workers: Option<Workers>,
) -> Result<Report<Sequenced>, OutOfMemory>
    ensures { IfOk result (ReportsJob (generated sizes)) }
{
    match workers {
        Some(workers) => report_of(rt, alloc, sizes, &workers),
        None => report_of(rt, alloc, sizes, &Sequential),
    }
}

/// The outcome of a run with a report, whose three lines are written.
fn reported<K: Sink>(alloc: Global, sizes: Sizes, report: Report<Sequenced>, out: &mut K) -> Outcome
    ensures status { result.status ≡ status_of result.fault }
    ensures report { result.report ≡ Some report }
    ensures fault { IfSome result.fault IsLate }
    ensures wrote { WroteText (K.written out.old) (K.written out.new) (lines_of sizes report) result.fault }
    ensures output { result.fault ≡ Some Output → Rose (K.faults out.old) (K.faults out.new) }
    ensures line { IfSome result.fault (LineBehind K.grows (K.written out.old) (K.written out.new)
        (K.faults out.old) (K.faults out.new) (lines_of sizes report)) }
{
    match lines(alloc, sizes, &report) {
        Ok(text) => printed(report, text.as_str(), out),
        Err(_) => unprinted(report, out),
    }
}

/// Settles the generated job that the words ask for, and prints three lines: how many accounts and payments it has,
/// the size of the log that was made, and its root. Or one line says why not: the words are no form of `generate`
/// (status 2), or memory was wanting (11); a failed write (10) has none. The report doesn't depend on the workers.
pub fn run_generate<R: RandomSource + Threads + Sync, K: Sink>(
    rt: &R,
    alloc: Global,
    words: &[String],
    out: &mut K,
) -> Outcome
    ensures status { result.status ≡ status_of result.fault }
    ensures usage { (result.status == 2) ≡ not (is_some (form_of (map string_bytes words.now))) }
    ensures complete { Completes (form_of (map string_bytes words.now)) (K.faults out.old)
        (K.faults out.new) result.status }
    ensures generated { IfSome result.report (IsGenerated (form_of (map string_bytes words.now))) }
    ensures reported { has_report result.fault ≡ true → IsSome result.report }
    ensures caused { IfSome result.fault (Caused (form_of (map string_bytes words.now)) (K.faults out.old)
        (K.faults out.new)) }
    ensures wrote { WroteText (K.written out.old) (K.written out.new)
        (lines_if (form_of (map string_bytes words.now)) result.report) result.fault }
    ensures line { IfSome result.fault
        (LineBehind K.grows (K.written out.old) (K.written out.new) (K.faults out.old) (K.faults out.new)
        (lines_if (form_of (map string_bytes words.now)) result.report)) }
{
    let Some(sizes) = form_of(words) else {
        return refused(RunFault::Usage, out);
    };
    match report_by(rt, alloc, sizes, workers_in(words)) {
        Ok(report) => reported(alloc, sizes, report, out),
        Err(OutOfMemory) => refused(RunFault::OutOfMemory, out),
    }
}
