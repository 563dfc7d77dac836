//! `generate`: a large job is made and settled.
ghost use Rattle.std.specs.Prelude.{◌≡◌, ◌==◌, not, map, is_some, string_bytes};
ghost use Rattle.std.specs.Process.{exit_status};
ghost use Rattle.ledger_generate.specs.Runs.{Completes};
ghost use Rattle.ledger_generate.specs.Words.{form_of};

use ledger_codec::Sink;
use ledger_generate::run_generate;
use std::alloc::Global;
use std::process::ExitCode;
use std::random::RandomSource;
use std::thread::Threads;

/// Generates and settles as the words say, and ends with the status of the outcome.
pub fn ended<R: RandomSource + Threads + Sync, K: Sink>(
    rt: &R,
    alloc: Global,
    words: &[String],
    out: &mut K,
) -> ExitCode
    ensures usage { (exit_status result == 2) ≡ not (is_some (form_of (map string_bytes words.now))) }
    ensures complete { Completes (form_of (map string_bytes words.now)) (K.faults out.old)
        (K.faults out.new) (exit_status result) }
{
    let outcome = run_generate(rt, alloc, words, out);
    ExitCode::from(outcome.status)
}
