//! A generated job over a sink that never fails: the clauses that suppose so promise it without a premise.
ghost use Rattle.std.specs.Prelude.{◌≡◌, ◌⊎◌, ◌∷◌, [], IfOk, IsSome, codes, map, string_bytes};

use crate::run_generate;
use ledger_codec::{Sink, SinkError};
use ledger_program::Outcome;
use std::alloc::{AllocError, Global};
use std::random::RandomSource;
use std::test::Fail;
use std::thread::Threads;

/// A sink that takes all, and tells nothing.
#[derive(Drop)]
struct Taking;

impl Sink for Taking {
    ghost use Rattle.std.specs.Prelude.{None, false};

    ghost written = { λ _. None };

    ghost faults = { λ _. 0 };

    ghost grows = { false };

    fn write(&mut self, bytes: &[u8]) -> Result<usize, SinkError> {
        Ok(bytes.len())
    }
}

/// The words of a job of four accounts and six payments.
fn small(alloc: Global) -> Result<Vec<String>, AllocError>
    ensures { IfOk result (λ words. map string_bytes words.items
        ≡ codes "generate" ∷ codes "7" ∷ codes "4" ∷ codes "6" ∷ []) }
{
    let word = String::from_str(alloc, "generate")?;
    let seed = String::from_str(alloc, "7")?;
    let accounts = String::from_str(alloc, "4")?;
    let transfers = String::from_str(alloc, "6")?;
    let mut words = Vec::new(alloc);
    words.push(word)?;
    words.push(seed)?;
    words.push(accounts)?;
    words.push(transfers)?;
    Ok(words)
}

/// The outcome of that job over such a sink: it settles and is reported, or memory is wanting.
fn settled<R: RandomSource + Threads + Sync>(rt: &R, alloc: Global) -> Result<Outcome, AllocError>
    ensures complete { IfOk result (λ outcome. (outcome.status ≡ 0) ⊎ (outcome.status ≡ 11)) }
    ensures reported { IfOk result (λ outcome. (outcome.status ≡ 11) ⊎ IsSome outcome.report) }
{
    let words = small(alloc)?;
    Ok(run_generate(rt, alloc, &words, &mut Taking))
}

#[test]
fn a_small_job_settles(rt: HostRuntime) -> Result<(), Fail> {
    let Outcome { status, report, .. } = settled(&rt, rt.alloc())?;
    assert_eq!(rt; status, 0);
    assert_eq!(rt; report.map(|report| report.size.get()), Some(11));
    Ok(())
}
