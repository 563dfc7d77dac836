//! Full and compact logs agree: the law that a server may keep either.
ghost use Rattle.std.specs.Prelude.{◌≡◌, Option, Some, IsOk, IsOkUnless, IfOk, OnOk, MatchOption};
ghost use Rattle.ledger_log.specs.View.{log_size, log_root, log_floor, floor_or_zero};
ghost use Rattle.ledger_log.specs.Faults.{append_refusal};
ghost use Rattle.ledger_log.specs.declared.fault.LogFault.{LogFault as Fault};
ghost use Rattle.ledger_compact.specs.View.{compact_of, compact_root, fresh_log};
ghost use Rattle.ledger_compact.specs.Batches.{after_batch, after_batches, answers};

use crate::CompactLog;
use ledger_codec::{List, OutOfMemory};
use ledger_log::{CompactFamily, Log, LogFault};
use ledger_merkle::Hasher;
use std::alloc::Global;

/// A full and a compact log that were given the same batches, and what each answered.
#[derive(Drop)]
pub struct Twins<F: CompactFamily, H: Hasher> {
    /// The full log.
    pub full: Log<F, H>,
    /// The compact log.
    pub compact: CompactLog<F, H>,
    /// What the full log answered to each batch: a fault, or None where it took it.
    pub full_answers: List<Option<LogFault>>,
    /// What the compact log answered to each batch.
    pub compact_answers: List<Option<LogFault>>,
}

/// Gives the batches to a fresh full and a fresh compact log. Both take the same batches, refuse the others
/// with the same fault, and end with equal root, size and floor. Refused for want of memory alone.
pub fn run_both<F: CompactFamily, H: Hasher>(
    alloc: Global,
    batches: &[List<F::Op>],
) -> Result<Twins<F, H>, LogFault>
    ensures may { IsOkUnless result LogFault.OutOfMemory }
    ensures full { IfOk result (λ t. t.full ≡ after_batches F.floor_of (fresh_log F.commit_of)
        batches.now) }
    ensures compact { IfOk result (λ t. compact_of H.digest F.Op.spelling t.full ≡ Some t.compact) }
    ensures full_answers { IfOk result (λ t. t.full_answers
        ≡ answers F.floor_of (fresh_log F.commit_of) batches.now) }
    ensures compact_answers { IfOk result (λ t. t.compact_answers ≡ t.full_answers) }
    ensures root { IfOk result (λ t. compact_root H.digest t.compact
        ≡ log_root H.digest F.Op.spelling t.full) }
    ensures size { IfOk result (λ t. t.compact.size ≡ log_size t.full) }
    ensures floor { IfOk result (λ t. floor_or_zero (F.floor_of t.compact.last)
        ≡ log_floor F.floor_of t.full) }
{
    let mut full = Log::<F, H>::fresh(alloc)?;
    let mut compact = CompactLog::<F, H>::fresh(alloc)?;
    let mut full_answers = Vec::new(alloc);
    let mut compact_answers = Vec::new(alloc);
    for batch in batches {
        let (from_full, from_compact) = give(&mut full, &mut compact, batch.as_slice())?;
        full_answers.push(from_full)?;
        compact_answers.push(from_compact)?;
    }
    Ok(Twins {
        full,
        compact,
        full_answers: List::from_vec(full_answers),
        compact_answers: List::from_vec(compact_answers),
    })
}

/// Gives one batch to both.
fn give<F: CompactFamily, H: Hasher>(
    full: &mut Log<F, H>,
    compact: &mut CompactLog<F, H>,
    ops: &[F::Op],
) -> Result<(Option<LogFault>, Option<LogFault>), OutOfMemory>
    requires { compact_of H.digest F.Op.spelling full.old ≡ Some compact.old }
    ensures full { OnOk result (full.new ≡ after_batch F.floor_of full.old ops.now) }
    ensures compact { OnOk result (compact_of H.digest F.Op.spelling full.new ≡ Some compact.new) }
    ensures full_answer { IfOk result (λ a. a.0 ≡ append_refusal F.floor_of full.old ops.now) }
    ensures compact_answer { IfOk result (λ a. a.1 ≡ append_refusal F.floor_of full.old ops.now) }
{
    let from_full = answer_of(full.append_batch(ops))?;
    let from_compact = answer_of(compact.append_batch(ops))?;
    Ok((from_full, from_compact))
}

/// The fault of an answer, None of Ok.
fn answer_of(answer: Result<(), LogFault>) -> Result<Option<LogFault>, OutOfMemory>
    ensures fault { (refusal : Option Fault) →
        MatchOption refusal (IsOkUnless answer LogFault.OutOfMemory) (λ fault. answer ≡ Err fault) →
        IfOk result (λ given. given ≡ refusal) }
    ensures ok { IfOk result (λ given. MatchOption given (IsOk answer) (λ fault. answer ≡ Err fault)) }
{
    match answer {
        Ok(()) => Ok(None),
        Err(fault) => match fault {
            LogFault::OutOfMemory => Err(OutOfMemory),
            other => Ok(Some(other)),
        },
    }
}
