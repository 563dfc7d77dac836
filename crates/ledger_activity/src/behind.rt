//! The bits and the canonical root of a log with operations behind it.
ghost use Rattle.std.specs.Prelude.{◌≡◌, ◌+◌, ◌<◌, ◌≤◌, ◌^◌, ◌++◌, ◌∷◌, MatchOption, Some, IfOk, OnOk, length, drop, slice_get};
ghost use Rattle.ledger_log.specs.View.{log_size};
ghost use Rattle.ledger_activity.specs.Active.{IsLater, activity, log_bits};
ghost use Rattle.ledger_activity.specs.Chunks.{bits_root, canonical_root};

use crate::CurrentFamily;
use crate::chunks::{hash_canonical, root_of_bits};
use crate::later::Later;
use ledger_codec::{Digest, OutOfMemory};
use ledger_log::{AnyOp, Log};
use ledger_merkle::Hasher;
use std::alloc::Global;

/// The root over operations and bits that the log has once these operations stand behind it, which makes `ops_root`
/// the root over its operations. It costs what that of the log does, and leaves the log alone.
pub fn current_root_behind<H: Hasher>(
    alloc: Global,
    log: &Log<CurrentFamily, H>,
    more: &[AnyOp],
    ops_root: &Digest,
) -> Result<Digest, OutOfMemory>
    requires { log_size log.now + length more.now ≤ 2 ^ 62 }
    ensures { IfOk result (λ root. root ≡ canonical_root H.digest ops_root.now (bits_root H.digest (log_bits
        (record { front = log.now.front; pinned = log.now.pinned; ops = log.now.ops ++ more.now })))) }
{
    let bits = bits_behind(alloc, log, more)?;
    let front = log.front().get() as usize;
    let root_of_bits = root_of_bits::<H>(alloc, front, bits.as_slice())?;
    Ok(hash_canonical::<H>(ops_root, &root_of_bits))
}

/// The bits of the retained operations and of these behind them, found in one walk from their end.
pub(crate) fn bits_behind<H: Hasher>(
    alloc: Global,
    log: &Log<CurrentFamily, H>,
    more: &[AnyOp],
) -> Result<Vec<bool>, OutOfMemory>
    requires { log_size log.now + length more.now ≤ 2 ^ 62 }
    ensures bits { IfOk result (λ bits. bits.items ≡ activity (log.now.ops ++ more.now)) }
    ensures count { IfOk result (λ bits. length bits.items ≡ length log.now.ops + length more.now) }
{
    let mut index = (log.size().get() - log.front().get()) as usize + more.len();
    let mut bits = Vec::from_elem(alloc, false, index)?;
    let mut later = Later::new(alloc);
    while index > 0 {
        index -= 1;
        bits[index] = bit_before(log, more, index, &mut later)?;
    }
    Ok(bits)
}

/// The bit of the operation with this index from the front on, before those that were met.
fn bit_before<H: Hasher>(
    log: &Log<CurrentFamily, H>,
    more: &[AnyOp],
    index: usize,
    later: &mut Later,
) -> Result<bool, OutOfMemory>
    requires most { index < length log.now.ops + length more.now }
    requires later { IsLater later.old (drop (index + 1) (log.now.ops ++ more.now)) }
    ensures active { IfOk result
        (λ active. activity (drop index (log.now.ops ++ more.now)) ≡ active ∷ activity
        (drop (index + 1) (log.now.ops ++ more.now))) }
    ensures later { OnOk result (IsLater later.new (drop index (log.now.ops ++ more.now))) }
{
    match op_at(log, more, index) {
        Some(op) => later.meet(op),
        None => unreachable!(),
    }
}

/// The operation with this index from the front on.
fn op_at<'a, H: Hasher>(
    log: &'a Log<CurrentFamily, H>,
    more: &'a [AnyOp],
    index: usize,
) -> Option<&'a AnyOp>
    ensures { MatchOption result (length log.now.ops + length more.now ≤ index)
        (λ op. slice_get (log.now.ops ++ more.now) index ≡ Some op.now) }
{
    let retained = (log.size().get() - log.front().get()) as usize;
    if index < retained {
        log.op_at(log.front().plus(index as u64))
    } else {
        more.get(index - retained)
    }
}
