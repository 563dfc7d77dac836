//! Whether a log takes a batch.
ghost use Rattle.std.specs.Prelude.{◌≡◌, ◌+◌, ◌<◌, ◌≤◌, ◌^◌, MatchOption, IsOk, IfOk, OnOk, IfSome, Some, length};
ghost use Rattle.ledger_log.specs.View.{batch_floor};
ghost use Rattle.ledger_log.specs.Faults.{batch_refusal};

use ledger_log::{Family, LogFault};
use ledger_merkle::{Location, MAX_LEAVES};

/// The floor of a batch that a log of this size and floor takes. Refused, in this order, where the last operation
/// isn't the batch's one commit, where its floor is below the log's, where its floor is above its own place, and
/// where the log would be too long. It takes no memory.
pub fn admit<F: Family>(
    size: Location,
    current: Location,
    ops: &[F::Op],
) -> Result<Location, LogFault>
    ensures refusal { MatchOption
        (batch_refusal size current (length ops.now) (batch_floor F.floor_of ops.now)) (IsOk result)
        (λ fault. result ≡ Err fault) }
    ensures floor { IfOk result (λ floor. batch_floor F.floor_of ops.now ≡ Some floor) }
    ensures within { IfOk result (λ floor. floor < size + length ops.now) }
    ensures most { OnOk result (size + length ops.now ≤ 2 ^ 62) }
{
    let Some(floor) = floor_of_batch::<F>(ops) else {
        return Err(LogFault::NotABatch);
    };
    if floor.get() < current.get() {
        return Err(LogFault::FloorRegressed { floor, current });
    }
    let end = size.get().saturating_add(ops.len() as u64);
    if end - 1 < floor.get() {
        return Err(LogFault::FloorBeyond {
            floor,
            location: Location::ZERO.plus(end - 1),
        });
    }
    if end > MAX_LEAVES {
        return Err(LogFault::Full { size });
    }
    Ok(floor)
}

/// The floor of the last operation, None where it isn't the batch's one commit.
fn floor_of_batch<F: Family>(ops: &[F::Op]) -> Option<Location>
    ensures floor { result ≡ batch_floor F.floor_of ops.now }
    ensures most { IfSome result (λ f. f ≤ 2 ^ 62) }
{
    let (last, others) = ops.split_last()?;
    for op in others {
        if F::commit_floor(op).is_some() {
            return None;
        }
    }
    F::commit_floor(last)
}
