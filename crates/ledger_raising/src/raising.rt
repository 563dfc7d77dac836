//! What a batch with these changes appends.
ghost use Rattle.std.specs.Prelude.{◌≡◌, ◌+◌, ◌<◌, ◌≤◌, ◌^◌, ◌⊎◌, ◌++◌, ◌∷◌, All, IsSome, Some, None, IfOk, OnOk, IfErr, IsOkUnless, length, map, take, filter, nat_lt};
ghost use Rattle.ledger_log.specs.View.{log_size, log_floor};
ghost use Rattle.ledger_log.specs.Active.{living_from};
ghost use Rattle.ledger_log.specs.Faults.{append_refusal};
ghost use Rattle.ledger_compact.specs.View.{with_ops};
ghost use Rattle.ledger_raising.specs.Raised.{copies, next_floor, raised, first_place, Raises};

use crate::RaisingFamily;
use ledger_codec::OutOfMemory;
use ledger_log::{Family, Log, LogFault, Value};
use ledger_merkle::{Hasher, Location, MAX_LEAVES};
use std::alloc::Global;

/// What a batch appends, and the floor that it leaves.
#[derive(Drop)]
pub struct RaisedBatch<F: Family> {
    /// The changes, the copies and the commit.
    pub ops: Vec<F::Op>,
    /// The floor of the commit.
    pub floor: Location,
}

/// What a batch with these changes and metadata appends to the log once the batches `missing` stand behind it,
/// the last floor being `floor`: the changes, a copy of one old operation that still counts for each of them,
/// from the floor on, and a commit whose floor is as high as that allows. Refused as the log would refuse the
/// batch, which is where it would be too long, and for want of memory.
pub fn raise<F: RaisingFamily, H: Hasher>(
    alloc: Global,
    log: &Log<F, H>,
    missing: &[F::Op],
    floor: Location,
    changes: &[F::Op],
    metadata: Option<Value>,
) -> Result<RaisedBatch<F>, LogFault>
    requires floor { log_floor F.floor_of (with_ops log.now missing.now) ≡ floor }
    requires low { floor ≤ log_size log.now + length missing.now }
    requires room { log_size log.now + length missing.now ≤ 2 ^ 62 }
    requires writes { All (λ op. IsSome (F.write_of op)) changes.now }
    ensures ok { IfOk result (λ batch. batch.ops.items
        ≡ raised F.floor_of F.write_of F.commit_of (with_ops log.now missing.now) changes.now metadata) }
    ensures floor { IfOk result (λ batch. log_floor F.floor_of
        (with_ops (with_ops log.now missing.now) batch.ops.items) ≡ batch.floor) }
    ensures room { IfOk result (λ batch. log_size log.now + length missing.now + length batch.ops.items
        ≤ 2 ^ 62) }
    ensures may { OnOk result (append_refusal F.floor_of (with_ops log.now missing.now)
        (raised F.floor_of F.write_of F.commit_of (with_ops log.now missing.now) changes.now metadata)
        ≡ None) }
    ensures refuses { IfErr result (λ e. (e ≡ LogFault.OutOfMemory)
        ⊎ (append_refusal F.floor_of (with_ops log.now missing.now)
        (raised F.floor_of F.write_of F.commit_of (with_ops log.now missing.now) changes.now metadata)
        ≡ Some e)) }
    ensures law { IfOk result (λ batch. Raises F.floor_of F.write_of (with_ops log.now missing.now)
        changes.now batch.ops.items) }
{
    let size = log.size().get() + missing.len() as u64;
    let full = LogFault::Full {
        size: Location::ZERO.plus(size),
    };
    if MAX_LEAVES <= size.saturating_add(changes.len() as u64) {
        return Err(full);
    }
    let copies = copies_of(alloc, log, missing, floor, changes)?;
    let mut ops = joined(alloc, changes, copies.as_slice())?;
    if MAX_LEAVES <= size.saturating_add(ops.len() as u64) {
        return Err(full);
    }
    let next = floor_after(alloc, log, missing, floor, ops.as_slice())?;
    ops.push(F::commit(metadata, next))?;
    Ok(RaisedBatch { ops, floor: next })
}

/// The operations that a batch with these changes copies.
fn copies_of<F: RaisingFamily, H: Hasher>(
    alloc: Global,
    log: &Log<F, H>,
    missing: &[F::Op],
    floor: Location,
    changes: &[F::Op],
) -> Result<Vec<F::Op>, LogFault>
    requires floor { log_floor F.floor_of (with_ops log.now missing.now) ≡ floor }
    requires room { log_size log.now + length missing.now + length changes.now ≤ 2 ^ 62 }
    ensures may { IsOkUnless result LogFault.OutOfMemory }
    ensures ok { IfOk result (λ ops. ops.items ≡ copies F.floor_of F.write_of (with_ops log.now missing.now)
        changes.now) }
{
    let size = log.size().get() + missing.len() as u64;
    let behind = joined(alloc, missing, changes)?;
    let found = log.living_behind(behind.as_slice(), floor, changes.len())?;
    Ok(ops_below(alloc, found.as_slice(), size)?)
}

/// The floor that a batch of these operations leaves.
fn floor_after<F: RaisingFamily, H: Hasher>(
    alloc: Global,
    log: &Log<F, H>,
    missing: &[F::Op],
    floor: Location,
    ops: &[F::Op],
) -> Result<Location, LogFault>
    requires floor { log_floor F.floor_of (with_ops log.now missing.now) ≡ floor }
    requires room { log_size log.now + length missing.now + length ops.now ≤ 2 ^ 62 }
    ensures may { IsOkUnless result LogFault.OutOfMemory }
    ensures ok { IfOk result (λ next. next ≡ next_floor F.floor_of F.write_of (with_ops log.now missing.now)
        ops.now) }
{
    let end = log.size().get() + missing.len() as u64 + ops.len() as u64;
    let behind = joined(alloc, missing, ops)?;
    let found = log.living_behind(behind.as_slice(), floor, 1)?;
    Ok(first_of(found.as_slice(), Location::ZERO.plus(end)))
}

/// The first of these places, `none` where there is none.
fn first_of<T: Copy>(found: &[(Location, T)], none: Location) -> Location
    ensures { result ≡ first_place none found.now }
{
    match found.first() {
        Some(entry) => entry.0,
        None => none,
    }
}

/// What was found below this place.
fn ops_below<T: Copy>(
    alloc: Global,
    found: &[(Location, T)],
    place: u64,
) -> Result<Vec<T>, OutOfMemory>
    ensures { IfOk result (λ ops. ops.items ≡ map (λ e. e.1) (filter (λ e. nat_lt e.0 place) found.now)) }
{
    Ok(
        found
            .iter()
            .filter(|entry| entry.0.get() < place)
            .map(|entry| entry.1)
            .collect(alloc)?,
    )
}

/// Two lists, one behind the other.
fn joined<T: Copy>(alloc: Global, first: &[T], second: &[T]) -> Result<Vec<T>, OutOfMemory>
    ensures { IfOk result (λ both. both.items ≡ first.now ++ second.now) }
{
    let mut both = Vec::from_slice(alloc, first)?;
    both.extend_from_slice(second)?;
    Ok(both)
}
