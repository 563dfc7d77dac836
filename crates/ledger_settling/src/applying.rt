//! The batch of a settled block: what its slots change, sealed with a floor that rises, and applied.
//!
//! ```text
//!   log --over, stage--> Staged --merkleize--> Merkleized --apply--> log
//!                         |  ^    each slot is kept, the writes are unstaged
//!                         +--+ expand, once a round
//! ```
//!
//! Nothing else holds the log, so the batch always stands on the log's own state: it is never stale.
ghost use Rattle.std.specs.Prelude.{◌≡◌, ◌<◌, ◌≤◌, None, Ok, IfOk, IfErr, OnOk, replicate};
ghost use Rattle.ledger_log.specs.Any.{any_floor, any_write};
ghost use Rattle.ledger_log.specs.Faults.{append_refusal};
ghost use Rattle.ledger_compact.specs.View.{with_ops};
ghost use Rattle.ledger_raising.specs.Raised.{Raises};
ghost use Rattle.ledger_transfers.specs.declared.slot.Slot.TheVariants.{Keep};
ghost use Rattle.ledger_settling.specs.Reports.{IsReplay};
ghost use Rattle.ledger_settling.specs.Slots.{fresh_batch, changes_on, raised_on, with_slots, AreProper, Changes, SealFails, StaysProper, AppendFails, seal_fault};

use crate::fault::ReportFault;
use crate::report::Accounts;
use crate::slots::write_slots;
use ledger_batches::{AnyMerkleized, AnyStaged, AnyUnmerkleized, ManagedFault, apply};
use ledger_codec::OutOfMemory;
use ledger_log::{AnyFamily, Key, Log, Value};
use ledger_managed::AccountValue;
use ledger_merkle::Sha256Hasher;
use ledger_transfers::Slot;
use std::alloc::Global;
use std::random::RandomSource;

/// What a batch that isn't stale answers where memory is wanting.
fn wanting(fault: ManagedFault) -> OutOfMemory
    requires { fault ≡ ManagedFault.OutOfMemory }
{
    match fault {
        ManagedFault::OutOfMemory => OutOfMemory,
        _ => unreachable!(),
    }
}

/// A batch over the log that has read these keys.
pub(crate) fn staged_over<R: RandomSource>(
    rt: &R,
    alloc: Global,
    log: &Log<AnyFamily, Sha256Hasher>,
    keys: &[Key],
) -> Result<AnyStaged, OutOfMemory>
    ensures { IfOk result (λ staged. staged.batch ≡ fresh_batch log.now) }
{
    match AnyUnmerkleized::over(rt, alloc, log).stage(log, keys) {
        Ok(read) => Ok(read.1),
        Err(fault) => Err(wanting(fault)),
    }
}

/// The batch with the keys behind those that it has read.
pub(crate) fn staged_more(
    log: &Log<AnyFamily, Sha256Hasher>,
    staged: AnyStaged,
    keys: &[Key],
) -> Result<AnyStaged, OutOfMemory>
    requires { staged.batch ≡ fresh_batch log.now }
    ensures { IfOk result (λ more. more.batch ≡ fresh_batch log.now) }
{
    let first = staged.len().min(keys.len());
    match staged.expand(log, &keys[first..]) {
        Ok(read) => Ok(read.2),
        Err(fault) => Err(wanting(fault)),
    }
}

/// A slot for each staged key that keeps the key as it is.
fn kept_slots(alloc: Global, count: usize) -> Result<Vec<Slot<Value>>, OutOfMemory>
    ensures { IfOk result (λ slots. slots.items ≡ replicate count Keep) }
{
    let mut slots = Vec::with_capacity(alloc, count)?;
    for _place in 0..count {
        slots.push(Slot::Keep)?;
    }
    Ok(slots)
}

/// The batch that makes these writes, sealed over the log.
fn seal(
    alloc: Global,
    log: &Log<AnyFamily, Sha256Hasher>,
    staged: AnyStaged,
    writes: Vec<(Key, Option<Value>)>,
) -> Result<AnyMerkleized, ManagedFault>
    requires { staged.batch ≡ fresh_batch log.now }
    ensures chain { IfOk result (λ batch. batch.chain ≡ (fresh_batch log.now).chain) }
    ensures ops { IfOk result (λ batch. batch.own.ops ≡ raised_on log.now (changes_on log.now writes.items)) }
    ensures may { OnOk result (append_refusal any_floor log.now (raised_on log.now
        (changes_on log.now writes.items)) ≡ None) }
    ensures fails { IfErr result (SealFails log.now (raised_on log.now (changes_on log.now writes.items))) }
    ensures law { IfOk result (λ batch. Raises any_floor any_write log.now (changes_on log.now writes.items)
        batch.own.ops) }
{
    // Its type says that the floor lies below the log's end.
    let _floor = log.floor();
    let slots = match kept_slots(alloc, staged.len()) {
        Ok(slots) => slots,
        Err(_) => return Err(ManagedFault::OutOfMemory),
    };
    match staged.merkleize(log, slots, writes) {
        Ok(batch) => Ok(batch),
        Err(fault) => Err(fault),
    }
}

/// Applies a batch that was sealed over the log as it is.
fn apply_sealed(
    log: &mut Log<AnyFamily, Sha256Hasher>,
    batch: AnyMerkleized,
) -> Result<(), OutOfMemory>
    requires standing { batch.chain ≡ (fresh_batch log.old).chain }
    requires taken { append_refusal any_floor log.old batch.own.ops ≡ None }
    ensures { OnOk result (log.new ≡ with_ops log.old batch.own.ops) }
{
    match apply(log, batch) {
        Ok(()) => Ok(()),
        Err(fault) => Err(wanting(fault)),
    }
}

/// What a block answers where its batch isn't sealed.
fn seal_fault(block: usize, fault: ManagedFault) -> ReportFault
    ensures { result ≡ seal_fault block fault }
{
    match fault {
        ManagedFault::Log(_) => ReportFault::Full { block },
        _ => ReportFault::OutOfMemory,
    }
}

/// Appends what the slots of these keys change, as a batch: one operation a key in their order, a copy of an old
/// operation that still counts for each of them while there are such, and a commit with a raised floor.
pub(crate) fn apply_slots<A: AccountValue>(
    alloc: Global,
    log: &mut Log<AnyFamily, Sha256Hasher>,
    accounts: &mut Accounts<A>,
    block: usize,
    staged: AnyStaged,
    keys: &[Key],
    slots: Vec<Slot<A>>,
) -> Result<(), ReportFault>
    requires staged { staged.batch ≡ fresh_batch log.old }
    requires replayed { IsReplay A.eq A.values accounts.old log.old.ops }
    requires changes { Changes A.values log.old keys.now slots.items }
    ensures grown { OnOk result
        (log.new ≡ record log.old { ops = with_slots A.values log.old keys.now slots.items }) }
    ensures accounts { OnOk result (IsReplay A.eq A.values accounts.new log.new.ops) }
    ensures initial { OnOk result (AreProper A.eq A.rules slots.items
        → StaysProper A.eq A.rules accounts.old accounts.new) }
    ensures fails { IfErr result (AppendFails log.old block
        (with_slots A.values log.old keys.now slots.items)) }
{
    let writes = write_slots(alloc, accounts, keys, slots)?;
    let batch = match seal(alloc, log, staged, writes) {
        Ok(batch) => batch,
        Err(fault) => return Err(seal_fault(block, fault)),
    };
    apply_sealed(log, batch)?;
    Ok(())
}
