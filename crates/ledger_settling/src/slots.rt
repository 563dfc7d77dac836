//! The slots of a body's keys, and how slots are written.
ghost use Rattle.std.specs.Prelude.{◌≡◌, ◌++◌, List as Items, length, map, IfOk, IfErr, OnOk, MatchOption, ⊤, bytes_eq, option_to_list, option_and_then};
ghost use Rattle.std.specs.Map.{keys_of};
ghost use Rattle.ledger_log.specs.declared.any.AnyOp.{AnyOp as Op};
ghost use Rattle.ledger_transfers.specs.Touches.{touches};
ghost use Rattle.ledger_transfers.specs.Registering.{AreSettled};
ghost use Rattle.ledger_settling.specs.Blocks.{written};
ghost use Rattle.ledger_settling.specs.Reports.{IsReplay, held};
ghost use Rattle.ledger_transfers.specs.Rules.{SameOutcome};
ghost use Rattle.ledger_settling.specs.Slots.{AreProper, AreReads, IsProper, SlotsFail, StaysProper, entries_of, entry_of, op_of, opening_of, touched_first};

use crate::report::Accounts;
use indexmap::IndexSet;
use ledger_codec::OutOfMemory;
use ledger_log::{Key, Value};
use ledger_managed::AccountValue;
use ledger_strategy::Strategy;
use ledger_transfers::{Change, Plan, PlanFault, Seeded, Slot, Transfer};
use std::alloc::Global;
use std::random::RandomSource;
use std::thread::Threads;

/// The keys of a body, with one slot for each of them.
#[derive(Drop)]
pub(crate) struct Planned<A: AccountValue> {
    pub keys: Vec<Key>,
    pub slots: Vec<Slot<A>>,
}

/// The keys of the touches, each at its first place. They are a payer's, so they are hashed with a fresh seed.
pub(crate) fn touched_keys<R: RandomSource, E: Copy>(
    rt: &R,
    alloc: Global,
    touched: &[(Key, Change<E>)],
) -> Result<IndexSet<Key, Seeded>, OutOfMemory>
    ensures { IfOk result (λ set. set.keys ≡ touched_first touched.now) }
{
    let mut set = IndexSet::with_hasher(alloc, Seeded::fresh(rt));
    for (key, _) in touched {
        set.insert(*key)?;
    }
    Ok(set)
}

/// The accounts under these keys.
pub(crate) fn reads_of<A: AccountValue>(
    alloc: Global,
    accounts: &Accounts<A>,
    keys: &[Key],
) -> Result<Vec<Option<A>>, OutOfMemory>
    ensures all { IfOk result (λ reads. length reads.items ≡ length keys.now) }
    ensures each { IfOk result (λ reads. AreReads A.eq accounts.now keys.now reads.items) }
{
    let mut reads = Vec::with_capacity(alloc, keys.len())?;
    for key in keys {
        let read = read_one(alloc, accounts, key)?;
        reads.push(read)?;
    }
    Ok(reads)
}

/// A copy of the account under this key.
fn read_one<A: AccountValue>(
    alloc: Global,
    accounts: &Accounts<A>,
    key: &Key,
) -> Result<Option<A>, OutOfMemory>
    ensures { IfOk result (λ read. SameOutcome A.eq read (held accounts.now key.now)) }
{
    match accounts.get(key) {
        Some(account) => Ok(Some(account.copy(alloc)?)),
        None => Ok(None),
    }
}

/// A copy of these keys.
fn copied(alloc: Global, keys: &[Key]) -> Result<Vec<Key>, OutOfMemory>
    ensures { IfOk result (λ copy. copy.items ≡ keys.now) }
{
    Ok(Vec::from_slice(alloc, keys)?)
}

/// The slots of a body, in the order of first touches. What its plan holds beside the keys is let go.
pub(crate) fn body_slots<
    R: RandomSource + Threads + Sync,
    T: Transfer<Key = Key, Account = A>,
    A: AccountValue,
    S: Strategy,
>(
    rt: &R,
    alloc: Global,
    accounts: &Accounts<A>,
    batch: &[T],
    strategy: &S,
) -> Result<Planned<A>, PlanFault<Key>>
    ensures order { IfOk result (λ p. p.keys.items ≡ touched_first (touches T.changes_of batch.now)) }
    ensures slots { IfOk result (λ p. AreSettled bytes_eq A.eq A.rules p.keys.items
        (opening_of A.rules accounts.now) (touches T.changes_of batch.now) p.slots.items) }
    ensures fails { IfErr result (SlotsFail A.rules (opening_of A.rules accounts.now)
        (touches T.changes_of batch.now)) }
{
    let plan = Plan::new(rt, alloc, batch, strategy)?;
    let reads = reads_of(alloc, accounts, plan.keys())?;
    let slots = plan.settle(rt, alloc, &reads, strategy)?;
    let keys = copied(alloc, plan.keys())?;
    Ok(Planned { keys, slots })
}

/// Writes one slot: a write where the account changes, and the account.
fn write_slot<A: AccountValue>(
    accounts: &mut Accounts<A>,
    writes: &mut Vec<(Key, Option<Value>)>,
    key: Key,
    slot: Slot<A>,
) -> Result<(), OutOfMemory>
    ensures writes { OnOk result (writes.new.items ≡ writes.old.items
        ++ option_to_list (entry_of A.values key slot)) }
    ensures replay { OnOk result ((base : Items Op) → IsReplay A.eq A.values accounts.old base
        → IsReplay A.eq A.values accounts.new (base ++ option_to_list (written A.values key slot))) }
    ensures initial { OnOk result (IsProper A.eq A.rules slot
        → StaysProper A.eq A.rules accounts.old accounts.new) }
{
    match slot {
        Slot::Keep => Ok(()),
        Slot::Delete => {
            writes.push((key, None))?;
            accounts.remove(&key);
            Ok(())
        }
        Slot::Put(account) => {
            writes.push((key, Some(account.to_value())))?;
            accounts.insert(key, account)?;
            Ok(())
        }
    }
}

/// Writes a slot, if there is one.
fn write_found<A: AccountValue>(
    accounts: &mut Accounts<A>,
    writes: &mut Vec<(Key, Option<Value>)>,
    key: Key,
    slot: Option<Slot<A>>,
) -> Result<(), OutOfMemory>
    ensures writes { OnOk result (writes.new.items ≡ writes.old.items
        ++ option_to_list (option_and_then (entry_of A.values key) slot)) }
    ensures replay { OnOk result ((base : Items Op) → IsReplay A.eq A.values accounts.old base
        → IsReplay A.eq A.values accounts.new
        (base ++ option_to_list (option_and_then (written A.values key) slot))) }
    ensures initial { OnOk result (MatchOption slot ⊤ (IsProper A.eq A.rules)
        → StaysProper A.eq A.rules accounts.old accounts.new) }
{
    match slot {
        Some(slot) => write_slot(accounts, writes, key, slot),
        None => Ok(()),
    }
}

/// Writes the slots of these keys, in their order.
pub(crate) fn write_slots<A: AccountValue>(
    alloc: Global,
    accounts: &mut Accounts<A>,
    keys: &[Key],
    mut slots: Vec<Slot<A>>,
) -> Result<Vec<(Key, Option<Value>)>, OutOfMemory>
    ensures writes { IfOk result (λ writes. writes.items ≡ entries_of A.values keys.now slots.items) }
    ensures replay { IfOk result (λ writes. (base : Items Op) → IsReplay A.eq A.values accounts.old base
        → IsReplay A.eq A.values accounts.new (base ++ map op_of writes.items)) }
    ensures initial { OnOk result (AreProper A.eq A.rules slots.items
        → StaysProper A.eq A.rules accounts.old accounts.new) }
{
    let mut writes = Vec::with_capacity(alloc, keys.len())?;
    slots.reverse();
    for key in keys {
        write_found(accounts, &mut writes, *key, slots.pop())?;
    }
    Ok(writes)
}
