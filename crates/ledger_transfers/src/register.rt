//! The keys of a selection, their reads and their slots.
ghost use Rattle.std.specs.Prelude.{◌≡◌, ◌+◌, ◌<◌, ◌≤◌, ◌↔◌, ◌++◌, ◌∷◌, [], slice_get, Some, IfOk, OnOk, OnErr, IsTrue, IsSome, length, take};
ghost use Rattle.std.specs.List.{All};
ghost use Rattle.std.specs.Map.{keys_of};
ghost use Rattle.indexmap.specs.IndexMap.{get, spare, IsUnique};
ghost use Rattle.indexmap.specs.IndexSet.{insert_key, IsUnique as AreDistinct};
ghost use Rattle.ledger_transfers.specs.Settling.{opened, SettlesTo, Settles};
ghost use Rattle.ledger_transfers.specs.Taking.{IsHeld};
ghost use Rattle.ledger_transfers.specs.Touches.{max_amount};
ghost use Rattle.ledger_transfers.specs.Selecting.{StandsFor, opened_at};
ghost use Rattle.ledger_transfers.specs.Registering.{touched, fresh, registered, AreAmounts, AreSettled, IsKeySlot, IsSelection};
ghost use Rattle.ledger_strategy.specs.Parts.{AreResultsFrom, start_of};

use crate::account::Account;
use crate::change::Change;
use crate::held::{Held, Sums, kept_account};
use crate::seeded::Seeded;
use crate::settle::{opening_balance, slot};
use crate::slot::Slot;
use indexmap::{IndexMap, IndexSet};
use ledger_codec::OutOfMemory;
use ledger_strategy::{Strategy, joined, row_of};
use std::alloc::Global;
use std::hash::Hash;
use std::thread::Threads;

/// Takes up a key, and notes its place, unless memory is wanting for that.
fn touch_key<K: Copy + Eq + Hash>(
    keys: &mut IndexSet<K, Seeded>,
    places: &mut Vec<usize>,
    key: K,
) -> Result<(), OutOfMemory>
    ensures ok { OnOk result (keys.new.keys ≡ insert_key K.eq keys.old.keys key) }
    ensures err { OnErr result (keys.new.keys ≡ keys.old.keys) }
    ensures unique { AreDistinct K.eq keys.new }
{
    let (place, _) = keys.insert_full(key)?;
    let _noted = places.push(place);
    Ok(())
}

/// Takes up the keys of the touches, or none where memory is wanting. The places of the touches are noted in `places`, unless memory is
/// wanting for them.
pub(crate) fn touch_keys<K: Copy + Eq + Hash, E: Copy>(
    keys: &mut IndexSet<K, Seeded>,
    places: &mut Vec<usize>,
    all: &[(K, Change<E>)],
) -> Result<(), OutOfMemory>
    ensures ok { OnOk result (keys.new.keys ≡ touched K.eq keys.old.keys all.now) }
    ensures front { take (length keys.old.keys) keys.new.keys ≡ keys.old.keys }
    ensures err { OnErr result (keys.new.keys ≡ keys.old.keys) }
    ensures unique { AreDistinct K.eq keys.new }
{
    let before = keys.len();
    places.clear();
    for (key, _) in all {
        if touch_key(keys, places, *key).is_err() {
            keys.truncate(before);
            return Err(OutOfMemory);
        }
    }
    Ok(())
}

/// Whether the key of each touch is registered.
pub(crate) fn are_registered<K: Copy + Eq + Hash, A: Account>(
    table: &IndexMap<K, Held<A>, Seeded>,
    all: &[(K, Change<A::Effect>)],
) -> bool
    ensures { IsTrue result ↔ All (λ t. IsSome (get K.eq table.now t.0)) all.now }
{
    for (key, _) in all {
        if !table.contains_key(key) {
            return false;
        }
    }
    true
}

/// Registers the next key with this read, for which there is room.
fn register_one<K: Copy + Eq + Hash, A: Account>(
    table: &mut IndexMap<K, Held<A>, Seeded>,
    keys: &[K],
    read: Option<A>,
)
    requires room { 0 < spare table.old }
    requires count { length table.old.entries < length keys.now }
    requires selection { IsSelection K.eq keys.now table.old.entries }
    ensures entries { (k : K) × (slice_get keys.now (length table.old.entries) ≡ Some k)
        × (table.new.entries ≡ table.old.entries ++ (k, fresh read) ∷ []) }
    ensures room { spare table.old ≤ spare table.new + 1 }
    ensures amount { A.rules.balance_of (opened A.rules read) ≤ max_amount }
{
    let _opening = opening_balance(&read);
    let key = keys[table.len()];
    let held = Held {
        read,
        sums: Sums {
            debits: 0,
            credits: 0,
            account: None,
        },
    };
    if table.insert(key, held).is_err() {
        unreachable!();
    }
}

/// Registers the next keys with these reads, for which there is room.
pub(crate) fn register_all<K: Copy + Eq + Hash, A: Account>(
    table: &mut IndexMap<K, Held<A>, Seeded>,
    keys: &[K],
    mut reads: Vec<Option<A>>,
)
    requires room { length reads.items ≤ spare table.old }
    requires count { length table.old.entries + length reads.items ≡ length keys.now }
    requires selection { IsSelection K.eq keys.now table.old.entries }
    ensures entries { table.new.entries ≡ registered keys.now table.old.entries reads.items }
    ensures selection { IsSelection K.eq keys.now table.new.entries }
    ensures amounts { AreAmounts A.rules reads.items }
{
    reads.reverse();
    while let Some(read) = reads.pop() {
        register_one(table, keys, read);
    }
}

/// What becomes of a registered key's account. The sums of a batch that settles neither fall below 0 nor pass the greatest
/// amount, so nothing is cut off.
fn settle_held<A: Account>(alloc: Global, held: &Held<A>) -> Result<Slot<A>, OutOfMemory>
    ensures { IfOk result (λ slot. (total : _) → IsHeld A.eq A.rules held.now.read held.now.sums total
        → Settles A.rules (opened A.rules held.now.read) total
        → SettlesTo A.eq A.rules (opened A.rules held.now.read) total slot) }
{
    let mut account = kept_account(alloc, &held.read, &held.sums)?;
    let left = opening_balance(&held.read).saturating_sub(held.sums.debits);
    account.set_balance(left.saturating_add(held.sums.credits));
    Ok(slot(&held.read, account))
}

/// The slot of the registered key at a place.
fn settle_at<K: Copy + Eq + Hash, A: Account>(
    alloc: Global,
    keys: &[K],
    table: &IndexMap<K, Held<A>, Seeded>,
    place: usize,
) -> Result<Slot<A>, OutOfMemory>
    requires all { length table.now.entries ≡ length keys.now }
    requires selection { IsSelection K.eq keys.now table.now.entries }
    requires within { place < length keys.now }
    ensures { IfOk result (IsKeySlot K.eq A.eq A.rules keys.now table.now.entries place) }
{
    let Some((_, held)) = table.get_index(place) else {
        unreachable!();
    };
    settle_held(alloc, held)
}

/// The slots of the keys from one place on and up to another.
fn settle_row<K: Copy + Eq + Hash, A: Account>(
    alloc: Global,
    keys: &[K],
    table: &IndexMap<K, Held<A>, Seeded>,
    from: usize,
    upto: usize,
) -> Result<Vec<Slot<A>>, OutOfMemory>
    requires all { length table.now.entries ≡ length keys.now }
    requires selection { IsSelection K.eq keys.now table.now.entries }
    requires order { from ≤ upto }
    requires within { upto ≤ length keys.now }
    ensures { IfOk result (λ slots. AreResultsFrom (IsKeySlot K.eq A.eq A.rules keys.now table.now.entries)
        from upto slots.items) }
{
    let mut slots = Vec::with_capacity(alloc, upto - from)?;
    for place in from..upto {
        let slot = settle_at(alloc, keys, table, place)?;
        slots.push(slot)?;
    }
    Ok(slots)
}

/// One slot per registered key, worked out in so many parts.
pub(crate) fn settle_all<
    R: Threads + Sync,
    S: Strategy,
    K: Copy + Eq + Hash + Send + Sync,
    A: Account,
>(
    rt: &R,
    alloc: Global,
    strategy: &S,
    parts: usize,
    keys: &[K],
    table: &IndexMap<K, Held<A>, Seeded>,
) -> Result<Vec<Slot<A>>, OutOfMemory>
    requires some { 0 < parts }
    requires all { length table.now.entries ≡ length keys.now }
    requires selection { IsSelection K.eq keys.now table.now.entries }
    ensures { IfOk result (λ slots. (ts : _) → StandsFor K.eq A.eq A.rules table.now.entries ts
        → AreSettled K.eq A.eq A.rules keys.now (opened_at K.eq A.eq A.rules table.now.entries) ts
        slots.items) }
{
    let rows = strategy.map_parts(
        rt,
        alloc,
        parts,
        |part: usize| -> Result<Vec<Slot<A>>, OutOfMemory>
            requires { (0 < parts) × (length table.now.entries ≡ length keys.now)
                × IsSelection K.eq keys.now table.now.entries }
            ensures { IfOk result (λ slots. AreResultsFrom
                (IsKeySlot K.eq A.eq A.rules keys.entry.now table.entry.now.entries)
                (start_of part parts (length keys.entry.now))
                (start_of (part + 1) parts (length keys.entry.now)) slots.items) }
        {
            let row = row_of(part, parts, keys.len());
            settle_row(alloc, keys, table, row.start, row.end)
        },
    )?;
    joined(alloc, rows)
}
