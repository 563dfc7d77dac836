//! For each key the place behind the last operation that writes it, so that a look-up reads one operation.
ghost use Rattle.std.specs.Prelude.{◌≡◌, ℕ, ◌+◌, ◌≤◌, ◌^◌, List as Items, All, Option, length, IfOk, OnOk, IsTrue};
ghost use Rattle.ledger_log.specs.View.{key_written, value_at};
ghost use Rattle.ledger_log.specs.Index.{IsIndex, HasEntry, end_at, end_where, retained, end_after, last_write};

use crate::{Family, Key, Value};
use ledger_codec::OutOfMemory;
use std::alloc::Global;
use std::collections::BTreeMap;

/// For each key the place behind its last operation. Entries at or below the front of their log are stale.
pub(crate) type Index = BTreeMap<Key, u64>;

/// Makes an entry for each key that the operations write and that has none: all that needs memory before
/// the operations are noted. An entry made here says that there is no operation yet.
pub(crate) fn make_room<F: Family>(index: &mut Index, ops: &[F::Op]) -> Result<(), OutOfMemory>
    ensures same { (k : Items ℕ) → end_at index.new k ≡ end_at index.old k }
    ensures room { OnOk result (All (λ op. HasEntry index.new (key_written (F.write_of op))) ops.now) }
{
    for op in ops {
        make_entry(index, F::written_key(op))?;
    }
    Ok(())
}

/// Makes an entry for the key, if there is one that has none.
fn make_entry(index: &mut Index, key: Option<Key>) -> Result<(), OutOfMemory>
    ensures same { (k : Items ℕ) → end_at index.new k ≡ end_at index.old k }
    ensures room { OnOk result (HasEntry index.new key) }
    ensures others { (other : Option (Items ℕ)) → HasEntry index.old other → HasEntry index.new other }
{
    if let Some(key) = key {
        if !index.contains_key(&key) {
            index.insert(key, 0)?;
        }
    }
    Ok(())
}

/// Notes that these operations stand from `start` on. It takes no memory.
pub(crate) fn note<F: Family>(index: &mut Index, ops: &[F::Op], start: u64)
    requires room { All (λ op. HasEntry index.old (key_written (F.write_of op))) ops.now }
    requires most { start + length ops.now ≤ 2 ^ 62 }
    ensures { (k : Items ℕ) →
        end_at index.new k ≡ end_after start (end_at index.old k) (last_write F.write_of k ops.now) }
{
    let mut end = start;
    for op in ops {
        end += 1;
        set_end(index, F::written_key(op), end);
    }
}

/// Changes the entry of the key, if there is one.
fn set_end(index: &mut Index, key: Option<Key>, end: u64)
    requires { HasEntry index.old key }
    ensures end { (k : Items ℕ) → end_at index.new k ≡ end_where key k end (end_at index.old k) }
    ensures others { (other : Option (Items ℕ)) → HasEntry index.old other → HasEntry index.new other }
{
    if let Some(key) = key {
        if let Some(slot) = index.get_mut(&key) {
            *slot = end;
        }
    }
}

/// The index of a log that begins with these operations at `start`.
pub(crate) fn index_of<F: Family>(
    alloc: Global,
    ops: &[F::Op],
    start: u64,
) -> Result<Index, OutOfMemory>
    requires { start + length ops.now ≤ 2 ^ 62 }
    ensures { IfOk result (λ index. IsIndex F.write_of index start ops.now) }
{
    let mut index = BTreeMap::new(alloc);
    let mut end = start;
    for op in ops {
        end += 1;
        put_end(&mut index, F::written_key(op), end)?;
    }
    Ok(index)
}

/// Gives the key this entry, if there is a key.
fn put_end(index: &mut Index, key: Option<Key>, end: u64) -> Result<(), OutOfMemory>
    ensures { OnOk result ((k : Items ℕ) → end_at index.new k ≡ end_where key k end (end_at index.old k)) }
{
    if let Some(key) = key {
        index.insert(key, end)?;
    }
    Ok(())
}

/// Takes out the entries of these operations, which a log with this new front drops, as far as they are
/// stale.
pub(crate) fn forget<F: Family>(index: &mut Index, ops: &[F::Op], front: u64)
    ensures { (k : Items ℕ) → retained front (end_at index.new k) ≡ retained front (end_at index.old k) }
{
    for op in ops {
        forget_key(index, F::written_key(op), front);
    }
}

/// Takes out the entries of these operations that say that there is no operation yet.
pub(crate) fn forget_unwritten<F: Family>(index: &mut Index, ops: &[F::Op])
    ensures { (k : Items ℕ) → end_at index.new k ≡ end_at index.old k }
{
    forget::<F>(index, ops, 0);
}

/// Takes out the entry of the key, if there is one and it is stale.
fn forget_key(index: &mut Index, key: Option<Key>, front: u64)
    ensures { (k : Items ℕ) → retained front (end_at index.new k) ≡ retained front (end_at index.old k) }
{
    if let Some(key) = key {
        if is_stale(index, &key, front) {
            index.remove(&key);
        }
    }
}

/// Whether the key has an entry at or below the front.
fn is_stale(index: &Index, key: &Key, front: u64) -> bool
    ensures { IsTrue result → end_at index.now key.now ≤ front }
{
    match index.get(key) {
        Some(end) => *end <= front,
        None => false,
    }
}

/// The value that the key has after these operations, which stand from `front` on.
pub(crate) fn look_up<F: Family>(
    index: &Index,
    ops: &[F::Op],
    front: u64,
    key: &Key,
) -> Option<Value>
    requires { IsIndex F.write_of index.now front ops.now }
    ensures { result ≡ value_at F.write_of key.now ops.now }
{
    let end = end_of(index, key);
    if end <= front {
        return None;
    }
    F::written_value(&ops[(end - front - 1) as usize])
}

/// The place behind the key's last operation as the index has it, 0 where it has none.
pub(crate) fn end_of(index: &Index, key: &Key) -> u64
    ensures { result ≡ end_at index.now key.now }
{
    match index.get(key) {
        Some(end) => *end,
        None => 0,
    }
}

/// An equal index.
pub(crate) fn copy_of(index: &Index) -> Result<Index, OutOfMemory>
    ensures { IfOk result (λ copy. copy.entries ≡ index.now.entries) }
{
    Ok(index.clone()?)
}
