//! The slots of a plan's keys, worked out in parts.
ghost use Rattle.std.specs.Prelude.{◌≡◌, ◌+◌, ◌<◌, ◌≤◌, IfOk, IfErr, length};
ghost use Rattle.indexmap.specs.IndexMap.{index_map_len};
ghost use Rattle.ledger_strategy.specs.Parts.{AreResultsFrom, start_of};
ghost use Rattle.ledger_transfers.specs.Settling.{AreSlots, IsSlotAt, PlanFails};

use crate::account::Account;
use crate::fault::PlanFault;
use crate::seeded::Seeded;
use crate::settle::settle_key;
use crate::slot::Slot;
use crate::totals::Totals;
use indexmap::IndexMap;
use ledger_strategy::{Strategy, joined, row_of};
use std::alloc::Global;
use std::hash::Hash;
use std::thread::Threads;

/// The fewest transfers, or keys, that are worth a part of their own.
pub(crate) const LEAST: usize = 4_096;

/// How many parts so many pieces of work are cut into: at most one for each worker, and none of less than `least` pieces.
pub(crate) fn parts_for<S: Strategy>(strategy: &S, pieces: usize, least: usize) -> usize
    requires { 0 < least }
    ensures { 0 < result }
{
    strategy.workers().min(pieces / least).max(1)
}

/// The slot of the key at a place.
fn settle_at<K: Copy + Eq + Hash, A: Account>(
    alloc: Global,
    table: &IndexMap<K, Totals<A::Effect>, Seeded>,
    reads: &[Option<A>],
    place: usize,
) -> Result<Slot<A>, PlanFault<K>>
    requires reads { length reads.now ≡ index_map_len table.now }
    requires within { place < length reads.now }
    ensures settled { IfOk result (IsSlotAt A.eq A.rules table.now.entries reads.now place) }
    ensures fails { IfErr result (PlanFails A.rules table.now.entries reads.now) }
{
    let Some((key, total)) = table.get_index(place) else {
        unreachable!();
    };
    settle_key(alloc, *key, &reads[place], total)
}

/// The slots of the keys from one place on and up to another.
fn settle_row<K: Copy + Eq + Hash, A: Account>(
    alloc: Global,
    table: &IndexMap<K, Totals<A::Effect>, Seeded>,
    reads: &[Option<A>],
    from: usize,
    upto: usize,
) -> Result<Vec<Slot<A>>, PlanFault<K>>
    requires reads { length reads.now ≡ index_map_len table.now }
    requires order { from ≤ upto }
    requires within { upto ≤ length reads.now }
    ensures settled { IfOk result (λ slots. AreResultsFrom
        (IsSlotAt A.eq A.rules table.now.entries reads.now) from upto slots.items) }
    ensures fails { IfErr result (PlanFails A.rules table.now.entries reads.now) }
{
    let Ok(mut slots) = Vec::with_capacity(alloc, upto - from) else {
        return Err(PlanFault::OutOfMemory);
    };
    for place in from..upto {
        let slot = settle_at(alloc, table, reads, place)?;
        slots.push(slot)?;
    }
    Ok(slots)
}

/// One slot per key, over one read per key, worked out in so many parts.
pub(crate) fn settle_all<
    R: Threads + Sync,
    S: Strategy,
    K: Copy + Eq + Hash + Send + Sync,
    A: Account,
>(
    rt: &R,
    alloc: Global,
    strategy: &S,
    parts: usize,
    table: &IndexMap<K, Totals<A::Effect>, Seeded>,
    reads: &[Option<A>],
) -> Result<Vec<Slot<A>>, PlanFault<K>>
    requires some { 0 < parts }
    requires reads { length reads.now ≡ index_map_len table.now }
    ensures settled { IfOk result (λ slots. AreSlots A.eq A.rules table.now.entries reads.now slots.items) }
    ensures fails { IfErr result (PlanFails A.rules table.now.entries reads.now) }
{
    let rows = strategy.map_parts(
        rt,
        alloc,
        parts,
        |part: usize| -> Result<Vec<Slot<A>>, PlanFault<K>>
            requires { (0 < parts) × (length reads.now ≡ index_map_len table.now) }
            ensures { IfOk result (λ slots. AreResultsFrom
                (IsSlotAt A.eq A.rules table.entry.now.entries reads.entry.now)
                (start_of part parts (length reads.entry.now))
                (start_of (part + 1) parts (length reads.entry.now)) slots.items)
                × IfErr result (PlanFails A.rules table.entry.now.entries reads.entry.now) }
        {
            let row = row_of(part, parts, reads.len());
            settle_row(alloc, table, reads, row.start, row.end)
        },
    )?;
    joined(alloc, rows)
}
