//! A batch, gathered by key and ready to settle.
ghost use Rattle.std.specs.Prelude.{◌≡◌, [], ◌∷◌, ◌++◌, ◌+◌, ◌<◌, ◌≤◌, OnOk, OnErr, IfErr, IfOk, Some, unwrap_or, filter, not};
ghost use Rattle.ledger_transfers.specs.Changes.{is_empty_change};
ghost use Rattle.std.specs.Prelude.{map, length, ◌↔◌, IsTrue};
ghost use Rattle.indexmap.specs.IndexMap.{get, insert_entry, Updates, IsUnique, index_map_len};
ghost use Rattle.std.specs.Map.{keys_of};
ghost use Rattle.ledger_transfers.specs.Settling.{AreSlots, PlanFails};
ghost use Rattle.ledger_transfers.specs.Touches.{touches, no_total, with_change, FitsWith, IsPlanOf, IsWithinSums};
ghost use Rattle.ledger_transfers.specs.Adds.{AddFails, GatherFails};
ghost use Rattle.ledger_transfers.specs.Registering.{touched};
ghost use Rattle.ledger_transfers.specs.Batches.{opened_by, BatchFails, BatchSettles};

use crate::account::Account;
use crate::change::Change;
use crate::fault::PlanFault;
use crate::seeded::{Seeded, fresh_seed};
use crate::slot::Slot;
use crate::slots::{LEAST, parts_for, settle_all};
use crate::totals::Totals;
use crate::transfer::{Transfer, touches_into};
use indexmap::IndexMap;
use indexmap::map::Entry;
use ledger_strategy::Strategy;
use std::alloc::Global;
use std::hash::Hash;
use std::marker::{Model, PhantomData};
use std::random::RandomSource;
use std::thread::Threads;

/// The keys that a batch touches, each once and in order of first touch, with the sums of its debits and credits and its effects in
/// order. Contracts see the list of these entries.
#[derive(Drop)]
pub struct Plan<K: Copy + Eq + Hash, A: Account> {
    table: IndexMap<K, Totals<A::Effect>, Seeded>,
    /// How many transfers the batch has, by which settling is cut.
    transfers: usize,
    of: PhantomData<A>,
}

impl<K: Copy + Eq + Hash, A: Account> Model for Plan<K, A> {
    ghost use Rattle.std.specs.Prelude.{List};
    ghost use Rattle.ledger_transfers.specs.declared.totals.Totals.{Totals as TotalsOf};

    ghost Value = { List (K × TotalsOf A.Effect) };

    ghost view = { λ p. p.table.entries };
}

/// Adds a change to what is kept under its key.
fn add_touch<K: Copy + Eq + Hash, E: Copy>(
    alloc: Global,
    table: &mut IndexMap<K, Totals<E>, Seeded>,
    key: K,
    change: Change<E>,
) -> Result<(), PlanFault<K>>
    ensures ok { OnOk result (Updates K.eq table.old table.new key
        (Some (with_change (unwrap_or (get K.eq table.old key) no_total) change))) }
    ensures entries { OnOk result (table.new.entries ≡ insert_entry K.eq table.old.entries key
        (with_change (unwrap_or (get K.eq table.old key) no_total) change)) }
    ensures fits { OnOk result (FitsWith (unwrap_or (get K.eq table.old key) no_total) change) }
    ensures unique { OnOk result (IsUnique K.eq table.new) }
    ensures fails { IfErr result (AddFails (unwrap_or (get K.eq table.old key) no_total) key change) }
{
    match table.entry(key) {
        Err(_) => Err(PlanFault::OutOfMemory),
        Ok(Entry::Occupied(mut entry)) => entry.get_mut().add(key, change),
        Ok(Entry::Vacant(entry)) => {
            let mut total = Totals::new(alloc);
            total.add(key, change)?;
            entry.insert(total);
            Ok(())
        }
    }
}

/// Adds touches to what is kept under their keys.
fn add_touches<K: Copy + Eq + Hash, E: Copy>(
    alloc: Global,
    table: &mut IndexMap<K, Totals<E>, Seeded>,
    all: &[(K, Change<E>)],
) -> Result<(), PlanFault<K>>
    ensures plan { OnOk result ((before : _) → IsPlanOf K.eq before table.old.entries
        → IsPlanOf K.eq (before ++ all.now) table.new.entries) }
    ensures order { OnOk result ((before : _) → keys_of table.old.entries ≡ touched K.eq [] before
        → keys_of table.new.entries ≡ touched K.eq [] (before ++ all.now)) }
    ensures within { OnOk result ((before : _) → IsPlanOf K.eq before table.old.entries
        → IsWithinSums K.eq before → IsWithinSums K.eq (before ++ all.now)) }
    ensures fails { IfErr result (λ fault. (before : _) (more : _) → IsPlanOf K.eq before table.old.entries
        → GatherFails K.eq ((before ++ all.now) ++ more) fault) }
{
    for (key, change) in all {
        add_touch(alloc, table, *key, *change)?;
    }
    Ok(())
}

/// What the touches of a batch do to each key. The touches of one transfer at a time take memory.
fn gather<T: Transfer<Key = K, Account = A>, K: Copy + Eq + Hash, A: Account>(
    alloc: Global,
    seed: u64,
    transfers: &[T],
) -> Result<IndexMap<K, Totals<A::Effect>, Seeded>, PlanFault<K>>
    ensures plan { IfOk result (λ table. IsPlanOf K.eq (touches T.changes_of transfers.now) table.entries) }
    ensures order { IfOk result (λ table. keys_of table.entries
        ≡ touched K.eq [] (touches T.changes_of transfers.now)) }
    ensures within { OnOk result (IsWithinSums K.eq (touches T.changes_of transfers.now)) }
    ensures fails { IfErr result (GatherFails K.eq (touches T.changes_of transfers.now)) }
{
    let mut table = IndexMap::with_hasher(alloc, Seeded::new(seed));
    let mut all = Vec::new(alloc);
    for transfer in transfers {
        touches_into(transfer, &mut all)?;
        add_touches(alloc, &mut table, all.as_slice())?;
    }
    Ok(table)
}

impl<K: Copy + Eq + Hash, A: Account> Plan<K, A> {
    /// What a batch does to each key that it touches, in a table that hashes with a fresh seed. A rejection is `Insufficient` where a key's
    /// debits alone are above `u64::MAX`, and `Overflow` where its credits are; which such key is named is open. The work is linear in
    /// the changes. It is one part, so that `strategy` has nothing to divide yet.
    pub fn new<R: RandomSource + Threads + Sync, T: Transfer<Key = K, Account = A>, S: Strategy>(
        rt: &R,
        alloc: Global,
        transfers: &[T],
        strategy: &S,
    ) -> Result<Self, PlanFault<K>>
        ensures plan { IfOk result (IsPlanOf K.eq (touches T.changes_of transfers.now)) }
        ensures order { IfOk result (λ plan. keys_of plan
            ≡ touched K.eq [] (touches T.changes_of transfers.now)) }
        ensures within { OnOk result (IsWithinSums K.eq (touches T.changes_of transfers.now)) }
        ensures fails { IfErr result (GatherFails K.eq (touches T.changes_of transfers.now)) }
    {
        Plan::with_seed(rt, alloc, transfers, fresh_seed(rt), strategy)
    }

    /// What `new` answers, in a table that hashes with this seed.
    pub fn with_seed<R: Threads + Sync, T: Transfer<Key = K, Account = A>, S: Strategy>(
        _rt: &R,
        alloc: Global,
        transfers: &[T],
        seed: u64,
        _strategy: &S,
    ) -> Result<Self, PlanFault<K>>
        ensures plan { IfOk result (IsPlanOf K.eq (touches T.changes_of transfers.now)) }
        ensures order { IfOk result (λ plan. keys_of plan
            ≡ touched K.eq [] (touches T.changes_of transfers.now)) }
        ensures within { OnOk result (IsWithinSums K.eq (touches T.changes_of transfers.now)) }
        ensures fails { IfErr result (GatherFails K.eq (touches T.changes_of transfers.now)) }
    {
        let table = gather(alloc, seed, transfers)?;
        Ok(Plan {
            table,
            transfers: transfers.len(),
            of: PhantomData,
        })
    }

    /// The touched keys, each once, in order of first touch.
    pub fn keys(&self) -> &[K]
        ensures { result.now ≡ keys_of self.now }
    {
        self.table.keys().as_slice()
    }

    /// How many keys are touched.
    pub fn len(&self) -> usize
        ensures { result ≡ length self.now }
    {
        self.table.len()
    }

    /// Whether no key is touched.
    pub fn is_empty(&self) -> bool
        ensures { IsTrue result ↔ (self.now ≡ []) }
    {
        self.table.is_empty()
    }

    /// One slot per key in the order of `keys`, over one read per key; a missing one is the default account. A rejection names a key by its
    /// first reason of: an effect is refused, the debits are above the opening balance, the final balance is above `u64::MAX`. Which
    /// such key is named is open. The keys are cut into parts that `strategy` runs. The work is linear in the keys and effects.
    pub fn settle<R: Threads + Sync, S: Strategy>(
        &self,
        rt: &R,
        alloc: Global,
        reads: &[Option<A>],
        strategy: &S,
    ) -> Result<Vec<Slot<A>>, PlanFault<K>>
    where
        K: Send + Sync,
        requires { length reads.now ≡ length self.now }
        ensures settled { IfOk result (λ slots. AreSlots A.eq A.rules self.now reads.now slots.items) }
        ensures fails { IfErr result (PlanFails A.rules self.now reads.now) }
        ensures batch { IfOk result (λ slots. (ts : _) → IsPlanOf K.eq ts self.now
            → BatchSettles K.eq A.rules A.eq (keys_of self.now)
            (opened_by K.eq A.rules (keys_of self.now) reads.now) ts slots.items) }
        ensures offends { IfErr result (λ fault. (ts : _) → IsPlanOf K.eq ts self.now
            → BatchFails K.eq A.rules (opened_by K.eq A.rules (keys_of self.now) reads.now) ts fault) }
    {
        let parts = parts_for(strategy, self.transfers, LEAST);
        settle_all(rt, alloc, strategy, parts, &self.table, reads)
    }
}
