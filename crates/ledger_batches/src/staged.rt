//! A batch with keys read for slots.
ghost use Rattle.std.specs.Prelude.{◌≡◌, ◌⊎◌, ◌+◌, ◌++◌, [], ◌↔◌, length, map, None, Err, MatchOption, IsOkUnless, IfSome, IfOk, IfErr, OnOk, IsTrue, Some};
ghost use Rattle.ledger_compact.specs.View.{with_ops};
ghost use Rattle.ledger_raising.specs.Raised.{Raises};
ghost use Rattle.ledger_chain.specs.Chain.{state_of, read};
ghost use Rattle.ledger_chain.specs.Changes.{changes};
ghost use Rattle.ledger_chain.specs.Faults.{stale_read};
ghost use Rattle.ledger_batches.specs.Batches.{body_of};
ghost use Rattle.ledger_batches.specs.Sealing.{completed, sealed, seal_refusal};
ghost use Rattle.ledger_batches.specs.Slots.{slot_write, slot_writes, with_slots};

use crate::family::BatchFamily;
use crate::merkleized::Merkleized;
use crate::reading::lacking;
use crate::unmerkleized::Unmerkleized;
use ledger_chain::ManagedFault;
use ledger_codec::OutOfMemory;
use ledger_log::{Family, Key, KeyedFamily, Log, Value};
use ledger_merkle::Hasher;
use ledger_transfers::Slot;
use std::alloc::Global;
use std::marker::Model;
use std::ops::Range;

/// A batch with the keys that it has read. Each of them has a slot, which says what becomes of it.
#[derive(Drop)]
pub struct Staged<F: Family> {
    batch: Unmerkleized<F>,
    keys: Vec<Key>,
}

impl<F: Family> Model for Staged<F> {
    ghost use Rattle.ledger_batches.specs.Batches.{StagedView};

    ghost Value = { StagedView F.Op };

    ghost view = { λ s. record { batch = s.batch; keys = s.keys.items } };
}

impl<F: Family> Staged<F> {
    /// The batch with slots for these keys.
    pub(crate) fn new(batch: Unmerkleized<F>, keys: Vec<Key>) -> Staged<F>
        ensures { result ≡ record { batch = batch; keys = keys.items } }
    {
        Staged { batch, keys }
    }

    /// The batch with these metadata in its commit.
    pub fn with_metadata(self, metadata: Value) -> Staged<F>
        ensures { result ≡ record {
          batch = record {
            chain = self.batch.chain;
            writes = self.batch.writes;
            metadata = Some metadata;
          };
          keys = self.keys;
        } }
    {
        let Staged { batch, keys } = self;
        Staged {
            batch: batch.with_metadata(metadata),
            keys,
        }
    }

    /// How many slots there are.
    pub fn len(&self) -> usize
        ensures { result ≡ length self.now.keys }
    {
        self.keys.len()
    }

    /// Whether there is no slot.
    pub fn is_empty(&self) -> bool
        ensures { IsTrue result ↔ (self.now.keys ≡ []) }
    {
        self.keys.is_empty()
    }
}

impl<F: KeyedFamily> Staged<F> {
    /// The places of the slots for more keys, their values, and the batch with them. A key that has a slot
    /// already gets another one. Refused as [`Unmerkleized::get_many`] is, which gives the batch up.
    pub fn expand<H: Hasher>(
        mut self,
        db: &Log<F, H>,
        keys: &[Key],
    ) -> Result<(Range<usize>, Vec<Option<Value>>, Staged<F>), ManagedFault>
        ensures refusal { MatchOption
            (stale_read self.batch.chain (state_of H.digest F.Op.spelling db.now))
            (IsOkUnless result ManagedFault.OutOfMemory) (λ fault. result ≡ Err fault) }
        ensures places { IfOk result (λ r. (r.0.start ≡ length self.keys) ×
            (r.0.end ≡ length self.keys + length keys.now)) }
        ensures values { IfOk result
            (λ r. r.1.items ≡ map (read F.write_of self.batch.chain self.batch.writes db.now) keys.now) }
        ensures staged { IfOk result
            (λ r. r.2 ≡ record { batch = self.batch; keys = self.keys ++ keys.now }) }
    {
        let values = self.batch.get_many(db, keys)?;
        let start = self.keys.len();
        self.keys.extend_from_slice(keys)?;
        let end = self.keys.len();
        Ok((start..end, values, self))
    }
}

/// The write of a slot, None of one that is kept.
fn slot_write(key: &Key, slot: &Slot<Value>) -> Option<(Key, Option<Value>)>
    ensures { result ≡ slot_write key.now slot.now }
{
    match slot {
        Slot::Keep => None,
        Slot::Delete => Some((*key, None)),
        Slot::Put(value) => Some((*key, Some(*value))),
    }
}

/// The writes of the slots of these keys, in their order.
fn slot_writes(
    alloc: Global,
    keys: &[Key],
    slots: &[Slot<Value>],
) -> Result<Vec<(Key, Option<Value>)>, OutOfMemory>
    ensures { IfOk result (λ writes. writes.items ≡ slot_writes keys.now slots.now) }
{
    Ok(
        keys.iter()
            .zip(slots)
            .filter_map(|(key, slot)| slot_write(key, slot))
            .collect(alloc)?,
    )
}

/// The same, and the unstaged ones behind them.
fn all_writes(
    alloc: Global,
    keys: &[Key],
    slots: &[Slot<Value>],
    unstaged: &[(Key, Option<Value>)],
) -> Result<Vec<(Key, Option<Value>)>, OutOfMemory>
    ensures { IfOk result (λ writes. writes.items ≡ slot_writes keys.now slots.now ++ unstaged.now) }
{
    let mut writes = slot_writes(alloc, keys, slots)?;
    writes.extend_from_slice(unstaged)?;
    Ok(writes)
}

impl<F: Family> Staged<F> {
    /// The batch with the writes of these slots, and then the unstaged ones.
    fn with_slots(
        self,
        slots: &[Slot<Value>],
        unstaged: &[(Key, Option<Value>)],
    ) -> Result<Unmerkleized<F>, OutOfMemory>
        ensures { IfOk result (λ batch. batch ≡ with_slots self slots.now unstaged.now) }
    {
        let writes = all_writes(self.batch.alloc(), self.keys.as_slice(), slots, unstaged)?;
        let batch = self.batch.with_writes(writes.as_slice())?;
        Ok(batch)
    }
}

impl<F: BatchFamily> Staged<F> {
    /// The batch sealed, with its writes so far, then those of the slots, one for each staged key, and then the
    /// unstaged ones: the last of a key wins, at the first one's place. Refused as [`Unmerkleized::merkleize`] is.
    pub fn merkleize<H: Hasher>(
        self,
        db: &Log<F, H>,
        slots: Vec<Slot<Value>>,
        unstaged: Vec<(Key, Option<Value>)>,
    ) -> Result<Merkleized<F>, ManagedFault>
        requires { length slots.items ≡ length self.keys }
        ensures stale { IfSome (stale_read self.batch.chain (state_of H.digest F.Op.spelling db.now))
            (λ fault. result ≡ Err fault) }
        ensures may { OnOk result (seal_refusal H.digest F.Op.spelling F.floor_of F.write_of F.put_of
            F.delete_of F.commit_of (with_slots self slots.items unstaged.items) db.now ≡ None) }
        ensures refuses { IfErr result (λ e. (e ≡ ManagedFault.OutOfMemory) ⊎
            (seal_refusal H.digest F.Op.spelling F.floor_of F.write_of F.put_of F.delete_of F.commit_of
            (with_slots self slots.items unstaged.items) db.now ≡ Some e)) }
        ensures ok { IfOk result (λ batch. body_of batch ≡ sealed H.digest F.Op.spelling F.floor_of
            F.write_of F.put_of F.delete_of F.commit_of (with_slots self slots.items unstaged.items) db.now) }
        ensures root { IfOk result (λ batch. batch.root ≡ F.shown_of H.digest
            (with_ops (completed H.digest F.Op.spelling self.batch.chain db.now) batch.own.ops)) }
        ensures law { IfOk result (λ batch. Raises F.floor_of F.write_of
            (completed H.digest F.Op.spelling self.batch.chain db.now)
            (changes F.write_of F.put_of F.delete_of self.batch.chain db.now
            (with_slots self slots.items unstaged.items).writes) batch.own.ops) }
    {
        match lacking(self.batch.chain(), db) {
            Ok(_) => {}
            Err(fault) => return Err(fault),
        }
        match self.with_slots(slots.as_slice(), unstaged.as_slice()) {
            Ok(batch) => batch.merkleize(db),
            Err(_) => Err(ManagedFault::OutOfMemory),
        }
    }
}
