//! A batch that takes writes.
ghost use Rattle.std.specs.Prelude.{◌≡◌, ◌⊎◌, ◌++◌, ◌∷◌, [], None, Some, Err, map, MatchOption, IsOk, IsOkUnless, IfSome, IfOk, IfErr, OnOk};
ghost use Rattle.ledger_compact.specs.View.{with_ops};
ghost use Rattle.ledger_raising.specs.Raised.{Raises};
ghost use Rattle.ledger_chain.specs.Chain.{state_of, read};
ghost use Rattle.ledger_chain.specs.Changes.{changes};
ghost use Rattle.ledger_chain.specs.Faults.{stale_read};
ghost use Rattle.ledger_chain.specs.Writes.{settled};
ghost use Rattle.ledger_batches.specs.Batches.{body_of};
ghost use Rattle.ledger_batches.specs.Sealing.{completed, sealed, seal_refusal};

use crate::family::BatchFamily;
use crate::merkleized::Merkleized;
use crate::reading::lacking;
use crate::sealing::{Sealed, seal};
use crate::staged::Staged;
use ledger_chain::{Chain, ManagedFault, Writes, state_of};
use ledger_codec::OutOfMemory;
use ledger_log::{Family, Key, KeyedFamily, Log, Value};
use ledger_merkle::Hasher;
use ledger_transfers::Seeded;
use std::alloc::Global;
use std::marker::Model;
use std::random::RandomSource;

/// A batch that takes writes. It is read over a database whose size and root are a state of its chain: those
/// that it was made over, or those after one of its ancestors.
#[derive(Drop)]
pub struct Unmerkleized<F: Family> {
    alloc: Global,
    hashing: Seeded,
    chain: Chain<F>,
    writes: Writes,
    metadata: Option<Value>,
}

impl<F: Family> Model for Unmerkleized<F> {
    ghost use Rattle.ledger_batches.specs.Batches.{BatchView};

    ghost Value = { BatchView F.Op };

    ghost view = { λ b. record { chain = b.chain; writes = b.writes; metadata = b.metadata } };
}

impl<F: Family> Unmerkleized<F> {
    /// A batch without writes over the database. What it keeps by keys is hashed with a fresh seed, which is 0
    /// where the runtime's source of random bytes fails.
    pub fn over<R: RandomSource, H: Hasher>(
        rt: &R,
        alloc: Global,
        db: &Log<F, H>,
    ) -> Unmerkleized<F>
        ensures { result ≡ record {
          chain = record {
            base = state_of H.digest F.Op.spelling db.now;
            links
                = [];
          };
          writes = [];
          metadata = None;
        } }
    {
        Unmerkleized::on(alloc, Seeded::fresh(rt), Chain::new(alloc, state_of(db)))
    }

    /// A batch without writes over this chain, which hashes its keys so.
    pub(crate) fn on(alloc: Global, hashing: Seeded, chain: Chain<F>) -> Unmerkleized<F>
        ensures { result ≡ record { chain = chain; writes = []; metadata = None } }
    {
        Unmerkleized {
            alloc,
            hashing,
            chain,
            writes: Writes::new(alloc, hashing),
            metadata: None,
        }
    }

    /// The batch with these metadata in its commit.
    pub fn with_metadata(mut self, metadata: Value) -> Unmerkleized<F>
        ensures { result ≡ record { chain = self.chain; writes = self.writes; metadata = Some metadata } }
    {
        self.metadata = Some(metadata);
        self
    }

    /// The batch with one write more: the key takes this value, or none. Refused for want of memory alone,
    /// which gives the batch up.
    pub fn write(mut self, key: Key, value: Option<Value>) -> Result<Unmerkleized<F>, ManagedFault>
        ensures may { IsOkUnless result ManagedFault.OutOfMemory }
        ensures ok { IfOk result
            (λ batch. batch ≡ record {
              chain = self.chain;
              writes = settled
                  (self.writes ++ (key, value) ∷ []);
              metadata = self.metadata;
            }) }
    {
        self.writes.put(key, value)?;
        Ok(self)
    }

    /// What the batch was made with.
    pub(crate) fn alloc(&self) -> Global {
        self.alloc
    }

    /// The chain.
    pub(crate) fn chain(&self) -> &Chain<F>
        ensures { result.now ≡ self.now.chain }
    {
        &self.chain
    }

    /// The batch with these writes more, in their order.
    pub(crate) fn with_writes(
        mut self,
        writes: &[(Key, Option<Value>)],
    ) -> Result<Unmerkleized<F>, OutOfMemory>
        ensures { IfOk result
            (λ batch. batch ≡ record {
              chain = self.chain;
              writes = settled (self.writes ++ writes.now);
              metadata = self.metadata;
            }) }
    {
        self.writes.put_all(writes)?;
        Ok(self)
    }
}

impl<F: KeyedFamily> Unmerkleized<F> {
    /// The value of the key, which is None where it has none. It takes no memory. Refused exactly where the
    /// database's size and root are no state of the chain, with these.
    pub fn get<H: Hasher>(&self, db: &Log<F, H>, key: &Key) -> Result<Option<Value>, ManagedFault>
        ensures refusal { MatchOption (stale_read self.now.chain (state_of H.digest F.Op.spelling db.now))
            (IsOk result) (λ fault. result ≡ Err fault) }
        ensures value { IfOk result (λ value. value ≡ read F.write_of self.now.chain self.now.writes
            db.now key.now) }
    {
        lacking(&self.chain, db)?;
        Ok(self.read(db, key))
    }

    /// The values of the keys, in their order. Refused as [`Unmerkleized::get`] is, and then for want of memory.
    pub fn get_many<H: Hasher>(
        &self,
        db: &Log<F, H>,
        keys: &[Key],
    ) -> Result<Vec<Option<Value>>, ManagedFault>
        ensures refusal { MatchOption (stale_read self.now.chain (state_of H.digest F.Op.spelling db.now))
            (IsOkUnless result ManagedFault.OutOfMemory) (λ fault. result ≡ Err fault) }
        ensures values { IfOk result
            (λ values. values.items ≡ map (read F.write_of self.now.chain self.now.writes db.now)
            keys.now) }
    {
        lacking(&self.chain, db)?;
        Ok(self.read_all(db, keys)?)
    }

    /// The values of the keys, in their order, and the batch with slots for them. Refused as
    /// [`Unmerkleized::get_many`] is, which gives the batch up.
    pub fn stage<H: Hasher>(
        self,
        db: &Log<F, H>,
        keys: &[Key],
    ) -> Result<(Vec<Option<Value>>, Staged<F>), ManagedFault>
        ensures refusal { MatchOption (stale_read self.chain (state_of H.digest F.Op.spelling db.now))
            (IsOkUnless result ManagedFault.OutOfMemory) (λ fault. result ≡ Err fault) }
        ensures values { IfOk result (λ r. r.0.items ≡ map (read F.write_of self.chain self.writes db.now)
            keys.now) }
        ensures staged { IfOk result (λ r. r.1 ≡ record { batch = self; keys = keys.now }) }
    {
        let values = self.get_many(db, keys)?;
        let keys = Vec::from_slice(self.alloc, keys)?;
        Ok((values, Staged::new(self, keys)))
    }

    /// What the batch reads at the key.
    fn read<H: Hasher>(&self, db: &Log<F, H>, key: &Key) -> Option<Value>
        ensures { result ≡ read F.write_of self.now.chain self.now.writes db.now key.now }
    {
        match self.writes.last(key) {
            Some(value) => value,
            None => self.chain.view(db, key),
        }
    }

    /// What the batch reads at each of the keys.
    fn read_all<H: Hasher>(
        &self,
        db: &Log<F, H>,
        keys: &[Key],
    ) -> Result<Vec<Option<Value>>, OutOfMemory>
        ensures { IfOk result
            (λ values. values.items ≡ map (read F.write_of self.now.chain self.now.writes db.now)
            keys.now) }
    {
        Ok(
            keys.iter()
                .map(|key| self.read(db, key))
                .collect(self.alloc)?,
        )
    }
}

impl<F: BatchFamily> Unmerkleized<F> {
    /// The batch sealed: what it appends behind the database and the ancestors that this lacks, and the state
    /// after that. Its commit's floor is as high as one copy of an old operation for each change allows. Refused as
    /// [`Unmerkleized::get`] is, then as the log would refuse the first of the missing batches and of this one that
    /// it doesn't take, and for want of memory. A refusal gives the batch up.
    pub fn merkleize<H: Hasher>(self, db: &Log<F, H>) -> Result<Merkleized<F>, ManagedFault>
        ensures stale { IfSome (stale_read self.chain (state_of H.digest F.Op.spelling db.now))
            (λ fault. result ≡ Err fault) }
        ensures may { OnOk result (seal_refusal H.digest F.Op.spelling F.floor_of F.write_of F.put_of
            F.delete_of F.commit_of self db.now ≡ None) }
        ensures refuses { IfErr result (λ e. (e ≡ ManagedFault.OutOfMemory) ⊎
            (seal_refusal H.digest F.Op.spelling F.floor_of F.write_of F.put_of F.delete_of F.commit_of
            self db.now ≡ Some e)) }
        ensures ok { IfOk result (λ batch. body_of batch ≡ sealed H.digest F.Op.spelling F.floor_of
            F.write_of F.put_of F.delete_of F.commit_of self db.now) }
        ensures root { IfOk result (λ batch. batch.root ≡ F.shown_of H.digest
            (with_ops (completed H.digest F.Op.spelling self.chain db.now) batch.own.ops)) }
        ensures law { IfOk result (λ batch. Raises F.floor_of F.write_of
            (completed H.digest F.Op.spelling self.chain db.now)
            (changes F.write_of F.put_of F.delete_of self.chain db.now self.writes) batch.own.ops) }
    {
        let sealed = match self.sealed(db) {
            Ok(sealed) => sealed,
            Err(fault) => return Err(fault),
        };
        Ok(Merkleized::new(self.alloc, self.hashing, self.chain, sealed))
    }

    /// What the batch is behind the database once it is sealed.
    fn sealed<H: Hasher>(&self, db: &Log<F, H>) -> Result<Sealed<F>, ManagedFault>
        ensures stale { IfSome (stale_read self.now.chain (state_of H.digest F.Op.spelling db.now))
            (λ fault. result ≡ Err fault) }
        ensures may { OnOk result (seal_refusal H.digest F.Op.spelling F.floor_of F.write_of F.put_of
            F.delete_of F.commit_of self.now db.now ≡ None) }
        ensures refuses { IfErr result (λ e. (e ≡ ManagedFault.OutOfMemory) ⊎
            (seal_refusal H.digest F.Op.spelling F.floor_of F.write_of F.put_of F.delete_of F.commit_of
            self.now db.now ≡ Some e)) }
        ensures ok { IfOk result
            (λ s. s.own ≡ (sealed H.digest F.Op.spelling F.floor_of F.write_of F.put_of F.delete_of
            F.commit_of self.now db.now).own) }
        ensures root { IfOk result (λ s. s.root ≡ F.shown_of H.digest
            (with_ops (completed H.digest F.Op.spelling self.now.chain db.now) s.own.ops)) }
        ensures law { IfOk result (λ s. Raises F.floor_of F.write_of
            (completed H.digest F.Op.spelling self.now.chain db.now)
            (changes F.write_of F.put_of F.delete_of self.now.chain db.now self.now.writes) s.own.ops) }
    {
        let links = match lacking(&self.chain, db) {
            Ok(links) => links,
            Err(fault) => return Err(fault),
        };
        let changes = match self.chain.changes(self.alloc, db, &self.writes) {
            Ok(changes) => changes,
            Err(_) => return Err(ManagedFault::OutOfMemory),
        };
        match seal(
            self.alloc,
            self.hashing,
            db,
            links,
            changes.as_slice(),
            self.metadata,
        ) {
            Ok(sealed) => Ok(sealed),
            Err(fault) => Err(ManagedFault::from(fault)),
        }
    }
}
