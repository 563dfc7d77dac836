//! A sealed batch.
ghost use Rattle.std.specs.Prelude.{◌≡◌, [], None, Some, Err, map, filter_map, MatchOption, IsOk, IsOkUnless, IfOk};
ghost use Rattle.ledger_log.specs.View.{batch_floor};
ghost use Rattle.ledger_chain.specs.Chain.{state_of, read, with_link};
ghost use Rattle.ledger_chain.specs.Faults.{stale_read};

use crate::reading::lacking;
use crate::sealing::Sealed;
use crate::unmerkleized::Unmerkleized;
use ledger_activity::CurrentFamily;
use ledger_chain::{Chain, Link, ManagedFault};
use ledger_codec::{Digest, OutOfMemory};
use ledger_log::{AnyFamily, Family, Key, KeyedFamily, Log, Value};
use ledger_merkle::{Hasher, Location};
use ledger_transfers::Seeded;
use std::alloc::Global;
use std::marker::Model;

/// A sealed batch: what it appends, and the state and the shown root after it, with the chain that it stands on. It
/// is read over the states of that chain, which its own isn't one of.
#[derive(Drop)]
pub struct Merkleized<F: Family> {
    alloc: Global,
    hashing: Seeded,
    chain: Chain<F>,
    own: Link<F>,
    root: Digest,
}

impl<F: Family> Model for Merkleized<F> {
    ghost use Rattle.ledger_batches.specs.Batches.{MerkleizedView};

    ghost Value = { MerkleizedView F.Op };

    ghost view = { λ b. record { chain = b.chain; own = b.own; root = b.root } };
}

impl<F: Family> Merkleized<F> {
    /// The batch over this chain that was sealed so. What it keeps by keys is hashed so.
    pub(crate) fn new(
        alloc: Global,
        hashing: Seeded,
        chain: Chain<F>,
        sealed: Sealed<F>,
    ) -> Merkleized<F>
        ensures { result ≡ record { chain = chain; own = sealed.own; root = sealed.root } }
    {
        let Sealed { own, root } = sealed;
        Merkleized {
            alloc,
            hashing,
            chain,
            own,
            root,
        }
    }

    /// What the batch was made with.
    pub(crate) fn alloc(&self) -> Global {
        self.alloc
    }

    /// The chain.
    pub(crate) fn chain(&self) -> &Chain<F>
        ensures { result.now ≡ self.now.chain }
    {
        &self.chain
    }

    /// The batch's own operations.
    pub(crate) fn ops(&self) -> &[F::Op]
        ensures { result.now ≡ self.now.own.ops }
    {
        self.own.ops()
    }

    /// The root over all operations that the database has once the batch is applied.
    pub fn ops_root(&self) -> Digest
        ensures { result ≡ self.now.own.after.root }
    {
        self.own.after().root
    }

    /// How many operations it then has.
    pub fn size(&self) -> Location
        ensures { result ≡ self.now.own.after.size }
    {
        self.own.after().size
    }

    /// Its floor then, below which a client needs nothing.
    pub fn sync_boundary(&self) -> Location
        ensures { batch_floor F.floor_of self.now.own.ops ≡ Some result }
    {
        self.own.floor()
    }

    /// A batch without writes over this one. Refused for want of memory alone.
    pub fn new_batch(&self) -> Result<Unmerkleized<F>, ManagedFault>
        ensures may { IsOkUnless result ManagedFault.OutOfMemory }
        ensures ok { IfOk result
            (λ batch. batch ≡ record {
              chain = with_link self.now.chain self.now.own;
              writes = [];
              metadata = None;
            }) }
    {
        let mut chain = self.chain.copy(self.alloc)?;
        chain.push(self.own.copy()?)?;
        Ok(Unmerkleized::on(self.alloc, self.hashing, chain))
    }

    /// The same batch once more, which costs a few words for each ancestor. Refused for want of memory alone.
    pub fn copy(&self) -> Result<Merkleized<F>, ManagedFault>
        ensures may { IsOkUnless result ManagedFault.OutOfMemory }
        ensures ok { IfOk result (λ batch. batch ≡ self.now) }
    {
        Ok(Merkleized {
            alloc: self.alloc,
            hashing: self.hashing,
            chain: self.chain.copy(self.alloc)?,
            own: self.own.copy()?,
            root: self.root,
        })
    }
}

impl Merkleized<AnyFamily> {
    /// The root that the database shows once the batch is applied, which is that over its operations.
    pub fn root(&self) -> Digest
        ensures { result ≡ self.now.own.after.root }
    {
        self.ops_root()
    }
}

impl Merkleized<CurrentFamily> {
    /// The root that the database shows once the batch is applied, over its operations and over the bits of those
    /// that count then.
    pub fn root(&self) -> Digest
        ensures { result ≡ self.now.root }
    {
        self.root
    }
}

impl<F: KeyedFamily> Merkleized<F> {
    /// The value of the key, which is None where it has none. It takes no memory. Refused exactly where the
    /// database's size and root are no state of the chain, with these.
    pub fn get<H: Hasher>(&self, db: &Log<F, H>, key: &Key) -> Result<Option<Value>, ManagedFault>
        ensures refusal { MatchOption (stale_read self.now.chain (state_of H.digest F.Op.spelling db.now))
            (IsOk result) (λ fault. result ≡ Err fault) }
        ensures value { IfOk result (λ value. value ≡ read F.write_of self.now.chain
            (filter_map F.write_of self.now.own.ops) db.now key.now) }
    {
        lacking(&self.chain, db)?;
        Ok(self.read(db, key))
    }

    /// The values of the keys, in their order. Refused as [`Merkleized::get`] is, and then for want of memory.
    pub fn get_many<H: Hasher>(
        &self,
        db: &Log<F, H>,
        keys: &[Key],
    ) -> Result<Vec<Option<Value>>, ManagedFault>
        ensures refusal { MatchOption (stale_read self.now.chain (state_of H.digest F.Op.spelling db.now))
            (IsOkUnless result ManagedFault.OutOfMemory) (λ fault. result ≡ Err fault) }
        ensures values { IfOk result
            (λ values. values.items ≡ map
            (read F.write_of self.now.chain (filter_map F.write_of self.now.own.ops) db.now) keys.now) }
    {
        lacking(&self.chain, db)?;
        Ok(self.read_all(db, keys)?)
    }

    /// What the batch reads at the key.
    fn read<H: Hasher>(&self, db: &Log<F, H>, key: &Key) -> Option<Value>
        ensures { result ≡ read F.write_of self.now.chain (filter_map F.write_of self.now.own.ops) db.now
            key.now }
    {
        match self.own.last(key) {
            Some(value) => value,
            None => self.chain.view(db, key),
        }
    }

    /// What the batch reads at each of the keys.
    fn read_all<H: Hasher>(
        &self,
        db: &Log<F, H>,
        keys: &[Key],
    ) -> Result<Vec<Option<Value>>, OutOfMemory>
        ensures { IfOk result
            (λ values. values.items ≡ map
            (read F.write_of self.now.chain (filter_map F.write_of self.now.own.ops) db.now) keys.now) }
    {
        Ok(
            keys.iter()
                .map(|key| self.read(db, key))
                .collect(self.alloc)?,
        )
    }
}
