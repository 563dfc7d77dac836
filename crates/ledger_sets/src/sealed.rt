//! A sealed batch of sets.
ghost use Rattle.std.specs.Prelude.{◌≡◌, [], None, Some, IsOkUnless, IfOk, filter_map};
ghost use Rattle.ledger_log.specs.Immutable.{immutable_floor, immutable_write};
ghost use Rattle.ledger_log.specs.View.{batch_floor};
ghost use Rattle.ledger_chain.specs.Chain.{with_link};
ghost use Rattle.ledger_chain.specs.Writes.{last_write};

use crate::batch::SetBatch;
use crate::store::SetLog;
use ledger_chain::{Chain, Link, ManagedFault};
use ledger_codec::Digest;
use ledger_log::{ImmutableFamily, ImmutableOp, Key, Value};
use ledger_merkle::Location;
use ledger_transfers::Seeded;
use std::alloc::Global;
use std::marker::{Model, PhantomData};

/// A sealed batch: what it appends, and the state after it, with the chain that it stands on. It is read over the
/// states of that chain, which its own isn't one of.
#[derive(Drop)]
pub struct SealedSets<D: SetLog> {
    alloc: Global,
    hashing: Seeded,
    chain: Chain<ImmutableFamily>,
    own: Link<ImmutableFamily>,
    log: PhantomData<D>,
}

impl<D: SetLog> Model for SealedSets<D> {
    ghost use Rattle.ledger_sets.specs.Batches.{SealedSetsView};

    ghost Value = { SealedSetsView };

    ghost view = { λ b. record { chain = b.chain; own = b.own } };
}

impl<D: SetLog> SealedSets<D> {
    /// The batch over this chain that appends what the link does. What it keeps by keys is hashed so.
    pub(crate) fn new(
        alloc: Global,
        hashing: Seeded,
        chain: Chain<ImmutableFamily>,
        own: Link<ImmutableFamily>,
    ) -> SealedSets<D>
        ensures { result ≡ record { chain = chain; own = own } }
    {
        SealedSets {
            alloc,
            hashing,
            chain,
            own,
            log: PhantomData,
        }
    }

    /// The root over all operations that the log has once the batch is applied.
    pub fn root(&self) -> Digest
        ensures { result ≡ self.now.own.after.root }
    {
        self.own.after().root
    }

    /// How many operations it then has.
    pub fn size(&self) -> Location
        ensures { result ≡ self.now.own.after.size }
    {
        self.own.after().size
    }

    /// Its floor then.
    pub fn floor(&self) -> Location
        ensures { batch_floor immutable_floor self.now.own.ops ≡ Some result }
    {
        self.own.floor()
    }

    /// A batch without sets over this one. Refused for want of memory alone.
    pub fn new_batch(&self) -> Result<SetBatch<D>, ManagedFault>
        ensures may { IsOkUnless result ManagedFault.OutOfMemory }
        ensures ok { IfOk result
            (λ batch. batch ≡ record {
              chain = with_link self.now.chain self.now.own;
              writes = [];
              metadata = None;
              floor = 0;
            }) }
    {
        let mut chain = self.chain.copy(self.alloc)?;
        chain.push(self.own.copy()?)?;
        Ok(SetBatch::on(self.alloc, self.hashing, chain))
    }

    /// The same batch once more, which costs a few words for each ancestor. Refused for want of memory alone.
    pub fn copy(&self) -> Result<SealedSets<D>, ManagedFault>
        ensures may { IsOkUnless result ManagedFault.OutOfMemory }
        ensures ok { IfOk result (λ batch. batch ≡ self.now) }
    {
        let chain = self.chain.copy(self.alloc)?;
        let own = self.own.copy()?;
        Ok(SealedSets::new(self.alloc, self.hashing, chain, own))
    }

    /// The batch's own operations.
    pub(crate) fn ops(&self) -> &[ImmutableOp]
        ensures { result.now ≡ self.now.own.ops }
    {
        self.own.ops()
    }

    /// What its last set of the key gives it, None where none is of this key.
    pub(crate) fn last(&self, key: &Key) -> Option<Option<Value>>
        ensures { result ≡ last_write key.now (filter_map immutable_write self.now.own.ops) }
    {
        self.own.last(key)
    }

    /// The chain.
    pub(crate) fn chain(&self) -> &Chain<ImmutableFamily>
        ensures { result.now ≡ self.now.chain }
    {
        &self.chain
    }

    /// What the batch was made with.
    pub(crate) fn alloc(&self) -> Global {
        self.alloc
    }
}
