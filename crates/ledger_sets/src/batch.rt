//! A batch that takes sets.
ghost use Rattle.std.specs.Prelude.{◌≡◌, ◌⊎◌, ◌++◌, ◌∷◌, [], None, Some, Err, IsOkUnless, IfSome, IfOk, IfErr, OnOk, filter_map};
ghost use Rattle.ledger_chain.specs.Faults.{stale_read};
ghost use Rattle.ledger_chain.specs.Writes.{last_write, settled};
ghost use Rattle.ledger_sets.specs.Batches.{set_of, batch_ops};
ghost use Rattle.ledger_sets.specs.Meaning.{sealed, seal_refusal};

use crate::reading::lacking;
use crate::sealed::SealedSets;
use crate::sealing::seal;
use crate::store::SetLog;
use ledger_chain::{Chain, Link, ManagedFault, Writes};
use ledger_codec::OutOfMemory;
use ledger_log::{ImmutableFamily, ImmutableOp, Key, Value};
use ledger_merkle::Location;
use ledger_transfers::Seeded;
use std::alloc::Global;
use std::marker::{Model, PhantomData};
use std::random::RandomSource;

/// A batch that takes sets. It is read over a log whose size and root are a state of its chain: those that it was
/// made over, or those after one of its ancestors.
#[derive(Drop)]
pub struct SetBatch<D: SetLog> {
    alloc: Global,
    hashing: Seeded,
    chain: Chain<ImmutableFamily>,
    writes: Writes,
    metadata: Option<Value>,
    floor: Location,
    log: PhantomData<D>,
}

impl<D: SetLog> Model for SetBatch<D> {
    ghost use Rattle.ledger_sets.specs.Batches.{SetBatchView};

    ghost Value = { SetBatchView };

    ghost view = { λ b. record { chain = b.chain; writes = b.writes; metadata = b.metadata; floor = b.floor } };
}

impl<D: SetLog> SetBatch<D> {
    /// A batch without sets over the log. What it keeps by keys is hashed with a fresh seed, which is 0 where the
    /// runtime's source of random bytes fails.
    pub fn over<R: RandomSource>(rt: &R, alloc: Global, db: &D) -> SetBatch<D>
        ensures { result ≡ record {
          chain = record { base = D.meaning.state db.now; links = [] };
          writes = [];
          metadata = None;
          floor = 0;
        } }
    {
        SetBatch::on(
            alloc,
            Seeded::fresh(rt),
            Chain::new(alloc, db.known_state()),
        )
    }

    /// A batch without sets over this chain, which hashes its keys so.
    pub(crate) fn on(alloc: Global, hashing: Seeded, chain: Chain<ImmutableFamily>) -> SetBatch<D>
        ensures { result ≡ record { chain = chain; writes = []; metadata = None; floor = 0 } }
    {
        SetBatch {
            alloc,
            hashing,
            chain,
            writes: Writes::new(alloc, hashing),
            metadata: None,
            floor: Location::ZERO,
            log: PhantomData,
        }
    }

    /// The batch with these metadata in its commit.
    pub fn with_metadata(mut self, metadata: Value) -> SetBatch<D>
        ensures { result ≡ record {
          chain = self.chain;
          writes = self.writes;
          metadata = Some metadata;
          floor = self.floor;
        } }
    {
        self.metadata = Some(metadata);
        self
    }

    /// The batch with this floor in its commit, which is 0 where none is given. A log refuses one below its own.
    pub fn with_inactivity_floor(mut self, floor: Location) -> SetBatch<D>
        ensures { result ≡ record {
          chain = self.chain;
          writes = self.writes;
          metadata = self.metadata;
          floor = floor;
        } }
    {
        self.floor = floor;
        self
    }

    /// The batch with one set more. Refused for want of memory alone, which gives the batch up.
    pub fn set(mut self, key: Key, value: Value) -> Result<SetBatch<D>, ManagedFault>
        ensures may { IsOkUnless result ManagedFault.OutOfMemory }
        ensures ok { IfOk result
            (λ batch. batch ≡ record {
              chain = self.chain;
              writes = settled (self.writes ++ (key, Some value) ∷ []);
              metadata = self.metadata;
              floor = self.floor;
            }) }
    {
        self.writes.put(key, Some(value))?;
        Ok(self)
    }

    /// The batch sealed: what it appends behind the log and the ancestors that this lacks, and the state after
    /// that. Refused exactly where the log's size and root are no state of the chain, with these; then as the log
    /// would refuse the first of the missing batches and of this one that it doesn't take, and for want of memory.
    /// A refusal gives the batch up.
    pub fn merkleize(self, db: &D) -> Result<SealedSets<D>, ManagedFault>
        ensures stale { IfSome (stale_read self.chain (D.meaning.state db.now))
            (λ fault. result ≡ Err fault) }
        ensures may { OnOk result (seal_refusal D.meaning self db.now ≡ None) }
        ensures refuses { IfErr result (λ e. (e ≡ ManagedFault.OutOfMemory) ⊎
            (seal_refusal D.meaning self db.now ≡ Some e)) }
        ensures ok { IfOk result (λ batch. batch ≡ sealed D.meaning self db.now) }
    {
        let own = match self.link(db) {
            Ok(own) => own,
            Err(fault) => return Err(fault),
        };
        Ok(SealedSets::new(self.alloc, self.hashing, self.chain, own))
    }

    /// What the batch is behind the log once it is sealed.
    fn link(&self, db: &D) -> Result<Link<ImmutableFamily>, ManagedFault>
        ensures stale { IfSome (stale_read self.now.chain (D.meaning.state db.now))
            (λ fault. result ≡ Err fault) }
        ensures may { OnOk result (seal_refusal D.meaning self.now db.now ≡ None) }
        ensures refuses { IfErr result (λ e. (e ≡ ManagedFault.OutOfMemory) ⊎
            (seal_refusal D.meaning self.now db.now ≡ Some e)) }
        ensures ok { IfOk result (λ link. link ≡ (sealed D.meaning self.now db.now).own) }
    {
        let links = match lacking(&self.chain, db) {
            Ok(links) => links,
            Err(fault) => return Err(fault),
        };
        let ops = match self.ops() {
            Ok(ops) => ops,
            Err(_) => return Err(ManagedFault::OutOfMemory),
        };
        match seal(self.alloc, self.hashing, db, links, ops) {
            Ok(link) => Ok(link),
            Err(fault) => Err(ManagedFault::from(fault)),
        }
    }

    /// What the batch appends.
    fn ops(&self) -> Result<Vec<ImmutableOp>, OutOfMemory>
        ensures { IfOk result (λ ops. ops.items ≡ batch_ops self.now) }
    {
        let mut ops = sets_of(self.alloc, &self.writes)?;
        ops.push(ImmutableOp::Commit(self.metadata, self.floor))?;
        Ok(ops)
    }

    /// What its own last set of the key gives it, None where none is of this key.
    pub(crate) fn last(&self, key: &Key) -> Option<Option<Value>>
        ensures { result ≡ last_write key.now self.now.writes }
    {
        self.writes.last(key)
    }

    /// The chain.
    pub(crate) fn chain(&self) -> &Chain<ImmutableFamily>
        ensures { result.now ≡ self.now.chain }
    {
        &self.chain
    }

    /// What the batch was made with.
    pub(crate) fn alloc(&self) -> Global {
        self.alloc
    }
}

/// The sets of these writes.
fn sets_of(alloc: Global, writes: &Writes) -> Result<Vec<ImmutableOp>, OutOfMemory>
    ensures { IfOk result (λ ops. ops.items ≡ filter_map set_of writes.now) }
{
    Ok(
        writes
            .entries()
            .iter()
            .filter_map(|(key, value)| set_of(key, value))
            .collect(alloc)?,
    )
}

/// The set of a write, None of one that takes the key's value.
fn set_of(key: &Key, value: &Option<Value>) -> Option<ImmutableOp>
    ensures { result ≡ set_of (key.now, value.now) }
{
    match value {
        Some(value) => Some(ImmutableOp::Set(*key, *value)),
        None => None,
    }
}
