//! A sealed batch.
ghost use Rattle.std.specs.Prelude.{◌≡◌, ◌++◌, ◌∷◌, [], Some, filter_map, IfOk, OnOk};
ghost use Rattle.std.specs.Arc.{arc_value};
ghost use Rattle.std.specs.Option.{option_map_or};
ghost use Rattle.ledger_log.specs.View.{batch_floor};
ghost use Rattle.ledger_chain.specs.Chain.{LinkView};
ghost use Rattle.ledger_chain.specs.Writes.{last_write, settled};

use crate::state::State;
use crate::writes::Writes;
use ledger_codec::OutOfMemory;
use ledger_log::{Family, Key, Value};
use ledger_merkle::Location;
use ledger_transfers::Seeded;
use std::alloc::Global;
use std::marker::Model;
use std::sync::Arc;

/// What a sealed batch holds: its operations, what they write, the floor of its commit, and the state after them.
#[derive(Drop)]
struct Sealed<F: Family> {
    ops: Vec<F::Op>,
    writes: Writes,
    floor: Location,
    after: State,
}

impl<F: Family> Model for Sealed<F> {
    ghost use Rattle.std.specs.Prelude.{◌≡◌, Some, filter_map};
    ghost use Rattle.ledger_log.specs.View.{batch_floor};
    ghost use Rattle.ledger_chain.specs.Chain.{LinkView};
    ghost use Rattle.ledger_chain.specs.Writes.{settled};

    ghost Value = { LinkView F.Op };

    ghost view = { λ s. record { ops = s.ops.items; after = s.after } };

    ghost invariant = { λ s. (s.writes ≡ settled (filter_map F.write_of s.ops.items)) × (batch_floor F.floor_of s.ops.items ≡ Some s.floor) };
}

impl<F: Family> Sealed<F> {
    fn ops(&self) -> &[F::Op]
        ensures { result.now ≡ self.now.ops }
    {
        self.ops.as_slice()
    }

    fn floor(&self) -> Location
        ensures { batch_floor F.floor_of self.now.ops ≡ Some result }
    {
        let _ops = &self.ops;
        self.floor
    }

    fn after(&self) -> State
        ensures { result ≡ self.now.after }
    {
        self.after
    }

    fn last(&self, key: &Key) -> Option<Option<Value>>
        ensures { result ≡ last_write key.now (filter_map F.write_of self.now.ops) }
    {
        let _ops = &self.ops;
        self.writes.last(key)
    }
}

/// A sealed batch as its descendants hold it. Its copies share what it holds.
#[derive(Drop)]
pub struct Link<F: Family> {
    sealed: Arc<Sealed<F>, Global>,
}

impl<F: Family> Model for Link<F> {
    ghost use Rattle.std.specs.Arc.{arc_value};
    ghost use Rattle.ledger_chain.specs.Chain.{LinkView};

    ghost Value = { LinkView F.Op };

    ghost view = { λ l. arc_value l.sealed };
}

/// The writes with what the operation writes, if it writes a key.
fn put_op<F: Family>(writes: &mut Writes, op: &F::Op) -> Result<(), OutOfMemory>
    ensures { OnOk result (writes.new ≡ option_map_or (λ w. settled (writes.old ++ w ∷ []))
        (F.write_of op.now) writes.old) }
{
    match F::written_key(op) {
        Some(key) => writes.put(key, F::written_value(op)),
        None => Ok(()),
    }
}

/// What these operations write.
fn writes_of<F: Family>(
    alloc: Global,
    hashing: Seeded,
    ops: &[F::Op],
) -> Result<Writes, OutOfMemory>
    ensures { IfOk result (λ writes. writes ≡ settled (filter_map F.write_of ops.now)) }
{
    let mut writes = Writes::new(alloc, hashing);
    for op in ops {
        put_op::<F>(&mut writes, op)?;
    }
    Ok(writes)
}

/// What a batch of these operations and this floor holds, with the state after it.
fn sealed_of<F: Family>(
    alloc: Global,
    hashing: Seeded,
    ops: Vec<F::Op>,
    floor: Location,
    after: State,
) -> Result<Sealed<F>, OutOfMemory>
    requires { batch_floor F.floor_of ops.items ≡ Some floor }
    ensures { IfOk result (λ sealed. sealed ≡ record { ops = ops.items; after = after }) }
{
    let writes = writes_of::<F>(alloc, hashing, ops.as_slice())?;
    Ok(Sealed {
        ops,
        writes,
        floor,
        after,
    })
}

impl<F: Family> Link<F> {
    /// A sealed batch of these operations, whose commit has this floor, and whose keys are hashed so.
    pub fn new(
        alloc: Global,
        hashing: Seeded,
        ops: Vec<F::Op>,
        floor: Location,
        after: State,
    ) -> Result<Link<F>, OutOfMemory>
        requires { batch_floor F.floor_of ops.items ≡ Some floor }
        ensures { IfOk result (λ link. link ≡ record { ops = ops.items; after = after }) }
    {
        let sealed = sealed_of::<F>(alloc, hashing, ops, floor, after)?;
        Ok(Link {
            sealed: Arc::new(alloc, sealed)?,
        })
    }

    /// The same batch once more, which costs a few words.
    pub fn copy(&self) -> Result<Link<F>, OutOfMemory>
        ensures { IfOk result (λ link. link ≡ self.now) }
    {
        Ok(Link {
            sealed: Arc::try_clone(&self.sealed)?,
        })
    }

    /// The operations.
    pub fn ops(&self) -> &[F::Op]
        ensures { result.now ≡ self.now.ops }
    {
        self.sealed.ops()
    }

    /// The floor of the commit.
    pub fn floor(&self) -> Location
        ensures { batch_floor F.floor_of self.now.ops ≡ Some result }
    {
        self.sealed.floor()
    }

    /// The state after the batch.
    pub fn after(&self) -> State
        ensures { result ≡ self.now.after }
    {
        self.sealed.after()
    }

    /// What the batch's last write of the key leaves, None where none is of this key. One look-up.
    pub fn last(&self, key: &Key) -> Option<Option<Value>>
        ensures { result ≡ last_write key.now (filter_map F.write_of self.now.ops) }
    {
        self.sealed.last(key)
    }
}
