//! What the writes of a batch change.
ghost use Rattle.std.specs.Prelude.{◌≡◌, Some, All, IsSome, filter_map, IfOk};
ghost use Rattle.ledger_chain.specs.Chain.{view};
ghost use Rattle.ledger_chain.specs.Changes.{change_of, changes};

use crate::chain::Chain;
use crate::writes::Writes;
use ledger_codec::OutOfMemory;
use ledger_log::{Family, Key, KeyedFamily, Log, Value};
use ledger_merkle::Hasher;
use ledger_raising::RaisingFamily;
use std::alloc::Global;

impl<F: RaisingFamily> Chain<F> {
    /// The changes of a batch with these writes over this chain, in their order: a put or a deletion for each
    /// key, but none for the deletion of a key that has no value before the batch. It costs what reading the
    /// keys does.
    pub fn changes<H: Hasher>(
        &self,
        alloc: Global,
        db: &Log<F, H>,
        writes: &Writes,
    ) -> Result<Vec<F::Op>, OutOfMemory>
        ensures ok { IfOk result (λ ops.
            ops.items ≡ changes F.write_of F.put_of F.delete_of self.now db.now writes.now) }
        ensures writes { IfOk result (λ ops. All (λ op. IsSome (F.write_of op)) ops.items) }
    {
        let ops = self.operations(alloc, db, writes)?;
        Ok(ops)
    }

    /// The same, without that each of them writes a key.
    fn operations<H: Hasher>(
        &self,
        alloc: Global,
        db: &Log<F, H>,
        writes: &Writes,
    ) -> Result<Vec<F::Op>, OutOfMemory>
        ensures { IfOk result (λ ops.
            ops.items ≡ changes F.write_of F.put_of F.delete_of self.now db.now writes.now) }
    {
        Ok(
            writes
                .entries()
                .iter()
                .filter_map(|(key, value)| self.change_of(db, key, value))
                .collect(alloc)?,
        )
    }

    /// The change of one write.
    fn change_of<H: Hasher>(
        &self,
        db: &Log<F, H>,
        key: &Key,
        value: &Option<Value>,
    ) -> Option<F::Op>
        ensures { result ≡ change_of F.put_of F.delete_of (view F.write_of self.now db.now key.now)
            (key.now, value.now) }
    {
        match value {
            Some(value) => Some(F::put(*key, *value)),
            None => match self.view(db, key) {
                Some(_value) => Some(F::delete(*key)),
                None => None,
            },
        }
    }
}
