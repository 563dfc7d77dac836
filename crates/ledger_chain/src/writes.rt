//! Writes of keys, each key once.
ghost use Rattle.std.specs.Prelude.{◌≡◌, ◌++◌, ◌∷◌, [], IfOk, OnOk};
ghost use Rattle.ledger_chain.specs.Writes.{Write, last_write, settled};

use indexmap::IndexMap;
use ledger_codec::OutOfMemory;
use ledger_log::{Key, Value};
use ledger_transfers::Seeded;
use std::alloc::Global;
use std::marker::Model;

/// The written keys in the order of their first writes, each with what its last write leaves.
#[derive(Drop)]
pub struct Writes {
    entries: IndexMap<Key, Option<Value>, Seeded>,
}

impl Model for Writes {
    ghost use Rattle.std.specs.Prelude.{◌≡◌, List};
    ghost use Rattle.ledger_chain.specs.Writes.{Write, settled};

    ghost Value = { List Write };

    ghost view = { λ w. w.entries.entries };

    ghost invariant = { λ w. settled w.entries.entries ≡ w.entries.entries };
}

impl Writes {
    /// No writes, in a table that hashes its keys so.
    pub fn new(alloc: Global, hashing: Seeded) -> Writes
        ensures { result ≡ [] }
    {
        Writes {
            entries: IndexMap::with_hasher(alloc, hashing),
        }
    }

    /// What the key's last write leaves, None where none is of this key. One look-up.
    pub fn last(&self, key: &Key) -> Option<Option<Value>>
        ensures { result ≡ last_write key.now self.now }
    {
        self.entries.get(key).copied()
    }

    /// The written keys, each with what its last write leaves.
    pub fn entries(&self) -> &IndexMap<Key, Option<Value>, Seeded>
        ensures { result.now.entries ≡ self.now }
    {
        &self.entries
    }

    /// One write more.
    pub fn put(&mut self, key: Key, value: Option<Value>) -> Result<(), OutOfMemory>
        ensures { OnOk result (self.new ≡ settled (self.old ++ (key, value) ∷ [])) }
    {
        self.entries.insert(key, value)?;
        Ok(())
    }

    /// The same of a write.
    fn put_write(&mut self, write: &(Key, Option<Value>)) -> Result<(), OutOfMemory>
        ensures { OnOk result (self.new ≡ settled (self.old ++ write.now ∷ [])) }
    {
        self.put(write.0, write.1)
    }

    /// More writes, in their order.
    pub fn put_all(&mut self, writes: &[(Key, Option<Value>)]) -> Result<(), OutOfMemory>
        ensures { OnOk result (self.new ≡ settled (self.old ++ writes.now)) }
    {
        let _entries = &self.entries;
        for write in writes {
            self.put_write(write)?;
        }
        Ok(())
    }
}
