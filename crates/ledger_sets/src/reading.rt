//! What batches of sets read.
ghost use Rattle.std.specs.Prelude.{◌≡◌, Err, MatchOption, IsOk, IsOkUnless, IfOk, filter_map, map};
ghost use Rattle.ledger_log.specs.Immutable.{immutable_spelling, immutable_write};
ghost use Rattle.ledger_chain.specs.Chain.{state_of, missing, read};
ghost use Rattle.ledger_chain.specs.Faults.{stale_read};

use crate::batch::SetBatch;
use crate::sealed::SealedSets;
use crate::store::SetLog;
use ledger_chain::{Chain, Link, ManagedFault};
use ledger_codec::OutOfMemory;
use ledger_log::{ImmutableFamily, Key, Log, Value};
use ledger_merkle::Hasher;

/// The ancestors that the log lacks. Refused exactly where it is in no state of the chain. It takes no memory.
pub(crate) fn lacking<'a, D: SetLog>(
    chain: &'a Chain<ImmutableFamily>,
    db: &D,
) -> Result<&'a [Link<ImmutableFamily>], ManagedFault>
    ensures refusal { MatchOption (stale_read chain.now (D.meaning.state db.now)) (IsOk result)
        (λ fault. result ≡ Err fault) }
    ensures ok { IfOk result (λ links. links.now ≡ missing chain.now (D.meaning.state db.now)) }
{
    let state = db.known_state();
    match chain.lacking(&state) {
        Some(links) => Ok(links),
        None => Err(ManagedFault::StaleRead {
            size: state.size,
            root: state.root,
        }),
    }
}

impl<H: Hasher> SetBatch<Log<ImmutableFamily, H>> {
    /// The value of the key, which is None where it has none. It takes no memory. Refused exactly where the log's
    /// size and root are no state of the chain, with these.
    pub fn get(
        &self,
        db: &Log<ImmutableFamily, H>,
        key: &Key,
    ) -> Result<Option<Value>, ManagedFault>
        ensures refusal { MatchOption
            (stale_read self.now.chain (state_of H.digest immutable_spelling db.now)) (IsOk result)
            (λ fault. result ≡ Err fault) }
        ensures value { IfOk result (λ value. value ≡ read immutable_write self.now.chain self.now.writes
            db.now key.now) }
    {
        lacking(self.chain(), db)?;
        Ok(self.read(db, key))
    }

    /// The values of the keys, in their order. Refused as [`SetBatch::get`] is, and then for want of memory.
    pub fn get_many(
        &self,
        db: &Log<ImmutableFamily, H>,
        keys: &[Key],
    ) -> Result<Vec<Option<Value>>, ManagedFault>
        ensures refusal { MatchOption
            (stale_read self.now.chain (state_of H.digest immutable_spelling db.now))
            (IsOkUnless result ManagedFault.OutOfMemory) (λ fault. result ≡ Err fault) }
        ensures values { IfOk result (λ values. values.items ≡ map
            (read immutable_write self.now.chain self.now.writes db.now) keys.now) }
    {
        lacking(self.chain(), db)?;
        Ok(self.read_all(db, keys)?)
    }

    /// What the batch reads at the key.
    fn read(&self, db: &Log<ImmutableFamily, H>, key: &Key) -> Option<Value>
        ensures { result ≡ read immutable_write self.now.chain self.now.writes db.now key.now }
    {
        match self.last(key) {
            Some(value) => value,
            None => self.chain().view(db, key),
        }
    }

    /// What the batch reads at each of the keys.
    fn read_all(
        &self,
        db: &Log<ImmutableFamily, H>,
        keys: &[Key],
    ) -> Result<Vec<Option<Value>>, OutOfMemory>
        ensures { IfOk result (λ values. values.items ≡ map
            (read immutable_write self.now.chain self.now.writes db.now) keys.now) }
    {
        Ok(
            keys.iter()
                .map(|key| self.read(db, key))
                .collect(self.alloc())?,
        )
    }
}

impl<H: Hasher> SealedSets<Log<ImmutableFamily, H>> {
    /// The value of the key, which is None where it has none. It takes no memory. Refused exactly where the log's
    /// size and root are no state of the chain, with these.
    pub fn get(
        &self,
        db: &Log<ImmutableFamily, H>,
        key: &Key,
    ) -> Result<Option<Value>, ManagedFault>
        ensures refusal { MatchOption
            (stale_read self.now.chain (state_of H.digest immutable_spelling db.now)) (IsOk result)
            (λ fault. result ≡ Err fault) }
        ensures value { IfOk result (λ value. value ≡ read immutable_write self.now.chain
            (filter_map immutable_write self.now.own.ops) db.now key.now) }
    {
        lacking(self.chain(), db)?;
        Ok(self.read(db, key))
    }

    /// The values of the keys, in their order. Refused as [`SealedSets::get`] is, and then for want of memory.
    pub fn get_many(
        &self,
        db: &Log<ImmutableFamily, H>,
        keys: &[Key],
    ) -> Result<Vec<Option<Value>>, ManagedFault>
        ensures refusal { MatchOption
            (stale_read self.now.chain (state_of H.digest immutable_spelling db.now))
            (IsOkUnless result ManagedFault.OutOfMemory) (λ fault. result ≡ Err fault) }
        ensures values { IfOk result (λ values. values.items ≡ map
            (read immutable_write self.now.chain (filter_map immutable_write self.now.own.ops) db.now)
            keys.now) }
    {
        lacking(self.chain(), db)?;
        Ok(self.read_all(db, keys)?)
    }

    /// What the batch reads at the key.
    fn read(&self, db: &Log<ImmutableFamily, H>, key: &Key) -> Option<Value>
        ensures { result ≡ read immutable_write self.now.chain (filter_map immutable_write self.now.own.ops)
            db.now key.now }
    {
        match self.last(key) {
            Some(value) => value,
            None => self.chain().view(db, key),
        }
    }

    /// What the batch reads at each of the keys.
    fn read_all(
        &self,
        db: &Log<ImmutableFamily, H>,
        keys: &[Key],
    ) -> Result<Vec<Option<Value>>, OutOfMemory>
        ensures { IfOk result (λ values. values.items ≡ map
            (read immutable_write self.now.chain (filter_map immutable_write self.now.own.ops) db.now)
            keys.now) }
    {
        Ok(
            keys.iter()
                .map(|key| self.read(db, key))
                .collect(self.alloc())?,
        )
    }
}
