//! A batch that is chosen candidate by candidate.
ghost use Rattle.std.specs.Prelude.{◌≡◌, ◌+◌, ◌<◌, ◌++◌, ◌↔◌, [], ◌∷◌, IfOk, IfErr, OnOk, OnErr, IsTrue, IsSome, length, take, position};
ghost use Rattle.std.specs.List.{All};
ghost use Rattle.std.specs.Map.{lookup};
ghost use Rattle.ledger_transfers.specs.Touches.{touches};
ghost use Rattle.ledger_transfers.specs.Selecting.{AllDecided, AreReadBy, StandsFor, opened_at};
ghost use Rattle.ledger_transfers.specs.Greedy.{IsChosen};
ghost use Rattle.ledger_transfers.specs.Batches.{AgreesWithPlans};
ghost use Rattle.ledger_transfers.specs.Registering.{touched, registered, AreSettled};

use crate::account::Account;
use crate::held::Held;
use crate::register::{are_registered, register_all, settle_all, touch_keys};
use crate::seeded::{Seeded, fresh_seed};
use crate::slot::Slot;
use crate::slots::{LEAST, parts_for};
use crate::taken::decide_all;
use crate::transfer::{Transfer, touches_of};
use indexmap::{IndexMap, IndexSet};
use ledger_codec::{List, OutOfMemory};
use ledger_strategy::Strategy;
use std::alloc::Global;
use std::hash::Hash;
use std::marker::Model;
use std::ops::Range;
use std::random::RandomSource;
use std::thread::Threads;

/// Memory was wanting. The candidate in hand was undone, and the verdicts on those before it stand.
#[derive(Debug, Drop)]
pub struct Stopped {
    pub verdicts: List<bool>,
}

/// Chooses the transfers of a batch from candidates that arrive in rounds. Contracts see the touched keys in order of first touch, and
/// the registered ones among them with their reads, the sums of their accepted debits and credits and their accounts after the
/// accepted effects. A selection stands for each list of transfers that settles against the reads and has these sums and accounts.
#[derive(Drop)]
pub struct Selection<K: Copy + Eq + Hash, A: Account> {
    keys: IndexSet<K, Seeded>,
    table: IndexMap<K, Held<A>, Seeded>,
    /// The places of the keys of the transfers that were touched last. They are guesses for those that are applied next.
    places: Vec<usize>,
}

impl<K: Copy + Eq + Hash, A: Account> Model for Selection<K, A> {
    ghost use Rattle.std.specs.Prelude.{List};
    ghost use Rattle.ledger_transfers.specs.Registering.{IsSelection};
    ghost use Rattle.ledger_transfers.specs.declared.held.Held.{Held as HeldOf};

    ghost Value = { List K × List (K × HeldOf A) };

    ghost view = { λ s. (s.keys.keys, s.table.entries) };

    ghost invariant = { λ s. IsSelection K.eq s.keys.keys s.table.entries };
}

impl<K: Copy + Eq + Hash, A: Account> Selection<K, A> {
    /// No keys, in tables that hash with a fresh seed.
    pub fn new(rt: &impl RandomSource, alloc: Global) -> Self
        ensures empty { result ≡ ([], []) }
        ensures stands { StandsFor K.eq A.eq A.rules result.1 [] }
    {
        Selection::with_seed(alloc, fresh_seed(rt))
    }

    /// No keys, in tables that hash with this seed.
    pub fn with_seed(alloc: Global, seed: u64) -> Self
        ensures empty { result ≡ ([], []) }
        ensures stands { StandsFor K.eq A.eq A.rules result.1 [] }
    {
        Selection {
            keys: IndexSet::with_hasher(alloc, Seeded::new(seed)),
            table: IndexMap::with_hasher(alloc, Seeded::new(seed)),
            places: Vec::new(alloc),
        }
    }

    /// The touched keys in order of first touch.
    pub fn keys(&self) -> &[K]
        ensures { result.now ≡ self.now.0 }
    {
        self.keys.as_slice()
    }

    /// The place of a key among the touched ones.
    pub fn place_of(&self, key: &K) -> Option<usize>
        ensures { result ≡ position (K.eq key.now) self.now.0 }
    {
        self.keys.get_index_of(key)
    }

    /// Takes up the keys that the transfers touch, and answers the range of the new ones in `keys`. After a refusal the selection is as
    /// it was.
    pub fn touch<T: Transfer<Key = K, Account = A>>(
        &mut self,
        alloc: Global,
        transfers: &[T],
    ) -> Result<Range<usize>, OutOfMemory>
        ensures ok { OnOk result (self.new
            ≡ (touched K.eq self.old.0 (touches T.changes_of transfers.now), self.old.1)) }
        ensures range { IfOk result (λ r. (r.start ≡ length self.old.0) × (r.end ≡ length self.new.0)) }
        ensures err { OnErr result (self.new ≡ self.old) }
    {
        let all = touches_of(alloc, transfers)?;
        let first = self.keys.len();
        touch_keys(&mut self.keys, &mut self.places, &all)?;
        Ok(first..self.keys.len())
    }

    /// Whether every touched key has its account.
    pub fn is_registered(&self) -> bool
        ensures { IsTrue result ↔ (length self.now.1 ≡ length self.now.0) }
    {
        self.table.len() == self.keys.len()
    }

    /// Takes one read per touched key that isn't registered, in the order of `keys`; a missing one is the default account. Where memory is
    /// wanting, it hands the reads back and the selection is as it was.
    pub fn register(&mut self, reads: Vec<Option<A>>) -> Result<(), Vec<Option<A>>>
        requires { length self.old.1 + length reads.items ≡ length self.old.0 }
        ensures ok { OnOk result (self.new ≡ (self.old.0, registered self.old.0 self.old.1 reads.items)) }
        ensures keeps { OnOk result ((ts : _) → StandsFor K.eq A.eq A.rules self.old.1 ts
            → StandsFor K.eq A.eq A.rules self.new.1 ts) }
        ensures back { IfErr result (λ back. back.items ≡ reads.items) }
        ensures err { OnErr result (self.new ≡ self.old) }
    {
        if self.table.reserve(reads.len()).is_err() {
            return Err(reads);
        }
        register_all(&mut self.table, self.keys.as_slice(), reads);
        Ok(())
    }

    /// Whether every key of a change that isn't empty is registered.
    pub fn has_registered<T: Transfer<Key = K, Account = A>>(
        &self,
        alloc: Global,
        transfers: &[T],
    ) -> Result<bool, OutOfMemory>
        ensures { IfOk result (λ r. IsTrue r ↔ All (λ t. IsSome (lookup (K.eq t.0) self.now.1))
            (touches T.changes_of transfers.now)) }
    {
        let all = touches_of(alloc, transfers)?;
        Ok(are_registered(&self.table, &all))
    }

    /// One verdict per candidate: it is taken exactly where it settles with those taken before it. A dropped one leaves no trace. The work is
    /// linear in the touches of the candidates.
    pub fn apply<T: Transfer<Key = K, Account = A>>(
        &mut self,
        alloc: Global,
        transfers: &[T],
    ) -> Result<Vec<bool>, Stopped>
        requires { All (λ t. IsSome (lookup (K.eq t.0) self.old.1)) (touches T.changes_of transfers.now) }
        ensures ok { IfOk result (λ v. length v.items ≡ length transfers.now) }
        ensures greedy { IfOk result (λ v. IsChosen K.eq A.eq A.rules T.changes_of self.old.1 self.new.1
            transfers.now v.items) }
        ensures verdicts { IfOk result (λ v. AllDecided K.eq A.eq A.rules T.changes_of self.old.1 self.new.1
            transfers.now v.items) }
        ensures within { IfErr result (λ s. length s.verdicts < length transfers.now) }
        ensures stopped { IfErr result (λ s. AllDecided K.eq A.eq A.rules T.changes_of self.old.1 self.new.1
            (take (length s.verdicts) transfers.now) s.verdicts) }
        ensures stopped_greedy { IfErr result (λ s. IsChosen K.eq A.eq A.rules T.changes_of self.old.1
            self.new.1 (take (length s.verdicts) transfers.now) s.verdicts) }
        ensures keys { self.new.0 ≡ self.old.0 }
        ensures reads { AreReadBy K.eq self.old.1 self.new.1 }
    {
        let mut verdicts = Vec::new(alloc);
        let guesses = self.places.as_slice();
        match decide_all(alloc, &mut self.table, transfers, guesses, &mut verdicts) {
            Ok(()) => Ok(verdicts),
            Err(_) => Err(Stopped {
                verdicts: List::from_vec(verdicts),
            }),
        }
    }

    /// One slot per key in the order of `keys`, of the taken transfers as one batch. The keys are cut into parts that
    /// `strategy` runs. After a refusal the selection is gone.
    pub fn settle<R: Threads + Sync, S: Strategy>(
        self,
        rt: &R,
        alloc: Global,
        strategy: &S,
    ) -> Result<Vec<Slot<A>>, OutOfMemory>
    where
        K: Send + Sync,
        requires { length self.1 ≡ length self.0 }
        ensures planned { IfOk result (λ slots. (ts : _) → StandsFor K.eq A.eq A.rules self.1 ts
            → AgreesWithPlans K.eq A.eq A.rules self.0 (opened_at K.eq A.eq A.rules self.1) ts
            slots.items) }
        ensures slots { IfOk result (λ slots. (ts : _) → StandsFor K.eq A.eq A.rules self.1 ts
            → AreSettled K.eq A.eq A.rules self.0 (opened_at K.eq A.eq A.rules self.1) ts slots.items) }
    {
        let parts = parts_for(strategy, self.keys.len(), LEAST);
        settle_all(
            rt,
            alloc,
            strategy,
            parts,
            self.keys.as_slice(),
            &self.table,
        )
    }
}
