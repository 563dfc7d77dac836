//! What a batch does to one key.
ghost use Rattle.std.specs.Prelude.{◌≡◌, [], ◌++◌, ◌∷◌, OnOk, OnErr, IfErr};
ghost use Rattle.ledger_transfers.specs.Adds.{AddFails};
ghost use Rattle.ledger_transfers.specs.Touches.{with_change, FitsWith};

use crate::change::Change;
use crate::fault::{PlanFault, Rejection};
use ledger_codec::OutOfMemory;
use std::alloc::Global;
use std::marker::Model;

/// The effects on one key, in the order of the transfers.
#[derive(Drop)]
pub struct Effects<E> {
    items: Vec<E>,
}

impl<E> Model for Effects<E> {
    ghost use Rattle.std.specs.Prelude.{List};

    ghost Value = { List E };

    ghost view = { λ effects. effects.items.items };
}

impl<E: Copy> Effects<E> {
    /// No effects.
    pub fn new(alloc: Global) -> Self
        ensures { result ≡ [] }
    {
        Effects {
            items: Vec::new(alloc),
        }
    }

    /// One effect more.
    pub fn push(&mut self, effect: E) -> Result<(), OutOfMemory>
        ensures ok { OnOk result (self.new ≡ self.old ++ effect ∷ []) }
        ensures err { OnErr result (self.new ≡ self.old) }
    {
        self.items.push(effect)?;
        Ok(())
    }

    pub fn as_slice(&self) -> &[E]
        ensures { result.now ≡ self.now }
    {
        self.items.as_slice()
    }
}

/// A key's debits, credits and effects.
#[derive(Drop)]
pub struct Totals<E> {
    pub debits: u64,
    pub credits: u64,
    pub effects: Effects<E>,
}

impl<E: Copy> Totals<E> {
    /// Nothing yet.
    pub fn new(alloc: Global) -> Self
        ensures { result ≡ record { debits = 0; credits = 0; effects = [] } }
    {
        Totals {
            debits: 0,
            credits: 0,
            effects: Effects::new(alloc),
        }
    }

    /// One change more of `key`, which a rejection names.
    pub fn add<K>(&mut self, key: K, change: Change<E>) -> Result<(), PlanFault<K>>
    where
        K: Drop,
        ensures ok { OnOk result (self.new ≡ with_change self.old change) }
        ensures fits { OnOk result (FitsWith self.old change) }
        ensures err { OnErr result (self.new ≡ self.old) }
        ensures fails { IfErr result (AddFails self.old key change) }
    {
        let Some(debits) = self.debits.checked_add(change.debit) else {
            return Err(PlanFault::Rejected(Rejection::Insufficient(key)));
        };
        let Some(credits) = self.credits.checked_add(change.credit) else {
            return Err(PlanFault::Rejected(Rejection::Overflow(key)));
        };
        if let Some(effect) = change.effect {
            self.effects
                .push(effect)
                .map_err(|_| PlanFault::OutOfMemory)?;
        }
        self.debits = debits;
        self.credits = credits;
        Ok(())
    }
}
