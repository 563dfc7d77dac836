//! An account whose default isn't empty.

use ledger_codec::OutOfMemory;
use ledger_transfers::{Account, NoEffect};
use std::alloc::Global;

/// An account whose default has a balance of 5.
#[derive(Clone, Copy, Debug, PartialEq, Eq)]
pub struct Five(pub u64);

impl Account for Five {
    ghost use Rattle.transfer_cases.specs.Fives.{five_rules, five_laws};

    type Effect = NoEffect;

    ghost rules = { five_rules };

    ghost laws = { five_laws };

    fn default_account() -> Self {
        Five(5)
    }

    fn balance(&self) -> u64 {
        self.0
    }

    fn set_balance(&mut self, balance: u64) {
        self.0 = balance;
    }

    fn apply(&mut self, _effect: NoEffect) -> bool {
        false
    }

    fn copy(&self, _alloc: Global) -> Result<Self, OutOfMemory> {
        Ok(*self)
    }
}
