//! The account without effects.

use crate::account::Account;
use ledger_codec::OutOfMemory;
use std::alloc::Global;

/// The effect type of an account that has none: every balance refuses it.
#[derive(Clone, Copy, Debug, PartialEq, Eq, Hash)]
pub struct NoEffect;

/// An account of a balance alone. Its default is empty, and it has no effects.
#[derive(Clone, Copy, Debug, PartialEq, Eq)]
pub struct Balance(pub u64);

impl Account for Balance {
    ghost use Rattle.ledger_transfers.specs.Accounts.{balance_rules};
    ghost use Rattle.ledger_transfers.specs.AccountProofs.{balance_laws};

    type Effect = NoEffect;

    ghost rules = { balance_rules };

    ghost laws = { balance_laws };

    fn default_account() -> Self {
        Balance(0)
    }

    fn balance(&self) -> u64 {
        self.0
    }

    fn set_balance(&mut self, balance: u64) {
        self.0 = balance;
    }

    fn apply(&mut self, _effect: NoEffect) -> bool {
        false
    }

    fn copy(&self, _alloc: Global) -> Result<Self, OutOfMemory> {
        Ok(*self)
    }
}
