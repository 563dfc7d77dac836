//! The account whose payments are numbered.

use crate::account::Account;
use ledger_codec::OutOfMemory;
use std::alloc::Global;

/// An account with a balance and the nonce that its next payment has to bring. An effect is a nonce: the account takes exactly its
/// own one below `u64::MAX`, and has the next one then. Its default has no balance and nonce 0.
#[derive(Clone, Copy, Debug, PartialEq, Eq)]
pub struct Sequenced {
    pub balance: u64,
    pub nonce: u64,
}

impl Account for Sequenced {
    ghost use Rattle.ledger_transfers.specs.Accounts.{sequenced_rules};
    ghost use Rattle.ledger_transfers.specs.AccountProofs.{sequenced_laws};

    type Effect = u64;

    ghost rules = { sequenced_rules };

    ghost laws = { sequenced_laws };

    fn default_account() -> Self {
        Sequenced {
            balance: 0,
            nonce: 0,
        }
    }

    fn balance(&self) -> u64 {
        self.balance
    }

    fn set_balance(&mut self, balance: u64) {
        self.balance = balance;
    }

    fn apply(&mut self, effect: u64) -> bool {
        if self.nonce == effect && effect < u64::MAX {
            self.nonce += 1;
            true
        } else {
            false
        }
    }

    fn copy(&self, _alloc: Global) -> Result<Self, OutOfMemory> {
        Ok(*self)
    }
}
