//! The account: coins, and points that shops give.

use ledger_codec::OutOfMemory;
use ledger_log::Value;
use ledger_managed::AccountValue;
use ledger_numbers::Numbers;
use ledger_transfers::Account;
use std::alloc::Global;

/// Coins, which transfers move, and points, which are earned and spent.
#[derive(Clone, Copy, Debug, PartialEq, Eq)]
pub struct Wallet {
    pub coins: u64,
    pub points: u64,
}

/// What an order does to the points of a wallet.
#[derive(Clone, Copy, Debug, PartialEq, Eq)]
pub enum Points {
    Earn(u64),
    Spend(u64),
}

impl Account for Wallet {
    ghost use Rattle.example_accounts.specs.Wallets.{wallet_rules};
    ghost use Rattle.example_accounts.specs.WalletProofs.{wallet_laws};

    type Effect = Points;

    ghost rules = { wallet_rules };

    ghost laws = { wallet_laws };

    fn default_account() -> Self {
        Wallet {
            coins: 0,
            points: 0,
        }
    }

    fn balance(&self) -> u64 {
        self.coins
    }

    fn set_balance(&mut self, balance: u64) {
        self.coins = balance;
    }

    /// Points are refused that would be more than 64 bits hold, or that the wallet doesn't have.
    fn apply(&mut self, effect: Points) -> bool {
        let points = match effect {
            Points::Earn(count) => self.points.checked_add(count),
            Points::Spend(count) => self.points.checked_sub(count),
        };
        match points {
            Some(points) => {
                self.points = points;
                true
            }
            None => false,
        }
    }

    fn copy(&self, _alloc: Global) -> Result<Self, OutOfMemory> {
        Ok(*self)
    }
}

impl AccountValue for Wallet {
    ghost use Rattle.example_accounts.specs.Wallets.{IsSoundWallet, wallet_values};
    ghost use Rattle.example_accounts.specs.WalletProofs.{wallet_value_laws};

    ghost values = { wallet_values };

    ghost sound = { IsSoundWallet };

    ghost value_laws = { wallet_value_laws };

    fn to_value(&self) -> Value {
        Numbers::two(self.coins, self.points).to_value()
    }

    fn from_value(value: &Value) -> Option<Self> {
        let numbers = Numbers::from_value(value);
        if numbers.has_two() {
            Some(Wallet {
                coins: numbers.first,
                points: numbers.second,
            })
        } else {
            None
        }
    }
}
