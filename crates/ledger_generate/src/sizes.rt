//! How large a generated job is.
ghost use Rattle.std.specs.Prelude.{◌≡◌, ◌<◌, ◌≤◌};
ghost use Rattle.ledger_generate.specs.Sizes.{sizes_with, opening_balance, IsWithin};

use std::marker::Model;

/// The number of accounts and of payments, and what is added to the payments' numbers. There are 2 to 20,000 accounts
/// and 1 to 100,000 payments.
#[derive(Clone, Copy, Debug, PartialEq, Eq)]
pub struct Sizes {
    seed: u64,
    accounts: u64,
    transfers: u64,
}

impl Model for Sizes {
    ghost use Rattle.ledger_generate.specs.Sizes.{SizesView, IsWithin};

    ghost Value = { SizesView };

    ghost view = { λ s. record { seed = s.seed; accounts = s.accounts; transfers = s.transfers } };

    ghost invariant = { λ s. IsWithin (record { seed = s.seed; accounts = s.accounts; transfers = s.transfers }) };

    ghost inverse = { λ v. record { seed = v.seed; accounts = v.accounts; transfers = v.transfers } };
}

impl Sizes {
    /// These sizes, of which only the last six digits of the seed count; none where a number is out of its range.
    pub fn new(seed: u64, accounts: u64, transfers: u64) -> Option<Sizes>
        ensures { result ≡ sizes_with seed accounts transfers }
    {
        if 2 <= accounts && accounts <= 20_000 && 1 <= transfers && transfers <= 100_000 {
            Some(Sizes {
                seed: seed % 1_000_000,
                accounts,
                transfers,
            })
        } else {
            None
        }
    }

    /// What is added to the number of a payment.
    pub(crate) fn seed(self) -> u64
        ensures same { result ≡ self.seed }
        ensures most { result < 1000000 }
    {
        self.seed
    }

    /// How many accounts there are.
    pub(crate) fn accounts(self) -> u64
        ensures same { result ≡ self.accounts }
        ensures least { 2 ≤ result }
        ensures most { result ≤ 20000 }
        ensures within { IsWithin self }
    {
        self.accounts
    }

    /// How many payments there are.
    pub(crate) fn transfers(self) -> u64
        ensures same { result ≡ self.transfers }
        ensures most { result ≤ 100000 }
    {
        self.transfers
    }

    /// What each account opens with: ten for each payment that it makes, and ten more.
    pub(crate) fn opening_balance(self) -> u64
        ensures { result ≡ opening_balance self }
    {
        10 * (self.transfers / self.accounts + 1)
    }
}
