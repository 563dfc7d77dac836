//! Transfers of stated changes.
ghost use Rattle.std.specs.Prelude.{◌≡◌, ◌∷◌, [], None};

use ledger_codec::OutOfMemory;
use ledger_transfers::{Account, Change, Transfer};

/// A transfer of up to three changes; those that aren't there are empty.
#[derive(Drop)]
pub struct Stated<A: Account> {
    pub first: (u8, Change<A::Effect>),
    pub second: (u8, Change<A::Effect>),
    pub third: (u8, Change<A::Effect>),
}

impl<A: Account> Transfer for Stated<A> {
    type Key = u8;

    type Account = A;

    ghost changes_of = { λ transfer. transfer.first ∷ transfer.second ∷ transfer.third ∷ [] };

    fn changes(&self, out: &mut Vec<(u8, Change<A::Effect>)>) -> Result<(), OutOfMemory> {
        out.push(self.first)?;
        out.push(self.second)?;
        out.push(self.third)?;
        Ok(())
    }
}

impl<A: Account> Stated<A> {
    /// Three changes of one key.
    pub fn of(
        key: u8,
        first: Change<A::Effect>,
        second: Change<A::Effect>,
        third: Change<A::Effect>,
    ) -> Self {
        Stated {
            first: (key, first),
            second: (key, second),
            third: (key, third),
        }
    }

    /// A payment.
    pub fn pay(from: u8, to: u8, amount: u64) -> Self
        ensures { result
            ≡ record {
              first = (from, record { debit = amount; credit = 0; effect = None });
              second = (to, record { debit = 0; credit = amount; effect = None });
              third = (from, record { debit = 0; credit = 0; effect = None });
            } }
    {
        Stated {
            first: (from, Change::debit(amount)),
            second: (to, Change::credit(amount)),
            third: (from, Change::default()),
        }
    }

    /// A payment with an effect on the account that pays.
    pub fn pay_with(from: u8, to: u8, amount: u64, effect: A::Effect) -> Self {
        Stated {
            first: (from, Change::debit(amount).with_effect(effect)),
            second: (to, Change::credit(amount)),
            third: (from, Change::default()),
        }
    }
}
