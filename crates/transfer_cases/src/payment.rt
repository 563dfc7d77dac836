//! Payments of accounts that number them.

use ledger_codec::OutOfMemory;
use ledger_transfers::{Change, Sequenced, Transfer};

/// A payment of an account that numbers its payments.
#[derive(Clone, Copy, Debug, PartialEq, Eq)]
pub struct Payment {
    pub from: u8,
    pub to: u8,
    pub amount: u64,
    pub nonce: u64,
}

impl Transfer for Payment {
    ghost use Rattle.transfer_cases.specs.Payments.{payment_changes};

    type Key = u8;

    type Account = Sequenced;

    ghost changes_of = { payment_changes };

    fn changes(&self, out: &mut Vec<(u8, Change<u64>)>) -> Result<(), OutOfMemory> {
        out.push((
            self.from,
            Change::debit(self.amount).with_effect(self.nonce),
        ))?;
        out.push((self.to, Change::credit(self.amount)))?;
        Ok(())
    }
}
