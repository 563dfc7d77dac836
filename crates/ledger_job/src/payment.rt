//! The transfer of the job text.

use ledger_codec::OutOfMemory;
use ledger_log::Key;
use ledger_transfers::{Change, Sequenced, Transfer};

/// A payment between two accounts, made at the payer's next nonce.
#[derive(Clone, Copy, Debug, PartialEq, Eq)]
pub struct Payment {
    /// Who pays.
    pub from: Key,
    /// Who is paid.
    pub to: Key,
    /// How much.
    pub amount: u64,
    /// The nonce of the payer's account before the payment.
    pub nonce: u64,
}

impl Transfer for Payment {
    ghost use Rattle.ledger_job.specs.Payments.{payment_changes};

    type Key = Key;

    type Account = Sequenced;

    ghost changes_of = { payment_changes };

    fn changes(&self, out: &mut Vec<(Key, Change<u64>)>) -> Result<(), OutOfMemory> {
        let amount = self.amount;
        let nonce = self.nonce;
        out.push((self.from, Change::debit(amount).with_effect(nonce)))?;
        out.push((self.to, Change::credit(amount)))?;
        Ok(())
    }
}
