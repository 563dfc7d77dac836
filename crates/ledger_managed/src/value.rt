//! Accounts as values of a log.
ghost use Rattle.std.specs.Prelude.{◌≡◌, Option, None, Some};
ghost use Rattle.ledger_transfers.specs.Rules.{SameOutcome};
ghost use Rattle.ledger_managed.specs.Values.{Values, ValueLaws};

use ledger_log::Value;
use ledger_transfers::{Account, Sequenced};

/// An account that is kept in a log as a value of 32 bytes.
pub trait AccountValue: Account {
    /// How accounts and values belong together.
    ghost values: { Values Self };

    /// What is true of each account of the type.
    ghost sound: { Self → Type 0 };

    /// The account's value.
    fn to_value(&self) -> Value
        ensures value { result ≡ values.value_of self.now }
        ensures sound { sound self.now };

    /// The account that the value spells, if it spells one.
    fn from_value(value: &Value) -> Option<Self>
        ensures { SameOutcome Self.eq result (values.read value.now) };

    ghost value_laws: { ValueLaws Self.eq sound Self.rules values };
}

impl AccountValue for Sequenced {
    ghost use Rattle.ledger_managed.specs.Spelled.{sequenced_values, IsSoundSequenced};
    ghost use Rattle.ledger_managed.specs.SpelledProofs.{sequenced_value_laws};

    ghost values = { sequenced_values };

    ghost sound = { IsSoundSequenced };

    ghost value_laws = { sequenced_value_laws };

    #[tactic(auto, unfolding(crate::specs::Spelled::sequenced_value))]
    fn to_value(&self) -> Value {
        let balance = self.balance;
        let nonce = self.nonce;
        let mut value = [0; 32];
        value[..8].copy_from_slice(&balance.to_be_bytes());
        value[8..16].copy_from_slice(&nonce.to_be_bytes());
        value
    }

    #[tactic(auto, unfolding(crate::specs::Spelled::read_sequenced))]
    fn from_value(value: &Value) -> Option<Self> {
        if value[16..] != [0; 16] {
            return None;
        }
        let mut balance = [0; 8];
        balance.copy_from_slice(&value[..8]);
        let mut nonce = [0; 8];
        nonce.copy_from_slice(&value[8..16]);
        Some(Sequenced {
            balance: u64::from_be_bytes(balance),
            nonce: u64::from_be_bytes(nonce),
        })
    }
}
