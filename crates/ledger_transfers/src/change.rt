//! What a transfer does to one key.
ghost use Rattle.std.specs.Prelude.{◌≡◌, None, Some};
ghost use Rattle.ledger_transfers.specs.Changes.{is_empty_change};

/// What a transfer does to one key: an amount that leaves its account, one that reaches it, and an effect on it. The default is the
/// empty change.
#[derive(Clone, Copy, Debug, PartialEq, Eq, Hash)]
pub struct Change<E> {
    pub debit: u64,
    pub credit: u64,
    pub effect: Option<E>,
}

impl<E> Change<E> {
    /// Takes an amount from the key.
    pub fn debit(amount: u64) -> Self
        ensures { result ≡ record { debit = amount; credit = 0; effect = None } }
    {
        Change {
            debit: amount,
            credit: 0,
            effect: None,
        }
    }

    /// Gives an amount to the key.
    pub fn credit(amount: u64) -> Self
        ensures { result ≡ record { debit = 0; credit = amount; effect = None } }
    {
        Change {
            debit: 0,
            credit: amount,
            effect: None,
        }
    }

    /// Acts on the key's account.
    pub fn effect(effect: E) -> Self
        ensures { result ≡ record { debit = 0; credit = 0; effect = Some effect } }
    {
        Change {
            debit: 0,
            credit: 0,
            effect: Some(effect),
        }
    }

    /// The same amounts with this effect, in place of any other.
    pub fn with_effect(self, effect: E) -> Self
    where
        E: Drop,
        ensures { result ≡ record self { effect = Some effect } }
    {
        Change {
            debit: self.debit,
            credit: self.credit,
            effect: Some(effect),
        }
    }

    /// Whether both amounts are 0 and there is no effect.
    pub fn is_empty(&self) -> bool
        ensures { result ≡ is_empty_change self.now }
    {
        self.debit == 0 && self.credit == 0 && self.effect.is_none()
    }
}

impl<E> Default for Change<E> {
    ghost is_default = { λ change. change ≡ record { debit = 0; credit = 0; effect = None } };

    fn default() -> Self {
        Change {
            debit: 0,
            credit: 0,
            effect: None,
        }
    }
}
