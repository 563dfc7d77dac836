//! Why a batch doesn't settle.
ghost use Rattle.std.specs.Prelude.{◌≡◌};
ghost use Rattle.ledger_transfers.specs.declared.fault.PlanFault.TheVariants.{OutOfMemory as memory_wanting};

use ledger_codec::OutOfMemory;
use std::alloc::AllocFailed;
use std::fmt::Debug;
use thiserror::Error;

/// A key for which a batch doesn't settle, and why.
#[derive(Clone, Copy, Debug, PartialEq, Eq, Error)]
#[error_bound(K: Debug)]
pub enum Rejection<K> {
    /// The account refuses one of the effects.
    #[error("account {0:?} refuses an effect")]
    Refused(K),
    /// The opening balance doesn't cover the debits.
    #[error("account {0:?} cannot afford its debits")]
    Insufficient(K),
    /// The final balance, or the sum of the credits, is above `u64::MAX`.
    #[error("the balance of account {0:?} overflows")]
    Overflow(K),
}

/// Why there is no plan or no settlement.
#[derive(Debug, Drop)]
pub enum PlanFault<K> {
    Rejected(Rejection<K>),
    OutOfMemory,
}

impl<K> From<OutOfMemory> for PlanFault<K> {
    ghost from_gives = { λ _ fault. fault ≡ memory_wanting };

    fn from(_wanting: OutOfMemory) -> Self {
        PlanFault::OutOfMemory
    }
}

impl<K, T: Drop> From<AllocFailed<T>> for PlanFault<K> {
    ghost from_gives = { λ _ fault. fault ≡ memory_wanting };

    fn from(_failed: AllocFailed<T>) -> Self {
        PlanFault::OutOfMemory
    }
}
