//! What can be told of a batch before it is settled.
ghost use Rattle.std.specs.Prelude.{◌≡◌, ◌<◌, ◌≤◌, ◌↔◌, ◌++◌, IfOk, IsTrue, IsPermutation, if◌then◌else◌};
ghost use Rattle.ledger_transfers.specs.Touches.{deb, touches};
ghost use Rattle.ledger_transfers.specs.Settling.{Settled};
ghost use Rattle.ledger_transfers.specs.Orders.{HasNoEffects, OpensByKey, EndsAlike};

use crate::account::Account;
use crate::change::Change;
use crate::transfer::{Transfer, touches_of};
use ledger_codec::OutOfMemory;
use std::alloc::Global;
use std::hash::Hash;

/// Whether no change of the batch has an effect. Then the order of its transfers is free: in each other order the batch is settled exactly
/// where it is in this one, and each account ends the same.
pub fn has_no_effects<T: Transfer<Key = K, Account = A>, K: Copy + Eq + Hash, A: Account>(
    alloc: Global,
    transfers: &[T],
) -> Result<bool, OutOfMemory>
    ensures none { IfOk result (λ r. IsTrue r ↔ HasNoEffects (touches T.changes_of transfers.now)) }
    ensures any_order { IfOk result (λ r. IsTrue r → (opened_at : _) (others : _)
        → OpensByKey K.eq opened_at → IsPermutation transfers.now others
        → EndsAlike K.eq A.rules opened_at (touches T.changes_of transfers.now)
        (touches T.changes_of others)) }
{
    let all = touches_of(alloc, transfers)?;
    Ok(are_without_effect(&all))
}

/// Whether the batch's debits of the key are above this balance. Then no account of at most this balance settles it, whatever
/// transfers are added.
pub fn overdraws<T: Transfer<Key = K, Account = A>, K: Copy + Eq + Hash, A: Account>(
    alloc: Global,
    transfers: &[T],
    key: K,
    balance: u64,
) -> Result<bool, OutOfMemory>
    ensures debits { IfOk result (λ r. IsTrue r ↔ (balance
        < deb K.eq (touches T.changes_of transfers.now) key)) }
    ensures unsettled { IfOk result (λ r. IsTrue r → (opened_at : _) (more : _) → OpensByKey K.eq opened_at
        → A.rules.balance_of (opened_at key) ≤ balance
        → Settled K.eq A.rules opened_at (touches T.changes_of (transfers.now ++ more)) → ⊥) }
{
    let all = touches_of(alloc, transfers)?;
    Ok(debits_exceed(&all, key, balance))
}

/// Whether no touch has an effect.
fn are_without_effect<K: Copy, E: Copy>(all: &[(K, Change<E>)]) -> bool
    ensures { IsTrue result ↔ HasNoEffects all.now }
{
    all.iter().all(|touch| touch.1.effect.is_none())
}

/// Whether the touches' debits of the key are above this balance.
fn debits_exceed<K: Copy + Eq, E: Copy>(all: &[(K, Change<E>)], key: K, balance: u64) -> bool
    ensures { IsTrue result ↔ (balance < deb K.eq all.now key) }
{
    let mut left = balance;
    for touch in all {
        let Some(rest) = left.checked_sub(debit_of(key, touch)) else {
            return true;
        };
        left = rest;
    }
    false
}

/// What a touch takes from the key.
fn debit_of<K: Copy + Eq, E: Copy>(key: K, touch: &(K, Change<E>)) -> u64
    ensures { result ≡ (if K.eq key touch.now.0 then touch.now.1.debit else 0) }
{
    if key == touch.0 { touch.1.debit } else { 0 }
}
