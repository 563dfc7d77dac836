//! What settling makes of one key.
ghost use Rattle.std.specs.Prelude.{◌≡◌, true, [], ◌+◌, ◌<◌, ◌≤◌, OnOk, OnErr, IfErr, IfOk, Some, None, if◌then◌else◌, length};
ghost use Rattle.ledger_transfers.specs.Rules.{SameOutcome};
ghost use Rattle.ledger_transfers.specs.Settling.{folded, opened, Settles, SettlesTo, AreSlots, KeyFails, PlanFails, SameSlot, slot_of};

use crate::account::Account;
use crate::fault::{PlanFault, Rejection};
use crate::slot::Slot;
use crate::totals::Totals;
use ledger_codec::OutOfMemory;
use std::alloc::Global;

/// Applies the effects in order, up to the first that is refused.
fn apply_all<A: Account>(account: &mut A, effects: &[A::Effect]) -> bool
    ensures { SameOutcome A.eq (if result then Some account.new else None)
        (folded A.rules account.old effects.now) }
{
    for effect in effects {
        if !account.apply(*effect) {
            return false;
        }
    }
    true
}

/// The account that a key opens with.
pub(crate) fn opening<A: Account>(alloc: Global, read: &Option<A>) -> Result<A, OutOfMemory>
    ensures { IfOk result (λ a. A.eq a (opened A.rules read.now) ≡ true) }
{
    match read {
        Some(account) => account.copy(alloc),
        None => Ok(A::default_account()),
    }
}

/// The balance that a key opens with.
pub(crate) fn opening_balance<A: Account>(read: &Option<A>) -> u64
    ensures { result ≡ A.rules.balance_of (opened A.rules read.now) }
{
    match read {
        Some(account) => account.balance(),
        None => A::default_account().balance(),
    }
}

/// Whether the account equals the one that its key opens with.
fn is_opening<A: Account>(read: &Option<A>, account: &A) -> bool
    ensures { result ≡ A.eq account.now (opened A.rules read.now) }
{
    match read {
        Some(before) => *account == *before,
        None => *account == A::default_account(),
    }
}

/// The slot of a key, or the first reason for which there is none. The account is copied once.
pub(crate) fn settle_key<K: Copy, A: Account>(
    alloc: Global,
    key: K,
    read: &Option<A>,
    total: &Totals<A::Effect>,
) -> Result<Slot<A>, PlanFault<K>>
    ensures settled { IfOk result (λ slot. SettlesTo A.eq A.rules (opened A.rules read.now) total.now
        slot) }
    ensures fails { IfErr result (KeyFails A.rules (opened A.rules read.now) total.now key) }
{
    let Ok(mut account) = opening(alloc, read) else {
        return Err(PlanFault::OutOfMemory);
    };
    if !apply_all(&mut account, total.effects.as_slice()) {
        return Err(PlanFault::Rejected(Rejection::Refused(key)));
    }
    let Some(funded) = opening_balance(read).checked_sub(total.debits) else {
        return Err(PlanFault::Rejected(Rejection::Insufficient(key)));
    };
    let Some(balance) = funded.checked_add(total.credits) else {
        return Err(PlanFault::Rejected(Rejection::Overflow(key)));
    };
    account.set_balance(balance);
    Ok(slot(read, account))
}

/// What becomes of an account that ends as `account`.
pub(crate) fn slot<A: Account>(read: &Option<A>, account: A) -> Slot<A>
    ensures { SameSlot A.eq result (slot_of A.eq A.rules (opened A.rules read.now) account) }
{
    if is_opening(read, &account) {
        Slot::Keep
    } else if account == A::default_account() {
        Slot::Delete
    } else {
        Slot::Put(account)
    }
}
