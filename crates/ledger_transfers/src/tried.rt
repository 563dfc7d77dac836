//! A candidate that is tried on the registered keys. Its changes are added to their sums one by one, up to the first with which its key
//! can't settle. A log has what each of them replaced, so that a dropped candidate is undone.
ghost use Rattle.std.specs.Prelude.{◌≡◌, ◌∷◌, [], IfOk, OnErr, MatchOption, MatchBool, IsSome, IsTrue, Some, slice_index_or, ◌↔◌, ⊤};
ghost use Rattle.std.specs.List.{All};
ghost use Rattle.indexmap.specs.IndexMap.{get, index_of, IsUnique};
ghost use Rattle.ledger_transfers.specs.Revising.{undone};
ghost use Rattle.ledger_transfers.specs.Selecting.{AreReadBy};
ghost use Rattle.ledger_transfers.specs.Trying.{IsRevision, SettlesHeld, FailsHeld, SettlesAt, FailsAt, HasFailing, IsAdded, AreAdded, IsRefused, IsTaken};

use crate::account::Account;
use crate::change::Change;
use crate::held::{Held, kept_account};
use crate::revise::{Revision, exchange};
use crate::seeded::Seeded;
use crate::settle::opening_balance;
use indexmap::IndexMap;
use ledger_codec::OutOfMemory;
use std::alloc::Global;
use std::hash::Hash;

/// A key's sums with one change more, or none where the key settles with no batch that goes on with it.
fn revision_of<A: Account>(
    alloc: Global,
    held: &Held<A>,
    change: Change<A::Effect>,
) -> Result<Option<Revision<A>>, OutOfMemory>
    ensures { IfOk result (IsRevision A.eq A.rules held.now change) }
{
    let Some(debits) = held.sums.debits.checked_add(change.debit) else {
        return Ok(None);
    };
    let Some(credits) = held.sums.credits.checked_add(change.credit) else {
        return Ok(None);
    };
    let Some(effect) = change.effect else {
        return Ok(Some(Revision {
            debits,
            credits,
            account: None,
        }));
    };
    let mut account = kept_account(alloc, &held.read, &held.sums)?;
    if !account.apply(effect) {
        return Ok(None);
    }
    Ok(Some(Revision {
        debits,
        credits,
        account: Some(Some(account)),
    }))
}

/// Whether a key stands at a place.
fn stands_at<K: Copy + Eq + Hash, A: Account>(
    table: &IndexMap<K, Held<A>, Seeded>,
    key: &K,
    place: usize,
) -> bool
    ensures place { IsTrue result ↔ (index_of K.eq table.now key.now ≡ Some place) }
    ensures unique { IsUnique K.eq table.now }
{
    if table.len() <= place {
        return false;
    }
    let Some((stored, _)) = table.get_index(place) else {
        return false;
    };
    *key == *stored
}

/// The place of a registered key. It isn't hashed where it stands at the place that is guessed.
fn place_of<K: Copy + Eq + Hash, A: Account>(
    table: &IndexMap<K, Held<A>, Seeded>,
    key: &K,
    guess: usize,
) -> usize
    requires { IsSome (get K.eq table.now key.now) }
    ensures place { index_of K.eq table.now key.now ≡ Some result }
    ensures unique { IsUnique K.eq table.now }
{
    if stands_at(table, key, guess) {
        return guess;
    }
    let Some(place) = table.get_index_of(key) else {
        unreachable!();
    };
    place
}

/// The place that is guessed for a touch, 0 where there is no guess.
fn guess_of(guesses: &[usize], touch: usize) -> usize
    ensures { result ≡ slice_index_or guesses.now touch 0 }
{
    match guesses.get(touch) {
        Some(guess) => *guess,
        None => 0,
    }
}

/// Adds a change to the sums of its key, and answers what undoes it. Where the key can't settle with it, nothing changes.
fn add_touch<K: Copy + Eq + Hash, A: Account>(
    alloc: Global,
    table: &mut IndexMap<K, Held<A>, Seeded>,
    key: &K,
    change: Change<A::Effect>,
    guess: usize,
) -> Result<Option<(usize, Revision<A>)>, OutOfMemory>
    requires { IsSome (get K.eq table.old key.now) }
    ensures added { IfOk result (λ r. MatchOption r (table.new.entries ≡ table.old.entries)
        (IsAdded K.eq A.eq A.rules table.old.entries table.new.entries (key.now, change))) }
    ensures refused { IfOk result (λ r. MatchOption r
        ((more : _) → IsRefused K.eq A.eq A.rules table.old.entries ((key.now, change) ∷ more)) (λ _. ⊤)) }
    ensures err { OnErr result (table.new.entries ≡ table.old.entries) }
{
    let place = place_of(table, key, guess);
    let Some((_, held)) = table.get_index(place) else {
        unreachable!();
    };
    let Some(revision) = revision_of(alloc, held, change)? else {
        return Ok(None);
    };
    let replaced = exchange(table, place, revision);
    Ok(Some((place, replaced)))
}

/// Adds the touches in order, up to the first with which its key can't settle. The guesses are of the touches' places, in order.
fn add_all<K: Copy + Eq + Hash, A: Account>(
    alloc: Global,
    table: &mut IndexMap<K, Held<A>, Seeded>,
    all: &[(K, Change<A::Effect>)],
    guesses: &[usize],
    log: &mut Vec<(usize, Revision<A>)>,
) -> Result<bool, OutOfMemory>
    requires registered { All (λ t. IsSome (get K.eq table.old t.0)) all.now }
    requires none { log.old.items ≡ [] }
    ensures undo { undone log.new.items table.new.entries ≡ table.old.entries }
    ensures same_reads { AreReadBy K.eq table.old.entries table.new.entries }
    ensures added { IfOk result (λ r. MatchBool r (AreAdded K.eq A.eq A.rules table.old.entries
        table.new.entries all.now log.new.items) (IsRefused K.eq A.eq A.rules table.old.entries all.now)) }
{
    for (key, change) in all {
        log.reserve(1)?;
        let guess = guess_of(guesses, log.len());
        let Some(entry) = add_touch(alloc, table, key, *change, guess)? else {
            return Ok(false);
        };
        let Ok(()) = log.push(entry) else {
            unreachable!();
        };
    }
    Ok(true)
}

/// Whether a key settles with what its sums stand for.
fn settles<A: Account>(held: &Held<A>) -> bool
    ensures { MatchBool result (SettlesHeld A.eq A.rules held.now) (FailsHeld A.eq A.rules held.now) }
{
    let Some(left) = opening_balance(&held.read).checked_sub(held.sums.debits) else {
        return false;
    };
    let Some(_last) = left.checked_add(held.sums.credits) else {
        return false;
    };
    true
}

/// Whether the key at a place settles.
fn settles_at<K: Copy + Eq + Hash, A: Account>(
    table: &IndexMap<K, Held<A>, Seeded>,
    place: usize,
) -> bool
    ensures { MatchBool result (SettlesAt A.eq A.rules table.now.entries place)
        (FailsAt A.eq A.rules table.now.entries place) }
{
    let Some((_, held)) = table.get_index(place) else {
        return true;
    };
    settles(held)
}

/// Whether the keys at the places of a log settle.
fn all_settle<K: Copy + Eq + Hash, A: Account>(
    table: &IndexMap<K, Held<A>, Seeded>,
    log: &[(usize, Revision<A>)],
) -> bool
    ensures { MatchBool result (All (λ b. SettlesAt A.eq A.rules table.now.entries b.0) log.now)
        (HasFailing A.eq A.rules table.now.entries log.now) }
{
    for entry in log {
        if !settles_at(table, entry.0) {
            return false;
        }
    }
    true
}

/// Adds the touches of a candidate, and tells whether it settles with what was taken before. The log undoes what was added.
pub(crate) fn try_all<K: Copy + Eq + Hash, A: Account>(
    alloc: Global,
    table: &mut IndexMap<K, Held<A>, Seeded>,
    all: &[(K, Change<A::Effect>)],
    guesses: &[usize],
    log: &mut Vec<(usize, Revision<A>)>,
) -> Result<bool, OutOfMemory>
    requires registered { All (λ t. IsSome (get K.eq table.old t.0)) all.now }
    requires none { log.old.items ≡ [] }
    ensures undo { undone log.new.items table.new.entries ≡ table.old.entries }
    ensures same_reads { AreReadBy K.eq table.old.entries table.new.entries }
    ensures taken { IfOk result (λ r. MatchBool r (IsTaken K.eq A.eq A.rules table.old.entries
        table.new.entries all.now) (IsRefused K.eq A.eq A.rules table.old.entries all.now)) }
{
    if !add_all(alloc, table, all, guesses, log)? {
        return Ok(false);
    }
    Ok(all_settle(table, log.as_slice()))
}
