//! Sums that are replaced on trial, and put back where a candidate is dropped.
ghost use Rattle.std.specs.Prelude.{◌≡◌, unwrap_or};
ghost use Rattle.ledger_transfers.specs.Revising.{revised, revised_at, undone};

use crate::account::Account;
use crate::held::Held;
use crate::seeded::Seeded;
use indexmap::IndexMap;
use std::hash::Hash;
use std::mem::replace;

/// Sums that replace a key's. Its account is among them only where an effect changes it.
#[derive(Drop)]
pub struct Revision<A> {
    pub debits: u64,
    pub credits: u64,
    pub account: Option<Option<A>>,
}

/// Replaces an account, if there is another, and answers what it was.
fn replace_account<A>(account: &mut Option<A>, revised: Option<Option<A>>) -> Option<Option<A>>
    ensures new { account.new ≡ unwrap_or revised account.old }
    ensures back { unwrap_or result account.new ≡ account.old }
{
    match revised {
        Some(other) => Some(replace(account, other)),
        None => None,
    }
}

/// Replaces a key's sums, and answers what they were.
fn revise<A>(held: &mut Held<A>, revision: Revision<A>) -> Revision<A>
    ensures new { held.new ≡ revised revision held.old }
    ensures back { revised result held.new ≡ held.old }
{
    let debits = replace(&mut held.sums.debits, revision.debits);
    let credits = replace(&mut held.sums.credits, revision.credits);
    let account = replace_account(&mut held.sums.account, revision.account);
    Revision {
        debits,
        credits,
        account,
    }
}

/// Replaces the sums of the key at a place, and answers what they were. Where there is no key, nothing changes.
pub(crate) fn exchange<K: Copy + Eq + Hash, A: Account>(
    table: &mut IndexMap<K, Held<A>, Seeded>,
    place: usize,
    revision: Revision<A>,
) -> Revision<A>
    ensures new { table.new.entries ≡ revised_at table.old.entries place revision }
    ensures back { revised_at table.new.entries place result ≡ table.old.entries }
{
    match table.get_index_mut(place) {
        Some(held) => revise(held, revision),
        None => revision,
    }
}

/// Puts back what one entry of a log says.
fn undo_one<K: Copy + Eq + Hash, A: Account>(
    table: &mut IndexMap<K, Held<A>, Seeded>,
    entry: (usize, Revision<A>),
)
    ensures { table.new.entries ≡ revised_at table.old.entries entry.0 entry.1 }
{
    let (place, revision) = entry;
    exchange(table, place, revision);
}

/// Puts back what a log says, its last entry first.
pub(crate) fn undo_all<K: Copy + Eq + Hash, A: Account>(
    table: &mut IndexMap<K, Held<A>, Seeded>,
    log: &mut Vec<(usize, Revision<A>)>,
)
    ensures { table.new.entries ≡ undone log.old.items table.old.entries }
{
    while let Some(entry) = log.pop() {
        undo_one(table, entry);
    }
}
