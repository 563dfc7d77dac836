//! Candidates on top of the registered keys. A candidate is tried on the keys themselves, and undone where it doesn't settle.
ghost use Rattle.std.specs.Prelude.{◌≡◌, IfOk, OnOk, ◌<◌, OnErr, drop, take, IsSome, length, ◌∷◌, []};
ghost use Rattle.std.specs.List.{All};
ghost use Rattle.indexmap.specs.IndexMap.{get};
ghost use Rattle.ledger_transfers.specs.Touches.{touches};
ghost use Rattle.ledger_transfers.specs.Selecting.{Decided, AllDecided, AreReadBy};

use crate::account::Account;
use crate::change::Change;
use crate::held::Held;
use crate::revise::{Revision, undo_all};
use crate::seeded::Seeded;
use crate::transfer::{Transfer, touches_into};
use crate::tried::try_all;
use indexmap::IndexMap;
use ledger_codec::OutOfMemory;
use std::alloc::Global;
use std::hash::Hash;

/// The guesses from the touch of this number on.
fn guesses_from(guesses: &[usize], touch: usize) -> &[usize]
    ensures { result.now ≡ drop touch guesses.now }
{
    if touch <= guesses.len() {
        &guesses[touch..]
    } else {
        &[]
    }
}

/// Takes a candidate where it settles with what was taken before. What `all` and `log` hold before and after says nothing: they keep
/// their room for the next candidate.
fn decide<T: Transfer<Key = K, Account = A>, K: Copy + Eq + Hash, A: Account>(
    alloc: Global,
    table: &mut IndexMap<K, Held<A>, Seeded>,
    candidate: &T,
    guesses: &[usize],
    all: &mut Vec<(K, Change<A::Effect>)>,
    log: &mut Vec<(usize, Revision<A>)>,
) -> Result<bool, OutOfMemory>
    requires { All (λ t. IsSome (get K.eq table.old t.0)) (touches T.changes_of (candidate.now ∷ [])) }
    ensures decided { IfOk result (Decided K.eq A.eq A.rules table.old.entries table.new.entries
        (touches T.changes_of (candidate.now ∷ []))) }
    ensures unchanged { OnErr result (table.new.entries ≡ table.old.entries) }
    ensures same_reads { AreReadBy K.eq table.old.entries table.new.entries }
{
    log.clear();
    touches_into(candidate, all)?;
    let Ok(taken) = try_all(alloc, table, all.as_slice(), guesses, log) else {
        undo_all(table, log);
        return Err(OutOfMemory);
    };
    if taken {
        return Ok(true);
    }
    undo_all(table, log);
    Ok(false)
}

/// Takes each candidate where it settles with what was taken before. After want of memory the verdicts so far stand. The guesses are
/// of the places of all touches, in order; a wrong one costs a hash, and nothing else.
pub(crate) fn decide_all<T: Transfer<Key = K, Account = A>, K: Copy + Eq + Hash, A: Account>(
    alloc: Global,
    table: &mut IndexMap<K, Held<A>, Seeded>,
    candidates: &[T],
    guesses: &[usize],
    verdicts: &mut Vec<bool>,
) -> Result<(), OutOfMemory>
    requires registered { All (λ t. IsSome (get K.eq table.old t.0)) (touches T.changes_of candidates.now) }
    requires none { verdicts.old.items ≡ [] }
    ensures ok { OnOk result (length verdicts.new.items ≡ length candidates.now) }
    ensures stopped { OnErr result (length verdicts.new.items < length candidates.now) }
    ensures decided { AllDecided K.eq A.eq A.rules T.changes_of table.old.entries table.new.entries
        (take (length verdicts.new.items) candidates.now) verdicts.new.items }
    ensures same_reads { AreReadBy K.eq table.old.entries table.new.entries }
{
    let mut all = Vec::new(alloc);
    let mut log = Vec::new(alloc);
    let mut touch = 0usize;
    for candidate in candidates {
        verdicts.reserve(1)?;
        let rest = guesses_from(guesses, touch);
        let verdict = decide(alloc, table, candidate, rest, &mut all, &mut log)?;
        touch = touch.saturating_add(all.len());
        let Ok(()) = verdicts.push(verdict) else {
            unreachable!();
        };
    }
    Ok(())
}
