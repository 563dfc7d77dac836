//! Rounds of candidates, chosen one round after another, and what was taken settled as one batch.
//!
//! ```text
//!   a round --touch--> new keys --reads--> register --apply--> verdicts
//!                                                        |
//!   after the last round: what was taken --settle--> slots --> apply_slots
//! ```
ghost use Rattle.std.specs.Prelude.{◌≡◌, ◌≤◌, ◌++◌, ◌∷◌, [], ℕ, List as Items, IfOk, IfErr, OnOk, IsSome, length, map, drop, filter, not, position, slice_get, unwrap_or, option_copied, option_and_then, bytes_eq, if◌then◌else◌};
ghost use Rattle.std.specs.List.{All, flat_map};
ghost use Rattle.std.specs.Map.{lookup};
ghost use Rattle.std.specs.BTreeMap.{BTreeMap};
ghost use Rattle.ledger_job.specs.declared.block.Block.TheVariants.{Rounds};
ghost use Rattle.ledger_job.specs.declared.block.BlockVerdicts.TheVariants.{Rounds as Verdicts};
ghost use Rattle.ledger_transfers.specs.Changes.{is_empty_change};
ghost use Rattle.ledger_transfers.specs.Greedy.{taken};
ghost use Rattle.ledger_transfers.specs.Selecting.{StandsFor};
ghost use Rattle.ledger_transfers.specs.Touches.{touches};
ghost use Rattle.ledger_transfers.specs.Settling.{SameSlot};
ghost use Rattle.ledger_transfers.specs.Registering.{AreSettled};
ghost use Rattle.ledger_transfers.specs.declared.slot.Slot.TheVariants.{Keep};
ghost use Rattle.ledger_settling.specs.Blocks.{meaning, grown, joined, batch_of, Settles};
ghost use Rattle.ledger_settling.specs.Reports.{IsReplay};
ghost use Rattle.ledger_settling.specs.Rounds.{AreOpened, AreChosen};
ghost use Rattle.ledger_settling.specs.Slots.{AreReads, AreFound, BlockFails, StaysProper, fresh_batch, opening_of, touched_first};

use crate::applying::{apply_slots, staged_more, staged_over};
use crate::fault::ReportFault;
use crate::report::Accounts;
use crate::slots::{reads_of, touched_keys};
use indexmap::IndexSet;
use ledger_batches::AnyStaged;
use ledger_codec::{List, OutOfMemory};
use ledger_log::{AnyFamily, Key, Log};
use ledger_managed::AccountValue;
use ledger_merkle::Sha256Hasher;
use ledger_strategy::Strategy;
use ledger_transfers::{Account, Change, Seeded, Selection, Slot, Transfer};
use std::alloc::Global;
use std::random::RandomSource;
use std::thread::Threads;

/// The accounts under the keys from a place on.
fn reads_from<A: AccountValue>(
    alloc: Global,
    accounts: &Accounts<A>,
    keys: &[Key],
    first: usize,
) -> Result<Vec<Option<A>>, OutOfMemory>
    requires { first ≤ length keys.now }
    ensures all { IfOk result (λ reads. length reads.items ≡ length (drop first keys.now)) }
    ensures each { IfOk result (λ reads. AreReads A.eq accounts.now (drop first keys.now) reads.items) }
{
    reads_of(alloc, accounts, &keys[first..])
}

/// Takes up the keys of a round, with their accounts.
fn open_round<T: Transfer<Key = Key, Account = A>, A: AccountValue>(
    alloc: Global,
    selection: &mut Selection<Key, A>,
    accounts: &Accounts<A>,
    round: &[T],
) -> Result<(), OutOfMemory>
    requires { AreOpened A.eq accounts.now selection.old.0 selection.old.1 }
    ensures opened { OnOk result (AreOpened A.eq accounts.now selection.new.0 selection.new.1) }
    ensures keeps { OnOk result ((ts : _) → StandsFor bytes_eq A.eq A.rules selection.old.1 ts
        → StandsFor bytes_eq A.eq A.rules selection.new.1 ts) }
    ensures registered { OnOk result (All (λ t. IsSome (lookup (bytes_eq t.0) selection.new.1))
        (touches T.changes_of round.now)) }
{
    let new = selection.touch(alloc, round)?;
    let reads = reads_from(alloc, accounts, selection.keys(), new.start)?;
    match selection.register(reads) {
        Ok(()) => Ok(()),
        Err(_) => Err(OutOfMemory),
    }
}

/// Appends the changes of a candidate, if it was taken.
fn push_taken<T: Transfer<Key = Key>>(
    changes: &mut Vec<(Key, Change<<T::Account as Account>::Effect>)>,
    candidate: &T,
    verdict: bool,
) -> Result<(), OutOfMemory>
    ensures { OnOk result (changes.new.items ≡ changes.old.items
        ++ (if verdict then T.changes_of candidate.now else [])) }
{
    if verdict {
        candidate.changes(changes)
    } else {
        Ok(())
    }
}

/// Appends the changes of the candidates of a round that were taken.
fn push_round<T: Transfer<Key = Key>>(
    changes: &mut Vec<(Key, Change<<T::Account as Account>::Effect>)>,
    round: &[T],
    verdicts: &[bool],
) -> Result<(), OutOfMemory>
    requires { length verdicts.now ≡ length round.now }
    ensures { OnOk result (changes.new.items ≡ changes.old.items
        ++ flat_map T.changes_of (taken round.now verdicts.now)) }
{
    for place in 0..round.len() {
        push_taken(changes, &round[place], verdicts[place])?;
    }
    Ok(())
}

/// Chooses the candidates of a round behind what was taken before.
fn choose_round<T: Transfer<Key = Key, Account = A>, A: AccountValue>(
    alloc: Global,
    selection: &mut Selection<Key, A>,
    accounts: &Accounts<A>,
    changes: &mut Vec<(Key, Change<A::Effect>)>,
    round: &[T],
) -> Result<List<bool>, OutOfMemory>
    requires { AreOpened A.eq accounts.now selection.old.0 selection.old.1 }
    ensures opened { OnOk result (AreOpened A.eq accounts.now selection.new.0 selection.new.1) }
    ensures all { IfOk result (λ verdicts. length verdicts ≡ length round.now) }
    ensures chosen { IfOk result (λ verdicts. AreChosen A.eq A.rules T.changes_of accounts.now
        selection.old.1 selection.new.1 round.now verdicts) }
    ensures changes { IfOk result (λ verdicts. changes.new.items ≡ changes.old.items
        ++ flat_map T.changes_of (taken round.now verdicts)) }
{
    open_round(alloc, selection, accounts, round)?;
    let verdicts = match selection.apply(alloc, round) {
        Ok(verdicts) => verdicts,
        Err(_) => return Err(OutOfMemory),
    };
    push_round(changes, round, &verdicts)?;
    Ok(List::from_vec(verdicts))
}

/// What rounds of candidates came to.
#[derive(Drop)]
struct Chosen {
    /// The verdicts of each round.
    verdicts: Vec<List<bool>>,
    /// The batch with the keys of all rounds.
    staged: AnyStaged,
}

/// Chooses the candidates of each round behind those that were taken before, and stages its keys.
fn choose_rounds<T: Transfer<Key = Key, Account = A>, A: AccountValue>(
    alloc: Global,
    log: &Log<AnyFamily, Sha256Hasher>,
    selection: &mut Selection<Key, A>,
    accounts: &Accounts<A>,
    changes: &mut Vec<(Key, Change<A::Effect>)>,
    rounds: &[List<T>],
    mut staged: AnyStaged,
) -> Result<Chosen, OutOfMemory>
    requires opened { AreOpened A.eq accounts.now selection.old.0 selection.old.1 }
    requires staged { staged.batch ≡ fresh_batch log.now }
    ensures opened { OnOk result (AreOpened A.eq accounts.now selection.new.0 selection.new.1) }
    ensures cut { IfOk result (λ c. map length c.verdicts.items ≡ map length rounds.now) }
    ensures chosen { IfOk result (λ c. AreChosen A.eq A.rules T.changes_of accounts.now
        selection.old.1 selection.new.1 (joined rounds.now) (joined c.verdicts.items)) }
    ensures changes { IfOk result (λ c. changes.new.items ≡ changes.old.items
        ++ flat_map T.changes_of (taken (joined rounds.now) (joined c.verdicts.items))) }
    ensures staged { IfOk result (λ c. c.staged.batch ≡ fresh_batch log.now) }
{
    let mut verdicts = Vec::new(alloc);
    for round in rounds {
        let chosen = choose_round(alloc, selection, accounts, changes, round.as_slice())?;
        staged = staged_more(log, staged, selection.keys())?;
        verdicts.push(chosen)?;
    }
    Ok(Chosen { verdicts, staged })
}

/// The place of each key among those that a selection touched.
fn places_of<A: AccountValue>(
    alloc: Global,
    selection: &Selection<Key, A>,
    keys: &[Key],
) -> Result<Vec<Option<usize>>, OutOfMemory>
    ensures { IfOk result (λ places. places.items
        ≡ map (λ key. position (bytes_eq key) selection.now.0) keys.now) }
{
    let mut places = Vec::with_capacity(alloc, keys.len())?;
    for key in keys {
        places.push(selection.place_of(key))?;
    }
    Ok(places)
}

/// A copy of a slot, which keeps the account where there is none.
fn copy_slot<A: AccountValue>(alloc: Global, slot: Option<&Slot<A>>) -> Result<Slot<A>, OutOfMemory>
    ensures { IfOk result (λ copy. SameSlot A.eq copy (unwrap_or (option_copied slot.entry) Keep)) }
{
    match slot {
        Some(Slot::Delete) => Ok(Slot::Delete),
        Some(Slot::Put(account)) => Ok(Slot::Put(account.copy(alloc)?)),
        Some(Slot::Keep) | None => Ok(Slot::Keep),
    }
}

/// The slot at a place, if there is a place and a slot at it.
fn slot_at<A: AccountValue>(
    alloc: Global,
    slots: &[Slot<A>],
    place: Option<usize>,
) -> Result<Slot<A>, OutOfMemory>
    ensures { IfOk result (λ copy. SameSlot A.eq copy
        (unwrap_or (option_and_then (slice_get slots.now) place) Keep)) }
{
    match place {
        Some(place) => copy_slot(alloc, slots.get(place)),
        None => Ok(Slot::Keep),
    }
}

/// The slots at these places.
fn slots_at<A: AccountValue>(
    alloc: Global,
    slots: &[Slot<A>],
    places: &[Option<usize>],
) -> Result<Vec<Slot<A>>, OutOfMemory>
    ensures all { IfOk result (λ found. length found.items ≡ length places.now) }
    ensures each { IfOk result (λ found. AreFound A.eq slots.now places.now found.items) }
{
    let mut found = Vec::with_capacity(alloc, places.len())?;
    for place in places {
        let slot = slot_at(alloc, slots, *place)?;
        found.push(slot)?;
    }
    Ok(found)
}

/// The slots that a selection has for the keys that it took, in their order.
fn selected_slots<R: RandomSource + Threads + Sync, A: AccountValue, S: Strategy>(
    rt: &R,
    alloc: Global,
    selection: Selection<Key, A>,
    accounts: &Accounts<A>,
    keys: &[Key],
    strategy: &S,
) -> Result<Vec<Slot<A>>, OutOfMemory>
    requires { AreOpened A.eq accounts.now selection.0 selection.1 }
    ensures { IfOk result (λ slots. (ts : _) → StandsFor bytes_eq A.eq A.rules selection.1 ts
        → keys.now ≡ touched_first ts → AreSettled bytes_eq A.eq A.rules keys.now
        (opening_of A.rules accounts.now) ts slots.items) }
{
    let places = places_of(alloc, &selection, keys)?;
    let slots = selection.settle(rt, alloc, strategy)?;
    slots_at(alloc, &slots, &places)
}

/// Takes out the empty changes.
fn drop_empty<E: Copy>(changes: &mut Vec<(Key, Change<E>)>)
    ensures { changes.new.items ≡ filter (λ t. not (is_empty_change t.1)) changes.old.items }
{
    changes.retain(|change| !change.1.is_empty());
}

/// The keys of what was taken, each at its first touch. The changes are let go.
fn taken_keys<R: RandomSource, E: Copy>(
    rt: &R,
    alloc: Global,
    mut changes: Vec<(Key, Change<E>)>,
) -> Result<IndexSet<Key, Seeded>, OutOfMemory>
    ensures { IfOk result (λ set.
        set.keys ≡ touched_first (filter (λ t. not (is_empty_change t.1)) changes.items)) }
{
    drop_empty(&mut changes);
    let set = touched_keys(rt, alloc, &changes)?;
    Ok(set)
}

/// Chooses the candidates of a block of rounds and settles what was taken on the log.
pub(crate) fn settle_rounds<
    R: RandomSource + Threads + Sync,
    T: Transfer<Key = Key, Account = A>,
    A: AccountValue,
    S: Strategy,
>(
    rt: &R,
    alloc: Global,
    log: &mut Log<AnyFamily, Sha256Hasher>,
    accounts: &mut Accounts<A>,
    place: usize,
    rounds: &[List<T>],
    strategy: &S,
) -> Result<List<List<bool>>, ReportFault>
    requires { IsReplay A.eq A.values accounts.old log.old.ops }
    ensures settles { IfOk result (λ v. Settles (meaning T.changes_of A.eq A.rules A.values) log.old.ops
        (Rounds rounds.now) (Verdicts v)) }
    ensures grown { IfOk result
        (λ v. log.new
        ≡
        record log.old { ops = grown (meaning T.changes_of A.eq A.rules A.values) log.old.front log.old.ops (taken (joined rounds.now) (joined v)) }) }
    ensures accounts { OnOk result (IsReplay A.eq A.values accounts.new log.new.ops) }
    ensures initial { OnOk result (StaysProper A.eq A.rules accounts.old accounts.new) }
    ensures fails { IfErr result (BlockFails (meaning T.changes_of A.eq A.rules A.values) log.old place
        (Rounds rounds.now)) }
{
    let mut selection = Selection::new(rt, alloc);
    let mut changes = Vec::new(alloc);
    let staged = staged_over(rt, alloc, log, selection.keys())?;
    let chosen = choose_rounds(
        alloc,
        log,
        &mut selection,
        accounts,
        &mut changes,
        rounds,
        staged,
    )?;
    let Chosen { verdicts, staged } = chosen;
    let order = taken_keys(rt, alloc, changes)?;
    let keys = order.as_slice();
    let slots = selected_slots(rt, alloc, selection, accounts, keys, strategy)?;
    match apply_slots(alloc, log, accounts, place, staged, keys, slots) {
        Ok(()) => Ok(List::from_vec(verdicts)),
        Err(fault) => Err(fault),
    }
}
