//! How the cases are played: a body through a plan, and rounds through a selection.

use crate::stated::Stated;
use ledger_codec::OutOfMemory;
use ledger_strategy::Sequential;
use ledger_transfers::{Account, Plan, PlanFault, Rejection, Selection, Slot, Stopped};
use std::alloc::{AllocError, AllocFailed, Global};
use std::random::RandomSource;
use std::thread::Threads;

/// Why a case wasn't played to its end.
#[derive(Debug, Drop)]
pub enum Unmet {
    /// Memory was wanting.
    Memory,
    /// The reads aren't as many as the new keys.
    Reads,
    /// A key isn't registered.
    Unregistered,
    /// The batch isn't settled.
    Rejected(Rejection<u8>),
}

impl From<OutOfMemory> for Unmet {
    fn from(_wanting: OutOfMemory) -> Self {
        Unmet::Memory
    }
}

impl From<AllocError> for Unmet {
    fn from(_wanting: AllocError) -> Self {
        Unmet::Memory
    }
}

impl<T: Drop> From<AllocFailed<T>> for Unmet {
    fn from(_failed: AllocFailed<T>) -> Self {
        Unmet::Memory
    }
}

impl From<Stopped> for Unmet {
    fn from(_stopped: Stopped) -> Self {
        Unmet::Memory
    }
}

impl From<PlanFault<u8>> for Unmet {
    fn from(fault: PlanFault<u8>) -> Self {
        match fault {
            PlanFault::Rejected(rejection) => Unmet::Rejected(rejection),
            PlanFault::OutOfMemory => Unmet::Memory,
        }
    }
}

/// The verdicts of a round over these held accounts.
fn round<A: Account + Copy>(
    selection: &mut Selection<u8, A>,
    alloc: Global,
    held: &[(u8, Option<A>)],
    candidates: &[Stated<A>],
) -> Result<Vec<bool>, Unmet> {
    if !selection.is_registered() {
        return Err(Unmet::Unregistered);
    }
    let new = selection.touch(alloc, candidates)?;
    let reads = reads_from(alloc, held, selection.keys(), new.start)?;
    let Some(count) = new.end.checked_sub(new.start) else {
        return Err(Unmet::Reads);
    };
    if reads.len() != count {
        return Err(Unmet::Reads);
    }
    if selection.register(reads).is_err() {
        return Err(Unmet::Memory);
    }
    if !selection.has_registered(alloc, candidates)? {
        return Err(Unmet::Unregistered);
    }
    Ok(selection.apply(alloc, candidates)?)
}

/// What two rounds came to.
#[derive(Debug, Drop)]
pub struct Played<A> {
    pub first: Vec<bool>,
    pub second: Vec<bool>,
    /// The touched keys in order of first touch, and a slot for each.
    pub keys: Vec<u8>,
    pub slots: Vec<Slot<A>>,
}

/// Plays two rounds over these held accounts.
pub fn play<A: Account + Copy, R: RandomSource + Threads + Sync>(
    rt: &R,
    alloc: Global,
    held: &[(u8, Option<A>)],
    first: &[Stated<A>],
    second: &[Stated<A>],
) -> Result<Played<A>, Unmet> {
    let mut selection = Selection::new(rt, alloc);
    let first = round(&mut selection, alloc, held, first)?;
    let second = round(&mut selection, alloc, held, second)?;
    let keys = selection.keys().to_vec(alloc)?;
    let slots = slots(selection, rt, alloc)?;
    Ok(Played {
        first,
        second,
        keys,
        slots,
    })
}

/// The slots that a selection ends with, in the order of first touch.
fn slots<A: Account, R: Threads + Sync>(
    selection: Selection<u8, A>,
    rt: &R,
    alloc: Global,
) -> Result<Vec<Slot<A>>, Unmet> {
    if !selection.is_registered() {
        return Err(Unmet::Unregistered);
    }
    Ok(selection.settle(rt, alloc, &Sequential)?)
}

/// The slots of a body over these held accounts, in their order; a key that the body doesn't touch has none.
pub fn body<A: Account + Copy, R: Threads + Sync>(
    rt: &R,
    alloc: Global,
    held: &[(u8, Option<A>)],
    transfers: &[Stated<A>],
) -> Result<Vec<Option<Slot<A>>>, Unmet> {
    let plan: Plan<u8, A> = Plan::with_seed(rt, alloc, transfers, 9, &Sequential)?;
    let mut reads = Vec::new(alloc);
    for key in plan.keys() {
        reads.push(read_of(held, *key))?;
    }
    if reads.len() != plan.len() {
        return Err(Unmet::Reads);
    }
    let mut settled = plan.settle(rt, alloc, &reads, &Sequential)?;
    let mut found = Vec::new(alloc);
    for (key, _) in held {
        found.push(take_slot(plan.keys(), &mut settled, *key))?;
    }
    Ok(found)
}

/// The held accounts of the keys from a place on.
fn reads_from<A: Account + Copy>(
    alloc: Global,
    held: &[(u8, Option<A>)],
    keys: &[u8],
    start: usize,
) -> Result<Vec<Option<A>>, Unmet> {
    let mut reads = Vec::new(alloc);
    for key in keys.iter().skip(start) {
        reads.push(read_of(held, *key))?;
    }
    Ok(reads)
}

/// The held account of a key.
fn read_of<A: Account + Copy>(held: &[(u8, Option<A>)], key: u8) -> Option<A> {
    for (other, account) in held {
        if *other == key {
            return *account;
        }
    }
    None
}

/// The slot at the place of a key, which leaves `Keep` there.
fn take_slot<A: Drop>(keys: &[u8], slots: &mut [Slot<A>], key: u8) -> Option<Slot<A>> {
    for (other, slot) in keys.iter().zip(slots) {
        if *other == key {
            return Some(std::mem::replace(slot, Slot::Keep));
        }
    }
    None
}
