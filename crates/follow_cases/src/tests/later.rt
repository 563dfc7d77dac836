//! Logs that grow while they are followed.

use super::vectors::{RISEN_ONE, RISEN_THREE, ROOT_FOUR, ROOT_NINE};
use super::{Told, bytes_of, digest_of, followed_on, log_of, target, value_of};
use crate::Noted;
use ledger_log::{AnyOp, Target};
use ledger_merkle::Location;
use std::alloc::Global;
use std::random::RandomSource;
use std::thread::Threads;
use sync_client::{Limits, ListTargets, Targets};
use sync_server::MemoryLink;

/// The operations of a log of four accounts, two changes of them, and a commit that keeps the floor.
fn nine() -> [AnyOp; 9] {
    [
        AnyOp::CommitFloor(None, Location::ZERO),
        AnyOp::Update([1; 32], value_of(10, 1)),
        AnyOp::Update([2; 32], value_of(20, 2)),
        AnyOp::Update([3; 32], value_of(30, 3)),
        AnyOp::Update([4; 32], value_of(40, 4)),
        AnyOp::CommitFloor(None, Location::ZERO),
        AnyOp::Update([1; 32], value_of(9, 2)),
        AnyOp::Update([2; 32], value_of(21, 2)),
        AnyOp::CommitFloor(None, Location::ZERO),
    ]
}

/// What following the first six operations answers over a link that serves all nine in this order and in pieces of
/// these lengths, with these answers on later targets; what was sent; and whether a target is still to be named.
fn followed_by<R: RandomSource + Threads + Sync + AllocGlobal>(
    rt: &R,
    limits: &Limits,
    answers: &[Option<Target>],
    order: &[usize],
    cuts: Vec<usize>,
) -> Option<(Told, Vec<u8>, bool)> {
    let alloc = rt.alloc();
    let six = target(ROOT_FOUR, 0, 6)?;
    let mut updates = ListTargets::new(Vec::from_slice(alloc, answers).ok()?);
    let order = Vec::from_slice(alloc, order).ok()?;
    let log = log_of(alloc, &nine())?;
    let mut link = Noted::new(
        alloc,
        MemoryLink::new(alloc, log, order, cuts, Vec::new(alloc)),
    );
    let told = followed_on(rt, &six, &mut updates, limits, &[], &mut link);
    Some((told, link.sent, updates.next().is_some()))
}

/// What is told where all nine are named after the second answer, two at a time; and whether these asks were sent.
fn risen<R: RandomSource + Threads + Sync + AllocGlobal>(
    rt: &R,
    outstanding: usize,
    frames: &str,
) -> Option<(Told, bool)> {
    let alloc = rt.alloc();
    let answers = [None, target(ROOT_NINE, 0, 9)];
    let limits = Limits::new(2, outstanding)?;
    let (told, sent, _named) = followed_by(rt, &limits, &answers, &[], Vec::new(alloc))?;
    Some((told, sent == bytes_of(alloc, frames)?))
}

/// The report of all nine.
fn report() -> Option<Told> {
    Some(Told::Report(9, 4, 9, digest_of(ROOT_NINE)?))
}

#[test]
fn a_later_target_is_asked_for_up_to_its_end(rt: HostRuntime) {
    let all = report().map(|told| (told, true));
    assert_eq!(rt; risen(&rt, 1, RISEN_ONE), all);
    assert_eq!(rt; risen(&rt, 3, RISEN_THREE), all);
}

/// What is told where the answers come in this order and byte by byte, and all nine are named after this many.
fn mixed<R: RandomSource + Threads + Sync + AllocGlobal>(
    rt: &R,
    order: &[usize],
    before: usize,
) -> Option<Told> {
    let alloc = rt.alloc();
    let mut cuts = Vec::new(alloc);
    for _ in 0..1500 {
        cuts.push(1).ok()?;
    }
    let all = target(ROOT_NINE, 0, 9);
    let answers = [[all, None], [None, all]];
    let answers = answers.get(before)?;
    Some(followed_by(rt, &Limits::new(2, 3)?, answers, order, cuts)?.0)
}

#[test]
fn the_order_and_the_pieces_are_free(rt: HostRuntime) {
    for before in 0..2 {
        for order in [[0, 0, 0], [2, 1, 0]] {
            assert_eq!(rt; mixed(&rt, &order, before), report());
        }
    }
}

/// What is told where the first target is named again, so many at a time; and whether it is still to be named.
fn again<R: RandomSource + Threads + Sync + AllocGlobal>(
    rt: &R,
    batch: u64,
) -> Option<(Told, bool)> {
    let answers = [target(ROOT_FOUR, 0, 6)];
    let limits = Limits::new(batch, 1)?;
    let (told, _sent, named) = followed_by(rt, &limits, &answers, &[], Vec::new(rt.alloc()))?;
    Some((told, named))
}

#[test]
fn a_target_named_again_is_stale(rt: HostRuntime) {
    assert_eq!(rt; again(&rt, 2), Some((Told::StaleUpdate(0, 6), false)));
}

#[test]
fn nothing_is_named_once_all_is_kept(rt: HostRuntime) {
    let six = digest_of(ROOT_FOUR).map(|root| (Told::Report(6, 4, 6, root), true));
    assert_eq!(rt; again(&rt, 50), six);
}
