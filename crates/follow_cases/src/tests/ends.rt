//! Where following a log ends, by the bytes that come and by the log that they tell.

use super::vectors::{ROOT_BEFORE, ROOT_CUT, ROOT_END, ROOT_FOUR, ROOT_LAST, ROOT_ONES};
use super::{Told, body, bytes_of, digest_of, followed, log_of, serving, tape, target, value_of};
use ledger_codec::Digest;
use ledger_log::{AnyOp, Log};
use ledger_merkle::Location;
use std::alloc::Global;
use std::random::RandomSource;
use std::thread::Threads;
use sync_client::Limits;

/// What a tape of these bytes says whose calls with the numbers `failing` fail.
fn said<R: RandomSource + Threads + Sync + AllocGlobal>(
    rt: &R,
    bytes: &str,
    failing: &[u64],
) -> Option<Told> {
    let alloc = rt.alloc();
    let target = target(ROOT_FOUR, 0, 6)?;
    let limits = Limits::new(6, 1)?;
    let mut link = tape(alloc, bytes_of(alloc, bytes)?, &[], failing)?;
    Some(followed(rt, &target, &limits, &[], &mut link))
}

#[test]
fn an_end_inside_a_frame_closes(rt: HostRuntime) {
    assert_eq!(rt; said(&rt, "1501", &[]), Some(Told::RequestChannelClosed));
}

#[test]
fn a_call_that_fails_is_told(rt: HostRuntime) {
    let network = Some(Told::Network);
    assert_eq!(rt; said(&rt, "1501", &[2]), network);
    assert_eq!(rt; said(&rt, "1501", &[1]), network);
    assert_eq!(rt; said(&rt, "1501", &[0]), network);
    assert_eq!(rt; said(&rt, "1501", &[3]), Some(Told::RequestChannelClosed));
}

/// Nodes whose bytes count up, one a peak below a place.
fn nodes(alloc: Global, start: Location) -> Option<Vec<Digest>> {
    let mut nodes = Vec::new(alloc);
    for peak in 0..start.get().count_ones() {
        nodes.push([peak as u8; 32]).ok()?;
    }
    Some(nodes)
}

/// What an empty body makes of a log whose one operation, a commit, stands at `start`.
fn late<R: RandomSource + Threads + Sync + AllocGlobal>(
    rt: &R,
    start: u64,
    root: &str,
) -> Option<Told> {
    let alloc = rt.alloc();
    let front = Location::new(start)?;
    let ops = Vec::from_slice(alloc, &[AnyOp::CommitFloor(None, front)]).ok()?;
    let log = Log::from_parts(alloc, nodes(alloc, front)?, front, ops).ok()?;
    let target = target(root, start, start.checked_add(1)?)?;
    let limits = Limits::new(50, 1)?;
    let blocks = body(alloc, &[])?;
    let mut link = serving(alloc, log);
    Some(followed(rt, &target, &limits, &blocks, &mut link))
}

#[test]
fn no_log_is_longer_than_its_locations(rt: HostRuntime) {
    let full = late(&rt, 4_611_686_018_427_387_903, ROOT_LAST);
    assert_eq!(rt; full, Some(Told::Full(0)));
}

#[test]
fn a_log_may_grow_to_its_last_location(rt: HostRuntime) {
    let grown = late(&rt, 4_611_686_018_427_387_902, ROOT_BEFORE);
    let end = digest_of(ROOT_END);
    let size = 4_611_686_018_427_387_904;
    assert_eq!(rt; grown, end.map(|root| Told::Report(1, 0, size, root)));
}

/// What the first operations of a log of two accounts say, the first of which has this value.
fn two<R: RandomSource + Threads + Sync + AllocGlobal>(
    rt: &R,
    value: [u8; 32],
    root: &str,
    end: u64,
) -> Option<Told> {
    let alloc = rt.alloc();
    let ops = [
        AnyOp::CommitFloor(None, Location::ZERO),
        AnyOp::Update([1; 32], value),
        AnyOp::Update([2; 32], value_of(20, 2)),
        AnyOp::CommitFloor(None, Location::ZERO),
    ];
    let target = target(root, 0, end)?;
    let limits = Limits::new(50, 1)?;
    let mut link = serving(alloc, log_of(alloc, &ops)?);
    Some(followed(rt, &target, &limits, &[], &mut link))
}

#[test]
fn a_log_ends_with_a_commit(rt: HostRuntime) {
    let cut = two(&rt, value_of(10, 1), ROOT_CUT, 3);
    assert_eq!(rt; cut, Some(Told::BadLog(2)));
}

#[test]
fn an_update_holds_an_account(rt: HostRuntime) {
    let ones = two(&rt, [1; 32], ROOT_ONES, 4);
    assert_eq!(rt; ones, Some(Told::BadValue(1)));
}
