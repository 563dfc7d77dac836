//! The machine's answers.

use ledger_log::{CompactTarget, KeylessOp};
use ledger_merkle::Location;
use std::alloc::Global;
use std::num::NonZeroU64;
use std::test::*;
use sync_net::*;

/// The frame of GetSyncTargetRequest 1.
const TARGET: [u8; 10] = [9, 2, 0, 0, 0, 0, 0, 0, 0, 1];

/// The frame of GetOperationsRequest 1, of 300 leaves, from 0 on, at most 50 operations, with pinned nodes.
const OPERATIONS: [u8; 22] = [
    21, 0, 0, 0, 0, 0, 0, 0, 0, 1, 0xac, 0x02, 0, 0, 0, 0, 0, 0, 0, 0, 0x32, 1,
];

/// The frame of an error of code 3 under this number, with the text `no`.
fn refusal(number: u8) -> [u8; 14] {
    [13, 8, 0, 0, 0, 0, 0, 0, 0, number, 3, 2, 0x6e, 0x6f]
}

/// A machine about a keyless log.
fn machine(alloc: Global, first: u64) -> Machine<KeylessOp> {
    Machine::new(alloc, Generator::starting_at(first))
}

#[test]
fn numbers_end(rt: HostRuntime) {
    let mut numbers = Generator::starting_at(u64::MAX);
    assert_eq!(rt; numbers.next(), Some(u64::MAX));
    assert_eq!(rt; numbers.next(), None);
    assert_eq!(rt; Generator::new().next(), Some(1));
}

/// The number and the frame of a first request for the target.
fn first_target(alloc: Global) -> Option<(u64, Vec<u8>)> {
    let submitted = machine(alloc, 1).submit_sync_target().ok()?;
    Some((submitted.number, submitted.frame))
}

#[test]
fn a_target_is_asked_for(rt: HostRuntime) -> Result<(), Fail> {
    let first = first_target(rt.alloc()).ok_or("there is memory")?;
    assert_eq!(rt; first.0, 1);
    assert_eq!(rt; first.1.as_slice(), TARGET.as_slice());
    Ok(())
}

/// The frame of a first request for operations.
fn first_operations(alloc: Global) -> Option<Vec<u8>> {
    let op_count = Location::new(300)?;
    let max_ops = NonZeroU64::new(50)?;
    let mut asking = machine(alloc, 1);
    let submitted = asking.submit_operations(op_count, Location::ZERO, max_ops, true);
    Some(submitted.ok()?.frame)
}

#[test]
fn operations_are_asked_for(rt: HostRuntime) -> Result<(), Fail> {
    let frame = first_operations(rt.alloc()).ok_or("there is memory")?;
    assert_eq!(rt; frame.as_slice(), OPERATIONS.as_slice());
    Ok(())
}

/// Why a second request after the last number is refused.
fn after_the_last(alloc: Global) -> Option<SubmitRefusal> {
    let mut asking = machine(alloc, u64::MAX);
    let _last = asking.submit_compact_target().ok()?;
    asking.submit_sync_target().err()
}

#[test]
fn requests_end(rt: HostRuntime) {
    assert_eq!(rt; after_the_last(rt.alloc()), Some(SubmitRefusal::Exhausted));
}

/// How a machine with one pending request under 1 takes these bytes: the number of a stray, 0 for a
/// reply, else None.
fn taken(alloc: Global, bytes: &[u8]) -> Option<u64> {
    let mut asking = machine(alloc, 1);
    let _first = asking.submit_sync_target().ok()?;
    asking.feed(bytes).ok()?;
    match asking.next_answer() {
        Ok(Some(Answer::Stray { number })) => Some(number),
        Ok(Some(Answer::Reply { .. })) => Some(0),
        _ => None,
    }
}

#[test]
fn an_error_under_a_strange_number(rt: HostRuntime) {
    assert_eq!(rt; taken(rt.alloc(), &refusal(7)), Some(7));
    assert_eq!(rt; taken(rt.alloc(), &refusal(1)), None);
    assert_eq!(rt; taken(rt.alloc(), &TARGET), None);
}

/// Whether a machine that took a frame that is no message is closed.
fn is_closed_by_nonsense(alloc: Global) -> Option<bool> {
    let mut asking = machine(alloc, 1);
    asking.feed(&[1, 9]).ok()?;
    let nonsense = matches!(asking.next_answer(), Err(MachineFault::InvalidResponse));
    let fed = matches!(asking.feed(&[0]), Err(MachineFault::Closed));
    let answered = matches!(asking.next_answer(), Err(MachineFault::Closed));
    let asked = matches!(asking.submit_sync_target(), Err(SubmitRefusal::Closed));
    Some(nonsense && fed && answered && asked)
}

#[test]
fn nonsense_closes(rt: HostRuntime) {
    assert_eq!(rt; is_closed_by_nonsense(rt.alloc()), Some(true));
}

/// A machine that was closed by a frame that is no message.
fn closed(alloc: Global) -> Option<Machine<KeylessOp>> {
    let mut asking = machine(alloc, 1);
    asking.feed(&[1, 9]).ok()?;
    match asking.next_answer() {
        Err(MachineFault::InvalidResponse) => Some(asking),
        _ => None,
    }
}

/// Why a closed machine refuses to ask for operations, and for a compact state.
fn refused(alloc: Global) -> Option<(Option<SubmitRefusal>, Option<SubmitRefusal>)> {
    let mut asking = closed(alloc)?;
    let one = Location::new(1)?;
    let operations = asking.submit_operations(one, Location::ZERO, NonZeroU64::MIN, false);
    let target = CompactTarget {
        root: [0; 32],
        leaf_count: one,
    };
    let state = asking.submit_compact_state(target);
    Some((operations.err(), state.err()))
}

#[test]
fn a_closed_machine_asks_nothing(rt: HostRuntime) {
    let shut = Some(SubmitRefusal::Closed);
    assert_eq!(rt; refused(rt.alloc()), Some((shut, shut)));
}

/// Why a closed machine refuses to ask for a compact target.
fn target_refused(alloc: Global) -> Option<SubmitRefusal> {
    let mut asking = closed(alloc)?;
    asking.submit_compact_target().err()
}

#[test]
fn a_closed_machine_asks_for_no_target(rt: HostRuntime) {
    assert_eq!(rt; target_refused(rt.alloc()), Some(SubmitRefusal::Closed));
}
