//! What a tape of three answers says, whole and damaged.

use super::vectors::{FIRST, MANY, ROOT_ALTERED, ROOT_TWELVE, SECOND, TARGET, THIRD};
use super::{Told, bytes_of, digest_of, followed, tape, target};
use std::alloc::Global;
use std::random::RandomSource;
use std::thread::Threads;
use sync_client::Limits;
use sync_net::ErrorCode;

/// Appends the bytes of a text of hexadecimal digits.
fn push_hex(alloc: Global, out: &mut Vec<u8>, text: &str) -> Option<()> {
    let bytes = bytes_of(alloc, text)?;
    out.extend_from_slice(&bytes).ok()
}

/// The first answer, with other bytes in the place of `count` of its bytes from `at` on.
fn spliced(alloc: Global, first: &str, at: usize, count: usize, put: &str) -> Option<Vec<u8>> {
    let bytes = bytes_of(alloc, first)?;
    let mut out = Vec::new(alloc);
    out.extend_from_slice(bytes.get(..at)?).ok()?;
    push_hex(alloc, &mut out, put)?;
    out.extend_from_slice(bytes.get(at.checked_add(count)?..)?)
        .ok()?;
    Some(out)
}

/// What the tape of these bytes, the second answer and the third one says.
fn play<R: RandomSource + Threads + Sync + AllocGlobal>(
    rt: &R,
    mut bytes: Vec<u8>,
    failing: &[u64],
) -> Option<Told> {
    let alloc = rt.alloc();
    push_hex(alloc, &mut bytes, SECOND)?;
    push_hex(alloc, &mut bytes, THIRD)?;
    let target = target(ROOT_TWELVE, 5, 12)?;
    let limits = Limits::new(3, 1)?;
    let mut link = tape(alloc, bytes, &[186], failing)?;
    Some(followed(rt, &target, &limits, &[], &mut link))
}

/// What the tape says whose first answer is another one, damaged at one place.
fn damaged<R: RandomSource + Threads + Sync + AllocGlobal>(
    rt: &R,
    first: &str,
    at: usize,
    count: usize,
    put: &str,
) -> Option<Told> {
    let bytes = spliced(rt.alloc(), first, at, count, put)?;
    play(rt, bytes, &[])
}

/// What the tape says whose first answer has this length, and is damaged at one place of the body.
fn resized<R: RandomSource + Threads + Sync + AllocGlobal>(
    rt: &R,
    length: &str,
    at: usize,
    count: usize,
    put: &str,
) -> Option<Told> {
    let alloc = rt.alloc();
    let body = spliced(alloc, FIRST, at, count, put)?;
    let mut bytes = bytes_of(alloc, length)?;
    bytes.extend_from_slice(body.get(2..)?).ok()?;
    play(rt, bytes, &[])
}

/// What the whole tape says: seven commits, and no account.
fn whole() -> Option<Told> {
    Some(Told::Report(7, 0, 12, digest_of(ROOT_TWELVE)?))
}

#[test]
fn a_whole_tape_gives_a_report(rt: HostRuntime) {
    assert_eq!(rt; damaged(&rt, FIRST, 0, 0, ""), whole());
}

#[test]
fn frames_that_are_no_messages_are_refused(rt: HostRuntime) {
    let refused = Some(Told::InvalidResponse);
    // No tag is 9.
    assert_eq!(rt; damaged(&rt, FIRST, 2, 1, "09"), refused);
    // A byte behind the message.
    assert_eq!(rt; resized(&rt, "b901", 186, 0, "00"), refused);
    // A frame without a byte.
    assert_eq!(rt; damaged(&rt, FIRST, 0, 0, "00"), refused);
    // A flag of an operation that is neither 0 nor 1.
    assert_eq!(rt; damaged(&rt, FIRST, 112, 1, "02"), refused);
}

#[test]
fn another_kind_under_a_pending_number_is_unexpected(rt: HostRuntime) {
    let unexpected = Some(Told::UnexpectedResponse(1));
    assert_eq!(rt;
        damaged(&rt, FIRST, 0, 0, "09020000000000000001"),
        unexpected
    );
    assert_eq!(rt;
        damaged(&rt, FIRST, 0, 0, "09040000000000000001"),
        unexpected
    );
}

#[test]
fn another_response_is_unexpected(rt: HostRuntime) {
    let unexpected = Some(Told::UnexpectedResponse(1));
    assert_eq!(rt; damaged(&rt, FIRST, 0, 0, TARGET), unexpected);
}

#[test]
fn a_second_answer_is_a_stray(rt: HostRuntime) {
    assert_eq!(rt; damaged(&rt, FIRST, 0, 0, FIRST), whole());
}

#[test]
fn errors_count_under_pending_numbers(rt: HostRuntime) {
    let refused = Some(Told::Server(ErrorCode::StaleTarget, 2));
    assert_eq!(rt;
        damaged(&rt, FIRST, 0, 0, "0d08000000000000000103026e6f"),
        refused
    );
    assert_eq!(rt;
        damaged(&rt, FIRST, 0, 0, "0d08000000000000000703026e6f"),
        whole()
    );
    assert_eq!(rt;
        damaged(&rt, FIRST, 0, 0, "0d08000000000000000203026e6f"),
        whole()
    );
}

#[test]
fn an_answer_has_as_many_operations_as_fit(rt: HostRuntime) {
    let refused = Some(Told::InvalidProof(1));
    // Without operations.
    assert_eq!(rt; resized(&rt, "af01", 110, 10, "00"), refused);
    // One more than was asked for, with the proof of all.
    assert_eq!(rt; damaged(&rt, MANY, 0, 0, ""), refused);
    // One less, with the proof of all.
    assert_eq!(rt; resized(&rt, "b501", 110, 4, "02"), refused);
}

#[test]
fn a_proof_holds_for_one_root_size_and_place(rt: HostRuntime) {
    let refused = Some(Told::InvalidProof(1));
    // A digest's first byte.
    assert_eq!(rt; damaged(&rt, FIRST, 14, 1, "4d"), refused);
    // Leaves one more and one less.
    assert_eq!(rt; damaged(&rt, FIRST, 11, 1, "0d"), refused);
    assert_eq!(rt; damaged(&rt, FIRST, 11, 1, "0b"), refused);
    // An inactive peak.
    assert_eq!(rt; damaged(&rt, FIRST, 12, 1, "01"), refused);
    // The floor of the first operation.
    assert_eq!(rt; damaged(&rt, FIRST, 113, 1, "04"), refused);
}

#[test]
fn a_proof_has_each_of_its_digests(rt: HostRuntime) {
    let without_the_first = resized(&rt, "9801", 13, 33, "02");
    assert_eq!(rt; without_the_first, Some(Told::InvalidProof(1)));
}

#[test]
fn pinned_nodes_are_wanted(rt: HostRuntime) {
    let refused = Some(Told::InvalidProof(1));
    // Without nodes.
    assert_eq!(rt; resized(&rt, "77", 120, 66, "00"), refused);
    // Without the first node.
    assert_eq!(rt; resized(&rt, "9801", 121, 33, "01"), refused);
}

#[test]
fn another_pinned_node_gives_another_root(rt: HostRuntime) {
    let altered = damaged(&rt, FIRST, 154, 1, "e6");
    let found = digest_of(ROOT_ALTERED);
    assert_eq!(rt; altered, found.map(Told::WrongRoot));
}

#[test]
fn what_comes_first_is_told(rt: HostRuntime) {
    let alloc = rt.alloc();
    let bad = spliced(alloc, FIRST, 113, 1, "04");
    let whole = bytes_of(alloc, FIRST);
    assert_eq!(rt;
        bad.and_then(|bytes| play(&rt, bytes, &[3])),
        Some(Told::InvalidProof(1))
    );
    assert_eq!(rt;
        whole.and_then(|bytes| play(&rt, bytes, &[3])),
        Some(Told::Network)
    );
}

#[test]
fn frames_have_lengths(rt: HostRuntime) {
    let closed = Some(Told::RequestChannelClosed);
    // A length whose last byte is 0.
    assert_eq!(rt; damaged(&rt, FIRST, 0, 0, "8000"), closed);
    // A length of 10,485,761.
    assert_eq!(rt; damaged(&rt, FIRST, 0, 0, "81808005"), closed);
    // A length that is greater than all that comes.
    assert_eq!(rt; damaged(&rt, FIRST, 0, 0, "ff7f"), closed);
}

/// What a tape says that ends so many bytes behind the first two answers.
fn ended<R: RandomSource + Threads + Sync + AllocGlobal>(rt: &R, behind: usize) -> Option<Told> {
    let alloc = rt.alloc();
    let mut bytes = bytes_of(alloc, FIRST)?;
    push_hex(alloc, &mut bytes, SECOND)?;
    let third = bytes_of(alloc, THIRD)?;
    bytes.extend_from_slice(third.get(..behind)?).ok()?;
    let target = target(ROOT_TWELVE, 5, 12)?;
    let limits = Limits::new(3, 1)?;
    let mut link = tape(alloc, bytes, &[], &[])?;
    Some(followed(rt, &target, &limits, &[], &mut link))
}

#[test]
fn bytes_may_end_behind_the_last_answer_alone(rt: HostRuntime) {
    let closed = Some(Told::RequestChannelClosed);
    assert_eq!(rt; ended(&rt, 0), closed);
    assert_eq!(rt; ended(&rt, 1), closed);
    assert_eq!(rt; ended(&rt, 113), closed);
    assert_eq!(rt; ended(&rt, 114), whole());
}
