//! What is asked of a log of 300 operations, and what a log of 120 refuses.

use super::vectors::{ONE_BY_ONE, ROOT_LONG, TWO_AT_ONCE};
use super::{Told, bytes_of, digest_of, followed, serving, target};
use crate::Noted;
use ledger_codec::Digest;
use ledger_log::{AnyFamily, AnyOp, Log};
use ledger_merkle::{Location, Sha256Hasher};
use std::alloc::Global;
use std::num::NonZeroU64;
use std::random::RandomSource;
use std::thread::Threads;
use sync_client::Limits;
use sync_net::{ErrorCode, GetOperationsRequest, Message};
use sync_server::{FullMode, ServeMode};

/// The key that begins with this number.
fn key(number: u64) -> Digest {
    let mut key = [0; 32];
    key[..8].copy_from_slice(&number.to_be_bytes());
    key
}

/// The log that deletes so many keys, and has a commit behind that.
fn deleting(alloc: Global, count: u64) -> Option<Log<AnyFamily, Sha256Hasher>> {
    let mut ops = Vec::new(alloc);
    for number in 0..count {
        ops.push(AnyOp::Delete(key(number))).ok()?;
    }
    ops.push(AnyOp::CommitFloor(None, Location::ZERO)).ok()?;
    Log::from_parts(alloc, Vec::new(alloc), Location::ZERO, ops).ok()
}

/// What following the log of 300 operations answers, and whether it asked so, by 250 at once.
fn asked<R: RandomSource + Threads + Sync + AllocGlobal>(
    rt: &R,
    outstanding: usize,
    frames: &str,
) -> Option<(Told, bool)> {
    let alloc = rt.alloc();
    let target = target(ROOT_LONG, 0, 300)?;
    let limits = Limits::new(250, outstanding)?;
    let mut link = Noted::new(alloc, serving(alloc, deleting(alloc, 299)?));
    let told = followed(rt, &target, &limits, &[], &mut link);
    Some((told, link.sent == bytes_of(alloc, frames)?))
}

/// The report of all operations, which leave no account.
fn all() -> Option<(Told, bool)> {
    Some((Told::Report(300, 0, 300, digest_of(ROOT_LONG)?), true))
}

#[test]
fn rests_are_asked_one_at_a_time(rt: HostRuntime) {
    assert_eq!(rt; asked(&rt, 1, ONE_BY_ONE), all());
}

#[test]
fn rests_are_asked_two_at_once(rt: HostRuntime) {
    assert_eq!(rt; asked(&rt, 2, TWO_AT_ONCE), all());
}

/// The request for one operation from `start` on in a log of so many.
fn request(count: u64, start: u64) -> Option<GetOperationsRequest> {
    Some(GetOperationsRequest {
        request_id: 9,
        op_count: Location::new(count)?,
        start_loc: Location::new(start)?,
        max_ops: NonZeroU64::MIN,
        include_pinned_nodes: false,
    })
}

/// Where a range of a log of 100 begins that is refused; None where it isn't.
fn refused_range(start: u64) -> Option<u64> {
    let refusal = request(100, start)?.validate().err()?;
    Some(refusal.start.get())
}

#[test]
fn a_range_begins_below_its_end(rt: HostRuntime) {
    assert_eq!(rt; refused_range(10), None);
    assert_eq!(rt; refused_range(100), Some(100));
    assert_eq!(rt; refused_range(150), Some(150));
}

/// Whether the log of 120 operations refuses a range of 130 from `start` on, with this code and text.
fn refuses(alloc: Global, start: u64, code: ErrorCode, text: &str) -> Option<bool> {
    let log = deleting(alloc, 119)?;
    let request = request(130, start)?;
    let reply = FullMode::reply(alloc, &log, Message::GetOperationsRequest(request)).ok()?;
    let Message::Error(refusal) = reply else {
        return None;
    };
    Some(refusal.error_code == code && refusal.message.as_str() == text)
}

#[test]
fn a_longer_log_s_ranges_are_refused(rt: HostRuntime) {
    let alloc = rt.alloc();
    let behind = "invalid request: start_loc (125) >= database size (120)";
    assert_eq!(rt;
        refuses(alloc, 125, ErrorCode::InvalidRequest, behind),
        Some(true)
    );
    let within = "database operation failed";
    assert_eq!(rt;
        refuses(alloc, 110, ErrorCode::DatabaseError, within),
        Some(true)
    );
}
