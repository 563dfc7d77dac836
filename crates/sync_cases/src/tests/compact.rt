//! Replies over a full and a compact log. The expected digests are those of vectors/compact.py.
use ledger_codec::{Digest, encode};
use ledger_compact::CompactLog;
use ledger_log::{CompactTarget, KeylessFamily, KeylessOp, Log};
use ledger_merkle::{Hasher, Location, Sha256Hasher};
use std::alloc::Global;
use sync_compact::CompactMode;
use sync_net::{
    ErrorCode, GetCompactStateRequest, GetCompactTargetRequest, GetSyncTargetRequest, Message,
};
use sync_server::ServeMode;

const ROOT: Digest = [
    0x43, 0x7c, 0x55, 0xc0, 0x1e, 0xbc, 0xb7, 0x43, 0xbb, 0x9a, 0xc7, 0x87, 0x02, 0xd2, 0x42, 0xef,
    0x1a, 0x82, 0x7b, 0xfb, 0x00, 0x40, 0xfc, 0x68, 0x8f, 0xe0, 0x65, 0x80, 0x54, 0x6e, 0x6f, 0x91,
];

const TARGET: Digest = [
    0x90, 0xa3, 0xfe, 0x70, 0x49, 0x8f, 0x12, 0x46, 0x76, 0xf5, 0x67, 0xce, 0x8b, 0x88, 0x59, 0x85,
    0x0e, 0x8e, 0x14, 0xc8, 0x96, 0xb6, 0x4c, 0x81, 0x72, 0x10, 0x87, 0x6d, 0xb2, 0x56, 0x20, 0xae,
];

const STATE: Digest = [
    0xb4, 0x03, 0x2a, 0x9d, 0xa3, 0x92, 0xfd, 0xe0, 0x3e, 0xf9, 0xfd, 0xec, 0xa1, 0xf0, 0x92, 0x4e,
    0xe2, 0xb2, 0x74, 0x9b, 0xb1, 0x27, 0x00, 0x74, 0xcc, 0x09, 0x4c, 0xf2, 0xbb, 0xf0, 0x68, 0x02,
];

fn at(value: u64) -> Location {
    match Location::new(value) {
        Some(location) => location,
        None => Location::ZERO,
    }
}

/// The log of a commit, a value and a commit.
fn full(alloc: Global) -> Option<Log<KeylessFamily, Sha256Hasher>> {
    let mut log = Log::fresh(alloc).ok()?;
    let batch = [KeylessOp::Append([1; 32]), KeylessOp::Commit(None, at(1))];
    log.append_batch(&batch).ok()?;
    Some(log)
}

/// The compact log that stands for it.
fn compact(alloc: Global) -> Option<CompactLog<KeylessFamily, Sha256Hasher>> {
    let mut log = CompactLog::fresh(alloc).ok()?;
    let batch = [KeylessOp::Append([1; 32]), KeylessOp::Commit(None, at(1))];
    log.append_batch(&batch).ok()?;
    Some(log)
}

fn ask_target() -> Message<KeylessOp> {
    Message::GetCompactTargetRequest(GetCompactTargetRequest { request_id: 1 })
}

fn ask_state(root: Digest, size: u64) -> Message<KeylessOp> {
    let target = CompactTarget {
        root,
        leaf_count: at(size),
    };
    Message::GetCompactStateRequest(GetCompactStateRequest {
        request_id: 2,
        target,
    })
}

/// The SHA-256 of these bytes.
fn digest_of(bytes: &[u8]) -> Digest {
    let mut hasher = Sha256Hasher::new();
    hasher.update(bytes);
    hasher.finish()
}

/// The digest of the full log's reply to a message.
fn from_full(alloc: Global, message: Message<KeylessOp>) -> Option<Digest> {
    let log = full(alloc)?;
    let Ok(reply) = CompactMode::reply(alloc, &log, message) else {
        return None;
    };
    let bytes = encode(alloc, &reply).ok()?;
    Some(digest_of(&bytes))
}

/// The digest of the compact log's reply to a message.
fn from_compact(alloc: Global, message: Message<KeylessOp>) -> Option<Digest> {
    let log = compact(alloc)?;
    let Ok(reply) = CompactMode::reply(alloc, &log, message) else {
        return None;
    };
    let bytes = encode(alloc, &reply).ok()?;
    Some(digest_of(&bytes))
}

/// Whether the compact log's reply is a refusal with the message's number, this code and this text.
fn refuses(alloc: Global, message: Message<KeylessOp>, code: ErrorCode, text: &str) -> bool {
    let number = message.request_id();
    let Some(log) = compact(alloc) else {
        return false;
    };
    let Ok(Message::Error(refusal)) = CompactMode::reply(alloc, &log, message) else {
        return false;
    };
    refusal.request_id == number && refusal.error_code == code && refusal.message.as_str() == text
}

#[test]
fn answers_with_the_target(rt: HostRuntime) {
    assert_eq!(rt; from_full(rt.alloc(), ask_target()), Some(TARGET));
    assert_eq!(rt; from_compact(rt.alloc(), ask_target()), Some(TARGET));
}

#[test]
fn answers_with_the_state(rt: HostRuntime) {
    assert_eq!(rt; from_full(rt.alloc(), ask_state(ROOT, 3)), Some(STATE));
    assert_eq!(rt; from_compact(rt.alloc(), ask_state(ROOT, 3)), Some(STATE));
}

#[test]
fn refuses_other_requests(rt: HostRuntime) {
    let invalid = ErrorCode::InvalidRequest;
    let none = "invalid request: leaf_count is 0";
    let stale = "stale compact target: target is no longer current";
    let other = Message::GetSyncTargetRequest(GetSyncTargetRequest { request_id: 3 });
    assert!(rt; refuses(rt.alloc(), ask_state(ROOT, 0), invalid, none));
    assert!(rt;
        refuses(
            rt.alloc(),
            ask_state(ROOT, 2),
            ErrorCode::StaleTarget,
            stale
        )
    );
    assert!(rt;
        refuses(
            rt.alloc(),
            ask_state(TARGET, 3),
            ErrorCode::StaleTarget,
            stale
        )
    );
    assert!(rt; refuses(rt.alloc(), other, invalid, "unexpected message type"));
}
