//! What is answered over a log of three operations.

use super::{digest_of, three};
use ledger_codec::{Digest, encode};
use ledger_log::{AnyOp, CompactTarget};
use ledger_merkle::Location;
use std::alloc::Global;
use std::num::NonZeroU64;
use sync_net::*;
use sync_server::*;

fn at(value: u64) -> Location {
    match Location::new(value) {
        Some(location) => location,
        None => Location::ZERO,
    }
}

/// Asks for at most so many operations from `start` on in the tree of the first `count`.
fn ask(number: u64, count: u64, start: u64, most: u64, pinned: bool) -> Message<AnyOp> {
    let max_ops = match NonZeroU64::new(most) {
        Some(most) => most,
        None => NonZeroU64::MIN,
    };
    Message::GetOperationsRequest(GetOperationsRequest {
        request_id: number,
        op_count: at(count),
        start_loc: at(start),
        max_ops,
        include_pinned_nodes: pinned,
    })
}

/// The digest of the reply's bytes.
fn replied(alloc: Global, message: Message<AnyOp>) -> Option<Digest> {
    let log = three(alloc)?;
    let Ok(reply) = FullMode::reply(alloc, &log, message) else {
        return None;
    };
    let bytes = encode(alloc, &reply).ok()?;
    Some(digest_of(&bytes))
}

/// Whether the reply to a message is a refusal with its number, this code and this text.
fn refuses(alloc: Global, message: Message<AnyOp>, code: ErrorCode, text: &str) -> bool {
    let number = message.request_id();
    let Some(log) = three(alloc) else {
        return false;
    };
    let Ok(Message::Error(refusal)) = FullMode::reply(alloc, &log, message) else {
        return false;
    };
    refusal.request_id == number && refusal.error_code == code && refusal.message.as_str() == text
}

#[test]
fn answers_with_operations(rt: HostRuntime) {
    let two = replied(rt.alloc(), ask(2, 3, 1, 2, false));
    assert_eq!(rt;
        two,
        Some([
            70, 61, 147, 245, 77, 234, 153, 182, 39, 69, 134, 113, 86, 134, 176, 217, 147, 204,
            125, 95, 13, 42, 217, 127, 141, 93, 114, 63, 234, 205, 75, 204,
        ])
    );
}

#[test]
fn answers_with_pinned_nodes(rt: HostRuntime) {
    let one = replied(rt.alloc(), ask(2, 3, 1, 1, true));
    assert_eq!(rt;
        one,
        Some([
            127, 222, 181, 233, 137, 250, 130, 72, 192, 92, 172, 229, 155, 40, 126, 181, 76, 245,
            81, 212, 253, 24, 94, 115, 63, 209, 240, 105, 8, 49, 216, 121,
        ])
    );
}

#[test]
fn answers_in_an_older_tree(rt: HostRuntime) {
    let older = replied(rt.alloc(), ask(3, 2, 0, 50, false));
    assert_eq!(rt;
        older,
        Some([
            128, 166, 160, 103, 111, 57, 168, 37, 60, 4, 36, 159, 194, 210, 50, 44, 20, 216, 27,
            195, 142, 181, 168, 248, 121, 180, 14, 21, 163, 53, 59, 138,
        ])
    );
}

#[test]
fn answers_with_the_target(rt: HostRuntime) {
    let request = Message::GetSyncTargetRequest(GetSyncTargetRequest { request_id: 1 });
    assert_eq!(rt;
        replied(rt.alloc(), request),
        Some([
            69, 146, 244, 56, 59, 190, 115, 29, 63, 83, 172, 165, 132, 119, 107, 230, 0, 96, 102,
            64, 59, 228, 40, 199, 84, 77, 96, 178, 182, 225, 59, 68,
        ])
    );
}

#[test]
fn refuses_empty_ranges(rt: HostRuntime) {
    assert!(rt;
        refuses(
            rt.alloc(),
            ask(5, 100, 150, 1, false),
            ErrorCode::InvalidRequest,
            "invalid request: start_loc >= size (150) >= (100)"
        )
    );
    assert!(rt;
        refuses(
            rt.alloc(),
            ask(0, 3, 3, 1, false),
            ErrorCode::InvalidRequest,
            "invalid request: start_loc >= size (3) >= (3)"
        )
    );
}

#[test]
fn refuses_ranges_behind_the_log(rt: HostRuntime) {
    assert!(rt;
        refuses(
            rt.alloc(),
            ask(6, 130, 3, 1, true),
            ErrorCode::InvalidRequest,
            "invalid request: start_loc (3) >= database size (3)"
        )
    );
}

#[test]
fn refuses_trees_that_are_not_there(rt: HostRuntime) {
    assert!(rt;
        refuses(
            rt.alloc(),
            ask(7, 130, 2, 1, false),
            ErrorCode::DatabaseError,
            "database operation failed"
        )
    );
}

#[test]
fn refuses_other_messages(rt: HostRuntime) {
    let request = Message::GetCompactTargetRequest(GetCompactTargetRequest { request_id: 8 });
    assert!(rt;
        refuses(
            rt.alloc(),
            request,
            ErrorCode::InvalidRequest,
            "unexpected message type"
        )
    );
}

#[test]
fn refuses_states(rt: HostRuntime) {
    let target = CompactTarget {
        root: [0; 32],
        leaf_count: at(3),
    };
    let request = Message::GetCompactStateRequest(GetCompactStateRequest {
        request_id: 9,
        target,
    });
    assert!(rt;
        refuses(
            rt.alloc(),
            request,
            ErrorCode::InvalidRequest,
            "unexpected message type"
        )
    );
}
