//! Messages that are written as they were read.

use ledger_codec::{Spell, decode, encode};
use ledger_log::KeylessOp;
use std::alloc::Global;
use std::test::*;
use sync_net::*;

/// Whether the bytes are read, and the value is written as these bytes.
fn comes_again<T: Spell + Drop>(alloc: Global, bytes: &[u8]) -> Option<bool>
    requires { (value : _) → T.fits value }
{
    let value = decode::<T>(alloc, bytes).ok()?;
    let again = encode(alloc, &value).ok()?;
    Some(again.as_slice() == bytes && value.size() == bytes.len())
}

#[test]
fn requests_for_targets(rt: HostRuntime) {
    let number = [0, 0, 0, 0, 0, 0, 1, 2];
    assert_eq!(rt;
        comes_again::<GetSyncTargetRequest>(rt.alloc(), &number),
        Some(true)
    );
    assert_eq!(rt;
        comes_again::<GetCompactTargetRequest>(rt.alloc(), &number),
        Some(true)
    );
}

// The number, a root and a size.
#[test]
fn compact_targets(rt: HostRuntime) {
    let mut bytes = [7; 41];
    bytes[40] = 5;
    assert_eq!(rt;
        comes_again::<GetCompactTargetResponse>(rt.alloc(), &bytes),
        Some(true)
    );
    assert_eq!(rt;
        comes_again::<GetCompactStateRequest>(rt.alloc(), &bytes),
        Some(true)
    );
}

// The number, a root, 2 and 300. An empty range is no target.
#[test]
fn sync_targets(rt: HostRuntime) {
    let mut bytes = [7; 43];
    bytes[40] = 2;
    bytes[41] = 0xac;
    bytes[42] = 0x02;
    assert_eq!(rt;
        comes_again::<GetSyncTargetResponse>(rt.alloc(), &bytes),
        Some(true)
    );
    assert_eq!(rt;
        comes_again::<GetSyncTargetResponse>(rt.alloc(), &bytes[..41]),
        None
    );
}

/// Whether the bytes are read as an error, and it is written as these bytes.
fn error_comes_again(alloc: Global, bytes: &[u8]) -> Option<bool> {
    let value = decode::<ErrorResponse>(alloc, bytes).ok()?;
    if value.message.as_str().len() > 10_485_760 {
        return None;
    }
    let again = encode(alloc, &value).ok()?;
    Some(again.as_slice() == bytes)
}

// The number, the code of a stale target, and a text of two bytes.
#[test]
fn errors(rt: HostRuntime) {
    let bytes = [0, 0, 0, 0, 0, 0, 1, 2, 3, 2, b'n', b'o'];
    assert_eq!(rt; error_comes_again(rt.alloc(), &bytes), Some(true));
}

/// Whether the bytes are read as operations without pinned nodes, and written as these bytes.
fn operations_come_again(alloc: Global, bytes: &[u8]) -> Option<bool> {
    let value = decode::<GetOperationsResponse<KeylessOp>>(alloc, bytes).ok()?;
    if value.proof.digests.as_slice().len() > 10_000 {
        return None;
    }
    if value.operations.as_slice().len() > 10_000 {
        return None;
    }
    match &value.pinned_nodes {
        Some(_) => None,
        None => {
            let again = encode(alloc, &value).ok()?;
            Some(again.as_slice() == bytes)
        }
    }
}

// The number, a proof in a tree of 3 leaves with one digest, one appended value, and no pinned nodes.
#[test]
fn answers_with_operations(rt: HostRuntime) {
    let mut bytes = [7; 78];
    bytes[..8].copy_from_slice(&[0, 0, 0, 0, 0, 0, 1, 2]);
    bytes[8..11].copy_from_slice(&[3, 0, 1]);
    bytes[43..45].copy_from_slice(&[1, 0]);
    bytes[77] = 0;
    assert_eq!(rt; operations_come_again(rt.alloc(), &bytes), Some(true));
}
