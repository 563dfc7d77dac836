//! Worked sessions. The expected digests are those of vectors/replies.py.

mod ends;
mod gates;
mod kept;
mod promises;
mod shared;
mod spawned;
mod started;

use ledger_codec::Digest;
use ledger_log::{AnyFamily, AnyOp, Log};
use ledger_merkle::{Hasher, Location, Sha256Hasher};
use std::alloc::Global;

/// The SHA-256 of these bytes.
fn digest_of(bytes: &[u8]) -> Digest {
    let mut hasher = Sha256Hasher::new();
    hasher.update(bytes);
    hasher.finish()
}

/// Whether this was sent.
fn is_sent(found: &Option<Digest>, wanted: &Digest) -> bool {
    match found {
        Some(digest) => *digest == *wanted,
        None => false,
    }
}

/// The log of a commit, an update and a commit.
fn three(alloc: Global) -> Option<Log<AnyFamily, Sha256Hasher>> {
    let mut log = Log::fresh(alloc).ok()?;
    let batch = [
        AnyOp::Update([7; 32], [9; 32]),
        AnyOp::CommitFloor(None, Location::ZERO),
    ];
    log.append_batch(&batch).ok()?;
    Some(log)
}
