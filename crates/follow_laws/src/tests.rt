//! Each law at concrete types, and worked rows. Roots are those of vectors/rows.py.

mod cuts;
mod ends;
mod rows;

use ledger_codec::Digest;
use ledger_log::{AnyFamily, AnyOp, Key, Log};
use ledger_managed::AccountValue;
use ledger_merkle::{Location, Sha256Hasher};
use ledger_transfers::Sequenced;
use std::alloc::Global;

/// A name as a key, filled with zero bytes.
fn named(name: &[u8]) -> Key {
    let mut key = [0; 32];
    for (place, byte) in key.iter_mut().zip(name) {
        *place = *byte;
    }
    key
}

/// The digest of 64 hexadecimal digits.
fn digest_of(text: &str) -> Option<Digest> {
    let mut digest = [0; 32];
    hex::decode_to_slice(text, &mut digest).ok()?;
    Some(digest)
}

/// A commit, alice with 10, and a commit.
fn opened(alloc: Global) -> Option<Log<AnyFamily, Sha256Hasher>> {
    let alice = Sequenced {
        balance: 10,
        nonce: 0,
    };
    let ops = [
        AnyOp::CommitFloor(None, Location::ZERO),
        AnyOp::Update(named(b"alice"), alice.to_value()),
        AnyOp::CommitFloor(None, Location::ZERO),
    ];
    let ops = Vec::from_slice(alloc, &ops).ok()?;
    Log::from_parts(alloc, Vec::new(alloc), Location::ZERO, ops).ok()
}
