//! Promises of following, kept. Roots and inputs are those of vectors/promises.py.

mod binding;
mod failing;
mod forged;
mod four;
mod later;
mod peer;
mod program;
mod runs;
mod vectors;

use ledger_codec::Digest;
use ledger_log::Target;
use ledger_merkle::Location;

/// The digest of 64 hexadecimal digits.
fn digest_of(text: &str) -> Option<Digest> {
    let mut digest = [0; 32];
    hex::decode_to_slice(text, &mut digest).ok()?;
    Some(digest)
}

/// The target of the first operations up to `end` with this root.
fn target(root: &str, end: u64) -> Option<Target> {
    Target::new(digest_of(root)?, Location::ZERO, Location::new(end)?)
}
