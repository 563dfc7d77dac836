//! Digests.

/// A digest of the ledger's hash: 32 bytes.
pub type Digest = [u8; 32];
