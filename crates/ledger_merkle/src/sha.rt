//! SHA-256 as the digest of trees.
ghost use Rattle.sha2.specs.Sha256.{sha256};
ghost use Rattle.sha2.specs.Hashers.{Holds256};

use crate::Hasher;
use ledger_codec::Digest;
use sha2::{Digest as _, Sha256};

/// SHA-256.
#[derive(Drop)]
pub struct Sha256Hasher {
    state: Sha256,
}

impl Hasher for Sha256Hasher {
    ghost use Rattle.ledger_merkle.specs.Digests.{sha256_length};

    ghost digest = { sha256 };

    ghost fed = { λ s m. Holds256 s.state m };

    fn new() -> Sha256Hasher {
        Sha256Hasher {
            state: Sha256::new(),
        }
    }

    fn update(&mut self, bytes: &[u8]) {
        self.state.update(bytes);
    }

    fn finish(self) -> Digest {
        self.state.finalize()
    }

    ghost digest_length = { sha256_length };
}
