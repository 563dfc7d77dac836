//! A weak digest, under which tests find collisions.
ghost use Rattle.std.specs.Prelude.{◌≡◌, ◌%◌, sum};

use crate::Hasher;
use ledger_codec::Digest;

/// A digest for tests: 30 zero bytes, then the sum of all bytes modulo 65,536, high byte first.
#[derive(Drop)]
pub struct Toy {
    total: u16,
}

impl Hasher for Toy {
    ghost use Rattle.ledger_merkle.specs.Digests.{toy_digest, toy_length};

    ghost digest = { toy_digest };

    ghost fed = { λ s m. s.total ≡ sum m % 65536 };

    fn new() -> Toy {
        Toy { total: 0 }
    }

    fn update(&mut self, bytes: &[u8]) {
        let mut total = self.total;
        for byte in bytes {
            total = total.wrapping_add(*byte as u16);
        }
        self.total = total;
    }

    #[tactic(auto, unfolding(crate::specs::Digests::toy_digest))]
    fn finish(self) -> Digest {
        let mut digest = [0; 32];
        let [high, low] = self.total.to_be_bytes();
        digest[30] = high;
        digest[31] = low;
        digest
    }

    ghost digest_length = { toy_length };
}
