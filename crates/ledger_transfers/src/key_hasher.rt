//! Std's hasher, fed by many bytes at a time.
//!
//! ```text
//!   a key's bytes, one by one ─▶ bytes[0..filled] ── 32 of them, or the rest ─▶ inner
//! ```
ghost use Rattle.std.specs.Prelude.{◌≡◌};
ghost use Rattle.std.specs.Hash.DefaultHasher.{write as written, write_byte as with_byte, finish as hash_of};

use std::hash::{DefaultHasher, Hasher};
use std::marker::Model;

/// Std's hasher, which keeps bytes back until there are 32: an array writes each of its bytes alone, and single
/// bytes take std's hasher several times as long as whole words. The hashes are the same, and contracts see std's
/// hasher as it is after all bytes.
#[derive(Drop)]
pub struct KeyHasher {
    inner: DefaultHasher,
    bytes: [u8; 32],
    /// How many of the bytes are kept back.
    filled: usize,
}

impl Model for KeyHasher {
    ghost use Rattle.std.specs.Prelude.{◌<◌, take};
    ghost use Rattle.std.specs.Hash.DefaultHasher.{write as written};
    ghost use Rattle.std.specs.declared.hash.DefaultHasher.{DefaultHasher as Hashes};

    ghost Value = { Hashes };

    ghost view = { λ h. written h.inner (take h.filled h.bytes) };

    ghost invariant = { λ h. h.filled < 32 };
}

impl KeyHasher {
    /// Goes on where a hasher stands.
    pub(crate) fn new(inner: DefaultHasher) -> KeyHasher
        ensures { result ≡ inner }
    {
        KeyHasher {
            inner,
            bytes: [0; 32],
            filled: 0,
        }
    }

    /// One byte more.
    fn write_byte(&mut self, byte: u8)
        ensures { self.new ≡ with_byte self.old byte }
    {
        self.bytes[self.filled] = byte;
        self.filled += 1;
        if self.filled == 32 {
            self.inner.write(&self.bytes[..]);
            self.filled = 0;
        }
    }
}

impl Hasher for KeyHasher {
    ghost write = { written };

    ghost finish = { hash_of };

    fn finish(&self) -> u64 {
        let mut whole = self.inner;
        whole.write(&self.bytes[..self.filled]);
        whole.finish()
    }

    fn write(&mut self, bytes: &[u8]) {
        for byte in bytes {
            self.write_byte(*byte);
        }
    }

    fn write_u8(&mut self, byte: u8) {
        self.write_byte(byte);
    }
}
