//! How keys are hashed.

use crate::key_hasher::KeyHasher;
use std::hash::{BuildHasher, DefaultHasher, Hasher};
use std::random::RandomSource;

/// Hashes with a seed: each hash is std's over the seed and the key. A fresh seed keeps chosen keys from colliding;
/// docs/TABLES.md says which tables there are.
#[derive(Clone, Copy)]
pub struct Seeded {
    initial: DefaultHasher,
}

impl Seeded {
    pub fn new(seed: u64) -> Self {
        let mut initial = DefaultHasher::new();
        initial.write_u64(seed);
        Seeded { initial }
    }

    /// Hashes with a fresh seed, or with 0 where the source of random bytes gives none.
    pub fn fresh(rt: &impl RandomSource) -> Self {
        Seeded::new(fresh_seed(rt))
    }
}

impl BuildHasher for Seeded {
    type Hasher = KeyHasher;

    ghost build_hasher = { λ s. s.initial };

    fn build_hasher(&self) -> KeyHasher {
        KeyHasher::new(self.initial)
    }
}

/// A fresh seed, or 0 where the source of random bytes gives none.
pub(crate) fn fresh_seed(rt: &impl RandomSource) -> u64 {
    let mut bytes = [0; 8];
    match rt.fill_bytes(&mut bytes) {
        Ok(()) => u64::from_le_bytes(bytes),
        Err(_) => 0,
    }
}
