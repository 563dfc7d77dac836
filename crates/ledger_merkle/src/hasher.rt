//! What a digest function is.
ghost use Rattle.std.specs.Prelude.{◌≡◌, ℕ, ◌++◌, List, [], length};

use ledger_codec::Digest;

/// A function from bytes to digests, computed piece by piece.
pub trait Hasher {
    // The digest of a list of bytes.
    ghost digest: { List ℕ → List ℕ };

    // The hasher was fed these bytes, in order.
    ghost fed: { Self → List ℕ → Type 0 };

    /// A hasher that was fed nothing.
    fn new() -> Self
        ensures { fed result [] };

    /// Feeds the bytes.
    fn update(&mut self, bytes: &[u8])
        ensures { (m : List ℕ) → fed self.old m → fed self.new (m ++ bytes.now) };

    /// The digest of all bytes that were fed, in order.
    fn finish(self) -> Digest
        ensures { (m : List ℕ) → fed self m → result ≡ digest m };

    // A digest has 32 bytes.
    ghost digest_length: { (m : List ℕ) → length (digest m) ≡ 32 };
}
