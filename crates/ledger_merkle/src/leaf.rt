//! What can stand at a leaf.
ghost use Rattle.std.specs.Prelude.{◌≡◌, ℕ, ◌≤◌, List, take, length};

/// What can stand at a leaf: an item with a spelling of at most 96 bytes.
pub trait Leaf {
    // The item's spelling.
    ghost spelling: { Self → List ℕ };

    // What is true of every value of the type, as that an array of 32 bytes has 32 of them.
    ghost sound: { Self → Type 0 };

    /// Writes the item's spelling into the first bytes of the buffer, and gives its length.
    fn leaf_bytes(&self, out: &mut [u8; 96]) -> usize
        ensures sound { sound self.now }
        ensures most { result ≤ 96 }
        ensures len { result ≡ length (spelling self.now) }
        ensures bytes { take result out.new ≡ spelling self.now };

    // Items with equal spellings are equal.
    ghost distinct: { (x y : Self) → sound x → sound y → spelling x ≡ spelling y → x ≡ y };
}

// Chunks of 32 bytes are leaves of their own.
impl Leaf for [u8; 32] {
    ghost spelling = { λ x. x };

    ghost sound = { λ x. length x ≡ 32 };

    fn leaf_bytes(&self, out: &mut [u8; 96]) -> usize {
        out[..32].copy_from_slice(self);
        32
    }

    ghost distinct = { λ x y _ _ e. e };
}
