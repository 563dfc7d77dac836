//! The leaf bytes of one operation: an item of a known size, so that one stands in an array.
ghost use Rattle.std.specs.Prelude.{◌≡◌, ◌<◌};
ghost use Rattle.ledger_compact.specs.Refusals.{proves_last};

use ledger_codec::Digest;
use ledger_merkle::{Hasher, Leaf, Location, Proof, check_range};
use std::marker::Model;

/// What an operation spells.
#[derive(Drop)]
pub(crate) struct Item {
    bytes: [u8; 96],
    count: usize,
}

impl Model for Item {
    ghost use Rattle.std.specs.Prelude.{ℕ, ◌≤◌, List, take};

    ghost Value = { List ℕ };

    ghost view = { λ item. take item.count item.bytes };

    ghost invariant = { λ item. item.count ≤ 96 };
}

impl Item {
    /// The item with an operation's spelling.
    pub(crate) fn of<T: Leaf>(op: &T) -> Item
        ensures { result ≡ T.spelling op.now }
    {
        let mut bytes = [0; 96];
        let count = op.leaf_bytes(&mut bytes);
        Item { bytes, count }
    }
}

impl Leaf for Item {
    ghost use Rattle.std.specs.Prelude.{◌≤◌, length};

    ghost spelling = { λ bytes. bytes };

    ghost sound = { λ bytes. length bytes ≤ 96 };

    fn leaf_bytes(&self, out: &mut [u8; 96]) -> usize {
        out.copy_from_slice(&self.bytes);
        self.count
    }

    ghost distinct = { λ _ _ _ _ same. same };
}

/// The operation is the last of the tree of this size with this root, by this proof. It takes no memory.
pub(crate) fn is_last<H: Hasher, T: Leaf>(
    root: &Digest,
    size: Location,
    op: &T,
    proof: &Proof,
) -> bool
    requires { 0 < size }
    ensures { result ≡ proves_last H.digest root.now size (T.spelling op.now) proof.now }
{
    let place = Location::ZERO.plus(size.get() - 1);
    let items = [Item::of(op)];
    check_range::<H, Item>(root, proof, size, place, &items).is_ok()
}
