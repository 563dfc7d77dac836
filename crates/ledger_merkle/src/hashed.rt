//! The three kinds of digest: of a leaf, of a node, of a root.
ghost use Rattle.std.specs.Prelude.{◌≡◌};
ghost use Rattle.ledger_merkle.specs.Tree.{leaf, node, root};

use crate::{Hasher, Leaf, Location};
use ledger_codec::Digest;

/// The digest of this item as the leaf at this place: a log pushes one for each operation.
pub fn hash_item<H: Hasher, T: Leaf>(at: Location, item: &T) -> Digest
    ensures { result ≡ leaf H.digest at (T.spelling item.now) }
{
    let mut bytes = [0; 96];
    let len = item.leaf_bytes(&mut bytes);
    hash_leaf::<H>(at, &bytes[..len])
}

/// The digest of the leaf at this place with these bytes: a zero byte, the place in eight bytes, the bytes.
#[tactic(auto, unfolding(crate::specs::Tree::leaf, crate::specs::Tree::be64))]
pub fn hash_leaf<H: Hasher>(at: Location, bytes: &[u8]) -> Digest
    ensures { result ≡ leaf H.digest at bytes.now }
{
    let mut hasher = H::new();
    hasher.update(&[0]);
    hasher.update(&at.get().to_be_bytes());
    hasher.update(bytes);
    hasher.finish()
}

/// The digest of a node over the digests of its two halves, behind a byte 1.
#[tactic(auto, unfolding(crate::specs::Tree::node))]
pub fn hash_node<H: Hasher>(left: &Digest, right: &Digest) -> Digest
    ensures { result ≡ node H.digest left.now right.now }
{
    let mut hasher = H::new();
    hasher.update(&[1]);
    hasher.update(left);
    hasher.update(right);
    hasher.finish()
}

/// The root of `size` leaves with these peaks: a byte 2, the size in eight bytes, the peaks from left to right.
#[tactic(auto, unfolding(crate::specs::Tree::root, crate::specs::Tree::be64))]
pub fn hash_root<H: Hasher>(size: Location, peaks: &[Digest]) -> Digest
    ensures { result ≡ root H.digest size peaks.now }
{
    let mut hasher = H::new();
    hasher.update(&[2]);
    hasher.update(&size.get().to_be_bytes());
    for peak in peaks {
        hasher.update(peak);
    }
    hasher.finish()
}
