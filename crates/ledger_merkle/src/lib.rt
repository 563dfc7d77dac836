//! Merkle trees over an append-only list of leaves.
//!
//! The leaves of a list stand in perfect subtrees, one for each binary digit of their number, greatest
//! first. The digests of these subtrees are the list's *peaks*, and its root is a digest over them and
//! the number of leaves. A list may drop its beginning: it keeps the peaks at its front, the *pinned
//! nodes*, and still proves any range from the front on to somebody who knows a root alone.
//!
//! ```text
//! item --hash_item--> leaf digest --push--> MerkleList or Peaks --root--> root
//!                                               |
//!                                               +--proof--> Proof --check_range(root, items)--> Ok
//! ```
//!
//! The bytes that are hashed and the order of a proof's digests are those of docs/FORMATS.md.
#![tactic(auto)]

mod binding;
mod hashed;
mod hasher;
mod leaf;
mod level;
mod location;
mod merkle_list;
mod peaks;
mod plain;
mod proof;
mod range;
mod retained;
mod sha;
mod spelling;
mod spine;
mod toy;

pub use binding::collision;
pub use hashed::{hash_item, hash_leaf, hash_node, hash_root};
pub use hasher::Hasher;
pub use leaf::Leaf;
pub use location::{Location, MAX_LEAVES};
pub use merkle_list::MerkleList;
pub use peaks::Peaks;
pub use plain::plain_digests;
pub use proof::{Part, Proof};
pub use range::{RangeFault, check_range};
pub use retained::Retained;
pub use sha::Sha256Hasher;
pub use toy::Toy;
