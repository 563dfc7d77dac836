//! The list with a front: one digest is kept for each whole node from the front on, so that nothing is
//! ever hashed twice.
ghost use Rattle.std.specs.Prelude.{◌≡◌, ◌≢◌, ℕ, ◌+◌, ◌-◌, ◌*◌, ◌/◌, ◌<◌, ◌≤◌, ◌^◌, ◌∷◌, ◌++◌, ◌↔◌, List as Items, [], length, get_or, take, drop, reverse, count_ones, MatchOption, OnOk, OnErr, IfOk, IsTrue, map};
ghost use Rattle.ledger_merkle.specs.Tree.{root};
ghost use Rattle.ledger_merkle.specs.Range.{RangeOk, is_outside};
ghost use Rattle.ledger_merkle.specs.Leaves.{ListView, leaves_from, list_size, list_root, peaks_at, root_at};
ghost use Rattle.ledger_merkle.specs.Levels.{nodes, tree, outside_of, proof_digests, KeptFrom};

use crate::hashed::hash_item;
use crate::level::{Level, add, cut_levels, length_of, skip_levels};
use crate::range::width_of;
use crate::{Hasher, Leaf, Location, Proof};
use ledger_codec::{Digest, List, OutOfMemory};
use std::alloc::Global;
use std::marker::{Model, PhantomData};

/// A list of leaves from a front on, with the peaks before it. Contracts see the digests of the leaves.
///
/// Level h keeps the nodes of height h from the one at or over the front on, as far as they are whole.
/// Of what lies before the front no proof and no root needs more than the pinned nodes.
#[derive(Drop)]
pub struct MerkleList<H: Hasher> {
    alloc: Global,
    front: Location,
    pinned: Vec<Digest>,
    levels: Vec<Level>,
    hasher: PhantomData<H>,
}

impl<H: Hasher> Model for MerkleList<H> {
    ghost use Rattle.std.specs.Prelude.{◌≡◌, ◌≤◌, ◌^◌, ◌+◌, ℕ, [], length, get_or, reverse, count_ones};
    ghost use Rattle.ledger_merkle.specs.Leaves.{ListView};
    ghost use Rattle.ledger_merkle.specs.Levels.{nodes};

    ghost Value = { ListView };

    ghost view = { λ m. record { front = m.front; pinned = m.pinned.items; leaves = get_or m.levels.items 0 [] } };

    ghost invariant = { λ m. (length m.pinned.items ≡ count_ones m.front) × (m.front + length (get_or m.levels.items 0 []) ≤ 2 ^ 62) × ((h : ℕ) → get_or m.levels.items h [] ≡ nodes H.digest (reverse m.pinned.items) m.front (get_or m.levels.items 0 []) h) };
}

impl<H: Hasher> MerkleList<H> {
    /// No leaves.
    pub fn new(alloc: Global) -> MerkleList<H>
        ensures { result ≡ record { front = 0; pinned = []; leaves = [] } }
    {
        MerkleList {
            alloc,
            front: Location::ZERO,
            pinned: Vec::new(alloc),
            levels: Vec::new(alloc),
            hasher: PhantomData,
        }
    }

    /// A list of `front` leaves, none of them retained. None exactly where there aren't as many nodes as the
    /// front has binary ones.
    pub fn from_parts(alloc: Global, front: Location, pinned: Vec<Digest>) -> Option<MerkleList<H>>
        ensures { MatchOption result (length pinned.items ≢ count_ones front)
            (λ m. (length pinned.items ≡ count_ones front)
            × (m ≡ record { front = front; pinned = pinned.items; leaves = [] })) }
    {
        if pinned.len() == front.get().count_ones() as usize {
            Some(MerkleList {
                alloc,
                front,
                pinned,
                levels: Vec::new(alloc),
                hasher: PhantomData,
            })
        } else {
            None
        }
    }

    /// The first retained place.
    pub fn front(&self) -> Location
        ensures front { result ≡ self.now.front }
        ensures pins { length self.now.pinned ≡ count_ones self.now.front }
    {
        self.front
    }

    /// The number of leaves.
    pub fn size(&self) -> Location
        ensures size { result ≡ list_size self.now }
        ensures most { list_size self.now ≤ 2 ^ 62 }
    {
        let count = length_of(self.levels.as_slice(), 0);
        self.front.plus(count as u64)
    }

    /// Tests the conditions of [`MerkleList::proof`].
    pub fn has_range(&self, op_count: Location, start: Location, count: u64) -> bool
        ensures { IsTrue result ↔ ((1 ≤ count) × (self.now.front ≤ start) × (start + count ≤ op_count)
            × (op_count ≤ list_size self.now)) }
    {
        let start = start.get();
        let end = op_count.get();
        1 <= count
            && self.front.get() <= start
            && start <= end
            && count <= end - start
            && end <= self.size().get()
    }

    /// One leaf more, by its digest.
    pub fn push(&mut self, leaf: Digest) -> Result<(), OutOfMemory>
        requires { list_size self.old < 2 ^ 62 }
        ensures ok { OnOk result
            (self.new
            ≡
            record { front = self.old.front; pinned = self.old.pinned; leaves = self.old.leaves ++ leaf ∷ [] }) }
        ensures err { OnErr result (self.new ≡ self.old) }
    {
        let front = self.front.get();
        let count = front + length_of(self.levels.as_slice(), 0) as u64;
        add::<H>(
            self.alloc,
            &mut self.levels,
            self.pinned.as_slice(),
            front,
            count,
            0,
            leaf,
        )?;
        Ok(())
    }

    /// The items as leaves more, in order: all of them or, where memory is refused, none.
    pub fn extend<T: Leaf>(&mut self, items: &[T]) -> Result<(), OutOfMemory>
        requires { list_size self.old + length items.now ≤ 2 ^ 62 }
        ensures ok { OnOk result
            (self.new
            ≡
            record { front = self.old.front; pinned = self.old.pinned; leaves = self.old.leaves ++ leaves_from H.digest (list_size self.old) (map T.spelling items.now) }) }
        ensures err { OnErr result (self.new ≡ self.old) }
    {
        let size = self.size();
        match self.push_items(items) {
            Ok(()) => Ok(()),
            Err(fault) => {
                self.shorten(size);
                Err(fault)
            }
        }
    }

    /// Pushes the items one by one, as far as memory lasts.
    fn push_items<T: Leaf>(&mut self, items: &[T]) -> Result<(), OutOfMemory>
        requires { list_size self.old + length items.now ≤ 2 ^ 62 }
        ensures ok { OnOk result
            (self.new
            ≡
            record { front = self.old.front; pinned = self.old.pinned; leaves = self.old.leaves ++ leaves_from H.digest (list_size self.old) (map T.spelling items.now) }) }
        ensures some { OnErr result ((self.new.front ≡ self.old.front) × (self.new.pinned ≡ self.old.pinned)
            × (take (length self.old.leaves) self.new.leaves ≡ self.old.leaves)
            × (length self.old.leaves ≤ length self.new.leaves)) }
    {
        for item in items {
            let digest = hash_item::<H, T>(self.size(), item);
            self.push(digest)?;
        }
        Ok(())
    }

    /// The first `size` leaves alone.
    pub fn shorten(&mut self, size: Location)
        requires least { self.old.front ≤ size }
        requires most { size ≤ list_size self.old }
        ensures { self.new
            ≡
            record { front = self.old.front; pinned = self.old.pinned; leaves = take (size - self.old.front) self.old.leaves } }
    {
        cut_levels(&mut self.levels, self.front.get(), size.get());
    }

    /// The node of this height with this index, kept or pinned.
    fn node_at(&self, height: u32, index: u64) -> Digest
        requires high { height ≤ 62 }
        requires whole { (index + 1) * 2 ^ height ≤ list_size self.now }
        requires known { self.now.front / 2 ^ height / 2 ≤ index / 2 }
        ensures { result ≡ tree H.digest (reverse self.now.pinned) self.now.front self.now.leaves height
            (index * 2 ^ height) }
    {
        let first = self.front.get() / width_of(height);
        if first <= index {
            self.levels[height as usize].at((index - first) as usize)
        } else {
            self.pinned[(first / 2).count_ones() as usize]
        }
    }

    /// The peaks of the first `loc` leaves: the pinned nodes of a list that begins there.
    pub fn pinned(&self, loc: Location) -> Result<Vec<Digest>, OutOfMemory>
        requires least { self.now.front ≤ loc }
        requires most { loc ≤ list_size self.now }
        ensures peaks { IfOk result (λ peaks. peaks.items ≡ peaks_at H.digest self.now loc) }
        ensures count { IfOk result (λ peaks. length peaks.items ≡ count_ones loc) }
    {
        let size = loc.get();
        let mut peaks = Vec::new(self.alloc);
        let mut height = 63;
        while height > 0 {
            height -= 1;
            let index = index_of(size, height);
            if index % 2 == 1 {
                let peak = self.node_at(height, index - 1);
                peaks.push(peak)?;
            }
        }
        Ok(peaks)
    }

    /// The root over all leaves. It takes no memory.
    pub fn root(&self) -> Digest
        ensures all { result ≡ list_root H.digest self.now }
        ensures at_size { result ≡ root_at H.digest self.now (list_size self.now) }
    {
        let _front = &self.front;
        let size = self.size().get();
        let mut hasher = H::new();
        hasher.update(&[2]);
        hasher.update(&size.to_be_bytes());
        let mut height = 63;
        while height > 0 {
            height -= 1;
            let index = index_of(size, height);
            if index % 2 == 1 {
                let peak = self.node_at(height, index - 1);
                hasher.update(&peak);
            }
        }
        hasher.finish()
    }

    /// The proof of `count` leaves from `start` on in the tree of the first `op_count` leaves. It hashes
    /// nothing: each digest of a proof is one that is kept.
    pub fn proof(
        &self,
        op_count: Location,
        start: Location,
        count: u64,
    ) -> Result<Proof, OutOfMemory>
        requires some { 1 ≤ count }
        requires least { self.now.front ≤ start }
        requires within { start + count ≤ op_count }
        requires most { op_count ≤ list_size self.now }
        ensures exact { IfOk result
            (λ proof. proof
            ≡
            record { leaves = op_count; inactive_peaks = 0; digests = proof_digests H.digest self.now op_count start count }) }
        ensures holds { IfOk result (λ proof. (items : Items (Items ℕ))
            → leaves_from H.digest start items ≡ take count (drop (start - self.now.front) self.now.leaves)
            → RangeOk H.digest (root_at H.digest self.now op_count) proof.leaves proof.inactive_peaks
            proof.digests op_count start items) }
        ensures last { IfOk result (λ proof. count ≡ 1 → start + 1 ≡ op_count
            → proof.digests ≡ peaks_at H.digest self.now start) }
    {
        let size = op_count.get();
        let end = start.get() + count;
        let mut digests = Vec::new(self.alloc);
        let mut height = 63;
        while height > 0 {
            height -= 1;
            let index = index_of(size, height);
            if index % 2 == 1 {
                self.add_outside(&mut digests, start.get(), end, height, index - 1)?;
            }
        }
        Ok(Proof {
            leaves: op_count,
            inactive_peaks: 0,
            digests: List::from_vec(digests),
        })
    }

    /// Appends the digests that prove a range within the subtree of this height with this index.
    fn add_outside(
        &self,
        digests: &mut Vec<Digest>,
        start: u64,
        end: u64,
        height: u32,
        index: u64,
    ) -> Result<(), OutOfMemory>
        requires high { height ≤ 62 }
        requires whole { (index + 1) * 2 ^ height ≤ list_size self.now }
        requires known { self.now.front / 2 ^ height / 2 ≤ index / 2 }
        requires least { self.now.front ≤ start }
        ensures { IfOk result (λ _. digests.new.items ≡ digests.old.items
            ++ outside_of (tree H.digest (reverse self.now.pinned) self.now.front self.now.leaves) start end
            height (index * 2 ^ height)) }
    {
        let _front = &self.front;
        let at = place_of(height, index);
        if lies_outside(start, end, height, at) {
            let node = self.node_at(height, index);
            digests.push(node)?;
            return Ok(());
        }
        if lies_within(start, end, height, at) {
            return Ok(());
        }
        let below = height - 1;
        self.add_outside(digests, start, end, below, 2 * index)?;
        self.add_outside(digests, start, end, below, 2 * index + 1)?;
        Ok(())
    }

    /// The list without the leaves before `loc`.
    pub fn prune(&mut self, loc: Location) -> Result<(), OutOfMemory>
        requires least { self.old.front ≤ loc }
        requires most { loc ≤ list_size self.old }
        ensures ok { OnOk result
            (self.new
            ≡
            record { front = loc; pinned = peaks_at H.digest self.old loc; leaves = drop (loc - self.old.front) self.old.leaves }) }
        ensures size { list_size self.new ≡ list_size self.old }
        ensures root { list_root H.digest self.new ≡ list_root H.digest self.old }
        ensures kept { OnOk result (KeptFrom H.digest loc self.old self.new) }
        ensures err { OnErr result (self.new ≡ self.old) }
    {
        let pinned = self.pinned(loc)?;
        skip_levels(&mut self.levels, self.front.get(), loc.get());
        self.pinned = pinned;
        self.front = loc;
        Ok(())
    }

    /// An equal list.
    pub fn copy(&self) -> Result<MerkleList<H>, OutOfMemory>
        ensures { IfOk result (λ m. m ≡ self.now) }
    {
        let mut levels = Vec::new(self.alloc);
        for level in &self.levels {
            levels.push(level.copy()?)?;
        }
        Ok(MerkleList {
            alloc: self.alloc,
            front: self.front,
            pinned: Vec::from_slice(self.alloc, self.pinned.as_slice())?,
            levels,
            hasher: PhantomData,
        })
    }
}

/// How many whole nodes of this height the first `size` leaves have.
pub(crate) fn index_of(size: u64, height: u32) -> u64
    requires { height ≤ 62 }
    ensures { result ≡ size / 2 ^ height }
{
    size / width_of(height)
}

/// Where the node of this height with this index begins.
pub(crate) fn place_of(height: u32, index: u64) -> u64
    requires high { height ≤ 62 }
    requires whole { (index + 1) * 2 ^ height ≤ 2 ^ 62 }
    ensures place { result ≡ index * 2 ^ height }
    ensures room { result + 2 ^ height ≤ 2 ^ 62 }
{
    index * width_of(height)
}

/// No leaf of the subtree is in the range.
pub(crate) fn lies_outside(start: u64, end: u64, height: u32, at: u64) -> bool
    requires high { height ≤ 62 }
    requires room { at + 2 ^ height ≤ 2 ^ 62 }
    ensures { result ≡ is_outside start end height at }
{
    let width = width_of(height);
    at + width <= start || end <= at
}

/// All leaves of the subtree are in the range.
fn lies_within(start: u64, end: u64, height: u32, at: u64) -> bool
    requires high { height ≤ 62 }
    requires room { at + 2 ^ height ≤ 2 ^ 62 }
    ensures { IsTrue result ↔ ((start ≤ at) × (at + 2 ^ height ≤ end)) }
{
    let width = width_of(height);
    start <= at && at + width <= end
}
