//! The peaks alone.
ghost use Rattle.std.specs.Prelude.{◌≡◌, ◌≢◌, ◌+◌, ◌<◌, ◌≤◌, ◌^◌, ◌∷◌, ◌++◌, [], length, take, count_ones, MatchOption, OnOk, OnErr, IfOk, map, vec_len};
ghost use Rattle.ledger_merkle.specs.Tree.{root, push, grow};

use crate::hashed::{hash_item, hash_node, hash_root};
use crate::{Hasher, Leaf, Location};
use ledger_codec::{Digest, OutOfMemory};
use std::alloc::Global;
use std::marker::{Model, PhantomData};

/// The peaks of a number of leaves: all that is needed to know their root and to go on.
#[derive(Drop)]
pub struct Peaks<H: Hasher> {
    alloc: Global,
    size: Location,
    nodes: Vec<Digest>,
    hasher: PhantomData<H>,
}

impl<H: Hasher> Model for Peaks<H> {
    ghost use Rattle.std.specs.Prelude.{◌≡◌, length, count_ones};
    ghost use Rattle.ledger_merkle.specs.Views.{PeaksView};

    ghost Value = { PeaksView };

    ghost view = { λ p. record { size = p.size; nodes = p.nodes.items } };

    ghost invariant = { λ p. length p.nodes.items ≡ count_ones p.size };
}

impl<H: Hasher> Peaks<H> {
    /// The peaks of no leaves.
    pub fn new(alloc: Global) -> Peaks<H>
        ensures { (result.size ≡ 0) × (result.nodes ≡ []) }
    {
        Peaks {
            alloc,
            size: Location::ZERO,
            nodes: Vec::new(alloc),
            hasher: PhantomData,
        }
    }

    /// These peaks of this number of leaves, None exactly where there aren't as many as the size has binary ones.
    pub fn from_parts(alloc: Global, size: Location, nodes: Vec<Digest>) -> Option<Peaks<H>>
        ensures { MatchOption result (length nodes.items ≢ count_ones size)
            (λ p. (p.size ≡ size) × (p.nodes ≡ nodes.items)) }
    {
        if nodes.len() == size.get().count_ones() as usize {
            Some(Peaks {
                alloc,
                size,
                nodes,
                hasher: PhantomData,
            })
        } else {
            None
        }
    }

    /// The number of leaves.
    pub fn size(&self) -> Location
        ensures { result ≡ self.now.size }
    {
        self.size
    }

    /// The peaks from left to right, greatest first.
    pub fn nodes(&self) -> &[Digest]
        ensures { result.now ≡ self.now.nodes }
    {
        self.nodes.as_slice()
    }

    /// The root of the leaves. It takes no memory.
    pub fn root(&self) -> Digest
        ensures { result ≡ root H.digest self.now.size self.now.nodes }
    {
        hash_root::<H>(self.size, self.nodes.as_slice())
    }

    /// Equal peaks.
    pub fn copy(&self) -> Result<Peaks<H>, OutOfMemory>
        ensures { IfOk result (λ p. p ≡ self.now) }
    {
        Ok(Peaks {
            alloc: self.alloc,
            size: self.size,
            nodes: Vec::from_slice(self.alloc, self.nodes.as_slice())?,
            hasher: PhantomData,
        })
    }

    /// The peaks after these items as leaves: whoever must lose nothing extends a copy.
    pub fn extended<T: Leaf>(self, items: &[T]) -> Result<Peaks<H>, OutOfMemory>
        requires { self.size + length items.now ≤ 2 ^ 62 }
        ensures size { IfOk result (λ p. p.size ≡ self.size + length items.now) }
        ensures nodes { IfOk result (λ p. p.nodes ≡ grow H.digest self.size self.nodes
            (map T.spelling items.now)) }
    {
        let mut peaks = self;
        for item in items {
            let digest = hash_item::<H, T>(peaks.size(), item);
            peaks.push(digest)?;
        }
        Ok(peaks)
    }

    /// One leaf more, by its digest. A refusal leaves the peaks as they were.
    pub fn push(&mut self, leaf: Digest) -> Result<(), OutOfMemory>
        requires { self.old.size < 2 ^ 62 }
        ensures ok { OnOk result ((self.new.size ≡ self.old.size + 1)
            × (self.new.nodes ≡ push H.digest self.old.size self.old.nodes leaf)) }
        ensures err { OnErr result (self.new ≡ self.old) }
    {
        let (kept, peak) = joined::<H>(self.size, self.nodes.as_slice(), leaf);
        replace_tail(&mut self.nodes, kept, peak)?;
        self.size = self.size.plus(1);
        Ok(())
    }
}

/// How many peaks stay as they are under a new leaf, and the peak behind them.
fn joined<H: Hasher>(size: Location, nodes: &[Digest], leaf: Digest) -> (usize, Digest)
    ensures within { result.0 ≤ length nodes.now }
    ensures peaks { push H.digest size nodes.now leaf ≡ take result.0 nodes.now ++ result.1 ∷ [] }
{
    let mut kept = nodes.len();
    let mut peak = leaf;
    let mut rest = size.get();
    while kept > 0 && rest % 2 == 1 {
        kept -= 1;
        peak = hash_node::<H>(&nodes[kept], &peak);
        rest /= 2;
    }
    (kept, peak)
}

/// Puts the peak in place of all behind the first `kept`. Memory is asked for only where all are kept.
fn replace_tail(nodes: &mut Vec<Digest>, kept: usize, peak: Digest) -> Result<(), OutOfMemory>
    requires { kept ≤ vec_len nodes.old }
    ensures ok { OnOk result (nodes.new.items ≡ take kept nodes.old.items ++ peak ∷ []) }
    ensures err { OnErr result (nodes.new.items ≡ nodes.old.items) }
{
    if kept == nodes.len() {
        nodes.push(peak)?;
    } else {
        nodes.truncate(kept + 1);
        nodes[kept] = peak;
    }
    Ok(())
}
