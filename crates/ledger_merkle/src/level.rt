//! The nodes of one height, and how a new leaf goes up through all of them.
ghost use Rattle.std.specs.Prelude.{◌≡◌, ℕ, ◌+◌, ◌-◌, ◌/◌, ◌%◌, ◌^◌, ◌<◌, ◌≤◌, ◌++◌, ◌∷◌, [], length, get_or, set, take, drop, reverse, count_ones, OnOk, OnErr, IfOk};
ghost use Rattle.ledger_merkle.specs.Levels.{nodes};

use crate::hashed::hash_node;
use crate::{Hasher, Retained};
use ledger_codec::{Digest, OutOfMemory};
use std::alloc::Global;
use std::marker::Model;

/// Nodes of one height, from left to right.
#[derive(Drop)]
pub struct Level {
    nodes: Retained<Digest>,
}

impl Model for Level {
    ghost use Rattle.std.specs.Prelude.{ℕ, List};

    ghost Value = { List (List ℕ) };

    ghost view = { λ l. l.nodes };
}

impl Level {
    /// No nodes.
    pub fn new(alloc: Global) -> Level
        ensures { result ≡ [] }
    {
        Level {
            nodes: Retained::from_vec(alloc, Vec::new(alloc)),
        }
    }

    /// How many there are.
    pub fn len(&self) -> usize
        ensures { result ≡ length self.now }
    {
        self.nodes.len()
    }

    /// The node at this index.
    pub fn at(&self, index: usize) -> Digest
        requires { index < length self.now }
        ensures { result ≡ get_or self.now index [] }
    {
        self.nodes.as_slice()[index]
    }

    /// One node more.
    pub fn push(&mut self, node: Digest) -> Result<(), OutOfMemory>
        ensures ok { OnOk result (self.new ≡ self.old ++ node ∷ []) }
        ensures err { OnErr result (self.new ≡ self.old) }
    {
        self.nodes.push(node)
    }

    /// The first `len` nodes alone.
    pub fn shorten(&mut self, len: usize)
        ensures { self.new ≡ take len self.old }
    {
        self.nodes.truncate(len);
    }

    /// All but the first `count` nodes.
    pub fn skip(&mut self, count: usize)
        ensures { self.new ≡ drop count self.old }
    {
        self.nodes.skip(count);
    }

    /// Equal nodes.
    pub fn copy(&self) -> Result<Level, OutOfMemory>
        ensures { IfOk result (λ l. l ≡ self.now) }
    {
        Ok(Level {
            nodes: self.nodes.copy()?,
        })
    }
}

/// How many nodes are kept of this height.
pub fn length_of(levels: &[Level], height: usize) -> usize
    ensures { result ≡ length (get_or levels.now height []) }
{
    match levels.get(height) {
        Some(level) => level.len(),
        None => 0,
    }
}

/// The last of the nodes, or of the pinned ones where there are none.
fn last_of(level: &Level, pinned: &[Digest]) -> Digest
    requires { 0 < length level.now + length pinned.now }
    ensures node { (0 < length level.now) → result ≡ get_or level.now (length level.now - 1) [] }
    ensures pin { length level.now ≡ 0 → result ≡ get_or pinned.now (length pinned.now - 1) [] }
{
    if level.len() > 0 {
        level.at(level.len() - 1)
    } else {
        pinned[pinned.len() - 1]
    }
}

/// The pinned nodes above the lowest height.
fn rest_of(front: u64, pinned: &[Digest]) -> &[Digest]
    requires { length pinned.now ≡ count_ones front }
    ensures nodes { reverse result.now ≡ drop (front % 2) (reverse pinned.now) }
    ensures count { length result.now ≡ count_ones (front / 2) }
{
    if front % 2 == 1 {
        &pinned[..pinned.len() - 1]
    } else {
        pinned
    }
}

/// One node more at this height, behind `count` others, and what it completes above. `front` and `pinned`
/// are those of this height. After a refusal every level is as it was.
pub fn add<H: Hasher>(
    alloc: Global,
    levels: &mut Vec<Level>,
    pinned: &[Digest],
    front: u64,
    count: u64,
    height: usize,
    node: Digest,
) -> Result<(), OutOfMemory>
    requires there { height ≤ length levels.old.items }
    requires pins { length pinned.now ≡ count_ones front }
    requires count { count ≡ front + length (get_or levels.old.items height []) }
    requires rest { (i : ℕ) → get_or levels.old.items (height + i) []
        ≡ nodes H.digest (reverse pinned.now) front (get_or levels.old.items height []) i }
    ensures below { (i : ℕ) → i < height → get_or levels.new.items i [] ≡ get_or levels.old.items i [] }
    ensures ok { OnOk result ((i : ℕ) → get_or levels.new.items (height + i) []
        ≡ nodes H.digest (reverse pinned.now) front (get_or levels.old.items height [] ++ node ∷ []) i) }
    ensures err { OnErr result ((i : ℕ) → get_or levels.new.items i [] ≡ get_or levels.old.items i []) }
    ensures long { length levels.old.items ≤ length levels.new.items }
{
    room(alloc, levels, height)?;
    let kept = levels[height].len();
    if count % 2 == 0 {
        put(levels, height, node)?;
        return Ok(());
    }
    let last = last_of(&levels[height], pinned);
    put(levels, height, node)?;
    let above = hash_node::<H>(&last, &node);
    let rest = rest_of(front, pinned);
    match add::<H>(alloc, levels, rest, front / 2, count / 2, height + 1, above) {
        Ok(()) => Ok(()),
        Err(fault) => {
            cut(levels, height, kept);
            Err(fault)
        }
    }
}

/// Makes a level of this height where there is none.
fn room(alloc: Global, levels: &mut Vec<Level>, height: usize) -> Result<(), OutOfMemory>
    requires { height ≤ length levels.old.items }
    ensures same { (i : ℕ) → get_or levels.new.items i [] ≡ get_or levels.old.items i [] }
    ensures there { OnOk result (height < length levels.new.items) }
    ensures long { length levels.old.items ≤ length levels.new.items }
{
    if levels.len() == height {
        levels.push(Level::new(alloc))?;
    }
    Ok(())
}

/// One node more of this height.
fn put(levels: &mut Vec<Level>, height: usize, node: Digest) -> Result<(), OutOfMemory>
    requires { height < length levels.old.items }
    ensures ok { OnOk result (levels.new.items ≡ set levels.old.items height
        (get_or levels.old.items height [] ++ node ∷ [])) }
    ensures err { OnErr result (levels.new.items ≡ levels.old.items) }
{
    levels[height].push(node)
}

/// The first `kept` nodes of this height alone.
fn cut(levels: &mut Vec<Level>, height: usize, kept: usize)
    requires { height < length levels.old.items }
    ensures { levels.new.items ≡ set levels.old.items height
        (take kept (get_or levels.old.items height [])) }
{
    levels[height].shorten(kept);
}

/// Drops on each level the nodes before the one at or over the new front `loc`.
pub fn skip_levels(levels: &mut Vec<Level>, front: u64, loc: u64)
    requires { front ≤ loc }
    ensures { (h : ℕ) → get_or levels.new.items h []
        ≡ drop (loc / 2 ^ h - front / 2 ^ h) (get_or levels.old.items h []) }
{
    let mut first = front;
    let mut next = loc;
    for level in levels.iter_mut() {
        level.skip((next - first) as usize);
        first /= 2;
        next /= 2;
    }
}

/// Drops on each level the nodes that are whole only with leaves from `size` on.
pub fn cut_levels(levels: &mut Vec<Level>, front: u64, size: u64)
    requires { front ≤ size }
    ensures { (h : ℕ) → get_or levels.new.items h []
        ≡ take (size / 2 ^ h - front / 2 ^ h) (get_or levels.old.items h []) }
{
    let mut first = front;
    let mut next = size;
    for level in levels.iter_mut() {
        level.shorten((next - first) as usize);
        first /= 2;
        next /= 2;
    }
}
