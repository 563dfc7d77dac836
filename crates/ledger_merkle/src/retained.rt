//! Items that are dropped from the front.
ghost use Rattle.std.specs.Prelude.{◌≡◌, ◌≤◌, ◌++◌, ◌∷◌, [], length, get_or, take, drop, IfOk, OnOk, OnErr};

use ledger_codec::OutOfMemory;
use std::alloc::Global;
use std::marker::Model;

/// Items of which the first ones are dropped again and again. Contracts see those that are left.
///
/// The place of dropped items is given back as soon as they are half of all that is held: so dropping costs
/// what is dropped, and what is held is at most twice what is left.
#[derive(Drop)]
pub struct Retained<T> {
    alloc: Global,
    items: Vec<T>,
    dropped: usize,
}

impl<T> Model for Retained<T> {
    ghost use Rattle.std.specs.Prelude.{List, length, drop, ◌≤◌};

    ghost Value = { List T };

    ghost view = { λ r. drop r.dropped r.items.items };

    ghost invariant = { λ r. r.dropped ≤ length r.items.items };
}

impl<T: Copy> Retained<T> {
    /// These items.
    pub fn from_vec(alloc: Global, items: Vec<T>) -> Retained<T>
        ensures { result ≡ items.items }
    {
        Retained {
            alloc,
            items,
            dropped: 0,
        }
    }

    /// How many are left.
    pub fn len(&self) -> usize
        ensures { result ≡ length self.now }
    {
        self.items.len() - self.dropped
    }

    /// Those that are left, in order.
    pub fn as_slice(&self) -> &[T]
        ensures { result.now ≡ self.now }
    {
        &self.items[self.dropped..]
    }

    /// One item more.
    pub fn push(&mut self, item: T) -> Result<(), OutOfMemory>
        ensures ok { OnOk result (self.new ≡ self.old ++ item ∷ []) }
        ensures err { OnErr result (self.new ≡ self.old) }
    {
        self.items.push(item)?;
        Ok(())
    }

    /// These items more: all of them or, where memory is refused, none.
    pub fn extend_from_slice(&mut self, more: &[T]) -> Result<(), OutOfMemory>
        ensures ok { OnOk result (self.new ≡ self.old ++ more.now) }
        ensures err { OnErr result (self.new ≡ self.old) }
    {
        self.items.extend_from_slice(more)?;
        Ok(())
    }

    /// The first `len` alone.
    #[tactic(auto, using(crate::proofs::Lists::take_left))]
    pub fn truncate(&mut self, len: usize)
        ensures { self.new ≡ take len self.old }
    {
        if len < self.len() {
            self.items.truncate(self.dropped + len);
        }
    }

    /// All but the first `count`. It needs no memory: where none is to be had, their place is kept.
    pub fn skip(&mut self, count: usize)
        ensures { self.new ≡ drop count self.old }
    {
        self.dropped += count.min(self.len());
        if self.len() <= self.dropped {
            self.give_back();
        }
    }

    /// Moves what is left to a place of its own size.
    fn give_back(&mut self)
        ensures { self.new ≡ self.old }
    {
        if let Ok(left) = Vec::from_slice(self.alloc, self.as_slice()) {
            self.items = left;
            self.dropped = 0;
        }
    }

    /// Equal items.
    pub fn copy(&self) -> Result<Retained<T>, OutOfMemory>
        ensures { IfOk result (λ copy. copy ≡ self.now) }
    {
        Ok(Retained {
            alloc: self.alloc,
            items: Vec::from_slice(self.alloc, self.as_slice())?,
            dropped: 0,
        })
    }
}
