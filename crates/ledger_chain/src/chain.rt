//! The chain of a batch: the state that it stands on, and the sealed batches between that and itself.
ghost use Rattle.std.specs.Prelude.{◌≡◌, ◌<◌, ◌≤◌, [], ◌∷◌, ◌++◌, Some, length, map, filter_map, drop, is_some, position, IfOk, OnOk, IfSome};
ghost use Rattle.ledger_chain.specs.Chain.{LinkView, ChainView, ops_of, place, missing, same_state, with_link, view};
ghost use Rattle.ledger_chain.specs.Writes.{last_write};

use crate::link::Link;
use crate::state::State;
use ledger_codec::OutOfMemory;
use ledger_log::{Family, Key, KeyedFamily, Log, Value};
use ledger_merkle::Hasher;
use std::alloc::Global;
use std::marker::Model;

/// The base of a batch, and its ancestors in order.
#[derive(Drop)]
pub struct Chain<F: Family> {
    base: State,
    links: Vec<Link<F>>,
}

impl<F: Family> Model for Chain<F> {
    ghost use Rattle.ledger_chain.specs.Chain.{ChainView};

    ghost Value = { ChainView F.Op };

    ghost view = { λ c. record { base = c.base; links = c.links.items } };
}

/// What the last write of the key among these batches leaves, None where none is of this key.
fn last_of<F: Family>(links: &[Link<F>], key: &Key) -> Option<Option<Value>>
    ensures { result ≡ last_write key.now (filter_map F.write_of (ops_of links.now)) }
{
    let mut found = None;
    for link in links {
        found = link.last(key).or(found);
    }
    found
}

/// The place of the first of these batches after which a database is in this state.
fn place_after<F: Family>(links: &[Link<F>], state: &State) -> Option<usize>
    ensures exact { result ≡ position (λ link. same_state state.now link.after) links.now }
    ensures within { IfSome result (λ i. i < length links.now) }
{
    links.iter().position(|link| *state == link.after())
}

/// The same batches once more.
fn copy_of<F: Family>(alloc: Global, links: &[Link<F>]) -> Result<Vec<Link<F>>, OutOfMemory>
    ensures { IfOk result (λ copy. copy.items ≡ links.now) }
{
    let mut copy = Vec::new(alloc);
    for link in links {
        copy.push(link.copy()?)?;
    }
    Ok(copy)
}

impl<F: Family> Chain<F> {
    /// The chain of a batch without ancestors.
    pub fn new(alloc: Global, base: State) -> Chain<F>
        ensures { result ≡ record { base = base; links = [] } }
    {
        Chain {
            base,
            links: Vec::new(alloc),
        }
    }

    /// How many of the ancestors a database in this state has, None where the state is none of the chain.
    pub fn place(&self, state: &State) -> Option<usize>
        ensures exact { result ≡ place self.now state.now }
        ensures within { IfSome result (λ n. n ≤ length self.now.links) }
    {
        if *state == self.base {
            return Some(0);
        }
        match place_after(self.links.as_slice(), state) {
            Some(at) => Some(at + 1),
            None => None,
        }
    }

    /// The ancestors that a database in this state lacks, None where the state is none of the chain.
    pub fn lacking(&self, state: &State) -> Option<&[Link<F>]>
        ensures known { is_some result ≡ is_some (place self.now state.now) }
        ensures exact { IfSome result (λ links. links.now ≡ missing self.now state.now) }
    {
        match self.place(state) {
            Some(place) => Some(&self.links[place..]),
            None => None,
        }
    }

    /// One ancestor more.
    pub fn push(&mut self, link: Link<F>) -> Result<(), OutOfMemory>
        ensures { OnOk result (self.new ≡ with_link self.old link) }
    {
        self.links.push(link)?;
        Ok(())
    }

    /// The same chain once more, which costs a few words for each ancestor.
    pub fn copy(&self, alloc: Global) -> Result<Chain<F>, OutOfMemory>
        ensures { IfOk result (λ chain. chain ≡ self.now) }
    {
        Ok(Chain {
            base: self.base,
            links: copy_of(alloc, self.links.as_slice())?,
        })
    }
}

impl<F: KeyedFamily> Chain<F> {
    /// The value of the key for a batch over this chain. One look-up for each ancestor, and one in the
    /// database.
    pub fn view<H: Hasher>(&self, db: &Log<F, H>, key: &Key) -> Option<Value>
        ensures { result ≡ view F.write_of self.now db.now key.now }
    {
        match last_of(self.links.as_slice(), key) {
            Some(value) => value,
            None => db.get(key),
        }
    }
}
