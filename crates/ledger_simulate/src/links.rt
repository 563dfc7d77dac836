//! The links of a run.
ghost use Rattle.std.specs.Prelude.{◌≡◌, [], OnErr, OnOk};

use ledger_codec::OutOfMemory;
use simulate_parts::{Peer, SimLink};
use std::alloc::Global;
use std::collections::BTreeMap;

/// The directed links between peers: one for all, and those that were set since.
#[derive(Drop)]
pub struct Links {
    all: SimLink,
    changed: BTreeMap<(u64, u64), SimLink>,
}

impl Links {
    ghost use Rattle.std.specs.BTreeMap.{insert_entry};
    ghost use Rattle.ledger_simulate.specs.Queue.{key_cmp};
    ghost use Rattle.ledger_simulate.specs.Links.{changed_links, common_link, link_of};

    /// This link everywhere.
    pub fn new(alloc: Global, link: SimLink) -> Self
        ensures all { common_link result ≡ link }
        ensures changed { changed_links result ≡ [] }
    {
        Links {
            all: link,
            changed: BTreeMap::new(alloc),
        }
    }

    /// Sets the link from one peer to another. A refused call leaves the links.
    pub fn set(&mut self, from: Peer, to: Peer, link: SimLink) -> Result<(), OutOfMemory>
        ensures all { common_link self.new ≡ common_link self.old }
        ensures ok { OnOk result
            (changed_links self.new ≡ insert_entry key_cmp (changed_links self.old) (from.0, to.0) link) }
        ensures err { OnErr result (changed_links self.new ≡ changed_links self.old) }
    {
        self.changed.insert((from.0, to.0), link)?;
        Ok(())
    }

    /// The link from one peer to another.
    pub fn get(&self, from: Peer, to: Peer) -> SimLink
        ensures { result ≡ link_of self.now from to }
    {
        match self.changed.get(&(from.0, to.0)) {
            Some(link) => *link,
            None => self.all,
        }
    }
}
