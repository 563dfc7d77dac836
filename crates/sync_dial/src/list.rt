//! Connections in memory.

use crate::listener::{ListenFailed, Listener};
use sync_net::Link;

/// Gives the links of a list, in order, and past them none.
#[derive(Debug, Drop)]
pub struct ListListener<L: Link> {
    links: Vec<L>,
    faults: u64,
}

impl<L: Link> ListListener<L> {
    ghost use Rattle.std.specs.Prelude.{◌≡◌};
    ghost use Rattle.sync_dial.specs.Listening.{links_to_come, failed_accepts};

    /// These links are to come.
    pub fn new(links: Vec<L>) -> ListListener<L>
        ensures links { links_to_come result ≡ links.items }
        ensures faults { failed_accepts result ≡ 0 }
    {
        ListListener { links, faults: 0 }
    }
}

impl<L: Link + Send + Drop + 'static> Listener for ListListener<L> {
    ghost use Rattle.std.specs.Prelude.{◌≡◌, ◌==◌, Some, OnOk, is_err, length};
    ghost use Rattle.ledger_codec.specs.Causes.{HasCause};
    ghost use Rattle.sync_dial.specs.Listening.{Accepts, links_to_come};

    type Link = L;

    ghost faults = { λ s. s.faults };

    ghost coming = { λ s. Some s.links.items };

    fn accept(&mut self) -> Result<L, ListenFailed>
        ensures cause { HasCause self.old.faults self.new.faults result }
        ensures taken { Accepts (Some self.old.links.items) (Some self.new.links.items) result }
        ensures fails { is_err result ≡ (length (links_to_come self.old) == 0) }
        ensures counted { OnOk result (self.new.faults ≡ self.old.faults) }
    {
        if self.links.len() == 0 {
            self.faults = self.faults.saturating_add(1);
            return Err(ListenFailed);
        }
        Ok(self.links.remove(0))
    }
}
