//! What both links count.
ghost use Rattle.std.specs.Prelude.{◌≡◌, ◌≤◌};
ghost use Rattle.sync_server.specs.Links.{fails_next, called, next_cut, cut_more};

use std::marker::Model;

/// Numbers the calls of a link from 0, and fails those that are listed.
#[derive(Debug, Drop)]
pub(crate) struct Calls {
    made: u64,
    failing: Vec<u64>,
    faults: u64,
}

impl Model for Calls {
    ghost use Rattle.sync_server.specs.Links.{CallsView};

    ghost Value = { CallsView };

    ghost view = { λ c. record { made = c.made; failing = c.failing.items; faults = c.faults } };
}

impl Calls {
    /// No call yet.
    pub(crate) fn new(failing: Vec<u64>) -> Calls
        ensures { result ≡ record { made = 0; failing = failing.items; faults = 0 } }
    {
        Calls {
            made: 0,
            failing,
            faults: 0,
        }
    }

    /// Counts a call, and says whether it fails.
    pub(crate) fn fails(&mut self) -> bool
        ensures fails { result ≡ fails_next self.old }
        ensures counted { self.new ≡ called self.old }
        ensures later { self.old.faults ≤ self.new.faults }
    {
        let fails = self.failing.contains(&self.made);
        self.made = self.made.saturating_add(1);
        if fails {
            self.faults = self.faults.saturating_add(1);
        }
        fails
    }
}

/// How many bytes each recv gives at most.
#[derive(Debug, Drop)]
pub(crate) struct Cuts {
    cuts: Vec<usize>,
    made: usize,
}

impl Model for Cuts {
    ghost use Rattle.sync_server.specs.Links.{CutsView};

    ghost Value = { CutsView };

    ghost view = { λ c. record { cuts = c.cuts.items; made = c.made } };
}

impl Cuts {
    /// No recv yet.
    pub(crate) fn new(cuts: Vec<usize>) -> Cuts
        ensures { result ≡ record { cuts = cuts.items; made = 0 } }
    {
        Cuts { cuts, made: 0 }
    }

    /// Counts a recv, and says how many bytes it gives at most.
    pub(crate) fn next(&mut self) -> usize
        ensures most { result ≡ next_cut self.old }
        ensures counted { self.new ≡ cut_more self.old }
    {
        let most = match self.cuts.get(self.made) {
            Some(cut) => (*cut).max(1),
            None => usize::MAX,
        };
        self.made = self.made.saturating_add(1);
        most
    }
}
