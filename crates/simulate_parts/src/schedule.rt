//! What goes wrong in a run, and when.
ghost use Rattle.std.specs.Prelude.{◌≡◌, ◌↔◌, ◌≤◌, ◌++◌, ◌∷◌, [], IfOk, IsTrue};
ghost use Rattle.simulate_parts.specs.Schedule.{MayFollow};

use crate::link::{FaultConfig, SimLink};
use crate::peer::{Peer, Round};
use ledger_codec::{List, OutOfMemory};
use std::alloc::Global;
use std::marker::Model;

/// What a schedule does at a time.
#[derive(Clone, Copy, Debug)]
pub enum Action {
    /// Sets the storage fault that engines are told of from now on.
    SetStorageFault(FaultConfig),
    /// Sets every link.
    Heal(SimLink),
    /// Sets one directed link; nothing where the two peers are equal or unknown.
    UpdateLink { from: Peer, to: Peer, link: SimLink },
    /// Stops a peer; nothing where it is no participant or doesn't run.
    Crash(Peer),
    /// Starts a participant anew, also where it runs.
    Restart(Peer),
}

/// Actions in the order of their times, in milliseconds from the start of the run.
#[derive(Drop)]
pub struct Schedule {
    events: Vec<(u64, Action)>,
}

impl Model for Schedule {
    ghost use Rattle.std.specs.Prelude.{List, ℕ};
    ghost use Rattle.simulate_parts.specs.declared.schedule.Action.{Action};

    ghost Value = { List (ℕ × Action) };

    ghost view = { λ s. s.events.items };
}

impl Schedule {
    /// A schedule of nothing.
    pub fn new(alloc: Global) -> Self
        ensures { result ≡ [] }
    {
        Schedule {
            events: Vec::new(alloc),
        }
    }

    /// The actions with their times, in order.
    pub fn events(&self) -> &[(u64, Action)]
        ensures { result.now ≡ self.now }
    {
        self.events.as_slice()
    }

    /// Whether an action at `time` may follow: `time` isn't below the last action's.
    pub fn may_add(&self, time: u64) -> bool
        ensures { IsTrue result ↔ MayFollow self.now time }
    {
        match self.events.last() {
            Some(last) => last.0 <= time,
            None => true,
        }
    }

    /// This schedule with one action more. A refused call gives the schedule up.
    pub fn at(mut self, time: u64, action: Action) -> Result<Self, OutOfMemory>
        requires { MayFollow self time }
        ensures { IfOk result (λ s. s ≡ self ++ (time, action) ∷ []) }
    {
        self.events.push((time, action))?;
        Ok(self)
    }
}

/// A configured failure. Times are in milliseconds.
#[derive(Drop)]
pub enum Crash {
    /// Every `frequency`, stops `count` running peers for `downtime`.
    Random {
        frequency: u64,
        downtime: u64,
        count: usize,
    },
    /// Starts these participants only once a finalized round reaches `round`.
    DelayRound {
        participants: List<Peer>,
        round: Round,
    },
    /// Stops `participant` for `downtime` once its height is in the window from `first` to `last`.
    ProcessedHeight {
        participant: Peer,
        first: u64,
        last: u64,
        downtime: u64,
    },
    /// Does what a schedule says.
    Schedule(Schedule),
}
