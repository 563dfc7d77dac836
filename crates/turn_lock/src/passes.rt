//! Passes and notes.
ghost use Rattle.std.specs.Prelude.{◌≡◌, ◌==◌};

use crate::guarded::Guarded;
use crate::seats::Place;
use std::marker::Model;

/// The right to take turns. Contracts see its number, the history that it has seen, how many of its turns it took,
/// and whether it holds the value.
#[derive(Drop)]
pub struct Pass<F: Guarded> {
    pub(crate) seat: Place<F::Value, F::Event, F::Outcome>,
    pub(crate) caller: usize,
    pub(crate) used: u32,
    pub(crate) turns: u32,
}

impl<F: Guarded> Model for Pass<F> {
    ghost use Rattle.turn_lock.specs.Passes.{PassValue};
    ghost use Rattle.turn_lock.specs.Seated.{pass_value, IsPass};

    ghost Value = { PassValue F.Value F.Event F.Outcome };

    ghost view = { λ a. pass_value a.seat a.caller a.used a.turns };

    ghost invariant = { λ a. IsPass F.after F.Answers a.seat a.caller a.used a.turns };
}

impl<F: Guarded> Pass<F> {
    /// The pass's number among those of its lock, from 0 on.
    pub fn caller(&self) -> usize
        ensures { result ≡ self.now.caller }
    {
        self.caller
    }

    /// Whether every turn was taken.
    pub fn is_spent(&self) -> bool
        ensures { result ≡ (self.now.used == self.now.turns) }
    {
        self.used == self.turns
    }
}

/// What a pass had seen.
#[derive(Drop)]
pub struct Note<F: Guarded> {
    pub(crate) seat: Place<F::Value, F::Event, F::Outcome>,
}

impl<F: Guarded> Model for Note<F> {
    ghost use Rattle.turn_lock.specs.Passes.{NoteValue};
    ghost use Rattle.turn_lock.specs.Seated.{note_value, IsNote};

    ghost Value = { NoteValue F.Event F.Outcome };

    ghost view = { λ a. note_value a.seat };

    ghost invariant = { λ a. IsNote a.seat };
}
