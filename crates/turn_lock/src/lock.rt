//! The lock: taking a turn and giving it back.
ghost use Rattle.std.specs.Prelude.{◌≡◌, ◌≢◌, false, true};
ghost use Rattle.turn_lock.specs.Passes.{Takes, Gives, Meets, having_seen};

use crate::guarded::Guarded;
use crate::held::Held;
use crate::passes::{Note, Pass};
use crate::seats::{Board, enter, join_at, leave, note_at};
use std::marker::Model;
use std::sync::Wait;

/// A value that passes share by turns. Contracts see which lock it is, and how many passes it has.
#[derive(Drop)]
pub struct TurnLock<F: Guarded> {
    pub(crate) table: Board<F, F::Value, F::Event, F::Outcome>,
}

impl<F: Guarded> Model for TurnLock<F> {
    ghost use Rattle.std.specs.Prelude.{◌≡◌, ◌<◌, Some};
    ghost use Rattle.turn_lock.specs.Passes.{LockValue};

    ghost Value = { LockValue F.Value };

    ghost view = { λ a. record { from = record { table = a.table.shared.table_id; opening = Some a.table.shared.key.opening.value }; opening = a.table.shared.key.opening.value; passes = a.table.shared.key.passes } };

    ghost invariant = { λ a. (a.table.shared.table_id.words ≡ 2) × (a.table.shared.table_id.slots ≡ 1) × (0 < a.table.shared.key.passes) };
}

impl<F: Guarded> TurnLock<F> {
    /// Waits for the pass's turn, and takes the value.
    pub fn take<R: Wait>(&self, rt: &R, pass: &mut Pass<F>) -> Held<F::Value, F::Event, F::Outcome>
        requires from { pass.old.from ≡ self.now.from }
        requires idle { pass.old.within ≡ false }
        requires left { pass.old.used ≢ pass.old.turns }
        ensures { Takes F.after F.Answers self.now.opening pass.old pass.new result }
    {
        let (_, held) = enter::<F, R>(rt, &self.table, &mut pass.seat);
        pass.used += 1;
        held
    }

    /// Gives the value back, and ends the turn.
    pub fn give_back(&self, pass: &mut Pass<F>, held: Held<F::Value, F::Event, F::Outcome>)
        requires from { pass.old.from ≡ self.now.from }
        requires within { pass.old.within ≡ true }
        requires gives { Gives F.after F.Answers self.now.opening pass.old held }
        ensures { pass.new ≡ having_seen pass.old held.history.items }
    {
        leave::<F>(&self.table, &mut pass.seat, held);
    }

    /// A copy of what the pass has seen.
    pub fn note(&self, pass: &mut Pass<F>) -> Note<F>
        requires from { pass.old.from ≡ self.now.from }
        requires idle { pass.old.within ≡ false }
        ensures same { pass.new ≡ pass.old }
        ensures table { result.table ≡ self.now.from.table }
        ensures seen { result.seen ≡ pass.old.seen }
    {
        Note {
            seat: note_at::<F>(&self.table, &mut pass.seat),
        }
    }

    /// The pass has seen what the note has, too.
    pub fn meet(&self, pass: &mut Pass<F>, note: Note<F>)
        requires from { pass.old.from ≡ self.now.from }
        requires idle { pass.old.within ≡ false }
        requires note { note.table ≡ self.now.from.table }
        ensures { Meets pass.old note.seen pass.new }
    {
        let Note { seat } = note;
        join_at::<F>(&self.table, &mut pass.seat, seat);
    }
}
