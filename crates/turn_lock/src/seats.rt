//! The steps of a seat: drawing a ticket, waiting for the turn, giving the value back, notes and joins.
ghost use Rattle.std.specs.Prelude.{◌≡◌, ◌<◌, ℕ, [], ◌∷◌, None, IfSome, IfNone};
ghost use Rattle.turn_lock.specs.declared.rule.Stage.TheVariants.{Idle, Waits, Holds};
ghost use Rattle.turn_lock.specs.Rule.{StandsFor, note_of};
ghost use Rattle.turn_lock.specs.Turns.{Fit, IsSame, IsIdle, waiting, Took, Placed, Leaves, Joined};

use crate::guarded::Guarded;
use crate::held::Held;
use crate::rule::{Copy, Draw, Key, LockRule, Look, Meet, Raise, View, Watch};
use atomic_table::{Seat, Table};
use std::alloc::Global;
use std::sync::Wait;
use std::thread;

/// A seat at the table of a guarded value.
pub(crate) type Place<V, E, A> = Seat<Option<Held<V, E, A>>, View<V, E, A>>;

/// The table of a guarded value.
pub(crate) type Board<F, V, E, A> = Table<
    Option<Held<V, E, A>>,
    View<V, E, A>,
    Key<V>,
    LockRule<F>,
    Global,
>;

// Draws a ticket.
fn draw<F: Guarded>(
    board: &Board<F, F::Value, F::Event, F::Outcome>,
    seat: &mut Place<F::Value, F::Event, F::Outcome>,
) -> u64
    requires seat { Fit board.now.shared.table_id seat.old }
    requires idle { IsIdle seat.old }
    requires room { 0 < seat.old.me.0.budget }
    requires stands { (c : ℕ) × StandsFor c seat.old.me.0.mine }
    ensures same { IsSame seat.old seat.new }
    ensures me { seat.new.me ≡ (waiting seat.old.me.0 result, []) }
{
    let shared = &board.shared;
    shared.fetch_add::<Draw>(seat, 0, 1)
}

// Takes the value if it is this ticket's turn.
fn try_take<F: Guarded>(
    board: &Board<F, F::Value, F::Event, F::Outcome>,
    seat: &mut Place<F::Value, F::Event, F::Outcome>,
    ticket: u64,
) -> Option<Held<F::Value, F::Event, F::Outcome>>
    requires seat { Fit board.now.shared.table_id seat.old }
    requires waits { (seat.old.me.0.stage ≡ Waits ticket) × (seat.old.me.1 ≡ []) }
    ensures same { IsSame seat.old seat.new }
    ensures took { IfSome result (λ y. Took F.after F.Answers seat.old.me.0 ticket seat.new.me y) }
    ensures none { IfNone result (seat.new.me ≡ seat.old.me) }
{
    let shared = &board.shared;
    let over = shared.load::<Watch<F>>(seat, 1);
    if over == ticket {
        shared.exchange(seat, 0, None)
    } else {
        None
    }
}

/// Draws a ticket, waits for its turn, and takes the value.
pub(crate) fn enter<F: Guarded, R: Wait>(
    rt: &R,
    board: &Board<F, F::Value, F::Event, F::Outcome>,
    seat: &mut Place<F::Value, F::Event, F::Outcome>,
) -> (u64, Held<F::Value, F::Event, F::Outcome>)
    requires seat { Fit board.now.shared.table_id seat.old }
    requires idle { IsIdle seat.old }
    requires room { 0 < seat.old.me.0.budget }
    requires stands { (c : ℕ) × StandsFor c seat.old.me.0.mine }
    ensures same { IsSame seat.old seat.new }
    ensures took { Took F.after F.Answers (waiting seat.old.me.0 result.0) result.0 seat.new.me result.1 }
{
    let ticket = draw::<F>(board, seat);
    for _ in rt.forever() {
        if let Some(held) = try_take::<F>(board, seat, ticket) {
            return (ticket, held);
        }
        thread::yield_now();
    }
    unreachable!()
}

/// Gives the value back, with one place more than before, and ends the turn.
pub(crate) fn leave<F: Guarded>(
    board: &Board<F, F::Value, F::Event, F::Outcome>,
    seat: &mut Place<F::Value, F::Event, F::Outcome>,
    held: Held<F::Value, F::Event, F::Outcome>,
)
    requires seat { Fit board.now.shared.table_id seat.old }
    requires turn { (ticket : ℕ) × (seat.old.me.0.stage ≡ Holds ticket) × (seat.old.me.1 ≡ (0, None) ∷ []) }
    requires place { Placed F.after F.Answers seat.old.me.0 held }
    ensures same { IsSame seat.old seat.new }
    ensures left { Leaves seat.old.me.0 held seat.new.me }
{
    let shared = &board.shared;
    shared.exchange(seat, 0, Some(held));
    shared.fetch_add::<Raise>(seat, 1, 1);
}

/// Takes in another seat, and learns that each had seen a beginning of the longer list.
pub(crate) fn join_at<F: Guarded>(
    board: &Board<F, F::Value, F::Event, F::Outcome>,
    seat: &mut Place<F::Value, F::Event, F::Outcome>,
    other: Place<F::Value, F::Event, F::Outcome>,
)
    requires seat { Fit board.now.shared.table_id seat.old }
    requires other { Fit board.now.shared.table_id other }
    requires idle { IsIdle seat.old × IsIdle other }
    ensures same { IsSame seat.old seat.new }
    ensures joined { Joined F.after F.Answers seat.old.me.0 other.me.0 seat.new.me }
{
    let shared = &board.shared;
    shared.join_seat::<Meet>(seat, other);
    shared.load::<Look<F>>(seat, 0);
}

/// A seat that has seen as much, and has no caller.
pub(crate) fn note_at<F: Guarded>(
    board: &Board<F, F::Value, F::Event, F::Outcome>,
    seat: &mut Place<F::Value, F::Event, F::Outcome>,
) -> Place<F::Value, F::Event, F::Outcome>
    requires seat { Fit board.now.shared.table_id seat.old }
    requires idle { IsIdle seat.old }
    ensures same { IsSame seat.old seat.new × (seat.new.me ≡ seat.old.me) }
    ensures note { (result.table_id ≡ seat.old.table_id) × (result.me ≡ (note_of seat.old.me.0, [])) }
{
    let shared = &board.shared;
    shared.split_seat::<Copy>(seat)
}
