//! Making a lock with its passes, and ending it.
ghost use Rattle.std.specs.Prelude.{◌≡◌, ◌<◌, ◌≤◌, ◌+◌, ◌-◌, ℕ, [], ◌∷◌, IfOk, Some, map, false};
ghost use Rattle.std.specs.List.{All, range_with_len};
ghost use Rattle.turn_lock.specs.Rule.{StandsFor};
ghost use Rattle.turn_lock.specs.Turns.{Fit, IsSame, IsIdle, Left};
ghost use Rattle.turn_lock.specs.Passes.{fresh, Present, Closes};
ghost use Rattle.turn_lock.specs.Seated.{Deals, Gathers};

use crate::guarded::Guarded;
use crate::held::Held;
use crate::lock::TurnLock;
use crate::passes::Pass;
use crate::rule::{Deal, Key};
use crate::seats::{Board, Place, join_at};
use atomic_table::Table;
use std::alloc::{AllocError, Global};
use std::snapshot::Snapshot;

// A pass for the first of the seat's callers, which the seat stands for no more.
fn deal_at<F: Guarded>(
    board: &Board<F, F::Value, F::Event, F::Outcome>,
    seat: &mut Place<F::Value, F::Event, F::Outcome>,
    caller: usize,
    left: usize,
    turns: u32,
) -> Pass<F>
    requires seat { Fit board.now.shared.table_id seat.old }
    requires some { 0 < left }
    requires dealer { Deals seat.old caller left }
    ensures same { IsSame seat.old seat.new }
    ensures dealer { Deals seat.new (caller + 1) (left - 1)
        × (seat.new.me.0.opening ≡ seat.old.me.0.opening) }
    ensures pass { result ≡ fresh record { table = seat.old.table_id; opening = seat.old.me.0.opening }
        turns caller }
{
    let shared = &board.shared;
    let one = shared.split_seat::<Deal>(seat);
    Pass {
        seat: one,
        caller,
        used: 0,
        turns,
    }
}

// The table, and the seat that stands for all callers.
fn open_at<F: Guarded>(
    alloc: Global,
    value: F::Value,
    passes: u64,
) -> Result<
    (
        Board<F, F::Value, F::Event, F::Outcome>,
        Place<F::Value, F::Event, F::Outcome>,
    ),
    AllocError,
>
    requires { passes ≤ 8 }
    ensures seat { IfOk result (λ r. Fit r.0.shared.table_id r.1 × Deals r.1 0 passes) }
    ensures key { IfOk result (λ r. (r.1.me.0.opening ≡ Some value) × (r.0.shared.key.opening.value ≡ value)
        × (r.0.shared.key.passes ≡ passes)) }
{
    let key = Key {
        opening: Snapshot::of(&value),
        passes,
    };
    let held = Held {
        value,
        history: Vec::new(alloc),
    };
    let mut slots = Vec::new(alloc);
    slots.push(Some(held))?;
    match Table::new(alloc, &[0, 0], slots, &key) {
        Ok(made) => Ok(made),
        Err(_) => Err(AllocError),
    }
}

// All passes.
fn deal_all<F: Guarded>(
    alloc: Global,
    board: &Board<F, F::Value, F::Event, F::Outcome>,
    mut seat: Place<F::Value, F::Event, F::Outcome>,
    passes: usize,
    turns: u32,
) -> Result<Vec<Pass<F>>, AllocError>
    requires seat { Fit board.now.shared.table_id seat }
    requires dealer { Deals seat 0 passes }
    ensures { IfOk result (λ v. v.items ≡ map (fresh
        record { table = seat.table_id; opening = seat.me.0.opening } turns) (range_with_len 0 passes)) }
{
    let mut made = Vec::new(alloc);
    for caller in 0..passes {
        made.push(deal_at::<F>(board, &mut seat, caller, passes - caller, turns))?;
    }
    Ok(made)
}

// Joins the seat of a pass into another.
fn take_in<F: Guarded>(
    board: &Board<F, F::Value, F::Event, F::Outcome>,
    seat: &mut Place<F::Value, F::Event, F::Outcome>,
    pass: Pass<F>,
)
    requires seat { Fit board.now.shared.table_id seat.old }
    requires pass { pass.from.table ≡ board.now.shared.table_id }
    requires between { pass.within ≡ false }
    requires idle { IsIdle seat.old }
    ensures { Gathers seat.old seat.new (pass ∷ []) }
{
    let Pass {
        seat: other,
        caller: _,
        used: _,
        turns: _,
    } = pass;
    join_at::<F>(board, seat, other);
}

// Joins the seats of all these passes into one.
fn gather_all<F: Guarded>(
    board: &Board<F, F::Value, F::Event, F::Outcome>,
    mut seat: Place<F::Value, F::Event, F::Outcome>,
    passes: Vec<Pass<F>>,
) -> Place<F::Value, F::Event, F::Outcome>
    requires seat { Fit board.now.shared.table_id seat }
    requires passes { All (λ p. p.from.table ≡ board.now.shared.table_id) passes.items }
    requires between { All (λ p. p.within ≡ false) passes.items }
    requires idle { IsIdle seat }
    ensures { Gathers seat result passes.items }
{
    for pass in passes {
        take_in::<F>(board, &mut seat, pass);
    }
    seat
}

// The value and its history, when every caller is in the seat.
fn finish_at<F: Guarded>(
    board: Board<F, F::Value, F::Event, F::Outcome>,
    seat: Place<F::Value, F::Event, F::Outcome>,
) -> Held<F::Value, F::Event, F::Outcome>
    requires seat { Fit board.shared.table_id seat }
    requires idle { IsIdle seat }
    requires all { (c : ℕ) → c < board.shared.key.passes → StandsFor c seat.me.0.mine }
    ensures { Left F.after F.Answers board.shared.key seat.me.0 result }
{
    let mut closed = board.close_with(seat);
    let slot = closed.take(0);
    closed.free();
    slot.unwrap()
}

impl<F: Guarded> TurnLock<F> {
    /// A lock around the value, and its passes, each good for so many turns. After a refusal the value is given up.
    pub fn share(
        alloc: Global,
        value: F::Value,
        passes: usize,
        turns: u32,
    ) -> Result<(TurnLock<F>, Vec<Pass<F>>), AllocError>
        requires some { 0 < passes }
        requires few { passes ≤ 8 }
        ensures lock { IfOk result (λ r. (r.0.opening ≡ value) × (r.0.passes ≡ passes)) }
        ensures passes { IfOk result (λ r. r.1.items ≡ map (fresh r.0.from turns)
            (range_with_len 0 passes)) }
    {
        let (table, seat) = open_at::<F>(alloc, value, passes as u64)?;
        let made = deal_all::<F>(alloc, &table, seat, passes, turns)?;
        Ok((TurnLock { table }, made))
    }

    /// The value and the whole history, from all passes.
    pub fn close(self, mut passes: Vec<Pass<F>>) -> Held<F::Value, F::Event, F::Outcome>
        requires from { All (λ p. p.from ≡ self.from) passes.items }
        requires idle { All (λ p. p.within ≡ false) passes.items }
        requires all { (c : ℕ) → c < self.passes → Present c passes.items }
        ensures { Closes F.after F.Answers self.opening passes.items result }
    {
        let TurnLock { table } = self;
        let Some(first) = passes.pop() else {
            unreachable!()
        };
        let Pass {
            seat,
            caller: _,
            used: _,
            turns: _,
        } = first;
        let seat = gather_all::<F>(&table, seat, passes);
        finish_at::<F>(table, seat)
    }
}
