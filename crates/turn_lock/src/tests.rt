//! Worked turns over a number.
ghost use Rattle.std.specs.Prelude.{◌≡◌, ◌≢◌, ◌+◌, ◌++◌, ◌∷◌, [], false, IfSome, IfNone};
ghost use Rattle.turn_lock.specs.History.{entry};

use crate::{Entry, Guarded, Held, Pass, TurnLock};
use std::sync::Wait;
use std::test::Fail;
use std::thread::{Threads, join};

/// A number to which others are added.
struct Sum;

impl Guarded for Sum {
    ghost use Rattle.std.specs.Prelude.{◌≡◌, ◌+◌};

    type Value = u64;

    type Event = u64;

    type Outcome = u64;

    ghost after = { λ value event outcome. outcome };

    ghost Answers = { λ value event outcome. outcome ≡ value + event };
}

/// Adds a number, where there is memory and the sum isn't too great.
fn grow(held: &mut Held<u64, u64, u64>, caller: usize, more: u64) -> Option<u64>
    ensures some { IfSome result (λ sum. (sum ≡ held.old.value + more) × (held.new.value ≡ sum)
        × (held.new.history.items ≡ held.old.history.items ++ entry caller more sum ∷ [])) }
    ensures none { IfNone result ((held.new.value ≡ held.old.value)
        × (held.new.history.items ≡ held.old.history.items)) }
{
    let sum = held.value.checked_add(more)?;
    if held.history.reserve(1).is_err() {
        return None;
    }
    held.history.push_reserved(Entry {
        caller,
        event: more,
        outcome: sum,
    });
    held.value = sum;
    Some(sum)
}

/// Adds a number in a turn.
fn add<R: Wait>(rt: &R, lock: &TurnLock<Sum>, pass: &mut Pass<Sum>, more: u64) -> Option<u64>
    requires from { pass.old.from ≡ lock.now.from }
    requires idle { pass.old.within ≡ false }
    requires left { pass.old.used ≢ pass.old.turns }
    ensures from { pass.new.from ≡ pass.old.from }
    ensures idle { pass.new.within ≡ false }
    ensures used { (pass.new.used ≡ pass.old.used + 1) × (pass.new.turns ≡ pass.old.turns) }
{
    let mut held = lock.take(rt, pass);
    let sum = grow(&mut held, pass.caller(), more);
    lock.give_back(pass, held);
    sum
}

/// Adds two numbers in threads of their own.
fn add_both<R: Threads + Wait + Sync>(
    rt: &R,
    lock: &TurnLock<Sum>,
    one: &mut Pass<Sum>,
    two: &mut Pass<Sum>,
) -> (Option<u64>, Option<u64>)
    requires one { (one.old.from ≡ lock.now.from) × (one.old.within ≡ false)
        × (one.old.used ≢ one.old.turns) }
    requires two { (two.old.from ≡ lock.now.from) × (two.old.within ≡ false)
        × (two.old.used ≢ two.old.turns) }
{
    join(rt, || add(rt, lock, one, 1), || add(rt, lock, two, 2))
}

#[test]
fn calls_are_answered_in_the_order_of_their_turns(rt: HostRuntime) -> Result<(), Fail> {
    let (lock, mut passes) = TurnLock::<Sum>::share(rt.alloc(), 10, 1, 2)?;
    let mut pass = passes.pop().ok_or("no pass")?;
    assert!(rt; add(&rt, &lock, &mut pass, 5) == Some(15));
    assert!(rt; add(&rt, &lock, &mut pass, 7) == Some(22));
    assert!(rt; pass.is_spent());
    Ok(())
}

#[test]
fn each_of_two_threads_gets_its_turn(rt: HostRuntime) -> Result<(), Fail> {
    let (lock, mut passes) = TurnLock::<Sum>::share(rt.alloc(), 0, 2, 1)?;
    let mut one = passes.pop().ok_or("no pass")?;
    let mut two = passes.pop().ok_or("no pass")?;
    let (a, b) = add_both(&rt, &lock, &mut one, &mut two);
    let first = a == Some(1) && b == Some(3);
    let second = b == Some(2) && a == Some(3);
    assert!(rt; first || second);
    Ok(())
}
