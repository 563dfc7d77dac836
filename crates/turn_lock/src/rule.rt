//! The rule of the table: word 0 counts the tickets drawn, word 1 the turns that are over, and the slot has the
//! value.
use crate::entry::Entry;
use crate::guarded::Guarded;
use crate::held::Held;
use atomic_table::{Join, Play, Split, TableRule};
use std::collections::LinkedList;
use std::marker::PhantomData;
use std::snapshot::Snapshot;

/// How far a pass is with its turn. The number is its ticket.
pub enum Stage {
    Idle,
    Waits(u64),
    Holds(u64),
}

/// What the table is told when it is made.
#[derive(Drop)]
pub struct Key<V> {
    pub opening: Snapshot<V>,
    pub passes: u64,
}

/// What a seat knows. No value of it is made.
pub struct View<V, E, A> {
    /// The opening value, in the view of a pass.
    pub opening: Option<V>,
    /// A place for each turn that was seen, which is empty where the turn added no entry.
    pub places: LinkedList<Option<Entry<E, A>>>,
    /// The two lists of the last join.
    pub left: LinkedList<Option<Entry<E, A>>>,
    pub right: LinkedList<Option<Entry<E, A>>>,
    /// The callers that it stands for, each with its calls.
    pub mine: LinkedList<(u64, LinkedList<E>)>,
    /// How many more tickets it may draw.
    pub budget: u64,
    pub stage: Stage,
}

/// The rule.
pub struct LockRule<F> {
    guarded: PhantomData<F>,
}

impl<F: Guarded> TableRule<
    Option<Held<F::Value, F::Event, F::Outcome>>,
    View<F::Value, F::Event, F::Outcome>,
    Key<F::Value>,
> for LockRule<F> {
    ghost use Rattle.turn_lock.specs.Rule.{Kept, first_view};

    ghost holds = { Kept F.after F.Answers };

    ghost first = { first_view };
}

/// A ticket is drawn.
pub struct Draw;

impl<V, E, A> Play<Option<Held<V, E, A>>, View<V, E, A>> for Draw {
    ghost use Rattle.turn_lock.specs.Rule.{drawn};

    ghost then = { drawn };
}

/// The turns that are over are counted. In the caller's own turn the slot is taken.
pub struct Watch<F> {
    guarded: PhantomData<F>,
}

impl<F: Guarded> Play<
    Option<Held<F::Value, F::Event, F::Outcome>>,
    View<F::Value, F::Event, F::Outcome>,
> for Watch<F> {
    ghost use Rattle.turn_lock.specs.Rule.{watched};

    ghost then = { watched F.after F.Answers };
}

/// The slot is given back, and the turn is over.
pub struct Raise;

impl<V, E, A> Play<Option<Held<V, E, A>>, View<V, E, A>> for Raise {
    ghost use Rattle.turn_lock.specs.Rule.{raised};

    ghost then = { raised };
}

/// The lists of the last join are beginnings of the list that was kept.
pub struct Look<F> {
    guarded: PhantomData<F>,
}

impl<F: Guarded> Play<
    Option<Held<F::Value, F::Event, F::Outcome>>,
    View<F::Value, F::Event, F::Outcome>,
> for Look<F> {
    ghost use Rattle.turn_lock.specs.Rule.{looked};

    ghost then = { looked F.after F.Answers };
}

/// One caller gets a seat of its own.
pub struct Deal;

impl<V, E, A> Split<View<V, E, A>> for Deal {
    ghost use Rattle.turn_lock.specs.Rule.{rest_dealt, one_dealt};

    ghost left = { rest_dealt };

    ghost right = { one_dealt };
}

/// A note is made.
pub struct Copy;

impl<V, E, A> Split<View<V, E, A>> for Copy {
    ghost use Rattle.turn_lock.specs.Rule.{note_of};

    ghost left = { λ v. v };

    ghost right = { note_of };
}

/// Two seats become one, which has the longer list.
pub struct Meet;

impl<V, E, A> Join<View<V, E, A>> for Meet {
    ghost use Rattle.turn_lock.specs.Rule.{met, blank};

    ghost both = { met };

    ghost spent = { blank };
}
