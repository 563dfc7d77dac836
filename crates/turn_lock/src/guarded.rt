//! What is guarded.

/// A value that is asked and changed by one call after the other, and what each call does to it.
pub trait Guarded {
    /// The value.
    type Value: Drop;

    /// What is asked.
    type Event: Drop;

    /// How the value answers.
    type Outcome: Drop;

    /// The value after a call with this outcome.
    ghost after: { Self.Value → Self.Event → Self.Outcome → Self.Value };

    /// Whether the value answers the event so.
    ghost Answers: { Self.Value → Self.Event → Self.Outcome → Type 0 };
}
