//! What a history is made of.

/// One call: who made it, what was asked, and how it was answered.
#[derive(Drop)]
pub struct Entry<E, A> {
    /// The number of the pass.
    pub caller: usize,
    /// What was asked.
    pub event: E,
    /// How the value answered.
    pub outcome: A,
}
