//! What a turn takes.
use crate::entry::Entry;

/// The value, and the history that led to it.
#[derive(Drop)]
pub struct Held<V, E, A> {
    /// The value.
    pub value: V,
    /// Every call so far, in the order in which they were answered.
    pub history: Vec<Entry<E, A>>,
}
