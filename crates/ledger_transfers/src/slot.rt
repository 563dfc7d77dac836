//! What settling answers for a key.

/// What becomes of a key's account. It stays where the settled account equals the opening one, goes where it equals the default, and
/// is put otherwise.
#[derive(Debug, PartialEq, Eq, Drop)]
pub enum Slot<A> {
    Keep,
    Delete,
    Put(A),
}
