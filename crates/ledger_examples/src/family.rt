//! What the four families do differently with test operations.
ghost use Rattle.std.specs.Prelude.{◌≡◌, ℕ, ◌+◌, ◌<◌, ◌≤◌, Bool, List};
ghost use Rattle.ledger_examples.specs.Tests.{any_test, any_test_commit, any_added, immutable_test, immutable_test_commit, keyless_test, keyless_test_commit, same_added, no_floor, own_floor, last_place, test_metadata};

use ledger_activity::CurrentFamily;
use ledger_log::{
    AnyFamily, AnyOp, CompactFamily, Family, ImmutableFamily, ImmutableOp, Key, KeylessFamily,
    KeylessOp, Value,
};
use ledger_merkle::Location;

/// A family that databases are tried with.
pub trait ExampleFamily: Family {
    // The test operation of this key and value.
    ghost test_of: { List ℕ → List ℕ → Self.Op };

    // The commit behind this many test operations that were made with this floor; the last one says so.
    ghost test_commit_of: { ℕ → ℕ → Bool → Self.Op };

    // The operation as it is added to a log of this floor.
    ghost added_of: { ℕ → Self.Op → Self.Op };

    // The floor that is shown of a log of this floor and size.
    ghost floor_shown: { ℕ → ℕ → ℕ };

    /// The test operation of this key and value.
    fn test(key: Key, value: Value) -> Self::Op
        ensures { result ≡ test_of key value };

    /// The commit behind this many test operations that were made with this floor; the last one says so.
    fn test_commit(start: Location, count: Location, last: bool) -> Self::Op
        ensures { result ≡ test_commit_of start count last };

    /// The operation as it is added to a log of this floor.
    fn added(op: &Self::Op, floor: Location) -> Self::Op
        ensures { result ≡ added_of floor op.now };

    /// The floor that is shown of a log of this floor and size.
    fn shown_floor(floor: Location, size: Location) -> u64
        ensures { result ≡ floor_shown floor size };
}

/// A family of which compact databases are tried.
pub trait CompactExampleFamily: ExampleFamily + CompactFamily {
    // The name of its compact databases.
    ghost compact_name_shown: { List ℕ };

    /// The name of its compact databases.
    fn compact_name() -> &'static str
        ensures { result.now ≡ compact_name_shown };
}

impl ExampleFamily for AnyFamily {
    ghost test_of = { any_test };

    ghost test_commit_of = { any_test_commit };

    ghost added_of = { any_added };

    ghost floor_shown = { no_floor };

    fn test(key: Key, value: Value) -> AnyOp {
        AnyOp::Update(key, value)
    }

    fn test_commit(_start: Location, count: Location, _last: bool) -> AnyOp {
        AnyOp::CommitFloor(None, count)
    }

    fn added(op: &AnyOp, floor: Location) -> AnyOp {
        match op {
            AnyOp::CommitFloor(metadata, _) => AnyOp::CommitFloor(*metadata, floor),
            AnyOp::Update(key, value) => AnyOp::Update(*key, *value),
            AnyOp::Delete(key) => AnyOp::Delete(*key),
        }
    }

    fn shown_floor(_floor: Location, _size: Location) -> u64 {
        0
    }
}

impl ExampleFamily for CurrentFamily {
    ghost test_of = { any_test };

    ghost test_commit_of = { any_test_commit };

    ghost added_of = { any_added };

    ghost floor_shown = { no_floor };

    fn test(key: Key, value: Value) -> AnyOp {
        AnyFamily::test(key, value)
    }

    fn test_commit(start: Location, count: Location, last: bool) -> AnyOp {
        AnyFamily::test_commit(start, count, last)
    }

    fn added(op: &AnyOp, floor: Location) -> AnyOp {
        AnyFamily::added(op, floor)
    }

    fn shown_floor(floor: Location, size: Location) -> u64 {
        AnyFamily::shown_floor(floor, size)
    }
}

/// The metadata of a test commit.
fn metadata_of(last: bool) -> Option<Value>
    ensures { result ≡ test_metadata last }
{
    if last { Some([1; 32]) } else { None }
}

impl ExampleFamily for ImmutableFamily {
    ghost test_of = { immutable_test };

    ghost test_commit_of = { immutable_test_commit };

    ghost added_of = { same_added };

    ghost floor_shown = { own_floor };

    fn test(key: Key, value: Value) -> ImmutableOp {
        ImmutableOp::Set(key, value)
    }

    fn test_commit(start: Location, _count: Location, last: bool) -> ImmutableOp {
        ImmutableOp::Commit(metadata_of(last), start)
    }

    fn added(op: &ImmutableOp, _floor: Location) -> ImmutableOp {
        *op
    }

    fn shown_floor(floor: Location, _size: Location) -> u64 {
        floor.get()
    }
}

impl CompactExampleFamily for ImmutableFamily {
    ghost use Rattle.std.specs.Prelude.{codes};

    ghost compact_name_shown = { codes "compact immutable" };

    fn compact_name() -> &'static str {
        "compact immutable"
    }
}

impl ExampleFamily for KeylessFamily {
    ghost test_of = { keyless_test };

    ghost test_commit_of = { keyless_test_commit };

    ghost added_of = { same_added };

    ghost floor_shown = { last_place };

    fn test(key: Key, _value: Value) -> KeylessOp {
        KeylessOp::Append(key)
    }

    fn test_commit(start: Location, _count: Location, last: bool) -> KeylessOp {
        KeylessOp::Commit(metadata_of(last), start)
    }

    fn added(op: &KeylessOp, _floor: Location) -> KeylessOp {
        *op
    }

    fn shown_floor(_floor: Location, size: Location) -> u64 {
        size.get().saturating_sub(1)
    }
}

impl CompactExampleFamily for KeylessFamily {
    ghost use Rattle.std.specs.Prelude.{codes};

    ghost compact_name_shown = { codes "compact keyless" };

    fn compact_name() -> &'static str {
        "compact keyless"
    }
}
