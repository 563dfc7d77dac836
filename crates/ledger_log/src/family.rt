//! What the families of logs have in common, and where they differ.
ghost use Rattle.std.specs.Prelude.{◌≡◌, ℕ, ◌≤◌, ◌^◌, Option, Some, IfSome, List};
ghost use Rattle.ledger_log.specs.View.{key_written, value_written};

use ledger_merkle::{Leaf, Location};

/// A key: 32 bytes.
pub type Key = [u8; 32];

/// A value: 32 bytes.
pub type Value = [u8; 32];

/// A family of logs: its operations, which of them are commits, and what the others write.
pub trait Family {
    /// Its operations, whose leaf bytes are those of docs/FORMATS.md.
    type Op: Leaf + Copy;

    // The floor of a commit, None of another operation.
    ghost floor_of: { Self.Op → Option ℕ };

    // The key that an operation writes with its new value, which is None of a deletion. None of an operation without a key.
    ghost write_of: { Self.Op → Option (List ℕ × Option (List ℕ)) };

    // The commit with these metadata and this floor.
    ghost commit_of: { Option (List ℕ) → ℕ → Self.Op };

    // The name that is shown.
    ghost shown_name: { List ℕ };

    /// The floor of a commit, None exactly of another operation.
    fn commit_floor(op: &Self::Op) -> Option<Location>
        ensures floor { result ≡ floor_of op.now }
        ensures most { IfSome result (λ f. f ≤ 2 ^ 62) };

    /// The key that the operation writes, None exactly of one without a key.
    fn written_key(op: &Self::Op) -> Option<Key>
        ensures { result ≡ key_written (write_of op.now) };

    /// The value that the operation leaves at its key, None of a deletion and of one without a key.
    fn written_value(op: &Self::Op) -> Option<Value>
        ensures { result ≡ value_written (write_of op.now) };

    /// The commit with these metadata and this floor.
    fn commit(metadata: Option<Value>, floor: Location) -> Self::Op
        ensures { result ≡ commit_of metadata floor };

    /// The name that is shown.
    fn name() -> &'static str
        ensures { result.now ≡ shown_name };

    // A commit has its floor.
    ghost commit_has_floor: { (metadata : Option (List ℕ)) (floor : ℕ) → floor_of (commit_of metadata floor) ≡ Some floor };
}

/// A family whose operations write keys: any, current and immutable.
pub trait KeyedFamily: Family {}

/// A family of which a log can be kept without its operations: immutable and keyless.
pub trait CompactFamily: Family {}
