//! The families whose batches raise the floor.
ghost use Rattle.std.specs.Prelude.{◌≡◌, ℕ, List, Option, Some, None};

use ledger_activity::CurrentFamily;
use ledger_log::{AnyFamily, AnyOp, Family, Key, KeyedFamily, Value};

/// A family whose operations update and delete keys.
pub trait RaisingFamily: KeyedFamily {
    // The operation that gives a key its value.
    ghost put_of: { List ℕ → List ℕ → Self.Op };

    // The operation that takes a key's value.
    ghost delete_of: { List ℕ → Self.Op };

    /// The operation that gives the key this value.
    fn put(key: Key, value: Value) -> Self::Op
        ensures { result ≡ put_of key value };

    /// The operation that takes the key's value.
    fn delete(key: Key) -> Self::Op
        ensures { result ≡ delete_of key };

    // What these write.
    ghost put_writes: { (key value : List ℕ) → Self.write_of (put_of key value) ≡ Some (key, Some value) };

    ghost delete_writes: { (key : List ℕ) → Self.write_of (delete_of key) ≡ Some (key, None) };

    // An operation that writes a key is no commit.
    ghost writes_are_no_commits: { (op : Self.Op) (write : List ℕ × Option (List ℕ)) → Self.write_of op ≡ Some write → Self.floor_of op ≡ None };
}

impl RaisingFamily for AnyFamily {
    ghost use Rattle.ledger_raising.specs.Updates.{update, deletion, update_writes, deletion_writes, no_commit};

    ghost put_of = { update };

    ghost delete_of = { deletion };

    fn put(key: Key, value: Value) -> AnyOp {
        AnyOp::Update(key, value)
    }

    fn delete(key: Key) -> AnyOp {
        AnyOp::Delete(key)
    }

    ghost put_writes = { update_writes };

    ghost delete_writes = { deletion_writes };

    ghost writes_are_no_commits = { no_commit };
}

impl RaisingFamily for CurrentFamily {
    ghost use Rattle.ledger_raising.specs.Updates.{update, deletion, update_writes, deletion_writes, no_commit};

    ghost put_of = { update };

    ghost delete_of = { deletion };

    fn put(key: Key, value: Value) -> AnyOp {
        AnyOp::Update(key, value)
    }

    fn delete(key: Key) -> AnyOp {
        AnyOp::Delete(key)
    }

    ghost put_writes = { update_writes };

    ghost delete_writes = { deletion_writes };

    ghost writes_are_no_commits = { no_commit };
}
