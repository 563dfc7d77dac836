//! The family any: keys are updated and deleted.
ghost use Rattle.std.specs.Prelude.{◌≡◌, codes};
ghost use Rattle.ledger_log.specs.declared.any.AnyOp.{AnyOp};

use crate::bytes::{put, put_commit, put_value};
use crate::{Family, Key, KeyedFamily, Value};
use ledger_merkle::{Leaf, Location};

/// An operation of the families any and current.
#[derive(Clone, Copy, PartialEq, Eq, Debug)]
pub enum AnyOp {
    /// The key has this value.
    Update(Key, Value),
    /// The key has no value.
    Delete(Key),
    /// What was written so far is one batch, with these metadata, and nobody needs what lies below this floor.
    CommitFloor(Option<Value>, Location),
}

impl Leaf for AnyOp {
    ghost use Rattle.ledger_log.specs.Any.{any_spelling, IsSoundAny, any_distinct};

    ghost spelling = { any_spelling };

    ghost sound = { IsSoundAny };

    fn leaf_bytes(&self, out: &mut [u8; 96]) -> usize {
        match self {
            AnyOp::Update(key, value) => {
                let tag_end = put(out, 0, &[0]);
                let key_end = put_value(out, tag_end, *key);
                put_value(out, key_end, *value)
            }
            AnyOp::Delete(key) => {
                let tag_end = put(out, 0, &[1]);
                put_value(out, tag_end, *key)
            }
            AnyOp::CommitFloor(metadata, floor) => {
                let tag_end = put(out, 0, &[2]);
                put_commit(out, tag_end, metadata, *floor)
            }
        }
    }

    ghost distinct = { any_distinct };
}

/// The family any.
#[derive(Drop)]
pub struct AnyFamily;

impl Family for AnyFamily {
    ghost use Rattle.ledger_log.specs.Any.{any_floor, any_write, any_commit, any_commit_has_floor};

    type Op = AnyOp;

    ghost floor_of = { any_floor };

    ghost write_of = { any_write };

    ghost commit_of = { any_commit };

    ghost shown_name = { codes "any" };

    fn commit_floor(op: &AnyOp) -> Option<Location> {
        match op {
            AnyOp::CommitFloor(_, floor) => {
                let _ = floor.get();
                Some(*floor)
            }
            _ => None,
        }
    }

    fn written_key(op: &AnyOp) -> Option<Key> {
        match op {
            AnyOp::Update(key, _) => Some(*key),
            AnyOp::Delete(key) => Some(*key),
            AnyOp::CommitFloor(_, _) => None,
        }
    }

    fn written_value(op: &AnyOp) -> Option<Value> {
        match op {
            AnyOp::Update(_, value) => Some(*value),
            _ => None,
        }
    }

    fn commit(metadata: Option<Value>, floor: Location) -> AnyOp {
        AnyOp::CommitFloor(metadata, floor)
    }

    fn name() -> &'static str {
        "any"
    }

    ghost commit_has_floor = { any_commit_has_floor };
}

impl KeyedFamily for AnyFamily {}
