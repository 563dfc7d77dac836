//! The family immutable: keys are set.
ghost use Rattle.std.specs.Prelude.{◌≡◌, codes};
ghost use Rattle.ledger_log.specs.declared.immutable.ImmutableOp.{ImmutableOp};

use crate::bytes::{put, put_commit, put_value};
use crate::{CompactFamily, Family, Key, KeyedFamily, Value};
use ledger_merkle::{Leaf, Location};

/// An operation of the family immutable.
#[derive(Clone, Copy, PartialEq, Eq, Debug)]
pub enum ImmutableOp {
    /// The key has this value.
    Set(Key, Value),
    /// What was written so far is one batch, with these metadata, and nobody needs what lies below this floor.
    Commit(Option<Value>, Location),
}

impl Leaf for ImmutableOp {
    ghost use Rattle.ledger_log.specs.Immutable.{immutable_spelling, IsSoundImmutable, immutable_distinct};

    ghost spelling = { immutable_spelling };

    ghost sound = { IsSoundImmutable };

    fn leaf_bytes(&self, out: &mut [u8; 96]) -> usize {
        match self {
            ImmutableOp::Set(key, value) => {
                let tag_end = put(out, 0, &[0]);
                let key_end = put_value(out, tag_end, *key);
                put_value(out, key_end, *value)
            }
            ImmutableOp::Commit(metadata, floor) => {
                let tag_end = put(out, 0, &[1]);
                put_commit(out, tag_end, metadata, *floor)
            }
        }
    }

    ghost distinct = { immutable_distinct };
}

/// The family immutable.
#[derive(Drop)]
pub struct ImmutableFamily;

impl Family for ImmutableFamily {
    ghost use Rattle.ledger_log.specs.Immutable.{immutable_floor, immutable_write, immutable_commit, immutable_commit_has_floor};

    type Op = ImmutableOp;

    ghost floor_of = { immutable_floor };

    ghost write_of = { immutable_write };

    ghost commit_of = { immutable_commit };

    ghost shown_name = { codes "immutable" };

    fn commit_floor(op: &ImmutableOp) -> Option<Location> {
        match op {
            ImmutableOp::Commit(_, floor) => {
                let _ = floor.get();
                Some(*floor)
            }
            ImmutableOp::Set(_, _) => None,
        }
    }

    fn written_key(op: &ImmutableOp) -> Option<Key> {
        match op {
            ImmutableOp::Set(key, _) => Some(*key),
            ImmutableOp::Commit(_, _) => None,
        }
    }

    fn written_value(op: &ImmutableOp) -> Option<Value> {
        match op {
            ImmutableOp::Set(_, value) => Some(*value),
            ImmutableOp::Commit(_, _) => None,
        }
    }

    fn commit(metadata: Option<Value>, floor: Location) -> ImmutableOp {
        ImmutableOp::Commit(metadata, floor)
    }

    fn name() -> &'static str {
        "immutable"
    }

    ghost commit_has_floor = { immutable_commit_has_floor };
}

impl KeyedFamily for ImmutableFamily {}

impl CompactFamily for ImmutableFamily {}
