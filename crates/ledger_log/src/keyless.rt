//! The family keyless: values are appended.
ghost use Rattle.std.specs.Prelude.{◌≡◌, codes};
ghost use Rattle.ledger_log.specs.declared.keyless.KeylessOp.{KeylessOp};

use crate::bytes::{put, put_commit, put_value};
use crate::{CompactFamily, Family, Key, Value};
use ledger_merkle::{Leaf, Location};

/// An operation of the family keyless.
#[derive(Clone, Copy, PartialEq, Eq, Debug)]
pub enum KeylessOp {
    /// This value stands here.
    Append(Value),
    /// What was written so far is one batch, with these metadata, and nobody needs what lies below this floor.
    Commit(Option<Value>, Location),
}

impl Leaf for KeylessOp {
    ghost use Rattle.ledger_log.specs.Keyless.{keyless_spelling, IsSoundKeyless, keyless_distinct};

    ghost spelling = { keyless_spelling };

    ghost sound = { IsSoundKeyless };

    fn leaf_bytes(&self, out: &mut [u8; 96]) -> usize {
        match self {
            KeylessOp::Append(value) => {
                let tag_end = put(out, 0, &[0]);
                put_value(out, tag_end, *value)
            }
            KeylessOp::Commit(metadata, floor) => {
                let tag_end = put(out, 0, &[1]);
                put_commit(out, tag_end, metadata, *floor)
            }
        }
    }

    ghost distinct = { keyless_distinct };
}

/// The family keyless.
#[derive(Drop)]
pub struct KeylessFamily;

impl Family for KeylessFamily {
    ghost use Rattle.ledger_log.specs.Keyless.{keyless_floor, keyless_write, keyless_commit, keyless_commit_has_floor};

    type Op = KeylessOp;

    ghost floor_of = { keyless_floor };

    ghost write_of = { keyless_write };

    ghost commit_of = { keyless_commit };

    ghost shown_name = { codes "keyless" };

    fn commit_floor(op: &KeylessOp) -> Option<Location> {
        match op {
            KeylessOp::Commit(_, floor) => {
                let _ = floor.get();
                Some(*floor)
            }
            KeylessOp::Append(_) => None,
        }
    }

    fn written_key(_op: &KeylessOp) -> Option<Key> {
        None
    }

    fn written_value(_op: &KeylessOp) -> Option<Value> {
        None
    }

    fn commit(metadata: Option<Value>, floor: Location) -> KeylessOp {
        KeylessOp::Commit(metadata, floor)
    }

    fn name() -> &'static str {
        "keyless"
    }

    ghost commit_has_floor = { keyless_commit_has_floor };
}

impl CompactFamily for KeylessFamily {}
