//! The family current: that of any under a name of its own.
ghost use Rattle.std.specs.Prelude.{◌≡◌, codes};

use ledger_log::{AnyFamily, AnyOp, Family, Key, KeyedFamily, Value};
use ledger_merkle::Location;

/// The family current: the operations of any, of logs that tell which of them are active.
#[derive(Drop)]
pub struct CurrentFamily;

impl Family for CurrentFamily {
    ghost use Rattle.ledger_log.specs.Any.{any_floor, any_write, any_commit, any_commit_has_floor};

    type Op = AnyOp;

    ghost floor_of = { any_floor };

    ghost write_of = { any_write };

    ghost commit_of = { any_commit };

    ghost shown_name = { codes "current" };

    fn commit_floor(op: &AnyOp) -> Option<Location> {
        AnyFamily::commit_floor(op)
    }

    fn written_key(op: &AnyOp) -> Option<Key> {
        AnyFamily::written_key(op)
    }

    fn written_value(op: &AnyOp) -> Option<Value> {
        AnyFamily::written_value(op)
    }

    fn commit(metadata: Option<Value>, floor: Location) -> AnyOp {
        AnyFamily::commit(metadata, floor)
    }

    fn name() -> &'static str {
        "current"
    }

    ghost commit_has_floor = { any_commit_has_floor };
}

impl KeyedFamily for CurrentFamily {}
