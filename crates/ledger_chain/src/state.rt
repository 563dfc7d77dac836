//! The state of a database.
ghost use Rattle.std.specs.Prelude.{◌≡◌, ◌+◌, ◌≤◌, ◌^◌, length, IfOk};
ghost use Rattle.ledger_log.specs.View.{log_size};
ghost use Rattle.ledger_compact.specs.View.{with_ops};
ghost use Rattle.ledger_chain.specs.Chain.{state_of};

use ledger_codec::{Digest, OutOfMemory};
use ledger_log::{Family, Log};
use ledger_merkle::{Hasher, Location};
use ledger_raising::root_behind;
use std::alloc::Global;

/// What a batch knows a database by: how many operations it has, and the root over them.
#[derive(Clone, Copy, PartialEq, Eq, Debug)]
pub struct State {
    pub size: Location,
    pub root: Digest,
}

/// The state of a database.
pub fn state_of<F: Family, H: Hasher>(db: &Log<F, H>) -> State
    ensures { result ≡ state_of H.digest F.Op.spelling db.now }
{
    State {
        size: db.size(),
        root: db.root(),
    }
}

/// The state that the database has once these operations stand behind it.
pub fn state_behind<F: Family, H: Hasher>(
    alloc: Global,
    db: &Log<F, H>,
    ops: &[F::Op],
) -> Result<State, OutOfMemory>
    requires { log_size db.now + length ops.now ≤ 2 ^ 62 }
    ensures { IfOk result (λ state. state ≡ state_of H.digest F.Op.spelling (with_ops db.now ops.now)) }
{
    let size = db.size().plus(ops.len() as u64);
    let root = root_behind(alloc, db, ops)?;
    Ok(State { size, root })
}
