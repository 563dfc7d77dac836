//! What a walk from the end of a log has met.
ghost use Rattle.std.specs.Prelude.{◌≡◌, [], ◌∷◌, List as Items, IfOk, OnOk};
ghost use Rattle.ledger_log.specs.declared.any.AnyOp.{AnyOp as Op};
ghost use Rattle.ledger_activity.specs.Active.{IsLater, is_active};

use ledger_codec::OutOfMemory;
use ledger_log::{AnyOp, Key};
use std::alloc::Global;
use std::collections::BTreeSet;

/// The keys that later operations write, and whether one of them is a commit.
#[derive(Drop)]
pub(crate) struct Later {
    keys: BTreeSet<Key>,
    commit: bool,
}

impl Later {
    /// No operations yet.
    pub(crate) fn new(alloc: Global) -> Later
        ensures { IsLater result [] }
    {
        Later {
            keys: BTreeSet::new(alloc),
            commit: false,
        }
    }

    /// Whether the operation is active before those that were met, of which it then is the first.
    pub(crate) fn meet(&mut self, op: &AnyOp) -> Result<bool, OutOfMemory>
        ensures active { (ops : Items Op) →
            IsLater self.old ops →
            IfOk result (λ active. active ≡ is_active op.now ops) }
        ensures met { (ops : Items Op) → IsLater self.old ops
            → OnOk result (IsLater self.new (op.now ∷ ops)) }
    {
        match op {
            AnyOp::Update(key, _) => Ok(self.keys.insert(*key)?),
            AnyOp::Delete(key) => {
                self.keys.insert(*key)?;
                Ok(false)
            }
            AnyOp::CommitFloor(_, _) => {
                let last = !self.commit;
                self.commit = true;
                Ok(last)
            }
        }
    }
}
