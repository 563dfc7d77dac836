//! Transfers, and what a batch of them touches.
ghost use Rattle.std.specs.Prelude.{◌≡◌, ◌++◌, ◌∷◌, [], List, OnOk, IfOk, filter, not};
ghost use Rattle.ledger_transfers.specs.Changes.{is_empty_change};
ghost use Rattle.ledger_transfers.specs.Touches.{touches};
ghost use Rattle.ledger_transfers.specs.declared.change.Change.{Change as ChangeOf};

use crate::account::Account;
use crate::change::Change;
use ledger_codec::OutOfMemory;
use std::alloc::Global;
use std::hash::Hash;

/// What moves value between accounts.
pub trait Transfer: Send + Sync {
    type Key: Copy + Eq + Hash + Send + Sync;

    type Account: Account;

    /// The transfer's changes with their keys, a function of the transfer alone.
    ghost changes_of: { Self → List (Self.Key × ChangeOf Self.Account.Effect) };

    /// Appends the transfer's changes. After a refusal `out` may hold some of them.
    fn changes(
        &self,
        out: &mut Vec<(Self::Key, Change<<Self::Account as Account>::Effect>)>,
    ) -> Result<(), OutOfMemory>
        ensures { OnOk result (out.new.items ≡ out.old.items ++ changes_of self.now) };
}

/// The touches of a batch: its transfers' changes in order, with their keys, without the empty ones.
pub fn touches_of<T: Transfer>(
    alloc: Global,
    transfers: &[T],
) -> Result<Vec<(T::Key, Change<<T::Account as Account>::Effect>)>, OutOfMemory>
    ensures { IfOk result (λ out. out.items ≡ touches T.changes_of transfers.now) }
{
    let mut all = Vec::new(alloc);
    for transfer in transfers {
        transfer.changes(&mut all)?;
    }
    drop_empty(&mut all);
    Ok(all)
}

/// Fills `out` with the touches of one transfer, in place of what it held. After a refusal it may hold some of them.
pub(crate) fn touches_into<T: Transfer>(
    transfer: &T,
    out: &mut Vec<(T::Key, Change<<T::Account as Account>::Effect>)>,
) -> Result<(), OutOfMemory>
    ensures { OnOk result (out.new.items ≡ touches T.changes_of (transfer.now ∷ [])) }
{
    out.clear();
    transfer.changes(out)?;
    drop_empty(out);
    Ok(())
}

/// Takes out the empty changes.
fn drop_empty<K: Copy, E: Copy>(all: &mut Vec<(K, Change<E>)>)
    ensures { all.new.items ≡ filter (λ t. not (is_empty_change t.1)) all.old.items }
{
    all.retain(|touch| !touch.1.is_empty());
}
