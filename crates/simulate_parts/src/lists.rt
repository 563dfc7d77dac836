//! Lists that grow, and copies of bytes.
ghost use Rattle.std.specs.Prelude.{◌≡◌, ◌++◌, ◌∷◌, [], IfOk, OnErr, OnOk};

use ledger_codec::{List, OutOfMemory};
use std::alloc::Global;
use std::mem;

/// A copy of these bytes.
pub fn copy_bytes(alloc: Global, bytes: &[u8]) -> Result<List<u8>, OutOfMemory>
    ensures { IfOk result (λ copy. copy ≡ bytes.now) }
{
    Ok(List::from_vec(Vec::from_slice(alloc, bytes)?))
}

/// A copy of these lists of bytes.
pub fn copy_lists(alloc: Global, lists: &[List<u8>]) -> Result<Vec<List<u8>>, OutOfMemory>
    ensures { IfOk result (λ copy. copy.items ≡ lists.now) }
{
    let mut copies = Vec::new(alloc);
    for list in lists {
        copies.push(copy_bytes(alloc, list.as_slice())?)?;
    }
    Ok(copies)
}

/// A copy of these items.
pub fn copy_items<T: Copy>(alloc: Global, items: &[T]) -> Result<List<T>, OutOfMemory>
    ensures { IfOk result (λ copy. copy ≡ items.now) }
{
    Ok(List::from_vec(Vec::from_slice(alloc, items)?))
}

/// Puts an item at the end of a list. A refused call leaves the list.
pub fn push<T: Drop>(alloc: Global, list: &mut List<T>, item: T) -> Result<(), OutOfMemory>
    ensures ok { OnOk result (list.new ≡ list.old ++ item ∷ []) }
    ensures err { OnErr result (list.new ≡ list.old) }
{
    let mut items = mem::replace(list, List::new(alloc)).into_vec();
    let pushed = items.push(item);
    *list = List::from_vec(items);
    match pushed {
        Ok(()) => Ok(()),
        Err(_) => Err(OutOfMemory),
    }
}
