//! The bits of a log, and its canonical root.
ghost use Rattle.std.specs.Prelude.{◌≡◌, ℕ, Bool, false, List as Items, IsOkUnless, IfOk, length, replicate, ◌++◌};
ghost use Rattle.ledger_activity.specs.Active.{activity, log_bits};

use crate::CurrentFamily;
use crate::behind::bits_behind;
use crate::chunks::{hash_canonical, root_of_bits};
use ledger_codec::{Digest, OutOfMemory};
use ledger_log::{Family, Log, LogFault};
use ledger_merkle::{Hasher, Location};
use std::alloc::Global;

/// A log that tells which of its operations are active.
pub trait Activity {
    // A bit for each place.
    ghost active: { Self → Items Bool };

    // The root over operations and bits.
    ghost canonical: { Self → Items ℕ };

    /// A bit for each place, in order: whether its operation is an Update that is its key's last operation, or
    /// the last commit. None is set below the front. Refused for want of memory alone.
    fn bits(&self) -> Result<Vec<bool>, LogFault>
        ensures may { IsOkUnless result LogFault.OutOfMemory }
        ensures ok { IfOk result (λ bits. bits.items ≡ active self.now) };

    /// The root over the operations root and the bits. Refused for want of memory alone.
    fn current_root(&self) -> Result<Digest, LogFault>
        ensures may { IsOkUnless result LogFault.OutOfMemory }
        ensures ok { IfOk result (λ root. root ≡ canonical self.now) };
}

impl<H: Hasher> Activity for Log<CurrentFamily, H> {
    ghost use Rattle.ledger_log.specs.Any.{any_spelling};
    ghost use Rattle.ledger_log.specs.View.{log_root};
    ghost use Rattle.ledger_activity.specs.Chunks.{bits_root, canonical_root};

    ghost active = { log_bits };

    ghost canonical = { λ log. canonical_root H.digest (log_root H.digest any_spelling log) (bits_root H.digest (log_bits log)) };

    fn bits(&self) -> Result<Vec<bool>, LogFault> {
        let alloc = allocator_of(self)?;
        let retained = active_bits(alloc, self)?;
        let front = self.front().get() as usize;
        Ok(all_bits(alloc, front, retained.as_slice())?)
    }

    fn current_root(&self) -> Result<Digest, LogFault> {
        let alloc = allocator_of(self)?;
        let retained = active_bits(alloc, self)?;
        let front = self.front().get() as usize;
        let _size = self.size();
        let root_of_bits = root_of_bits::<H>(alloc, front, retained.as_slice())?;
        Ok(hash_canonical::<H>(&self.root(), &root_of_bits))
    }
}

/// The allocator of a log: the log doesn't tell it, but the lists that it hands out do.
fn allocator_of<F: Family, H: Hasher>(log: &Log<F, H>) -> Result<Global, OutOfMemory> {
    match log.pinned_nodes_at(log.size()) {
        Ok(nodes) => Ok(*nodes.allocator()),
        Err(_) => Err(OutOfMemory),
    }
}

/// A bit for each place: none is set below the front.
fn all_bits(alloc: Global, front: usize, retained: &[bool]) -> Result<Vec<bool>, OutOfMemory>
    ensures { IfOk result (λ bits. bits.items ≡ replicate front false ++ retained.now) }
{
    let mut bits = Vec::from_elem(alloc, false, front)?;
    bits.extend_from_slice(retained)?;
    Ok(bits)
}

/// The bits of the retained operations.
fn active_bits<H: Hasher>(
    alloc: Global,
    log: &Log<CurrentFamily, H>,
) -> Result<Vec<bool>, OutOfMemory>
    ensures bits { IfOk result (λ bits. bits.items ≡ activity log.now.ops) }
    ensures count { IfOk result (λ bits. length bits.items ≡ length log.now.ops) }
{
    let _size = log.size();
    bits_behind(alloc, log, &[])
}
