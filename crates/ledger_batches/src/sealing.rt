//! What a batch is once it is sealed.
ghost use Rattle.std.specs.Prelude.{◌≡◌, ◌⊎◌, ◌+◌, ◌≤◌, ◌^◌, All, IsSome, None, Some, IfOk, IfErr, OnOk, length};
ghost use Rattle.ledger_log.specs.View.{log_size, batch_floor};
ghost use Rattle.ledger_compact.specs.View.{with_ops};
ghost use Rattle.ledger_raising.specs.Raised.{raised, Raises};
ghost use Rattle.ledger_chain.specs.Chain.{ops_of};
ghost use Rattle.ledger_chain.specs.Faults.{refusal_behind};
ghost use Rattle.ledger_batches.specs.Sealing.{link_behind};

use crate::family::BatchFamily;
use ledger_chain::{Link, joined_ops, standing_behind, state_behind};
use ledger_codec::{Digest, OutOfMemory};
use ledger_log::{Family, Log, LogFault, Value};
use ledger_merkle::{Hasher, Location};
use ledger_raising::raise;
use ledger_transfers::Seeded;
use std::alloc::Global;

/// What a batch appends behind its chain, and the root that the database shows then.
#[derive(Drop)]
pub(crate) struct Sealed<F: Family> {
    pub(crate) own: Link<F>,
    pub(crate) root: Digest,
}

/// What a batch with these changes and metadata is behind the log and the batches that this lacks. Refused as the
/// log would refuse the first of those batches and of this one that it doesn't take, and for want of memory.
pub(crate) fn seal<F: BatchFamily, H: Hasher>(
    alloc: Global,
    hashing: Seeded,
    log: &Log<F, H>,
    lacking: &[Link<F>],
    changes: &[F::Op],
    metadata: Option<Value>,
) -> Result<Sealed<F>, LogFault>
    requires { All (λ op. IsSome (F.write_of op)) changes.now }
    ensures may { OnOk result (refusal_behind F.floor_of log.now lacking.now
        (raised F.floor_of F.write_of F.commit_of (with_ops log.now (ops_of lacking.now)) changes.now
        metadata) ≡ None) }
    ensures refuses { IfErr result (λ e. (e ≡ LogFault.OutOfMemory) ⊎
        (refusal_behind F.floor_of log.now lacking.now (raised F.floor_of F.write_of F.commit_of
        (with_ops log.now (ops_of lacking.now)) changes.now metadata) ≡ Some e)) }
    ensures ok { IfOk result (λ sealed. sealed.own ≡ link_behind H.digest F.Op.spelling
        (with_ops log.now (ops_of lacking.now)) (raised F.floor_of F.write_of F.commit_of
        (with_ops log.now (ops_of lacking.now)) changes.now metadata)) }
    ensures root { IfOk result (λ sealed. sealed.root ≡ F.shown_of H.digest
        (with_ops (with_ops log.now (ops_of lacking.now)) sealed.own.ops)) }
    ensures law { IfOk result (λ sealed. Raises F.floor_of F.write_of
        (with_ops log.now (ops_of lacking.now)) changes.now sealed.own.ops) }
{
    let standing = match standing_behind(log, lacking) {
        Ok(standing) => standing,
        Err(fault) => return Err(fault),
    };
    let behind = match joined_ops::<F>(alloc, lacking) {
        Ok(ops) => ops,
        Err(_) => return Err(LogFault::OutOfMemory),
    };
    let batch = match raise(
        alloc,
        log,
        behind.as_slice(),
        standing.floor,
        changes,
        metadata,
    ) {
        Ok(batch) => batch,
        Err(fault) => return Err(fault),
    };
    match sealed_of(alloc, hashing, log, behind, batch.ops, batch.floor) {
        Ok(sealed) => Ok(sealed),
        Err(_) => Err(LogFault::OutOfMemory),
    }
}

/// A batch of these operations behind the log and those that this lacks.
fn sealed_of<F: BatchFamily, H: Hasher>(
    alloc: Global,
    hashing: Seeded,
    log: &Log<F, H>,
    behind: Vec<F::Op>,
    ops: Vec<F::Op>,
    floor: Location,
) -> Result<Sealed<F>, OutOfMemory>
    requires floor { batch_floor F.floor_of ops.items ≡ Some floor }
    requires room { log_size log.now + length behind.items + length ops.items ≤ 2 ^ 62 }
    ensures own { IfOk result (λ sealed. sealed.own ≡ link_behind H.digest F.Op.spelling
        (with_ops log.now behind.items) ops.items) }
    ensures root { IfOk result (λ sealed. sealed.root ≡ F.shown_of H.digest
        (with_ops (with_ops log.now behind.items) ops.items)) }
{
    let mut all = behind;
    all.extend_from_slice(ops.as_slice())?;
    let after = state_behind(alloc, log, all.as_slice())?;
    let root = F::shown_behind(alloc, log, all.as_slice(), &after.root)?;
    let own = Link::new(alloc, hashing, ops, floor, after)?;
    Ok(Sealed { own, root })
}
