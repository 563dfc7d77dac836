//! How a sealed batch comes into the database.
ghost use Rattle.std.specs.Prelude.{◌≡◌, ◌⊎◌, None, Some, Err, IfErr, IfSome, OnOk, OnErr};
ghost use Rattle.ledger_compact.specs.View.{with_ops};
ghost use Rattle.ledger_chain.specs.Chain.{state_of, ops_of};
ghost use Rattle.ledger_chain.specs.Faults.{stale_batch, first_refusal, refusal_behind};
ghost use Rattle.ledger_batches.specs.Batches.{body_of};
ghost use Rattle.ledger_batches.specs.Sealing.{lacking, completed, apply_refusal};
ghost use Rattle.ledger_batches.specs.Applying.{StandFirst, with_taken};

use crate::merkleized::Merkleized;
use ledger_chain::{Link, ManagedFault, state_of};
use ledger_log::{Family, Log, LogFault};
use ledger_merkle::Hasher;

/// Appends the batches of the chain that the database lacks, and then the sealed batch, one after another. Refused
/// exactly where the database's size and root are no state before the batch, with these, which leaves it as it
/// was; then as the log refuses the first of those batches that it doesn't take, behind those before it; and for
/// want of memory, behind some first ones.
pub fn apply<F: Family, H: Hasher>(
    db: &mut Log<F, H>,
    batch: Merkleized<F>,
) -> Result<(), ManagedFault>
    ensures stale { IfSome (stale_batch batch.chain (state_of H.digest F.Op.spelling db.old))
        (λ fault. result ≡ Err fault) }
    ensures may { OnOk result (apply_refusal H.digest F.Op.spelling F.floor_of (body_of batch) db.old
        ≡ None) }
    ensures refuses { IfErr result (λ e. (e ≡ ManagedFault.OutOfMemory) ⊎
        (apply_refusal H.digest F.Op.spelling F.floor_of (body_of batch) db.old ≡ Some e)) }
    ensures ok { OnOk result (db.new ≡ with_ops (completed H.digest F.Op.spelling batch.chain db.old)
        batch.own.ops) }
    ensures first { OnErr result (StandFirst db.old (lacking H.digest F.Op.spelling batch.chain db.old)
        db.new) }
    ensures taken { IfErr result (λ e. (e ≡ ManagedFault.OutOfMemory) ⊎ (db.new
        ≡ with_taken F.floor_of db.old (lacking H.digest F.Op.spelling batch.chain db.old))) }
{
    let state = state_of(db);
    match batch.chain().lacking(&state) {
        Some(links) => match append_all(db, links, batch.ops()) {
            Ok(()) => Ok(()),
            Err(fault) => Err(ManagedFault::from(fault)),
        },
        None => Err(ManagedFault::StaleBatch {
            size: state.size,
            root: state.root,
        }),
    }
}

/// Appends these batches and a batch of these operations, up to the first that is refused.
fn append_all<F: Family, H: Hasher>(
    log: &mut Log<F, H>,
    links: &[Link<F>],
    ops: &[F::Op],
) -> Result<(), LogFault>
    ensures may { OnOk result (refusal_behind F.floor_of log.old links.now ops.now ≡ None) }
    ensures refuses { IfErr result (λ e. (e ≡ LogFault.OutOfMemory) ⊎
        (refusal_behind F.floor_of log.old links.now ops.now ≡ Some e)) }
    ensures ok { OnOk result (log.new ≡ with_ops (with_ops log.old (ops_of links.now)) ops.now) }
    ensures first { OnErr result (StandFirst log.old links.now log.new) }
    ensures taken { IfErr result (λ e. (e ≡ LogFault.OutOfMemory)
        ⊎ (log.new ≡ with_taken F.floor_of log.old links.now)) }
{
    match append_links(log, links) {
        Ok(()) => {}
        Err(fault) => return Err(fault),
    }
    match log.append_batch(ops) {
        Ok(()) => Ok(()),
        Err(fault) => Err(fault),
    }
}

/// Appends these batches, up to the first that is refused.
fn append_links<F: Family, H: Hasher>(
    log: &mut Log<F, H>,
    links: &[Link<F>],
) -> Result<(), LogFault>
    ensures may { OnOk result (first_refusal F.floor_of log.old links.now ≡ None) }
    ensures refuses { IfErr result (λ e. (e ≡ LogFault.OutOfMemory) ⊎
        (first_refusal F.floor_of log.old links.now ≡ Some e)) }
    ensures ok { OnOk result (log.new ≡ with_ops log.old (ops_of links.now)) }
    ensures all { OnOk result (log.new ≡ with_taken F.floor_of log.old links.now) }
    ensures first { StandFirst log.old links.now log.new }
    ensures taken { IfErr result (λ e. (e ≡ LogFault.OutOfMemory)
        ⊎ (log.new ≡ with_taken F.floor_of log.old links.now)) }
{
    for link in links {
        match log.append_batch(link.ops()) {
            Ok(()) => {}
            Err(fault) => return Err(fault),
        }
    }
    Ok(())
}
