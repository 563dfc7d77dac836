//! How a sealed batch of sets comes into the log.
ghost use Rattle.std.specs.Prelude.{◌≡◌, ◌⊎◌, None, Some, Err, IfErr, IfSome, OnOk, OnErr};
ghost use Rattle.ledger_chain.specs.Faults.{stale_batch};
ghost use Rattle.ledger_sets.specs.Meaning.{with_links, with_taken, StandFirst, first_refusal, refusal_behind, lacking, completed, apply_refusal};

use crate::sealed::SealedSets;
use crate::store::SetLog;
use ledger_chain::{Link, ManagedFault};
use ledger_log::{ImmutableFamily, ImmutableOp, LogFault};

/// Appends the batches of the chain that the log lacks, and then the sealed batch, one after another. Refused
/// exactly where the log's size and root are no state before the batch, with these, which leaves it as it was; then
/// as the log refuses the first of those batches that it doesn't take, behind those before it; and for want of
/// memory, behind some first ones.
pub fn apply<D: SetLog>(db: &mut D, batch: SealedSets<D>) -> Result<(), ManagedFault>
    ensures stale { IfSome (stale_batch batch.chain (D.meaning.state db.old))
        (λ fault. result ≡ Err fault) }
    ensures may { OnOk result (apply_refusal D.meaning batch db.old ≡ None) }
    ensures refuses { IfErr result (λ e. (e ≡ ManagedFault.OutOfMemory) ⊎
        (apply_refusal D.meaning batch db.old ≡ Some e)) }
    ensures ok { OnOk result (db.new
        ≡ D.meaning.behind (completed D.meaning batch.chain db.old) batch.own.ops) }
    ensures first { OnErr result (StandFirst D.meaning db.old (lacking D.meaning batch.chain db.old)
        db.new) }
    ensures taken { IfErr result (λ e. (e ≡ ManagedFault.OutOfMemory)
        ⊎ (db.new ≡ with_taken D.meaning db.old (lacking D.meaning batch.chain db.old))) }
{
    let state = db.known_state();
    match batch.chain().lacking(&state) {
        Some(links) => match take_all(db, links, batch.ops()) {
            Ok(()) => Ok(()),
            Err(fault) => Err(ManagedFault::from(fault)),
        },
        None => Err(ManagedFault::StaleBatch {
            size: state.size,
            root: state.root,
        }),
    }
}

/// Appends these batches and a batch of these operations, up to the first that is refused.
fn take_all<D: SetLog>(
    log: &mut D,
    links: &[Link<ImmutableFamily>],
    ops: &[ImmutableOp],
) -> Result<(), LogFault>
    ensures may { OnOk result (refusal_behind D.meaning log.old links.now ops.now ≡ None) }
    ensures refuses { IfErr result (λ e. (e ≡ LogFault.OutOfMemory) ⊎
        (refusal_behind D.meaning log.old links.now ops.now ≡ Some e)) }
    ensures ok { OnOk result (log.new ≡ D.meaning.behind (with_links D.meaning log.old links.now) ops.now) }
    ensures first { OnErr result (StandFirst D.meaning log.old links.now log.new) }
    ensures taken { IfErr result (λ e. (e ≡ LogFault.OutOfMemory)
        ⊎ (log.new ≡ with_taken D.meaning log.old links.now)) }
{
    match take_links(log, links) {
        Ok(()) => {}
        Err(fault) => return Err(fault),
    }
    match log.take_batch(ops) {
        Ok(()) => Ok(()),
        Err(fault) => Err(fault),
    }
}

/// Appends these batches, up to the first that is refused.
fn take_links<D: SetLog>(log: &mut D, links: &[Link<ImmutableFamily>]) -> Result<(), LogFault>
    ensures may { OnOk result (first_refusal D.meaning log.old links.now ≡ None) }
    ensures refuses { IfErr result (λ e. (e ≡ LogFault.OutOfMemory) ⊎
        (first_refusal D.meaning log.old links.now ≡ Some e)) }
    ensures ok { OnOk result (log.new ≡ with_links D.meaning log.old links.now) }
    ensures all { OnOk result (log.new ≡ with_taken D.meaning log.old links.now) }
    ensures first { StandFirst D.meaning log.old links.now log.new }
    ensures taken { IfErr result (λ e. (e ≡ LogFault.OutOfMemory)
        ⊎ (log.new ≡ with_taken D.meaning log.old links.now)) }
{
    for link in links {
        match log.take_batch(link.ops()) {
            Ok(()) => {}
            Err(fault) => return Err(fault),
        }
    }
    Ok(())
}
