//! What a batch of sets is once it is sealed.
ghost use Rattle.std.specs.Prelude.{◌≡◌, ◌⊎◌, ◌+◌, ◌≤◌, ◌^◌, None, Some, Err, MatchOption, IsOk, IfOk, IfErr, OnOk, length};
ghost use Rattle.ledger_log.specs.Immutable.{immutable_floor};
ghost use Rattle.ledger_log.specs.View.{batch_floor};
ghost use Rattle.ledger_sets.specs.Meaning.{with_links, first_refusal, refusal_behind, link_behind};

use crate::store::SetLog;
use ledger_chain::{Link, Standing, joined_ops};
use ledger_codec::OutOfMemory;
use ledger_log::{ImmutableFamily, ImmutableOp, LogFault};
use ledger_merkle::Location;
use ledger_transfers::Seeded;
use std::alloc::Global;

/// What a batch of these operations is behind the log and the batches that this lacks. Refused as the log would
/// refuse the first of those batches and of this one that it doesn't take, and for want of memory.
pub(crate) fn seal<D: SetLog>(
    alloc: Global,
    hashing: Seeded,
    db: &D,
    lacking: &[Link<ImmutableFamily>],
    ops: Vec<ImmutableOp>,
) -> Result<Link<ImmutableFamily>, LogFault>
    ensures may { OnOk result (refusal_behind D.meaning db.now lacking.now ops.items ≡ None) }
    ensures refuses { IfErr result (λ e. (e ≡ LogFault.OutOfMemory) ⊎
        (refusal_behind D.meaning db.now lacking.now ops.items ≡ Some e)) }
    ensures ok { IfOk result (λ link. link
        ≡ link_behind D.meaning (with_links D.meaning db.now lacking.now) ops.items) }
{
    let standing = match standing_behind(db, lacking) {
        Ok(standing) => standing,
        Err(fault) => return Err(fault),
    };
    let next = match standing.behind::<ImmutableFamily>(ops.as_slice()) {
        Ok(next) => next,
        Err(fault) => return Err(fault),
    };
    match link_of(alloc, hashing, db, lacking, ops, next.floor) {
        Ok(link) => Ok(link),
        Err(_) => Err(LogFault::OutOfMemory),
    }
}

/// Where the log stands with these batches behind it. Refused as the log refuses the first of them that it
/// doesn't take. It takes no memory.
fn standing_behind<D: SetLog>(db: &D, links: &[Link<ImmutableFamily>]) -> Result<Standing, LogFault>
    ensures refusal { MatchOption (first_refusal D.meaning db.now links.now) (IsOk result)
        (λ fault. result ≡ Err fault) }
    ensures size { IfOk result (λ now. now.size
        ≡ (D.meaning.state (with_links D.meaning db.now links.now)).size) }
    ensures floor { IfOk result (λ now. now.floor
        ≡ D.meaning.floor (with_links D.meaning db.now links.now)) }
{
    let mut standing = db.standing();
    for link in links {
        standing = match standing.behind::<ImmutableFamily>(link.ops()) {
            Ok(next) => next,
            Err(fault) => return Err(fault),
        };
    }
    Ok(standing)
}

/// A batch of these operations behind the log and the batches that this lacks.
fn link_of<D: SetLog>(
    alloc: Global,
    hashing: Seeded,
    db: &D,
    lacking: &[Link<ImmutableFamily>],
    ops: Vec<ImmutableOp>,
    floor: Location,
) -> Result<Link<ImmutableFamily>, OutOfMemory>
    requires floor { batch_floor immutable_floor ops.items ≡ Some floor }
    requires room { (D.meaning.state (with_links D.meaning db.now lacking.now)).size + length ops.items
        ≤ 2 ^ 62 }
    ensures { IfOk result (λ link. link
        ≡ link_behind D.meaning (with_links D.meaning db.now lacking.now) ops.items) }
{
    let mut all = joined_ops::<ImmutableFamily>(alloc, lacking)?;
    all.extend_from_slice(ops.as_slice())?;
    let after = db.state_behind(alloc, all.as_slice())?;
    Link::new(alloc, hashing, ops, floor, after)
}
