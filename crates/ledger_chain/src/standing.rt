//! Where a log stands with batches behind it.
ghost use Rattle.std.specs.Prelude.{◌≡◌, ◌+◌, ◌<◌, ◌≤◌, ◌^◌, Some, Err, MatchOption, IsOk, IfOk, length, take, drop};
ghost use Rattle.ledger_log.specs.View.{log_size, log_floor, batch_floor};
ghost use Rattle.ledger_log.specs.Faults.{batch_refusal};
ghost use Rattle.ledger_compact.specs.View.{with_ops};
ghost use Rattle.ledger_chain.specs.Chain.{ops_of};
ghost use Rattle.ledger_chain.specs.Faults.{first_refusal};

use crate::link::Link;
use ledger_codec::OutOfMemory;
use ledger_compact::admit;
use ledger_log::{Family, Log, LogFault};
use ledger_merkle::{Hasher, Location};
use std::alloc::Global;

/// Where a log stands: its size and its floor.
#[derive(Clone, Copy)]
pub struct Standing {
    pub size: Location,
    pub floor: Location,
}

impl Standing {
    /// Where a log that stands here stands with a batch of these operations behind it. Refused as the log refuses
    /// the batch. It takes no memory.
    pub fn behind<F: Family>(self, ops: &[F::Op]) -> Result<Standing, LogFault>
        ensures refusal { MatchOption
            (batch_refusal self.size self.floor (length ops.now) (batch_floor F.floor_of ops.now)) (IsOk result)
            (λ fault. result ≡ Err fault) }
        ensures size { IfOk result (λ next. next.size ≡ self.size + length ops.now) }
        ensures floor { IfOk result (λ next. batch_floor F.floor_of ops.now ≡ Some next.floor) }
        ensures least { IfOk result (λ next. self.floor ≤ next.floor) }
        ensures low { IfOk result (λ next. next.floor < next.size) }
        ensures room { IfOk result (λ next. next.size ≤ 2 ^ 62) }
    {
        match admit::<F>(self.size, self.floor, ops) {
            Ok(floor) => Ok(Standing {
                size: self.size.plus(ops.len() as u64),
                floor,
            }),
            Err(fault) => Err(fault),
        }
    }
}

/// Where the log stands with these batches behind it. Refused as the log refuses the first of them that it
/// doesn't take. It takes no memory.
pub fn standing_behind<F: Family, H: Hasher>(
    log: &Log<F, H>,
    links: &[Link<F>],
) -> Result<Standing, LogFault>
    ensures refusal { MatchOption (first_refusal F.floor_of log.now links.now) (IsOk result)
        (λ fault. result ≡ Err fault) }
    ensures size { IfOk result (λ now. now.size ≡ log_size (with_ops log.now (ops_of links.now))) }
    ensures floor { IfOk result (λ now. now.floor ≡ log_floor F.floor_of
        (with_ops log.now (ops_of links.now))) }
    ensures least { IfOk result (λ now. log_floor F.floor_of log.now ≤ now.floor) }
    ensures low { IfOk result (λ now. now.floor < now.size) }
    ensures room { IfOk result (λ now. now.size ≤ 2 ^ 62) }
{
    let mut standing = Standing {
        size: log.size(),
        floor: log.floor(),
    };
    for link in links {
        standing = match standing.behind::<F>(link.ops()) {
            Ok(next) => next,
            Err(fault) => return Err(fault),
        };
    }
    Ok(standing)
}

/// The operations of these batches, one behind the other.
pub fn joined_ops<F: Family>(alloc: Global, links: &[Link<F>]) -> Result<Vec<F::Op>, OutOfMemory>
    ensures { IfOk result (λ ops. ops.items ≡ ops_of links.now) }
{
    let mut ops = Vec::new(alloc);
    for link in links {
        ops.extend_from_slice(link.ops())?;
    }
    Ok(ops)
}
