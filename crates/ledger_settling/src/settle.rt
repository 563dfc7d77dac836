//! Blocks, settled on a log.
ghost use Rattle.std.specs.Prelude.{◌≡◌, IfOk, IfErr, OnOk};
ghost use Rattle.ledger_settling.specs.Blocks.{meaning, grown, IsSettled, batch_of, Settles};
ghost use Rattle.ledger_settling.specs.Reports.{IsReplay};
ghost use Rattle.ledger_settling.specs.Slots.{BodyFails, BlockFails, StaysProper};

use crate::applying::{apply_slots, staged_over};
use crate::fault::ReportFault;
use crate::report::Accounts;
use crate::rounds::settle_rounds;
use crate::slots::{Planned, body_slots};
use ledger_job::{Block, BlockVerdicts};
use ledger_log::{AnyFamily, Key, Log};
use ledger_managed::AccountValue;
use ledger_merkle::Sha256Hasher;
use ledger_strategy::Strategy;
use ledger_transfers::{PlanFault, Transfer};
use std::alloc::Global;
use std::random::RandomSource;
use std::thread::Threads;

/// Settles a body on the log.
fn settle_body<
    R: RandomSource + Threads + Sync,
    T: Transfer<Key = Key, Account = A>,
    A: AccountValue,
    S: Strategy,
>(
    rt: &R,
    alloc: Global,
    log: &mut Log<AnyFamily, Sha256Hasher>,
    accounts: &mut Accounts<A>,
    block: usize,
    batch: &[T],
    strategy: &S,
) -> Result<(), ReportFault>
    requires { IsReplay A.eq A.values accounts.old log.old.ops }
    ensures settled { OnOk result (IsSettled (meaning T.changes_of A.eq A.rules A.values) log.old.ops
        batch.now) }
    ensures grown { OnOk result
        (log.new
        ≡
        record log.old { ops = grown (meaning T.changes_of A.eq A.rules A.values) log.old.front log.old.ops batch.now }) }
    ensures accounts { OnOk result (IsReplay A.eq A.values accounts.new log.new.ops) }
    ensures initial { OnOk result (StaysProper A.eq A.rules accounts.old accounts.new) }
    ensures fails { IfErr result (BodyFails (meaning T.changes_of A.eq A.rules A.values) log.old block
        batch.now) }
{
    let planned = match body_slots(rt, alloc, accounts, batch, strategy) {
        Ok(planned) => planned,
        Err(PlanFault::Rejected(rejection)) => {
            return Err(ReportFault::Rejected { block, rejection });
        }
        Err(PlanFault::OutOfMemory) => return Err(ReportFault::OutOfMemory),
    };
    let Planned { keys, slots } = planned;
    let keys = keys.as_slice();
    let staged = match staged_over(rt, alloc, log, keys) {
        Ok(staged) => staged,
        Err(_) => return Err(ReportFault::OutOfMemory),
    };
    apply_slots(alloc, log, accounts, block, staged, keys, slots)
}

/// Settles a block, at this place of the blocks, on the log.
pub(crate) fn settle_block<
    R: RandomSource + Threads + Sync,
    T: Transfer<Key = Key, Account = A>,
    A: AccountValue,
    S: Strategy,
>(
    rt: &R,
    alloc: Global,
    log: &mut Log<AnyFamily, Sha256Hasher>,
    accounts: &mut Accounts<A>,
    place: usize,
    block: &Block<T>,
    strategy: &S,
) -> Result<BlockVerdicts, ReportFault>
    requires { IsReplay A.eq A.values accounts.old log.old.ops }
    ensures settles { IfOk result (Settles (meaning T.changes_of A.eq A.rules A.values) log.old.ops
        block.now) }
    ensures grown { IfOk result
        (λ v. log.new
        ≡
        record log.old { ops = grown (meaning T.changes_of A.eq A.rules A.values) log.old.front log.old.ops (batch_of block.now v) }) }
    ensures accounts { OnOk result (IsReplay A.eq A.values accounts.new log.new.ops) }
    ensures initial { OnOk result (StaysProper A.eq A.rules accounts.old accounts.new) }
    ensures fails { IfErr result (BlockFails (meaning T.changes_of A.eq A.rules A.values) log.old place
        block.now) }
{
    match block {
        Block::Body(batch) => {
            settle_body(rt, alloc, log, accounts, place, batch.as_slice(), strategy)?;
            Ok(BlockVerdicts::Body)
        }
        Block::Rounds(rounds) => {
            let verdicts = settle_rounds(
                rt,
                alloc,
                log,
                accounts,
                place,
                rounds.as_slice(),
                strategy,
            )?;
            Ok(BlockVerdicts::Rounds(verdicts))
        }
    }
}
