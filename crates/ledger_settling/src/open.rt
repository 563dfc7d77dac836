//! A part opened as a log, and the report of blocks on it.
ghost use Rattle.std.specs.Prelude.{◌≡◌, ◌≤◌, ℕ, IfOk, IfErr, OnOk, All, length, take};
ghost use Rattle.ledger_settling.specs.Blocks.{meaning, IsReadable, RunsTo};
ghost use Rattle.ledger_settling.specs.Reports.{Spans, ReportOf, IsReplay, IsWhole, leaves_of};
ghost use Rattle.ledger_settling.specs.Faults.{RunFails, OpenFails};
ghost use Rattle.ledger_settling.specs.Slots.{StaysProper};

use crate::fault::ReportFault;
use crate::replay::{count_of, op_behind, replay};
use crate::report::{Accounts, Report};
use crate::settle::settle_block;
use ledger_codec::{Digest, List, OutOfMemory};
use ledger_job::{Block, BlockVerdicts};
use ledger_log::{AnyFamily, AnyOp, Key, Log, LogFault, Target};
use ledger_managed::AccountValue;
use ledger_merkle::{Location, MerkleList, Part, Sha256Hasher};
use ledger_strategy::Strategy;
use ledger_transfers::Transfer;
use std::alloc::Global;
use std::random::RandomSource;
use std::thread::Threads;

/// The log of operations that span the target, with their leaves.
fn open_log(
    alloc: Global,
    target: &Target,
    list: MerkleList<Sha256Hasher>,
    ops: Vec<AnyOp>,
) -> Result<Log<AnyFamily, Sha256Hasher>, ReportFault>
    requires leaves { list ≡ leaves_of target.now.start list.pinned ops.items }
    requires spans { Spans target.now list.pinned ops.items }
    ensures log { IfOk result
        (λ log. log ≡ record { front = target.now.start; pinned = list.pinned; ops = ops.items }) }
    ensures whole { OnOk result (IsWhole target.now.start ops.items) }
    ensures fails { IfErr result (OpenFails target.now ops.items) }
{
    let last = target.end.get() - 1;
    match Log::from_list(alloc, list, ops) {
        Ok(log) => {
            let _floor = log.floor();
            Ok(log)
        }
        Err(LogFault::OutOfMemory) => Err(ReportFault::OutOfMemory),
        Err(_) => Err(ReportFault::BadLog {
            location: Location::ZERO.plus(last),
        }),
    }
}

/// The first operations of a log.
fn first_ops(
    alloc: Global,
    log: &Log<AnyFamily, Sha256Hasher>,
    count: u64,
) -> Result<Vec<AnyOp>, OutOfMemory>
    requires { count ≤ length log.now.ops }
    ensures { IfOk result (λ first. first.items ≡ take count log.now.ops) }
{
    let mut first = Vec::with_capacity(alloc, count as usize)?;
    for place in 0..count {
        let op = op_behind(log, place);
        first.push(*op)?;
    }
    Ok(first)
}

/// Settles these blocks, one after another, on the log of a part and its accounts.
fn settle_blocks<
    R: RandomSource + Threads + Sync,
    T: Transfer<Key = Key, Account = A>,
    A: AccountValue,
    S: Strategy,
>(
    rt: &R,
    alloc: Global,
    target: &Target,
    log: &mut Log<AnyFamily, Sha256Hasher>,
    accounts: &mut Accounts<A>,
    blocks: &[Block<T>],
    strategy: &S,
) -> Result<Vec<BlockVerdicts>, ReportFault>
    requires front { log.old.front ≡ target.now.start }
    requires whole { IsWhole target.now.start log.old.ops }
    requires readable { All (IsReadable A.values) log.old.ops }
    requires replayed { IsReplay A.eq A.values accounts.old log.old.ops }
    ensures runs { IfOk result (λ verdicts. RunsTo (meaning T.changes_of A.eq A.rules A.values)
        target.now.start log.old.ops blocks.now verdicts.items log.new.ops) }
    ensures accounts { OnOk result (IsReplay A.eq A.values accounts.new log.new.ops) }
    ensures initial { OnOk result (StaysProper A.eq A.rules accounts.old accounts.new) }
    ensures front { OnOk result (log.new.front ≡ log.old.front) }
    ensures nodes { OnOk result (log.new.pinned ≡ log.old.pinned) }
    ensures fails { IfErr result
        (RunFails (meaning T.changes_of A.eq A.rules A.values) target.now log.old.ops blocks.now) }
{
    let mut verdicts = Vec::new(alloc);
    for (place, block) in blocks.iter().enumerate() {
        // Its type says that what was settled so far is within 2^62.
        let _within = log.size();
        let verdict = settle_block(rt, alloc, log, accounts, place, block, strategy)?;
        verdicts.push(verdict)?;
    }
    Ok(verdicts)
}

/// The report of these blocks over the log of a part that spans the target, has its root, and ends in a
/// commit whose floor lies within it. `pinned` are the log's own nodes. The report's operations are copied from the log
/// once all blocks are settled.
fn settle_log<
    R: RandomSource + Threads + Sync,
    T: Transfer<Key = Key, Account = A>,
    A: AccountValue,
    S: Strategy,
>(
    rt: &R,
    alloc: Global,
    target: &Target,
    pinned: Vec<Digest>,
    opened: Log<AnyFamily, Sha256Hasher>,
    blocks: &[Block<T>],
    strategy: &S,
) -> Result<Report<A>, ReportFault>
    requires front { opened.front ≡ target.now.start }
    requires nodes { opened.pinned ≡ pinned.items }
    requires spans { Spans target.now pinned.items opened.ops }
    requires whole { IsWhole target.now.start opened.ops }
    ensures report { IfOk result (ReportOf (meaning T.changes_of A.eq A.rules A.values) target.now
        blocks.now) }
    ensures kept { IfOk result (λ r. r.kept ≡ opened.ops) }
    ensures pinned { IfOk result (λ r. r.pinned ≡ pinned.items) }
    ensures fails { IfErr result
        (RunFails (meaning T.changes_of A.eq A.rules A.values) target.now opened.ops blocks.now) }
{
    let mut log = opened;
    let count = count_of(&log);
    let mut accounts = replay(alloc, &log)?;
    let verdicts = settle_blocks(rt, alloc, target, &mut log, &mut accounts, blocks, strategy)?;
    let kept = first_ops(alloc, &log, count)?;
    let root = log.root();
    Ok(Report {
        target: *target,
        start: target.start,
        end: target.end,
        pinned: List::from_vec(pinned),
        kept: List::from_vec(kept),
        root,
        size: log.size(),
        log,
        accounts,
        verdicts: List::from_vec(verdicts),
    })
}

/// The report of these blocks over a part that spans the target and has its root. `list` holds the part's leaves,
/// so that nothing of it is hashed again.
pub fn report_of<
    R: RandomSource + Threads + Sync,
    T: Transfer<Key = Key, Account = A>,
    A: AccountValue,
    S: Strategy,
>(
    rt: &R,
    alloc: Global,
    target: &Target,
    part: Part<AnyOp>,
    list: MerkleList<Sha256Hasher>,
    blocks: &[Block<T>],
    strategy: &S,
) -> Result<Report<A>, ReportFault>
    requires start { part.start ≡ target.now.start }
    requires spans { Spans target.now part.pinned part.ops }
    requires leaves { list ≡ leaves_of part.start part.pinned part.ops }
    ensures report { IfOk result (ReportOf (meaning T.changes_of A.eq A.rules A.values) target.now
        blocks.now) }
    ensures kept { IfOk result (λ r. r.kept ≡ part.ops) }
    ensures pinned { IfOk result (λ r. r.pinned ≡ part.pinned) }
    ensures fails { IfErr result (RunFails (meaning T.changes_of A.eq A.rules A.values) target.now part.ops
        blocks.now) }
{
    let pinned = part.pinned.into_vec();
    let log = open_log(alloc, target, list, part.ops.into_vec())?;
    settle_log(rt, alloc, target, pinned, log, blocks, strategy)
}
