//! What one run reports is what the next one can sync to.
ghost use Rattle.std.specs.Prelude.{ℕ, List as Items, ◌≡◌, ◌-◌, ◌<◌, ◌≤◌, ◌^◌, ◌+◌, All, [], length, slice_get, Some, IfOk, IsOkUnless};
ghost use Rattle.follow_laws.specs.Chained.{Continues, KeepSound, LogTarget};
ghost use Rattle.ledger_log.specs.Any.{any_floor, any_spelling, IsSoundAny};
ghost use Rattle.ledger_log.specs.View.{log_size};
ghost use Rattle.ledger_log.specs.declared.any.AnyOp.{AnyOp};
ghost use Rattle.ledger_settling.specs.Blocks.{meaning};
ghost use Rattle.ledger_settling.specs.Reports.{ReportOf};
ghost use Rattle.sync_client.specs.Owing.{OwesNothing};
ghost use Rattle.sync_net.specs.Core.{data_of};
ghost use Rattle.sync_net.specs.Service.{service_of};
ghost use Rattle.sync_server.specs.Links.{service_told};

use ledger_codec::Digest;
use ledger_job::Block;
use ledger_log::{AnyFamily, Key, Log, Target};
use ledger_managed::AccountValue;
use ledger_merkle::{Leaf, Location, Sha256Hasher};
use ledger_program::{Fault, follow};
use ledger_settling::Report;
use ledger_strategy::Strategy;
use ledger_transfers::Transfer;
use std::alloc::Global;
use std::random::RandomSource;
use std::thread::Threads;
use sync_client::{Limits, NoTargets};
use sync_server::MemoryLink;

/// The operation at this place is one that the type has.
fn see_operation(log: &Log<AnyFamily, Sha256Hasher>, at: u64)
    requires { at < log_size log.now }
    ensures { (op : AnyOp) → log.now.front ≤ at → slice_get log.now.ops (at - log.now.front) ≡ Some op
        → IsSoundAny op }
{
    let _size = log.size();
    match Location::new(at) {
        Some(loc) => {
            if let Some(op) = log.op_at(loc) {
                let _length = op.leaf_bytes(&mut [0; 96]);
            }
        }
        None => unreachable!(),
    }
}

/// The log's operations are those that the type has.
pub(crate) fn see_operations(log: &Log<AnyFamily, Sha256Hasher>)
    ensures { All IsSoundAny log.now.ops }
{
    let mut at = log.front().get();
    let end = log.size().get();
    while at < end {
        see_operation(log, at);
        at += 1;
    }
}

/// A digest has 32 bytes.
fn see(digest: Digest)
    ensures { length digest ≡ 32 }
{
    let _first = digest[0];
}

/// The digest at this place has 32 bytes.
fn see_digest(digests: &[Digest], at: usize)
    requires { at < length digests.now }
    ensures { (digest : Items ℕ) → slice_get digests.now at ≡ Some digest → length digest ≡ 32 }
{
    if let Some(digest) = digests.get(at) {
        see(*digest);
    }
}

/// Each digest has 32 bytes.
pub(crate) fn see_digests(digests: &[Digest])
    ensures { All (λ digest. length digest ≡ 32) digests.now }
{
    let mut at = 0;
    let end = digests.len();
    while at < end {
        see_digest(digests, at);
        at += 1;
    }
}

/// The target of a report's log.
fn target_of<A>(report: &Report<A>) -> Target
    requires { report.now.start < report.now.size }
    ensures target { LogTarget report.now result }
    ensures most { report.now.size ≤ 2 ^ 62 }
{
    let _start = report.start.get();
    let _size = report.size.get();
    match Target::new(report.root, report.start, report.size) {
        Some(target) => target,
        None => unreachable!(),
    }
}

/// A link that serves the log, and whose calls don't fail.
pub(crate) fn link_to(alloc: Global, log: Log<AnyFamily, Sha256Hasher>) -> MemoryLink<AnyFamily>
    ensures steady { result.calls.failing ≡ [] }
    ensures count { result.calls.faults ≡ 0 }
    ensures serves { OwesNothing (data_of any_spelling any_floor log)
        (service_of result.lost (service_told any_spelling any_floor result)) }
{
    let order = Vec::new(alloc);
    let cuts = Vec::new(alloc);
    let failing = Vec::new(alloc);
    MemoryLink::new(alloc, log, order, cuts, failing)
}

/// Follows a report's log, served in memory, to the target of the report's root, start and size, without blocks. It
/// gives a report with the same root, size, operations and accounts, or memory was wanting. `blocks` are those that
/// the report is of. An account type has to keep sound what it computes of sound accounts, as each type does.
pub fn follow_report<
    R: RandomSource + Threads + Sync,
    T: Transfer<Key = Key, Account = A>,
    A: AccountValue,
    St: Strategy,
>(
    rt: &R,
    alloc: Global,
    blocks: &[Block<T>],
    report: Report<A>,
    limits: &Limits,
    strategy: &St,
) -> Result<Report<A>, Fault>
    requires { ReportOf (meaning T.changes_of A.eq A.rules A.values) report.target blocks.now report }
    ensures complete { KeepSound A.sound A.rules A.values → IsOkUnless result Fault.OutOfMemory }
    ensures continues { IfOk result (Continues A.eq report) }
{
    let target = target_of(&report);
    let Report { pinned, log, .. } = report;
    let _front = log.front();
    see_digests(pinned.as_slice());
    see_operations(&log);
    let mut link = link_to(alloc, log);
    match follow::<R, T, A, MemoryLink<AnyFamily>, St, NoTargets>(
        rt,
        alloc,
        &target,
        &mut NoTargets,
        limits,
        &blocks[..0],
        &mut link,
        strategy,
    ) {
        Ok(next) => Ok(next),
        Err(fault) => Err(fault),
    }
}
