//! A job's own log, followed over a link in memory.
ghost use Rattle.std.specs.Prelude.{◌≡◌, ◌≤◌, ◌^◌, [], IfOk, IfErr};
ghost use Rattle.ledger_job.specs.declared.job.Job.{Job};
ghost use Rattle.ledger_log.specs.Any.{any_floor, any_spelling};
ghost use Rattle.ledger_program.specs.Peer.{asked};
ghost use Rattle.ledger_program.specs.Run.{ReportsJob, LocalFails, SpansLog, run_fault_of};
ghost use Rattle.sync_client.specs.Owing.{OwesNothing};
ghost use Rattle.sync_net.specs.Core.{data_of};
ghost use Rattle.sync_net.specs.Service.{service_of};
ghost use Rattle.sync_server.specs.Links.{service_told};

use crate::fault::Fault;
use crate::once::follow_once;
use crate::outcome::RunFault;
use crate::served::{open_served, served};
use ledger_codec::List;
use ledger_job::{Block, Job, JobLimits, Open, Payment};
use ledger_log::{AnyFamily, Log, Target};
use ledger_merkle::{Location, Sha256Hasher};
use ledger_settling::Report;
use ledger_strategy::Strategy;
use ledger_transfers::Sequenced;
use std::alloc::Global;
use std::random::RandomSource;
use std::thread::Threads;
use sync_client::{Limits, NoTargets};
use sync_server::MemoryLink;

/// The target of a whole log.
fn target_of(log: &Log<AnyFamily, Sha256Hasher>) -> Target
    requires front { log.now.front ≡ 0 }
    requires pinned { log.now.pinned ≡ [] }
    ensures spans { SpansLog result log.now }
    ensures most { result.end ≤ 2 ^ 62 }
{
    let _floor = log.floor();
    match Target::new(log.root(), Location::ZERO, log.size()) {
        Some(target) => target,
        None => unreachable!(),
    }
}

/// A link that serves the log, reply by reply, and whose calls don't fail.
fn link_to(alloc: Global, log: Log<AnyFamily, Sha256Hasher>) -> MemoryLink<AnyFamily>
    ensures steady { result.calls.failing ≡ [] }
    ensures serves { OwesNothing (data_of any_spelling any_floor log)
        (service_of result.lost (service_told any_spelling any_floor result)) }
{
    let order = Vec::new(alloc);
    let cuts = Vec::new(alloc);
    let failing = Vec::new(alloc);
    MemoryLink::new(alloc, log, order, cuts, failing)
}

/// How much is asked at once.
pub(crate) fn limits_of(limits: JobLimits) -> Limits
    ensures { result ≡ asked limits }
{
    match Limits::new(limits.batch(), limits.outstanding() as usize) {
        Some(limits) => limits,
        None => unreachable!(),
    }
}

/// A fault of following a log as one of the run.
pub(crate) fn run_fault(fault: Fault) -> RunFault
    ensures { result ≡ run_fault_of fault }
{
    match fault {
        Fault::OutOfMemory => RunFault::OutOfMemory,
        fault => RunFault::Follow(fault),
    }
}

/// The report of these blocks over the log that opens these accounts, followed over a link in memory whose calls don't
/// fail, so many operations at a time. Neither the accounts nor the served log take memory while the blocks are settled.
pub fn follow_opened<R: RandomSource + Threads + Sync, St: Strategy>(
    rt: &R,
    alloc: Global,
    opens: List<Open>,
    limits: &Limits,
    blocks: List<Block<Payment>>,
    strategy: &St,
) -> Result<Report<Sequenced>, RunFault>
    ensures reports { IfOk result (λ report. (job : Job) → job.opens ≡ opens → job.blocks ≡ blocks
        → ReportsJob job report) }
    ensures fails { IfErr result (λ fault. (job : Job) → job.opens ≡ opens → job.blocks ≡ blocks
        → LocalFails job fault) }
{
    let ops = served(alloc, opens.as_slice())?;
    drop(opens);
    let log = open_served(alloc, ops)?;
    let target = target_of(&log);
    let link = link_to(alloc, log);
    match follow_once(
        rt,
        alloc,
        &target,
        &mut NoTargets,
        limits,
        blocks.as_slice(),
        link,
        strategy,
    ) {
        Ok(report) => Ok(report),
        Err(fault) => Err(run_fault(fault)),
    }
}

/// The report of the job's blocks over the log that it serves.
pub(crate) fn follow_local<R: RandomSource + Threads + Sync, St: Strategy>(
    rt: &R,
    alloc: Global,
    job: Job,
    strategy: &St,
) -> Result<Report<Sequenced>, RunFault>
    ensures reports { IfOk result (ReportsJob job) }
    ensures fails { IfErr result (LocalFails job) }
{
    let limits = limits_of(job.limits);
    match follow_opened(rt, alloc, job.opens, &limits, job.blocks, strategy) {
        Ok(report) => Ok(report),
        Err(fault) => Err(fault),
    }
}
