//! A peer's log, followed over a link that is dialed.
ghost use Rattle.std.specs.Prelude.{◌≡◌, IfOk, IfErr, Some, true, is_some};
ghost use Rattle.ledger_codec.specs.Causes.{Rose};
ghost use Rattle.ledger_program.specs.Peer.{link_over, ReportsPeer, FollowPeerFails, PeerFails};

use crate::following::follow;
use crate::local::{limits_of, run_fault};
use crate::outcome::RunFault;
use ledger_job::Job;
use ledger_log::Target;
use ledger_settling::Report;
use ledger_strategy::Strategy;
use ledger_transfers::Sequenced;
use std::alloc::Global;
use std::random::RandomSource;
use std::thread::Threads;
use sync_client::ListTargets;
use sync_net::{DialFailed, Dialer, Link};

/// The target of a job that has one.
fn target_of(job: &Job) -> Target
    requires { is_some job.now.target ≡ true }
    ensures { job.now.target ≡ Some result }
{
    match job.target {
        Some(target) => target,
        None => unreachable!(),
    }
}

/// The report of the job's blocks over this target and the job's later ones, followed over a link.
fn follow_linked<R: RandomSource + Threads + Sync, L: Link, St: Strategy>(
    rt: &R,
    alloc: Global,
    target: &Target,
    job: Job,
    link: &mut L,
    strategy: &St,
) -> Result<Report<Sequenced>, RunFault>
    requires { job.target ≡ Some target.now }
    ensures reports { IfOk result (ReportsPeer job (link_over (L.service link.old) (L.wire link.old)
        (L.wire link.new) (L.faults link.old) (L.faults link.new))) }
    ensures fails { IfErr result (FollowPeerFails job
        (link_over (L.service link.old) (L.wire link.old) (L.wire link.new) (L.faults link.old)
        (L.faults link.new))) }
{
    let limits = limits_of(job.limits);
    let mut updates = ListTargets::new(job.updates.into_vec());
    match follow(
        rt,
        alloc,
        target,
        &mut updates,
        &limits,
        job.blocks.as_slice(),
        link,
        strategy,
    ) {
        Ok(report) => Ok(report),
        Err(fault) => Err(run_fault(fault)),
    }
}

/// The report of the job's blocks over its target and the later ones that it names, followed over the link to this
/// address.
pub(crate) fn follow_peer<R: RandomSource + Threads + Sync, D: Dialer, St: Strategy>(
    rt: &R,
    alloc: Global,
    job: Job,
    address: &str,
    dialer: &mut D,
    strategy: &St,
) -> Result<Report<Sequenced>, RunFault>
    requires { is_some job.target ≡ true }
    ensures reports { IfOk result (ReportsPeer job (link_over (D.service dialer.old) (D.wire dialer.old)
        (D.wire dialer.new) (D.faults dialer.old) (D.faults dialer.new))) }
    ensures fails { IfErr result (PeerFails job (link_over (D.service dialer.old) (D.wire dialer.old)
        (D.wire dialer.new) (D.faults dialer.old) (D.faults dialer.new)) (D.dials dialer.old)
        (D.dials dialer.new)) }
{
    let target = target_of(&job);
    match dialer.dial(address) {
        Ok(()) => {}
        Err(DialFailed) => return Err(RunFault::Dial),
    }
    match follow_linked(rt, alloc, &target, job, dialer, strategy) {
        Ok(report) => Ok(report),
        Err(fault) => Err(fault),
    }
}
