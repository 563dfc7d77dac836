//! What is promised of a run that follows a peer whose log grows meanwhile: its job, which names the log of four accounts
//! and that of five as a later target, is reported where no count rises, unless memory is wanting.
ghost use Rattle.std.specs.Prelude.{◌≡◌, ◌⊎◌, IfOk, IfSome};
ghost use Rattle.follow_promises.specs.Four.{five_log};
ghost use Rattle.follow_promises.specs.Runs.{NamesBoth};
ghost use Rattle.ledger_codec.specs.Causes.{Rose};
ghost use Rattle.ledger_job.specs.declared.job.Job.{Job};
ghost use Rattle.ledger_job.specs.declared.kind.JobKind.TheVariants.{Follow as follow_kind};
ghost use Rattle.ledger_log.specs.Any.{any_floor, any_spelling};
ghost use Rattle.ledger_log.specs.declared.target.Target.{Target};
ghost use Rattle.ledger_program.specs.Run.{IsJob};
ghost use Rattle.sync_client.specs.Owing.{OwesNothing};
ghost use Rattle.sync_dial.specs.Dialing.{dialed_link, failed_dials};
ghost use Rattle.sync_net.specs.Core.{data_of};
ghost use Rattle.sync_net.specs.Service.{service_of};
ghost use Rattle.sync_server.specs.Links.{service_told};

use super::digest_of;
use super::four::{link_to, log};
use super::later::grown;
use super::runs::{Taking, follow};
use super::vectors::{ROOT_FIVE, ROOT_FOUR};
use ledger_codec::{MemorySource, Source};
use ledger_log::AnyFamily;
use ledger_program::{Outcome, run};
use std::alloc::{AllocError, Global};
use std::random::RandomSource;
use std::test::Fail;
use std::thread::Threads;
use sync_dial::MemoryDialer;
use sync_server::MemoryLink;

/// The outcome of a run with such a job, over a dialer whose link serves the log of five accounts.
fn over_five<R: RandomSource + Threads + Sync, S: Source>(
    rt: &R,
    alloc: Global,
    job: &mut S,
    dialer: &mut MemoryDialer<MemoryLink<AnyFamily>>,
) -> Result<Outcome, AllocError>
    requires { OwesNothing (data_of any_spelling any_floor five_log)
        (service_of (dialed_link dialer.old).lost
        (service_told any_spelling any_floor (dialed_link dialer.old))) }
    ensures { IfOk result (λ outcome. (asked : Job) (first later : Target) → NamesBoth asked first later
        → IfSome (S.left job.old) (λ text. IsJob follow_kind text asked
        → (Rose (S.faults job.old) (S.faults job.new) → ⊥)
        → (Rose (failed_dials dialer.old) (failed_dials dialer.new) → ⊥)
        → (Rose (dialed_link dialer.old).calls.faults (dialed_link dialer.new).calls.faults → ⊥)
        → (outcome.status ≡ 0) ⊎ (outcome.status ≡ 11))) }
{
    let words = follow(alloc)?;
    Ok(run(rt, alloc, &words, job, dialer, &mut Taking))
}

/// A dialer whose link serves the log of five accounts, None where memory is wanting.
fn dialer_to_five(alloc: Global) -> Option<MemoryDialer<MemoryLink<AnyFamily>>>
    ensures { IfSome result (λ d. OwesNothing (data_of any_spelling any_floor five_log)
        (service_of (dialed_link d).lost (service_told any_spelling any_floor (dialed_link d)))) }
{
    let Some(log) = log(alloc) else {
        return None;
    };
    let Some(log) = grown(alloc, log) else {
        return None;
    };
    Some(MemoryDialer::new(link_to(alloc, log), false))
}

/// The text of a job that names both targets, so many operations a request.
fn job(alloc: Global, batch: u64) -> Result<MemorySource, Fail> {
    let text = format!(in alloc;
        "target {ROOT_FOUR} 0 6\nupdate {ROOT_FIVE} 0 8\nlimits {batch} 1\n"
    )?;
    Ok(MemorySource::new(text.into_bytes(), Vec::new(alloc)))
}

/// Whether the run of that job reports so many operations and this root.
fn reports<R: RandomSource + Threads + Sync + AllocGlobal>(
    rt: &R,
    batch: u64,
    size: u64,
    root: &str,
) -> Result<bool, Fail> {
    let alloc = rt.alloc();
    let mut job = job(alloc, batch)?;
    let Some(mut dialer) = dialer_to_five(alloc) else {
        return Ok(false);
    };
    let Outcome { status, report, .. } = over_five(rt, alloc, &mut job, &mut dialer)?;
    let told = report.map(|report| {
        let root = report.root;
        (report.size.get(), root)
    });
    Ok(status == 0 && told == digest_of(root).map(|root| (size, root)))
}

#[test]
fn a_peer_is_followed_to_a_target_that_its_job_names(rt: HostRuntime) -> Result<(), Fail> {
    assert!(rt; reports(&rt, 50, 6, ROOT_FOUR)?);
    assert!(rt; reports(&rt, 4, 8, ROOT_FIVE)?);
    Ok(())
}
