//! The end of a log whose floor was raised: its accounts are those of the whole log, whatever its link does.
ghost use Rattle.std.specs.Prelude.{◌≡◌, [], IfOk, IfSome};
ghost use Rattle.follow_laws.specs.Raised.{update_of, raised, raised_log, EndsLog};
ghost use Rattle.ledger_log.specs.Any.{any_floor, any_spelling};
ghost use Rattle.ledger_managed.specs.Spelled.{sequenced_values};
ghost use Rattle.ledger_managed.specs.SpelledProofs.{sequenced_same};
ghost use Rattle.ledger_settling.specs.Reports.{IsReplay};
ghost use Rattle.sync_client.specs.Owing.{OwesNothing};
ghost use Rattle.sync_net.specs.Core.{data_of};
ghost use Rattle.sync_net.specs.Service.{service_of};
ghost use Rattle.sync_server.specs.Links.{service_told};

use crate::follow_part;
use ledger_job::Payment;
use ledger_log::{AnyFamily, AnyOp, Log, Target};
use ledger_managed::AccountValue;
use ledger_merkle::{Location, Sha256Hasher};
use ledger_program::Fault;
use ledger_settling::Report;
use ledger_strategy::Sequential;
use ledger_transfers::Sequenced;
use std::alloc::{AllocError, Global};
use std::random::RandomSource;
use std::thread::Threads;
use sync_client::Limits;
use sync_server::MemoryLink;

/// The account with this balance and nonce at the key of sevens.
#[tactic(auto, unfolding(crate::specs::Raised::update_of))]
fn update(balance: u64, nonce: u64) -> AnyOp
    ensures { result ≡ update_of balance nonce }
{
    AnyOp::Update([7; 32], Sequenced { balance, nonce }.to_value())
}

/// A commit, an account, what it became, and a commit whose floor is the place of the second.
#[tactic(auto, unfolding(crate::specs::Raised::raised))]
fn operations(alloc: Global, floor: Location) -> Result<Vec<AnyOp>, AllocError>
    requires { floor ≡ 2 }
    ensures { IfOk result (λ ops. ops.items ≡ raised) }
{
    let mut ops = Vec::new(alloc);
    ops.push(AnyOp::CommitFloor(None, Location::ZERO))?;
    ops.push(update(10, 1))?;
    ops.push(update(20, 2))?;
    ops.push(AnyOp::CommitFloor(None, floor))?;
    Ok(ops)
}

/// The log of these operations, None where memory is wanting.
fn log(alloc: Global, floor: Location) -> Option<Log<AnyFamily, Sha256Hasher>>
    requires { floor ≡ 2 }
    ensures { IfSome result (λ log. log ≡ raised_log) }
{
    let Ok(ops) = operations(alloc, floor) else {
        return None;
    };
    match Log::from_parts(alloc, Vec::new(alloc), Location::ZERO, ops) {
        Ok(log) => Some(log),
        Err(_) => None,
    }
}

/// The target of a log from this place to its end.
fn end_of(log: &Log<AnyFamily, Sha256Hasher>, start: Location) -> Option<Target>
    ensures { IfSome result (λ target. EndsLog start target log.now) }
{
    match Target::new(log.root(), start, log.size()) {
        Some(target) => Some(target),
        None => None,
    }
}

/// A link that serves the log, and whose calls don't fail.
fn link_to(alloc: Global, log: Log<AnyFamily, Sha256Hasher>) -> MemoryLink<AnyFamily>
    ensures { OwesNothing (data_of any_spelling any_floor log)
        (service_of result.lost (service_told any_spelling any_floor result)) }
{
    let order = Vec::new(alloc);
    let cuts = Vec::new(alloc);
    let failing = Vec::new(alloc);
    MemoryLink::new(alloc, log, order, cuts, failing)
}

/// What following the end of the log reports.
fn followed<R: RandomSource + Threads + Sync + AllocGlobal>(
    rt: &R,
    limits: &Limits,
    floor: Location,
) -> Result<Report<Sequenced>, Fault>
    requires { floor ≡ 2 }
    ensures { IfOk result (λ report. IsReplay sequenced_same sequenced_values report.accounts raised) }
{
    let alloc = rt.alloc();
    let Some(log) = log(alloc, floor) else {
        return Err(Fault::OutOfMemory);
    };
    let Some(target) = end_of(&log, floor) else {
        return Err(Fault::OutOfMemory);
    };
    let mut link = link_to(alloc, log);
    match follow_part::<R, Payment, Sequenced, MemoryLink<AnyFamily>, Sequential>(
        rt,
        alloc,
        &target,
        limits,
        &[],
        &mut link,
        &Sequential,
    ) {
        Ok(report) => Ok(report),
        Err(fault) => Err(fault),
    }
}

/// Whether a report fetched two operations, and has one account, with 20 and the nonce 2.
fn is_of_end(report: &Report<Sequenced>) -> bool {
    let fetched = report.kept.as_slice().len();
    match report.accounts.get(&[7; 32]) {
        Some(account) => {
            fetched == 2
                && report.accounts.len() == 1
                && account.balance == 20
                && account.nonce == 2
        }
        None => false,
    }
}

/// Whether the end of the log is followed.
fn is_followed<R: RandomSource + Threads + Sync + AllocGlobal>(rt: &R) -> Option<bool> {
    let limits = Limits::new(1, 2)?;
    match Location::new(2) {
        Some(floor) => match followed(rt, &limits, floor) {
            Ok(report) => Some(is_of_end(&report)),
            Err(_) => None,
        },
        None => None,
    }
}

#[test]
fn the_end_has_all_accounts(rt: HostRuntime) {
    assert_eq!(rt; is_followed(&rt), Some(true));
}
