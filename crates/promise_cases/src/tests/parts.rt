//! What is promised of the part of a log that is fetched: over a link that serves it, and over one whose calls are
//! counted.
ghost use Rattle.std.specs.Prelude.{◌≡◌, [], IfSome, IsErrOf};
ghost use Rattle.sha2.specs.Sha256.{sha256};
ghost use Rattle.ledger_compact.specs.View.{fresh_log};
ghost use Rattle.ledger_log.specs.Keyless.{keyless_commit, keyless_spelling};
ghost use Rattle.ledger_log.specs.View.{log_root, log_size};
ghost use Rattle.promise_cases.specs.Served.{IsFreshPart};
ghost use Rattle.sync_client.specs.Counts.{CountKept};
ghost use Rattle.sync_client.specs.Parts.{synced_part};
ghost use Rattle.sync_client.specs.declared.fault.SyncFault.TheVariants as sync;

use super::served::link_to;
use ledger_codec::Digest;
use ledger_log::{AnyOp, KeylessFamily, KeylessOp, Log, Target};
use ledger_merkle::{Location, Part, Sha256Hasher};
use std::alloc::Global;
use sync_client::{HashedPart, Limits, NoTargets, SyncFault, receive, sync_full, sync_hashed};
use sync_net::{Generator, Machine};
use sync_server::TapeLink;

/// The log with which databases begin, None where memory is wanting.
fn fresh(alloc: Global) -> Option<Log<KeylessFamily, Sha256Hasher>>
    ensures { IfSome result (λ log. log ≡ fresh_log keyless_commit) }
{
    match Log::fresh(alloc) {
        Ok(log) => Some(log),
        Err(_) => None,
    }
}

/// The target of all of a log that begins at 0.
fn whole(log: &Log<KeylessFamily, Sha256Hasher>) -> Target
    requires { log.now.front ≡ 0 }
    ensures root { result.root ≡ log_root sha256 keyless_spelling log.now }
    ensures start { result.start ≡ 0 }
    ensures end { result.end ≡ log_size log.now }
{
    let _floor = log.floor();
    match Target::new(log.root(), Location::ZERO, log.size()) {
        Some(target) => target,
        None => unreachable!(),
    }
}

/// The part of the log with which databases begin, over a link that serves it and none of whose calls fails: its one
/// operation, unless memory is wanting or no number is left.
fn fresh_part(alloc: Global) -> Option<Result<(Target, Part<KeylessOp>), SyncFault>>
    ensures { IfSome result IsFreshPart }
{
    let log = fresh(alloc)?;
    let target = whole(&log);
    let mut link = link_to(alloc, log);
    let limits = Limits::new(50, 1)?;
    let mut machine = Machine::new(alloc, Generator::new());
    Some(sync_full(
        alloc,
        &target,
        &mut NoTargets,
        &limits,
        &mut machine,
        &mut link,
    ))
}

/// The same part with its leaves, likewise.
fn fresh_hashed(alloc: Global) -> Option<Result<(Target, HashedPart<KeylessOp>), SyncFault>>
    ensures { IfSome result (λ fetched. IsFreshPart (synced_part fetched)) }
{
    let log = fresh(alloc)?;
    let target = whole(&log);
    let mut link = link_to(alloc, log);
    let limits = Limits::new(50, 1)?;
    let mut machine = Machine::new(alloc, Generator::new());
    Some(sync_hashed(
        alloc,
        &target,
        &mut NoTargets,
        &limits,
        &mut machine,
        &mut link,
    ))
}

/// The part that a tape gives, with its leaves. A call of it that fails is told, and raises its count; nothing else
/// does.
fn hashed_over(
    alloc: Global,
    target: &Target,
    limits: &Limits,
    link: &mut TapeLink,
) -> Result<(Target, HashedPart<AnyOp>), SyncFault>
    requires { link.old.calls.failing ≡ [] }
    ensures kept { CountKept result link.old.calls.faults link.new.calls.faults }
    ensures calm { IsErrOf result sync.Network → ⊥ }
{
    let mut machine: Machine<AnyOp> = Machine::new(alloc, Generator::new());
    sync_hashed(alloc, target, &mut NoTargets, limits, &mut machine, link)
}

/// What is received over a tape, likewise.
fn received(alloc: Global, link: &mut TapeLink) -> Result<(), SyncFault>
    requires { link.old.calls.failing ≡ [] }
    ensures kept { CountKept result link.old.calls.faults link.new.calls.faults }
    ensures calm { IsErrOf result sync.Network → ⊥ }
{
    let mut machine: Machine<AnyOp> = Machine::new(alloc, Generator::new());
    let mut buffer = [0; 16];
    receive(&mut machine, link, &mut buffer)
}

/// How many operations both parts have.
fn counts(alloc: Global) -> Option<[usize; 2]> {
    let part = fresh_part(alloc)?.ok()?.1;
    let hashed = fresh_hashed(alloc)?.ok()?.1;
    Some([part.ops.as_slice().len(), hashed.part.ops.as_slice().len()])
}

#[test]
fn a_fresh_log_is_fetched_whole(rt: HostRuntime) {
    assert_eq!(rt; counts(rt.alloc()), Some([1; 2]));
}

/// Whether nothing is fetched nor received over a tape without bytes.
fn nothing_came(alloc: Global, root: Digest) -> Option<[bool; 2]> {
    let range = Target::new(root, Location::ZERO, Location::ZERO.plus(3))?;
    let limits = Limits::new(2, 1)?;
    let mut first = TapeLink::new(alloc, Vec::new(alloc), Vec::new(alloc), Vec::new(alloc));
    let mut second = TapeLink::new(alloc, Vec::new(alloc), Vec::new(alloc), Vec::new(alloc));
    let hashed = hashed_over(alloc, &range, &limits, &mut first);
    let nothing = received(alloc, &mut second);
    Some([hashed.is_err(), nothing.is_err()])
}

#[test]
fn nothing_comes_over_an_empty_tape(rt: HostRuntime) {
    assert_eq!(rt; nothing_came(rt.alloc(), [9; 32]), Some([true; 2]));
}
