//! What is promised of links, of what waits on them, and of dialers.
ghost use Rattle.std.specs.Prelude.{◌≡◌, [], false, IfOk, IsErrOf, IsOkUnless};
ghost use Rattle.ledger_log.specs.Spellings.{any_at};
ghost use Rattle.sync_client.specs.Counts.{CountKept};
ghost use Rattle.sync_client.specs.declared.fault.SyncFault.TheVariants as sync;
ghost use Rattle.sync_fetch.specs.Exchange.{Answered, Exchange, Reply};
ghost use Rattle.sync_fetch.specs.States.{KeptUnlessNetwork};
ghost use Rattle.sync_fetch.specs.Told.{pending_of};
ghost use Rattle.sync_fetch.specs.declared.fault.StateFault.TheVariants as states;
ghost use Rattle.sync_net.specs.declared.ask.Ask.TheVariants as asks;
ghost use Rattle.sync_net.specs.declared.message.Message.TheVariants as messages;
ghost use Rattle.sync_net.specs.declared.response.GetSyncTargetResponse.{GetSyncTargetResponse};
ghost use Rattle.sync_net.specs.declared.link.LinkError.TheVariants as links;
ghost use Rattle.ledger_log.specs.declared.any.AnyOp.{AnyOp as AnyOperation};

use ledger_compact::CompactLog;
use ledger_log::{AnyOp, CompactTarget, KeylessFamily, KeylessOp, Target};
use ledger_merkle::{Location, Part, Sha256Hasher};
use std::alloc::Global;
use sync_client::{Limits, NoTargets, SyncFault, sync_full};
use sync_dial::MemoryDialer;
use sync_fetch::{StateFault, fetch_compact, fetch_compact_target, fetch_target};
use sync_net::{Dialer, Generator, Link, LinkError, Machine};
use sync_server::TapeLink;

/// A tape of these bytes, none of whose calls fails.
fn tape(alloc: Global, bytes: Vec<u8>) -> TapeLink
    ensures failing { result.calls.failing ≡ [] }
    ensures left { result.left ≡ bytes.items }
    ensures given { result.given ≡ [] }
    ensures ended { result.ended ≡ false }
    ensures count { result.calls.faults ≡ 0 }
{
    TapeLink::new(alloc, bytes, Vec::new(alloc), Vec::new(alloc))
}

/// The second recv over a tape without bytes: it gives the end again.
fn second_end(alloc: Global) -> Result<usize, LinkError>
    ensures again { IfOk result (λ count. count ≡ 0) }
    ensures calm { IsOkUnless result links.OutOfMemory }
{
    let mut link = tape(alloc, Vec::new(alloc));
    let mut buffer = [0; 4];
    link.recv(&mut buffer)?;
    link.recv(&mut buffer)
}

/// A send over a link that was dialed, and whose calls don't fail.
fn dialed(alloc: Global) -> Result<(), LinkError>
    ensures { IsOkUnless result links.OutOfMemory }
{
    let mut dialer = MemoryDialer::new(tape(alloc, Vec::new(alloc)), false);
    if dialer.dial("a").is_err() {
        return Ok(());
    }
    dialer.send(&[1])
}

/// The target that a tape gives. A call of it that fails is told, and raises its count; nothing else does.
fn target_over(alloc: Global, link: &mut TapeLink) -> Result<Target, SyncFault>
    ensures kept { CountKept result link.old.calls.faults link.new.calls.faults }
{
    let mut machine: Machine<AnyOp> = Machine::new(alloc, Generator::new());
    fetch_target(&mut machine, link)
}

/// The target that a tape gives, none of whose calls fails.
fn calm_target(alloc: Global, bytes: Vec<u8>) -> Result<Target, SyncFault>
    ensures { IsErrOf result sync.Network → ⊥ }
{
    let mut link = tape(alloc, bytes);
    let mut machine: Machine<AnyOp> = Machine::new(alloc, Generator::new());
    fetch_target(&mut machine, &mut link)
}

/// The target that a tape gives: over the bytes that it gave the exchange has no other end.
fn only_target(alloc: Global, link: &mut TapeLink) -> Result<Target, SyncFault>
    requires given { link.old.given ≡ [] }
    requires ended { link.old.ended ≡ false }
    ensures { IfOk result (λ target. (other : Reply AnyOperation)
        → Exchange any_at (pending_of 1 asks.SyncTarget) link.new.given link.new.ended other
        → (answer : GetSyncTargetResponse) × (answer.target ≡ target)
        × (other ≡ Answered (messages.GetSyncTargetResponse answer))) }
{
    let mut machine: Machine<AnyOp> = Machine::new(alloc, Generator::new());
    fetch_target(&mut machine, link)
}

/// The compact target that a tape gives, likewise.
fn compact_over(alloc: Global, link: &mut TapeLink) -> Result<CompactTarget, SyncFault>
    requires { link.old.calls.failing ≡ [] }
    ensures kept { CountKept result link.old.calls.faults link.new.calls.faults }
    ensures calm { IsErrOf result sync.Network → ⊥ }
{
    let mut machine: Machine<AnyOp> = Machine::new(alloc, Generator::new());
    fetch_compact_target(&mut machine, link)
}

/// The compact log that a tape gives, likewise.
fn state_over(
    alloc: Global,
    target: &CompactTarget,
    link: &mut TapeLink,
) -> Result<CompactLog<KeylessFamily, Sha256Hasher>, StateFault>
    requires { link.old.calls.failing ≡ [] }
    ensures kept { KeptUnlessNetwork result link.old.calls.faults link.new.calls.faults }
    ensures calm { IsErrOf result (states.Fetch sync.Network) → ⊥ }
{
    let mut machine: Machine<KeylessOp> = Machine::new(alloc, Generator::new());
    fetch_compact(alloc, target, &mut machine, link)
}

/// The part that a tape gives, likewise.
fn part_over(
    alloc: Global,
    target: &Target,
    limits: &Limits,
    link: &mut TapeLink,
) -> Result<(Target, Part<AnyOp>), SyncFault>
    requires { link.old.calls.failing ≡ [] }
    ensures kept { CountKept result link.old.calls.faults link.new.calls.faults }
    ensures calm { IsErrOf result sync.Network → ⊥ }
{
    let mut machine: Machine<AnyOp> = Machine::new(alloc, Generator::new());
    sync_full(alloc, target, &mut NoTargets, limits, &mut machine, link)
}

/// The frame of the target of the places 0 to 3 with a root of nines under the number 1.
const TARGET: [u8; 44] = [
    43, 3, 0, 0, 0, 0, 0, 0, 0, 1, 9, 9, 9, 9, 9, 9, 9, 9, 9, 9, 9, 9, 9, 9, 9, 9, 9, 9, 9, 9, 9,
    9, 9, 9, 9, 9, 9, 9, 9, 9, 9, 9, 0, 3,
];

/// Those bytes.
fn target_bytes(alloc: Global) -> Option<Vec<u8>> {
    Vec::from_slice(alloc, &TARGET).ok()
}

/// The end of the target that a tape of this frame gives by each of three calls, None where memory is wanting.
fn ends(alloc: Global) -> Option<[u64; 3]> {
    let first = target_over(alloc, &mut tape(alloc, target_bytes(alloc)?)).ok()?;
    let second = calm_target(alloc, target_bytes(alloc)?).ok()?;
    let third = only_target(alloc, &mut tape(alloc, target_bytes(alloc)?)).ok()?;
    Some([first.end.get(), second.end.get(), third.end.get()])
}

#[test]
fn links_keep_what_they_promise(rt: HostRuntime) {
    let alloc = rt.alloc();
    assert_eq!(rt; second_end(alloc), Ok(0));
    assert_eq!(rt; dialed(alloc), Ok(()));
    assert_eq!(rt; ends(alloc), Some([3; 3]));
}

/// Whether nothing is fetched over a tape without bytes: a compact target, a compact log, a part.
fn nothing_came(alloc: Global) -> Option<[bool; 3]> {
    let target = CompactTarget {
        root: [9; 32],
        leaf_count: Location::ZERO.plus(3),
    };
    let range = Target::new([9; 32], Location::ZERO, Location::ZERO.plus(3))?;
    let limits = Limits::new(2, 1)?;
    let compact = compact_over(alloc, &mut tape(alloc, Vec::new(alloc)));
    let state = state_over(alloc, &target, &mut tape(alloc, Vec::new(alloc)));
    let part = part_over(alloc, &range, &limits, &mut tape(alloc, Vec::new(alloc)));
    Some([compact.is_err(), state.is_err(), part.is_err()])
}

#[test]
fn an_end_is_no_answer(rt: HostRuntime) {
    assert_eq!(rt; nothing_came(rt.alloc()), Some([true; 3]));
}
