//! What is promised of all sessions over the bytes that one was given.
ghost use Rattle.std.specs.Prelude.{◌≡◌, [], false, IsErrOf};
ghost use Rattle.promise_cases.specs.Sessions.{OnlyCloses, SentFirst};
ghost use Rattle.sync_client.specs.declared.fault.SyncFault.TheVariants as sync;

use ledger_log::{AnyOp, Target};
use ledger_merkle::{Location, Part};
use std::alloc::Global;
use sync_client::{Limits, NoTargets, SyncFault, sync_full};
use sync_net::{Generator, Machine};
use sync_server::TapeLink;

/// The part that a fresh tape gives. Where its bytes end or are no frames, the session over them has no other end, and
/// where a call fails, what was sent is what every session over those bytes sends first.
fn part_of(
    alloc: Global,
    target: &Target,
    limits: &Limits,
    link: &mut TapeLink,
) -> Result<(Target, Part<AnyOp>), SyncFault>
    requires given { link.old.given ≡ [] }
    requires ended { link.old.ended ≡ false }
    requires sent { link.old.sent ≡ [] }
    ensures closed { IsErrOf result sync.RequestChannelClosed
        → OnlyCloses target.now limits.now link.new.given link.new.ended }
    ensures failed { IsErrOf result sync.Network
        → SentFirst target.now limits.now link.new.given link.new.sent }
{
    let mut machine: Machine<AnyOp> = Machine::new(alloc, Generator::new());
    sync_full(alloc, target, &mut NoTargets, limits, &mut machine, link)
}

/// How the session for a range of three ends over a tape of these bytes, whose call of this number fails.
fn end_over(alloc: Global, bytes: &[u8], failing: u64) -> Option<SyncFault> {
    let target = Target::new([9; 32], Location::ZERO, Location::ZERO.plus(3))?;
    let limits = Limits::new(2, 1)?;
    let bytes = Vec::from_slice(alloc, bytes).ok()?;
    let failing = Vec::from_slice(alloc, &[failing]).ok()?;
    let mut link = TapeLink::new(alloc, bytes, Vec::new(alloc), failing);
    part_of(alloc, &target, &limits, &mut link).err()
}

#[test]
fn sessions_end_in_one_way(rt: HostRuntime) {
    let alloc = rt.alloc();
    for bytes in [[].as_slice(), [129, 128, 128, 5].as_slice()] {
        let end = end_over(alloc, bytes, 9);
        assert!(rt; matches!(end, Some(SyncFault::RequestChannelClosed)));
    }
    for failing in [0, 1] {
        let end = end_over(alloc, &[], failing);
        assert!(rt; matches!(end, Some(SyncFault::Network)));
    }
}
