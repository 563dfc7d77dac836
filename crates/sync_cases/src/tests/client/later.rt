//! Later targets: which are taken, by which an answer is judged, and what is asked from then on.
ghost use Rattle.std.specs.Prelude.{◌≡◌, ◌≤◌, ◌-◌, length, true, None, Option, List, IfSome};
ghost use Rattle.ledger_log.specs.Keyless.{keyless_spelling, IsSoundKeyless};
ghost use Rattle.ledger_log.specs.View.{log_range};
ghost use Rattle.sync_net.specs.Core.{LogData};
ghost use Rattle.sync_client.specs.Owing.{OwesNothing};
ghost use Rattle.sync_client.specs.Serving.{Serves};
ghost use Rattle.sync_net.specs.Wire.{Wire};
ghost use Rattle.sync_net.specs.Service.{Service};

use super::vectors::{
    ASKED_ALL, ASKED_ONE, ASKED_THREE, GIVEN_ALL, GIVEN_ONE, GIVEN_THREE, ROOT, ROOT_NINE,
    ROOT_SIX, ROOT_TWO,
};
use ledger_codec::Digest;
use ledger_log::{KeylessOp, Target};
use ledger_merkle::{Location, Part};
use std::alloc::Global;
use sync_client::{
    CollectFault, Collector, Limits, ListTargets, NoTargets, SyncFault, Targets, sync_full,
};
use sync_net::{Generator, Link, LinkError, Machine};

/// A target of the log of three or of nine.
fn target(root: Digest, start: u64, end: u64) -> Option<Target> {
    Target::new(root, Location::new(start)?, Location::new(end)?)
}

/// What two later targets are told that come after the target from 1 to 2.
fn named(
    alloc: Global,
    first: (u64, u64),
    second: (u64, u64),
) -> Option<[Result<(), CollectFault>; 2]> {
    let begin = target(ROOT_TWO, 1, 2)?;
    let mut all: Collector<KeylessOp> = Collector::new(alloc, begin, Limits::new(1, 1)?);
    let one = all.retarget(target(ROOT, first.0, first.1)?);
    let two = all.retarget(target(ROOT, second.0, second.1)?);
    Some([one, two])
}

fn stale(start: u64, end: u64) -> Option<CollectFault> {
    Some(CollectFault::StaleUpdate {
        start: Location::new(start)?,
        end: Location::new(end)?,
    })
}

#[test]
fn later_targets_rise(rt: HostRuntime) {
    let alloc = rt.alloc();
    assert!(rt; named(alloc, (1, 3), (2, 4)) == Some([Ok(()), Ok(())]));
    for (first, second) in [((1, 3), (1, 3)), ((2, 3), (1, 4)), ((2, 4), (2, 3))] {
        let refused = stale(second.0, second.1).map(|fault| [Ok(()), Err(fault)]);
        assert!(rt; named(alloc, first, second) == refused);
    }
}

/// A link that gives fixed bytes, and keeps what is sent.
#[derive(Drop)]
struct Tape {
    bytes: Vec<u8>,
    place: usize,
    sent: Vec<u8>,
}

/// Copies bytes from this place on, as many as there is room for.
fn copy_from(from: &[u8], place: usize, buffer: &mut [u8]) -> usize
    ensures room { length buffer.new ≡ length buffer.old }
    ensures within { result ≤ length buffer.old }
    ensures there { result ≤ length from.now - place }
{
    if place >= from.len() {
        return 0;
    }
    let rest = &from[place..];
    let count = rest.len().min(buffer.len());
    buffer[..count].copy_from_slice(&rest[..count]);
    count
}

impl Link for Tape {
    ghost faults = { λ _. 0 };

    ghost exact = { true };

    ghost steady = { λ _. Unit {0} };

    ghost wire = { λ _. None };

    ghost service = { λ _. None };

    fn send(&mut self, bytes: &[u8]) -> Result<(), LinkError> {
        match self.sent.extend_from_slice(bytes) {
            Ok(()) => Ok(()),
            Err(_) => Err(LinkError::OutOfMemory),
        }
    }

    fn recv(&mut self, buffer: &mut [u8]) -> Result<usize, LinkError> {
        let count = copy_from(&self.bytes, self.place, buffer);
        self.place += count;
        Ok(count)
    }
}

/// What a session came to.
#[derive(Clone, Copy, Debug, PartialEq, Eq)]
enum Told {
    /// The root and end of the target that was synced, and the number of operations.
    Synced(Digest, u64, usize),
    /// The places of a stale target.
    Stale(u64, u64),
    Other,
}

fn fault_told(fault: SyncFault) -> Told {
    match fault {
        SyncFault::StaleUpdate { start, end } => Told::Stale(start.get(), end.get()),
        _ => Told::Other,
    }
}

fn what_came(synced: Result<(Target, Part<KeylessOp>), SyncFault>) -> Told {
    match synced {
        Ok(synced) => Told::Synced(
            synced.0.root,
            synced.0.end.get(),
            synced.1.ops.as_slice().len(),
        ),
        Err(fault) => fault_told(fault),
    }
}

/// What a session for the first six comes to over these bytes, with these answers on later targets; whether it
/// sent these asks; and whether a target is still to be named.
fn ran(
    alloc: Global,
    limits: &Limits,
    answers: &[Option<Target>],
    given: &[u8],
    asked: &[u8],
) -> Option<(Told, bool, bool)> {
    let six = target(ROOT_SIX, 0, 6)?;
    let mut updates = ListTargets::new(Vec::from_slice(alloc, answers).ok()?);
    let mut machine: Machine<KeylessOp> = Machine::new(alloc, Generator::new());
    let mut tape = Tape {
        bytes: Vec::from_slice(alloc, given).ok()?,
        place: 0,
        sent: Vec::new(alloc),
    };
    let result = sync_full(alloc, &six, &mut updates, limits, &mut machine, &mut tape);
    let sent = tape.sent.as_slice() == asked;
    Some((what_came(result), sent, updates.next().is_some()))
}

/// Two at a time, one or three under way, with a target that is named after the second answer.
fn risen(
    alloc: Global,
    outstanding: usize,
    given: &[u8],
    asked: &[u8],
) -> Option<(Told, bool, bool)> {
    let answers = [None, target(ROOT_NINE, 0, 9)];
    ran(alloc, &Limits::new(2, outstanding)?, &answers, given, asked)
}

#[test]
fn a_later_target_is_asked_for_up_to_its_end(rt: HostRuntime) {
    let alloc = rt.alloc();
    let synced = Some((Told::Synced(ROOT_NINE, 9, 9), true, false));
    assert!(rt; risen(alloc, 1, &GIVEN_ONE, &ASKED_ONE) == synced);
    assert!(rt; risen(alloc, 3, &GIVEN_THREE, &ASKED_THREE) == synced);
}

/// The part that a link gives which serves the target's log and owes nothing, where no later target is named.
fn fetched<L: Link>(
    alloc: Global,
    target: &Target,
    limits: &Limits,
    link: &mut L,
) -> Option<Part<KeylessOp>>
    ensures { (held : LogData) (h : Serves keyless_spelling IsSoundKeyless held target.now)
        → OwesNothing held (L.service link.old)
        → IfSome result (λ part. part.ops ≡ log_range h.log target.now.start
        (target.now.end - target.now.start)) }
{
    let mut machine: Machine<KeylessOp> = Machine::new(alloc, Generator::new());
    match sync_full(alloc, target, &mut NoTargets, limits, &mut machine, link) {
        Ok(synced) => Some(synced.1),
        Err(_) => None,
    }
}

#[test]
fn an_empty_tape_has_no_part(rt: HostRuntime) {
    let alloc = rt.alloc();
    let mut tape = Tape {
        bytes: Vec::new(alloc),
        place: 0,
        sent: Vec::new(alloc),
    };
    let part = target(ROOT_SIX, 0, 6)
        .zip(Limits::new(2, 1))
        .and_then(|(six, limits)| fetched(alloc, &six, &limits, &mut tape));
    assert!(rt; part.is_none());
}

/// So many at a time, with the first target named again.
fn again(alloc: Global, batch: u64, given: &[u8], asked: &[u8]) -> Option<(Told, bool, bool)> {
    let answers = [target(ROOT_SIX, 0, 6)];
    ran(alloc, &Limits::new(batch, 1)?, &answers, given, asked)
}

#[test]
fn a_target_named_again_is_stale(rt: HostRuntime) {
    let refused = Some((Told::Stale(0, 6), true, false));
    assert!(rt; again(rt.alloc(), 2, &GIVEN_ONE, &ASKED_ONE[..21]) == refused);
}

#[test]
fn nothing_is_named_once_all_is_kept(rt: HostRuntime) {
    let synced = Some((Told::Synced(ROOT_SIX, 6, 6), true, true));
    assert!(rt; again(rt.alloc(), 50, &GIVEN_ALL, &ASKED_ALL) == synced);
}
