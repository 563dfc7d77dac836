//! Fetches over a link that gives bytes that were written by hand, by the rules of docs/FORMATS.md.
ghost use Rattle.std.specs.Prelude.{◌≡◌, ◌≤◌, ◌^◌, ℕ, true, None, Option};

use ledger_log::{CompactTarget, KeylessOp, Target};
use ledger_merkle::Location;
use std::alloc::Global;
use sync_client::SyncFault;
use sync_fetch::{fetch_compact_target, fetch_target};
use sync_net::{Generator, Link, LinkError, Machine};

mod states;

/// A link that takes all and gives these bytes, one at a time, and then the end.
#[derive(Drop)]
struct Canned {
    bytes: Vec<u8>,
    at: usize,
}

impl Link for Canned {
    ghost faults = { λ _. 0 };

    ghost exact = { true };

    ghost steady = { λ _. Unit {0} };

    ghost wire = { λ _. None };

    ghost service = { λ _. None };

    fn send(&mut self, _bytes: &[u8]) -> Result<(), LinkError> {
        Ok(())
    }

    fn recv(&mut self, buffer: &mut [u8]) -> Result<usize, LinkError> {
        if self.at < self.bytes.len() && buffer.len() > 0 {
            buffer[0] = self.bytes[self.at];
            self.at += 1;
            Ok(1)
        } else {
            Ok(0)
        }
    }
}

fn at(value: u64) -> Location
    requires { value ≤ 2 ^ 62 }
    ensures { result ≡ value }
{
    Location::ZERO.plus(value)
}

/// The frame of an error of code 3 under the number 7, with the text `no`.
const STRAY: [u8; 14] = [13, 8, 0, 0, 0, 0, 0, 0, 0, 7, 3, 2, 0x6e, 0x6f];

/// The frame of an error of code 3 under the number 1, with the text `no`.
const REFUSAL: [u8; 14] = [13, 8, 0, 0, 0, 0, 0, 0, 0, 1, 3, 2, 0x6e, 0x6f];

/// The frame of the target of 0 to 3 with a root of nines under the number 1.
const TARGET: [u8; 44] = [
    43, 3, 0, 0, 0, 0, 0, 0, 0, 1, 9, 9, 9, 9, 9, 9, 9, 9, 9, 9, 9, 9, 9, 9, 9, 9, 9, 9, 9, 9, 9,
    9, 9, 9, 9, 9, 9, 9, 9, 9, 9, 9, 0, 3,
];

/// The frame of the compact target of 3 operations with a root of nines under the number 1.
const COMPACT: [u8; 43] = [
    42, 5, 0, 0, 0, 0, 0, 0, 0, 1, 9, 9, 9, 9, 9, 9, 9, 9, 9, 9, 9, 9, 9, 9, 9, 9, 9, 9, 9, 9, 9,
    9, 9, 9, 9, 9, 9, 9, 9, 9, 9, 9, 3,
];

/// A link that gives two pieces, and then the end.
fn link_of(alloc: Global, first: &[u8], second: &[u8]) -> Option<Canned> {
    let mut bytes = Vec::new(alloc);
    bytes.extend_from_slice(first).ok()?;
    bytes.extend_from_slice(second).ok()?;
    Some(Canned { bytes, at: 0 })
}

/// What is fetched as a target.
fn target_from(alloc: Global, first: &[u8], second: &[u8]) -> Option<Result<Target, SyncFault>> {
    let mut link = link_of(alloc, first, second)?;
    let mut machine: Machine<KeylessOp> = Machine::new(alloc, Generator::new());
    Some(fetch_target(&mut machine, &mut link))
}

/// What is fetched as a compact target.
fn compact_from(alloc: Global, bytes: &[u8]) -> Option<Result<CompactTarget, SyncFault>> {
    let mut link = link_of(alloc, bytes, &[])?;
    let mut machine: Machine<KeylessOp> = Machine::new(alloc, Generator::new());
    Some(fetch_compact_target(&mut machine, &mut link))
}

#[test]
fn a_target_is_fetched_behind_a_stray(rt: HostRuntime) {
    let found = target_from(rt.alloc(), &STRAY, &TARGET);
    let nines = Target::new([9; 32], at(0), at(3));
    assert!(rt; found.and_then(|fetched| fetched.ok()) == nines);
}

#[test]
fn a_compact_target_is_fetched(rt: HostRuntime) {
    let found = compact_from(rt.alloc(), &COMPACT);
    let nines = CompactTarget {
        root: [9; 32],
        leaf_count: at(3),
    };
    assert!(rt; found.and_then(|fetched| fetched.ok()) == Some(nines));
}

#[test]
fn a_refusal_is_told(rt: HostRuntime) {
    let refused = target_from(rt.alloc(), &REFUSAL, &TARGET);
    assert!(rt; matches!(refused, Some(Err(SyncFault::Server { .. }))));
}

#[test]
fn an_end_and_another_kind_are_told(rt: HostRuntime) {
    let ended = target_from(rt.alloc(), &STRAY, &[]);
    assert!(rt; matches!(ended, Some(Err(SyncFault::RequestChannelClosed))));
    let other = compact_from(rt.alloc(), &TARGET);
    assert!(rt;
        matches!(
            other,
            Some(Err(SyncFault::UnexpectedResponse { request_id: 1 }))
        )
    );
}
