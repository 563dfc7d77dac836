//! A log that is fetched over a link that gives bytes which were worked out elsewhere (vectors/log.py). What the link's
//! count of failed calls says of the answer is derived here, each promise in the contract of a function.
ghost use Rattle.std.specs.Prelude.{◌≡◌, false, IsErrOf};
ghost use Rattle.sync_client.specs.declared.fault.SyncFault.TheVariants.{Network};
ghost use Rattle.sync_fetch.specs.States.{KeptUnlessNetwork};
ghost use Rattle.sync_fetch.specs.declared.fault.StateFault.TheVariants.{Fetch};

use ledger_codec::Digest;
use ledger_compact::CompactLog;
use ledger_log::{AnyFamily, KeylessFamily, Log};
use ledger_merkle::Sha256Hasher;
use ledger_sync::{fetch_compact_log, fetch_log};
use std::alloc::Global;
use sync_client::{Limits, SyncFault};
use sync_fetch::StateFault;
use sync_net::{Generator, Link, LinkError, Machine};

/// The frame of the target under the number 1.
const TARGET: [u8; 44] = [
    43, 3, 0, 0, 0, 0, 0, 0, 0, 1, 56, 187, 44, 130, 251, 50, 212, 124, 95, 204, 12, 206, 237, 35,
    253, 190, 119, 190, 167, 19, 202, 57, 23, 93, 124, 159, 16, 244, 53, 83, 156, 14, 0, 3,
];

/// The frame of its operations under the number 2.
const OPERATIONS: [u8; 87] = [
    86, 1, 0, 0, 0, 0, 0, 0, 0, 2, 3, 0, 0, 3, 2, 0, 0, 0, 7, 7, 7, 7, 7, 7, 7, 7, 7, 7, 7, 7, 7,
    7, 7, 7, 7, 7, 7, 7, 7, 7, 7, 7, 7, 7, 7, 7, 7, 7, 7, 7, 9, 9, 9, 9, 9, 9, 9, 9, 9, 9, 9, 9, 9,
    9, 9, 9, 9, 9, 9, 9, 9, 9, 9, 9, 9, 9, 9, 9, 9, 9, 9, 9, 2, 0, 0, 1, 0,
];

const ROOT: Digest = [
    56, 187, 44, 130, 251, 50, 212, 124, 95, 204, 12, 206, 237, 35, 253, 190, 119, 190, 167, 19,
    202, 57, 23, 93, 124, 159, 16, 244, 53, 83, 156, 14,
];

/// A link that takes all and gives these bytes, one at a time, and then the end, or whose recvs fail.
#[derive(Drop)]
struct Canned {
    bytes: Vec<u8>,
    at: usize,
    failing: bool,
    faults: u64,
}

impl Canned {
    ghost use Rattle.std.specs.Prelude.{◌≤◌, length};

    fn give(&mut self, buffer: &mut [u8]) -> usize
        ensures bound { result ≤ length buffer.new }
        ensures failing { self.new.failing ≡ self.old.failing }
        ensures faults { self.new.faults ≡ self.old.faults }
    {
        if self.at < self.bytes.len() && buffer.len() > 0 {
            buffer[0] = self.bytes[self.at];
            self.at += 1;
            1
        } else {
            0
        }
    }
}

impl Link for Canned {
    ghost use Rattle.std.specs.Prelude.{◌≡◌, None, false, true};

    ghost faults = { λ c. c.faults };

    ghost exact = { true };

    ghost steady = { λ c. c.failing ≡ false };

    ghost wire = { λ _. None };

    ghost service = { λ _. None };

    fn send(&mut self, _bytes: &[u8]) -> Result<(), LinkError> {
        Ok(())
    }

    fn recv(&mut self, buffer: &mut [u8]) -> Result<usize, LinkError> {
        if self.failing {
            self.faults = self.faults.saturating_add(1);
            return Err(LinkError::Failed);
        }
        Ok(self.give(buffer))
    }
}

/// The log that such a link gives. A call of it that fails is told, and raises its count; nothing else does.
fn counted(
    alloc: Global,
    limits: &Limits,
    link: &mut Canned,
) -> Result<Log<AnyFamily, Sha256Hasher>, StateFault>
    ensures kept { KeptUnlessNetwork result link.old.faults link.new.faults }
{
    let mut machine = Machine::new(alloc, Generator::new());
    fetch_log::<AnyFamily, Canned>(alloc, limits, &mut machine, link)
}

/// The log that such a link gives whose calls don't fail: no failed call is told.
fn calm(
    alloc: Global,
    limits: &Limits,
    bytes: Vec<u8>,
) -> Result<Log<AnyFamily, Sha256Hasher>, StateFault>
    ensures { IsErrOf result (Fetch Network) → ⊥ }
{
    let mut link = Canned {
        bytes,
        at: 0,
        failing: false,
        faults: 0,
    };
    let mut machine = Machine::new(alloc, Generator::new());
    fetch_log::<AnyFamily, Canned>(alloc, limits, &mut machine, &mut link)
}

/// The compact log that such a link gives, likewise.
fn compact_counted(
    alloc: Global,
    link: &mut Canned,
) -> Result<CompactLog<KeylessFamily, Sha256Hasher>, StateFault>
    ensures kept { KeptUnlessNetwork result link.old.faults link.new.faults }
{
    let mut machine = Machine::new(alloc, Generator::new());
    fetch_compact_log::<KeylessFamily, Canned>(alloc, &mut machine, link)
}

/// The compact log that such a link gives whose calls don't fail, likewise.
fn compact_calm(
    alloc: Global,
    bytes: Vec<u8>,
) -> Result<CompactLog<KeylessFamily, Sha256Hasher>, StateFault>
    ensures { IsErrOf result (Fetch Network) → ⊥ }
{
    let mut link = Canned {
        bytes,
        at: 0,
        failing: false,
        faults: 0,
    };
    let mut machine = Machine::new(alloc, Generator::new());
    fetch_compact_log::<KeylessFamily, Canned>(alloc, &mut machine, &mut link)
}

/// The root and the size of the log that is fetched over a link that gives these bytes.
fn fetched(
    alloc: Global,
    first: &[u8],
    second: &[u8],
) -> Option<Result<(Digest, u64), StateFault>> {
    let mut bytes = Vec::new(alloc);
    bytes.extend_from_slice(first).ok()?;
    bytes.extend_from_slice(second).ok()?;
    let limits = Limits::new(50, 1)?;
    match calm(alloc, &limits, bytes) {
        Ok(log) => Some(Ok((log.root(), log.size().get()))),
        Err(fault) => Some(Err(fault)),
    }
}

#[test]
fn a_log_is_fetched(rt: HostRuntime) {
    let found = fetched(rt.alloc(), &TARGET, &OPERATIONS);
    assert!(rt; matches!(found, Some(Ok(found)) if found == (ROOT, 3)));
}

#[test]
fn an_end_is_told(rt: HostRuntime) {
    let found = fetched(rt.alloc(), &TARGET, &OPERATIONS[..30]);
    assert!(rt;
        matches!(
            found,
            Some(Err(StateFault::Fetch(SyncFault::RequestChannelClosed)))
        )
    );
}

/// What is told over a link of those bytes, and how often its calls have failed then.
fn told(alloc: Global, failing: bool) -> Option<(bool, u64)> {
    let mut bytes = Vec::new(alloc);
    bytes.extend_from_slice(&TARGET).ok()?;
    bytes.extend_from_slice(&OPERATIONS).ok()?;
    let mut link = Canned {
        bytes,
        at: 0,
        failing,
        faults: 0,
    };
    let told = counted(alloc, &Limits::new(50, 1)?, &mut link);
    let is_network = matches!(told, Err(StateFault::Fetch(SyncFault::Network)));
    Some((is_network, link.faults))
}

#[test]
fn a_failed_call_is_told_and_counted(rt: HostRuntime) {
    assert_eq!(rt; told(rt.alloc(), true), Some((true, 1)));
    assert_eq!(rt; told(rt.alloc(), false), Some((false, 0)));
}

/// Whether a failed call is told by the fetch of a compact log over a link without bytes, and how often its calls have
/// failed then.
fn compact_told(alloc: Global, failing: bool) -> (bool, u64) {
    let mut link = Canned {
        bytes: Vec::new(alloc),
        at: 0,
        failing,
        faults: 0,
    };
    let told = compact_counted(alloc, &mut link);
    let is_network = matches!(told, Err(StateFault::Fetch(SyncFault::Network)));
    (is_network, link.faults)
}

#[test]
fn a_compact_fetch_tells_a_failed_call(rt: HostRuntime) {
    let alloc = rt.alloc();
    assert_eq!(rt; compact_told(alloc, true), (true, 1));
    assert_eq!(rt; compact_told(alloc, false), (false, 0));
    let ended = compact_calm(alloc, Vec::new(alloc));
    assert!(rt;
        matches!(
            ended,
            Err(StateFault::Fetch(SyncFault::RequestChannelClosed))
        )
    );
}
