//! Compact logs that are fetched. The frames and the root are those of vectors/compact.py.
use super::{Canned, REFUSAL, at, link_of};
use ledger_codec::Digest;
use ledger_log::{CompactTarget, KeylessFamily, KeylessOp, LogFault};
use std::alloc::Global;
use sync_client::SyncFault;
use sync_fetch::{StateFault, fetch_compact, fetch_compact_target};
use sync_net::{Generator, Machine};

const ROOT: Digest = [
    0x43, 0x7c, 0x55, 0xc0, 0x1e, 0xbc, 0xb7, 0x43, 0xbb, 0x9a, 0xc7, 0x87, 0x02, 0xd2, 0x42, 0xef,
    0x1a, 0x82, 0x7b, 0xfb, 0x00, 0x40, 0xfc, 0x68, 0x8f, 0xe0, 0x65, 0x80, 0x54, 0x6e, 0x6f, 0x91,
];

/// The frame of the target under the number 1.
const TARGET: [u8; 43] = [
    42, 5, 0, 0, 0, 0, 0, 0, 0, 1, 67, 124, 85, 192, 30, 188, 183, 67, 187, 154, 199, 135, 2, 210,
    66, 239, 26, 130, 123, 251, 0, 64, 252, 104, 143, 224, 101, 128, 84, 110, 111, 145, 3,
];

/// The frame of the state under the number 2.
const STATE: [u8; 114] = [
    113, 7, 0, 0, 0, 0, 0, 0, 0, 2, 3, 2, 202, 159, 200, 90, 113, 91, 169, 13, 35, 48, 144, 87,
    248, 25, 156, 124, 27, 92, 104, 222, 31, 175, 6, 169, 94, 45, 131, 129, 106, 136, 159, 139, 38,
    225, 210, 162, 195, 255, 228, 197, 57, 235, 145, 237, 198, 89, 115, 112, 30, 135, 192, 98, 84,
    149, 34, 29, 242, 113, 177, 112, 134, 200, 209, 83, 1, 0, 1, 3, 0, 1, 202, 159, 200, 90, 113,
    91, 169, 13, 35, 48, 144, 87, 248, 25, 156, 124, 27, 92, 104, 222, 31, 175, 6, 169, 94, 45,
    131, 129, 106, 136, 159, 139,
];

/// The root of the compact log that is fetched for the target that was fetched before it.
fn fetched(alloc: Global) -> Option<Digest> {
    let mut link = link_of(alloc, &TARGET, &STATE)?;
    let mut machine: Machine<KeylessOp> = Machine::new(alloc, Generator::new());
    let target = fetch_compact_target(&mut machine, &mut link).ok()?;
    let log = fetch_compact::<KeylessFamily, Canned>(alloc, &target, &mut machine, &mut link);
    Some(log.ok()?.root())
}

#[test]
fn a_compact_log_is_fetched(rt: HostRuntime) {
    assert_eq!(rt; fetched(rt.alloc()), Some(ROOT));
}

/// Why nothing is fetched under the number `first` for a target of three operations with a root of nines.
fn refused(alloc: Global, first: u64, bytes: &[u8]) -> Option<StateFault> {
    let mut link = link_of(alloc, bytes, &[])?;
    let mut machine: Machine<KeylessOp> = Machine::new(alloc, Generator::starting_at(first));
    let target = CompactTarget {
        root: [9; 32],
        leaf_count: at(3),
    };
    fetch_compact::<KeylessFamily, Canned>(alloc, &target, &mut machine, &mut link).err()
}

#[test]
fn a_state_of_another_root_is_refused(rt: HostRuntime) {
    let wrong = refused(rt.alloc(), 2, &STATE);
    assert!(rt;
        matches!(wrong, Some(StateFault::WrongState(LogFault::WrongRoot { found })) if found == ROOT)
    );
}

#[test]
fn a_peer_may_refuse(rt: HostRuntime) {
    let stale = refused(rt.alloc(), 1, &REFUSAL);
    assert!(rt; matches!(stale, Some(StateFault::Fetch(SyncFault::Server { .. }))));
}
