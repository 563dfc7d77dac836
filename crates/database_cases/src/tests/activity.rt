//! Worked examples. The expected roots are those of ledger_examples' vectors/families.py.
ghost use Rattle.std.specs.Prelude.{◌≡◌, ◌≤◌, ◌^◌};

use ledger_activity::{Activity, CurrentFamily};
use ledger_codec::Digest;
use ledger_log::{AnyOp, Log, LogFault};
use ledger_merkle::{Location, Sha256Hasher};
use std::alloc::Global;

type CurrentLog = Log<CurrentFamily, Sha256Hasher>;

/// The canonical root of a commit, two updates of one key and a commit.
const SHORT: Digest = [
    0x01, 0x5b, 0xe5, 0x61, 0x7b, 0xd4, 0xbd, 0xee, 0xb4, 0x01, 0xb3, 0x9d, 0xeb, 0xa4, 0x01, 0xc3,
    0xaf, 0x0a, 0xde, 0xbb, 0xfe, 0x91, 0x8e, 0x70, 0xff, 0xa1, 0x9f, 0x62, 0xb5, 0x0a, 0x12, 0x16,
];

/// The same with 300 updates of distinct keys before the last commit: two chunks.
const LONG: Digest = [
    0x18, 0xea, 0x1e, 0x01, 0xd4, 0x19, 0x27, 0x69, 0x07, 0x4c, 0xf7, 0x54, 0x5d, 0xdb, 0xd1, 0xa3,
    0x50, 0x10, 0xce, 0x48, 0x55, 0x38, 0xa2, 0x8a, 0x50, 0xe3, 0x4d, 0xaa, 0x37, 0x51, 0x05, 0x93,
];

fn commit(floor: u64) -> AnyOp
    requires { floor ≤ 2 ^ 62 }
{
    AnyOp::CommitFloor(None, Location::ZERO.plus(floor))
}

/// Two updates of one key.
fn twice() -> [AnyOp; 2] {
    [
        AnyOp::Update([7; 32], [8; 32]),
        AnyOp::Update([7; 32], [9; 32]),
    ]
}

/// The bits and the canonical root of a fresh log with this batch, pruned at this place.
fn told(alloc: Global, ops: &[AnyOp], front: Location) -> Result<(Vec<bool>, Digest), LogFault> {
    let mut log = CurrentLog::fresh(alloc)?;
    log.append_batch(ops)?;
    log.prune(front)?;
    Ok((log.bits()?, log.current_root()?))
}

#[test]
fn the_last_update_is_active(rt: HostRuntime) -> Result<(), LogFault> {
    let [first, second] = twice();
    let (bits, root) = told(rt.alloc(), &[first, second, commit(0)], Location::ZERO)?;
    assert_eq!(rt; bits.as_slice(), [false, false, true, true].as_slice());
    assert_eq!(rt; root, SHORT);
    Ok(())
}

#[test]
fn deletes_and_what_was_dropped_are_not(rt: HostRuntime) -> Result<(), LogFault> {
    let [first, second] = twice();
    let ops = [first, AnyOp::Delete([7; 32]), second, commit(4)];
    let (bits, _) = told(rt.alloc(), &ops, Location::ZERO)?;
    let want = [false, false, false, true, true];
    assert_eq!(rt; bits.as_slice(), want.as_slice());
    let (bits, _) = told(rt.alloc(), &ops, Location::ZERO.plus(4))?;
    let want = [false, false, false, false, true];
    assert_eq!(rt; bits.as_slice(), want.as_slice());
    Ok(())
}

/// Two updates of one key, 300 of others, and a commit.
fn many(alloc: Global) -> Result<Vec<AnyOp>, LogFault> {
    let mut ops = Vec::from_slice(alloc, &twice())?;
    for number in 0..300u16 {
        let [high, low] = number.to_be_bytes();
        let mut key = [0; 32];
        key[0] = high;
        key[1] = low;
        ops.push(AnyOp::Update(key, [8; 32]))?;
    }
    ops.push(commit(0))?;
    Ok(ops)
}

#[test]
fn bits_fill_more_than_one_chunk(rt: HostRuntime) -> Result<(), LogFault> {
    let alloc = rt.alloc();
    let ops = many(alloc)?;
    let (bits, root) = told(alloc, ops.as_slice(), Location::ZERO)?;
    assert_eq!(rt; bits.len(), 304);
    assert_eq!(rt; root, LONG);
    Ok(())
}
