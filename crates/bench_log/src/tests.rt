//! A log of some size, proved place by place before and after its beginning was dropped.

use crate::{AnyLog, Work, fill, prove_at};
use ledger_log::{AnyOp, LogFault};
use ledger_merkle::Location;
use std::alloc::Global;
use std::num::NonZeroU64;

/// Ten batches of 1,000 operations.
const TEN: Work = Work {
    operations: 10_000,
    batch: 1_000,
    ranges: 0,
    span: 0,
    steps: 0,
};

/// A log of ten batches, a commit whose floor is 5,000, and ten batches more.
fn filled(alloc: Global) -> Result<AnyLog, LogFault> {
    let mut log = AnyLog::fresh(alloc)?;
    fill(alloc, &mut log, TEN)?;
    let floor = Location::ZERO.plus(5_000);
    log.append_batch(&[AnyOp::CommitFloor(None, floor)])?;
    fill(alloc, &mut log, TEN)?;
    Ok(log)
}

/// Whether the operation at this place is proved.
fn is_proved(log: &AnyLog, place: u64) -> Result<bool, LogFault> {
    if place >= log.size().get() {
        return Ok(false);
    }
    match Location::new(place) {
        Some(start) => prove_at(log, start, NonZeroU64::MIN),
        None => Ok(false),
    }
}

/// How many of each 97th place from this multiple of 97 on are proved.
fn proved_from(log: &AnyLog, first: u64) -> Result<u64, LogFault> {
    let mut proved = 0u64;
    for i in first..207 {
        if is_proved(log, i.saturating_mul(97))? {
            proved = proved.saturating_add(1);
        }
    }
    Ok(proved)
}

// Of 20,002 places each 97th is one of 207, and 155 of them are 5,000 or above.
#[test]
fn proves_each_97th_place(rt: HostRuntime) -> Result<(), LogFault> {
    let mut log = filled(rt.alloc())?;
    let root = log.root();
    assert_eq!(rt; log.size().get(), 20_002);
    assert_eq!(rt; proved_from(&log, 0)?, 207);
    log.prune(log.floor())?;
    assert_eq!(rt; log.front().get(), 5_000);
    assert!(rt; log.root() == root);
    assert_eq!(rt; proved_from(&log, 52)?, 155);
    Ok(())
}
