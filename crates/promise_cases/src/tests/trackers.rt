//! What is promised of a tracker's reports.
ghost use Rattle.std.specs.Prelude.{◌≡◌, ◌∷◌, [], Err, IfOk, IfSome};
ghost use Rattle.simulate_parts.specs.declared.tracker.ObserveFault.TheVariants as faults;

use ledger_codec::{List, OutOfMemory};
use simulate_parts::{FinalizationUpdate, ObserveFault, Peer, ProgressTracker, Round};
use std::alloc::Global;

/// A report by peer 1 of a block of one byte at height 3.
fn report(alloc: Global, view: u64, digest: u8) -> Result<FinalizationUpdate, OutOfMemory>
    ensures view { IfOk result (λ update. update.round.view ≡ view) }
    ensures height { IfOk result (λ update. update.height ≡ 3) }
    ensures digest { IfOk result (λ update. update.block_digest ≡ digest ∷ []) }
{
    let mut bytes = Vec::new(alloc);
    bytes.push(digest)?;
    Ok(FinalizationUpdate {
        pk: Peer(1),
        round: Round { epoch: 0, view },
        height: 3,
        block_digest: List::from_vec(bytes),
    })
}

/// The least view after one report, None where memory is wanting: that of the report.
fn only_view(alloc: Global, view: u64) -> Option<u64>
    ensures { IfSome result (λ least. least ≡ view) }
{
    let mut tracker = ProgressTracker::default(alloc);
    let Ok(update) = report(alloc, view, 1) else {
        return None;
    };
    match tracker.observe(update) {
        Ok(()) => Some(tracker.min_view()),
        Err(_) => None,
    }
}

/// The answer to a second report, of another digest at the first one's height; None where memory is wanting before.
fn conflict(alloc: Global) -> Option<Result<(), ObserveFault>>
    ensures { IfSome result (λ answer. answer ≡ Err (faults.Height 3)) }
{
    let mut tracker = ProgressTracker::default(alloc);
    let Ok(first) = report(alloc, 1, 1) else {
        return None;
    };
    let Ok(second) = report(alloc, 2, 2) else {
        return None;
    };
    match tracker.observe(first) {
        Ok(()) => Some(tracker.observe(second)),
        Err(_) => None,
    }
}

#[test]
fn reports_are_kept_by_view_and_height(rt: HostRuntime) {
    assert_eq!(rt; only_view(rt.alloc(), 4), Some(4));
    assert!(rt; conflict(rt.alloc()) == Some(Err(ObserveFault::Height { height: 3 })));
}
