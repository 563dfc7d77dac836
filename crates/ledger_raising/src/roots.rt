//! The root of a log with operations behind it.
ghost use Rattle.std.specs.Prelude.{◌≡◌, ◌+◌, ◌≤◌, ◌^◌, IfOk, length};
ghost use Rattle.ledger_log.specs.View.{log_size, log_root, log_peaks_at};
ghost use Rattle.ledger_compact.specs.View.{with_ops};

use ledger_codec::{Digest, OutOfMemory};
use ledger_log::{Family, Log};
use ledger_merkle::{Hasher, Peaks};
use std::alloc::Global;

/// The root that the log has once these operations stand behind it. It costs what they and the log's peaks
/// cost, and leaves the log alone.
pub fn root_behind<F: Family, H: Hasher>(
    alloc: Global,
    log: &Log<F, H>,
    ops: &[F::Op],
) -> Result<Digest, OutOfMemory>
    requires { log_size log.now + length ops.now ≤ 2 ^ 62 }
    ensures { IfOk result (λ root. root ≡ log_root H.digest F.Op.spelling (with_ops log.now ops.now)) }
{
    let peaks = peaks_of(alloc, log)?;
    Ok(peaks.extended(ops)?.root())
}

/// The peaks of all operations of the log.
fn peaks_of<F: Family, H: Hasher>(alloc: Global, log: &Log<F, H>) -> Result<Peaks<H>, OutOfMemory>
    ensures size { IfOk result (λ peaks. peaks.size ≡ log_size log.now) }
    ensures nodes { IfOk result (λ peaks. peaks.nodes
        ≡ log_peaks_at H.digest F.Op.spelling log.now (log_size log.now)) }
{
    let size = log.size();
    let Ok(nodes) = log.pinned_nodes_at(size) else {
        return Err(OutOfMemory);
    };
    match Peaks::from_parts(alloc, size, nodes) {
        Some(peaks) => Ok(peaks),
        None => unreachable!(),
    }
}
