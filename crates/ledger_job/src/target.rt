//! The target of a `target` or `update` line.
ghost use Rattle.std.specs.Prelude.{◌≡◌};
ghost use Rattle.ledger_job.specs.Ranges.{target_of, target_from};

use ledger_codec::Digest;
use ledger_log::Target;
use ledger_merkle::Location;

/// The target of these parts, where its range isn't empty and ends within the greatest log.
fn target_of(root: Digest, start: u64, end: u64) -> Option<Target>
    ensures { result ≡ target_of root start end }
{
    let start = Location::new(start)?;
    let end = Location::new(end)?;
    Target::new(root, start, end)
}

/// The same of parts of which each may be missing.
pub(crate) fn target_from(
    root: Option<Digest>,
    start: Option<u64>,
    end: Option<u64>,
) -> Option<Target>
    ensures { result ≡ target_from root start end }
{
    target_of(root?, start?, end?)
}
