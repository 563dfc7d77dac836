//! The peaks behind a batch, and those before its last operation.
ghost use Rattle.std.specs.Prelude.{◌≡◌, ◌+◌, ◌<◌, ◌≤◌, ◌^◌, ◌++◌, ◌∷◌, [], IfOk, length, map};
ghost use Rattle.ledger_merkle.specs.Tree.{grow, leaf, push};

use ledger_codec::{Digest, OutOfMemory};
use ledger_merkle::{Hasher, Leaf, Location, Peaks, hash_item};
use std::alloc::Global;

/// What a batch makes of some peaks.
#[derive(Drop)]
pub(crate) struct NewPeaks<H: Hasher> {
    /// The peaks behind the whole batch.
    pub(crate) peaks: Peaks<H>,
    /// The peaks before its last operation, from left to right.
    pub(crate) before: Vec<Digest>,
}

/// The peaks behind these operations, of which `last` comes behind the others. The given peaks stay.
pub(crate) fn peaks_after<H: Hasher, T: Leaf + Copy>(
    alloc: Global,
    peaks: &Peaks<H>,
    others: &[T],
    last: &T,
) -> Result<NewPeaks<H>, OutOfMemory>
    requires { peaks.now.size + length others.now + 1 ≤ 2 ^ 62 }
    ensures size { IfOk result (λ g. g.peaks.size ≡ peaks.now.size + length others.now + 1) }
    ensures before { IfOk result
        (λ g. g.before.items ≡ grow H.digest peaks.now.size peaks.now.nodes (map T.spelling others.now)) }
    ensures nodes { IfOk result (λ g.
        g.peaks.nodes
        ≡ grow H.digest peaks.now.size peaks.now.nodes (map T.spelling (others.now ++ last.now ∷ []))) }
{
    let earlier = peaks.copy()?.extended(others)?;
    let before = Vec::from_slice(alloc, earlier.nodes())?;
    let peaks = pushed(earlier, last)?;
    Ok(NewPeaks { peaks, before })
}

/// The peaks behind one more operation. A refusal gives them up.
pub(crate) fn pushed<H: Hasher, T: Leaf>(peaks: Peaks<H>, op: &T) -> Result<Peaks<H>, OutOfMemory>
    requires { peaks.size + 1 ≤ 2 ^ 62 }
    ensures size { IfOk result (λ p. p.size ≡ peaks.size + 1) }
    ensures nodes { IfOk result (λ p.
        p.nodes ≡ push H.digest peaks.size peaks.nodes (leaf H.digest peaks.size (T.spelling op.now))) }
{
    let mut peaks = peaks;
    let digest = hash_item::<H, T>(peaks.size(), op);
    peaks.push(digest)?;
    Ok(peaks)
}
