//! Peaks in place.
ghost use Rattle.std.specs.Prelude.{◌≡◌, ◌<◌, ◌≤◌, ◌∷◌, ◌++◌, [], length, take};

use ledger_codec::Digest;
use std::marker::Model;

/// The peaks of a list, in place: 2^62 leaves have at most 62 of them.
#[derive(Drop)]
pub struct Spine {
    nodes: [Digest; 64],
    count: usize,
}

impl Model for Spine {
    ghost use Rattle.std.specs.Prelude.{ℕ, List, take, ◌≤◌};

    ghost Value = { List (List ℕ) };

    ghost view = { λ s. take s.count s.nodes };

    ghost invariant = { λ s. s.count ≤ 64 };
}

impl Spine {
    /// These peaks.
    pub fn of(peaks: &[Digest]) -> Spine
        requires { length peaks.now ≤ 64 }
        ensures { result ≡ peaks.now }
    {
        let mut nodes = [[0; 32]; 64];
        nodes[..peaks.len()].copy_from_slice(peaks);
        Spine {
            nodes,
            count: peaks.len(),
        }
    }

    /// The peaks from left to right.
    pub fn nodes(&self) -> &[Digest]
        ensures { result.now ≡ self.now }
    {
        &self.nodes[..self.count]
    }

    /// Puts this peak in place of all behind the first `kept`.
    pub fn replace_tail(&mut self, kept: usize, peak: Digest)
        requires within { kept ≤ length self.old }
        requires room { kept < 64 }
        ensures { self.new ≡ take kept self.old ++ peak ∷ [] }
    {
        self.nodes[kept] = peak;
        self.count = kept + 1;
    }
}
