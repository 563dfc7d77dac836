//! Places and sizes.
ghost use Rattle.std.specs.Prelude.{◌≡◌, ◌+◌, ◌^◌, ◌<◌, ◌≤◌, MatchOption};

use std::marker::Model;

/// The greatest number of leaves of a tree: 2^62.
pub const MAX_LEAVES: u64 = 0x4000_0000_0000_0000;

/// A place in a log, from 0, or a number of leaves: at most [`MAX_LEAVES`].
#[derive(Clone, Copy, PartialEq, Eq, PartialOrd, Ord, Debug)]
pub struct Location {
    value: u64,
}

impl Model for Location {
    ghost use Rattle.std.specs.Prelude.{ℕ, ◌≤◌, ◌^◌};

    ghost Value = { ℕ };

    ghost view = { λ l. l.value };

    ghost invariant = { λ l. l.value ≤ 2 ^ 62 };

    ghost inverse = { λ n. record { value = n } };
}

impl Location {
    /// The first place.
    pub const ZERO: Location = Location { value: 0 };

    /// The location of this number, None exactly above `MAX_LEAVES`.
    pub fn new(value: u64) -> Option<Location>
        ensures { MatchOption result (2 ^ 62 < value) (λ l. (value ≤ 2 ^ 62) × (l ≡ value)) }
    {
        if value > MAX_LEAVES {
            None
        } else {
            Some(Location { value })
        }
    }

    /// Its number.
    pub fn get(self) -> u64
        ensures same { result ≡ self }
        ensures most { self ≤ 2 ^ 62 }
    {
        self.value
    }

    /// The location `count` places further on.
    pub fn plus(self, count: u64) -> Location
        requires { self + count ≤ 2 ^ 62 }
        ensures { result ≡ self + count }
    {
        Location {
            value: self.value + count,
        }
    }
}
