//! Request numbers.
ghost use Rattle.std.specs.Prelude.{◌≡◌, Some};
ghost use Rattle.sync_net.specs.Asking.{Draws};

use std::marker::Model;

/// Gives consecutive numbers. Contracts see the next one, where there is one.
#[derive(Debug, Drop)]
pub struct Generator {
    next: Option<u64>,
}

impl Model for Generator {
    ghost use Rattle.std.specs.Prelude.{ℕ, Option};

    ghost Value = { Option ℕ };

    ghost view = { λ g. g.next };
}

impl Generator {
    /// Numbers from 1 on.
    pub fn new() -> Generator
        ensures { result ≡ Some 1 }
    {
        Generator { next: Some(1) }
    }

    /// Numbers from `first` on.
    pub fn starting_at(first: u64) -> Generator
        ensures { result ≡ Some first }
    {
        Generator { next: Some(first) }
    }

    /// The next number, None exactly after `u64::MAX` was given.
    pub fn next(&mut self) -> Option<u64>
        ensures { Draws result self.old self.new }
    {
        let number = self.next?;
        self.next = number.checked_add(1);
        Some(number)
    }

    /// The number that comes next.
    pub(crate) fn peek(&self) -> Option<u64>
        ensures { result ≡ self.now }
    {
        self.next
    }
}
