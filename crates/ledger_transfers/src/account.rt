//! Accounts.
ghost use Rattle.std.specs.Prelude.{◌≡◌, Bool, true, Option, None, Some, IfOk, if◌then◌else◌};
ghost use Rattle.ledger_transfers.specs.Rules.{Rules, AccountLaws, SameOutcome};

use ledger_codec::OutOfMemory;
use std::alloc::Global;

/// What is kept under a key: a balance, and what effects act on. Accounts are compared by their `Eq`, and every rule holds up to it.
pub trait Account: Eq + Drop + Send + Sync {
    /// What a change may do to an account beside moving amounts.
    type Effect: Copy + Send + Sync;

    /// What the account's calls mean.
    ghost rules: { Rules Self Self.Effect };

    /// The account of a key that isn't held. It takes no memory.
    fn default_account() -> Self
        ensures { Self.eq result rules.initial ≡ true };

    fn balance(&self) -> u64
        ensures { result ≡ rules.balance_of self.now };

    /// Changes the balance alone.
    fn set_balance(&mut self, balance: u64)
        ensures { Self.eq self.new (rules.with_balance self.old balance) ≡ true };

    /// Whether the effect is accepted. A refused one may leave the account changed.
    fn apply(&mut self, effect: Self::Effect) -> bool
        ensures { SameOutcome Self.eq (if result then Some self.new else None)
            (rules.applied self.old effect) };

    fn copy(&self, alloc: Global) -> Result<Self, OutOfMemory>
        ensures { IfOk result (λ a. Self.eq a self.now ≡ true) };

    ghost laws: { AccountLaws Self.eq rules };
}
