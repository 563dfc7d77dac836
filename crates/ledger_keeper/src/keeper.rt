//! What keeps what was applied.
ghost use Rattle.std.specs.Prelude.{ℕ};
ghost use Rattle.ledger_codec.specs.Causes.{HasCause};
ghost use Rattle.ledger_keeper.specs.Kept.{Keeps};

/// A sync that failed.
#[derive(Clone, Copy, Debug, PartialEq, Eq)]
pub struct KeeperFailed;

/// What keeps what was applied to a database.
pub trait Keeper {
    /// How often a sync has failed.
    ghost faults: { Self → ℕ };

    /// How often one was kept.
    ghost kept: { Self → ℕ };

    /// Keeps what was applied so far. It fails only where the count of failed ones rises, and is Ok only where that
    /// of kept ones does.
    fn sync(&mut self) -> Result<(), KeeperFailed>
        ensures cause { HasCause (faults self.old) (faults self.new) result }
        ensures keeps { Keeps (kept self.old) (kept self.new) result };
}
