//! A keeper that counts.
use crate::{Keeper, KeeperFailed};

/// A keeper that keeps nothing and counts. The syncs whose numbers are listed fail, counted from 0.
#[derive(Debug, Drop)]
pub struct CountingKeeper {
    calls: u64,
    failing: Vec<u64>,
    faults: u64,
    kept: u64,
}

impl CountingKeeper {
    ghost use Rattle.std.specs.Prelude.{◌≡◌};
    ghost use Rattle.ledger_keeper.specs.Kept.{keeper_calls, keeper_failing, keeper_faults, keeper_kept};

    /// A keeper that was asked for nothing yet, and whose syncs with the numbers in `failing` fail.
    pub fn new(failing: Vec<u64>) -> CountingKeeper
        ensures calls { keeper_calls result ≡ 0 }
        ensures failing { keeper_failing result ≡ failing.items }
        ensures faults { keeper_faults result ≡ 0 }
        ensures kept { keeper_kept result ≡ 0 }
    {
        CountingKeeper {
            calls: 0,
            failing,
            faults: 0,
            kept: 0,
        }
    }

    /// How many syncs were kept.
    pub fn kept(&self) -> u64
        ensures { result ≡ keeper_kept self.now }
    {
        self.kept
    }
}

impl Keeper for CountingKeeper {
    ghost use Rattle.std.specs.Prelude.{◌≡◌, is_err};
    ghost use Rattle.ledger_codec.specs.Causes.{HasCause};
    ghost use Rattle.ledger_codec.specs.Memory.{is_among, next_call};
    ghost use Rattle.ledger_keeper.specs.Kept.{Keeps, keeper_calls, keeper_failing, keeper_faults, keeper_kept};

    ghost faults = { keeper_faults };

    ghost kept = { keeper_kept };

    fn sync(&mut self) -> Result<(), KeeperFailed>
        ensures cause { HasCause (keeper_faults self.old) (keeper_faults self.new) result }
        ensures keeps { Keeps (keeper_kept self.old) (keeper_kept self.new) result }
        ensures fails { is_err result ≡ is_among (keeper_calls self.old) (keeper_failing self.old) }
        ensures calls { keeper_calls self.new ≡ next_call (keeper_calls self.old) }
        ensures failing { keeper_failing self.new ≡ keeper_failing self.old }
    {
        let call = self.calls;
        self.calls = self.calls.saturating_add(1);
        if self.failing.contains(&call) {
            self.faults = self.faults.saturating_add(1);
            return Err(KeeperFailed);
        }
        self.kept = self.kept.saturating_add(1);
        Ok(())
    }
}
