//! What a database does, whatever it is.
ghost use Rattle.std.specs.Prelude.{◌≡◌, ◌⊎◌, Bool, Option, None, Some, Err, MatchOption, IsOkUnless, IfOk, IfErr, IfSome, OnOk, OnErr};
ghost use Rattle.ledger_codec.specs.Causes.{HasCause};
ghost use Rattle.ledger_keeper.specs.Kept.{Keeps};
ghost use Rattle.ledger_log.specs.declared.fault.LogFault.{LogFault as Refusal};
ghost use Rattle.ledger_chain.specs.declared.fault.ManagedFault.{ManagedFault as Fault};
ghost use Rattle.ledger_databases.specs.Managed.{init_refusal};

use crate::fault::InitFault;
use ledger_chain::ManagedFault;
use ledger_codec::OutOfMemory;
use ledger_keeper::{Keeper, KeeperFailed};
use ledger_log::LogFault;
use std::alloc::Global;
use std::random::RandomSource;

/// A database that is changed by sealed batches.
pub trait ManagedDb: Drop {
    /// A batch that takes writes.
    type Unmerkleized: Drop;

    /// A sealed batch.
    type Merkleized: Drop;

    /// What a client is told to sync to.
    type SyncTarget: Copy + Eq;

    // The database is as it is made: of one commit, without metadata and with floor 0.
    ghost IsFresh: { Self → Type 0 };

    // The target of a fresh database.
    ghost initial: { Self.SyncTarget };

    // The target is the database's own.
    ghost HasTarget: { Self → Self.SyncTarget → Type 0 };

    // The batch without writes over the database.
    ghost batch_over: { Self → Self.Unmerkleized };

    // Whether the database has this target once the sealed batch is its last.
    ghost leads_to: { Self.Merkleized → Self.SyncTarget → Bool };

    // Why the database doesn't take the sealed batch.
    ghost taking_refusal: { Self.Merkleized → Self → Option Fault };

    // The database with the batches of the chain that it lacks, and with the sealed batch.
    ghost with_batch: { Self.Merkleized → Self → Self };

    // Why the sealed batch isn't behind any state of the database's.
    ghost staleness: { Self.Merkleized → Self → Option Fault };

    // Some first ones of the lacking batches stand behind the database as it was.
    ghost StandFirst: { Self.Merkleized → Self → Self → Type 0 };

    // The database with those of the lacking batches that come before the first refused one.
    ghost with_taken: { Self.Merkleized → Self → Self };

    // Why the database can't begin where the target does.
    ghost cutting_refusal: { Self.SyncTarget → Self → Option Refusal };

    // The database from where the target begins.
    ghost cut: { Self.SyncTarget → Self → Self };

    /// A database of one commit, without metadata and with floor 0. Refused for want of memory alone.
    fn fresh(alloc: Global) -> Result<Self, OutOfMemory>
        ensures { IfOk result (λ db. IsFresh db) };

    /// The target of a fresh database. It takes no memory.
    fn initial_sync_target() -> Self::SyncTarget
        ensures { result ≡ initial };

    /// A batch without writes over the database. What it keeps by keys is hashed with a fresh seed, which
    /// is 0 where the runtime's source of random bytes fails. Refused for want of memory alone.
    fn new_batch<R: RandomSource>(
        &self,
        rt: &R,
        alloc: Global,
    ) -> Result<Self::Unmerkleized, ManagedFault>
        ensures may { IsOkUnless result ManagedFault.OutOfMemory }
        ensures ok { IfOk result (λ batch. batch ≡ batch_over self.now) };

    /// Whether a database whose last batch is this one has this target. It takes no memory.
    fn matches_sync_target(batch: &Self::Merkleized, target: &Self::SyncTarget) -> bool
        ensures { result ≡ leads_to batch.now target.now };

    /// Appends the batches of the chain that the database lacks, and then the sealed batch, one after
    /// another. Refused exactly where the database's size and root are no state before the batch, with
    /// these, which leaves it as it was; then as the log refuses the first of those batches that it doesn't
    /// take, behind those before it; and for want of memory, behind some first ones.
    fn apply(&mut self, batch: Self::Merkleized) -> Result<(), ManagedFault>
        ensures stale { IfSome (staleness batch self.old) (λ fault. result ≡ Err fault) }
        ensures may { OnOk result (taking_refusal batch self.old ≡ None) }
        ensures refuses { IfErr result
            (λ fault. (fault ≡ ManagedFault.OutOfMemory) ⊎ (taking_refusal batch self.old ≡ Some fault)) }
        ensures ok { OnOk result (self.new ≡ with_batch batch self.old) }
        ensures first { OnErr result (StandFirst batch self.old self.new) }
        ensures taken { IfErr result
            (λ fault. (fault ≡ ManagedFault.OutOfMemory) ⊎ (self.new ≡ with_taken batch self.old)) };

    /// Drops what lies below where the target starts; a database without operations drops nothing, and
    /// answers Ok. A refusal leaves the database as it was.
    fn prune(&mut self, target: &Self::SyncTarget) -> Result<(), LogFault>
        ensures refusal { MatchOption (cutting_refusal target.now self.old)
            (IsOkUnless result LogFault.OutOfMemory) (λ fault. result ≡ Err fault) }
        ensures ok { OnOk result (self.new ≡ cut target.now self.old) }
        ensures err { OnErr result (self.new ≡ self.old) };

    /// What a client is told to sync to. It takes no memory.
    fn sync_target(&self) -> Self::SyncTarget
        ensures { HasTarget self.now result };

    /// A fresh database. Refused exactly where a target is expected that isn't the initial one, which is
    /// told, and for want of memory.
    final fn init(
        alloc: Global,
        expected: Option<Self::SyncTarget>,
    ) -> Result<Self, InitFault<Self::SyncTarget>>
        ensures refusal { MatchOption (init_refusal Self.SyncTarget.eq initial expected)
            (IsOkUnless result InitFault.OutOfMemory) (λ fault. result ≡ Err fault) }
        ensures ok { IfOk result (λ db. IsFresh db) }
        ensures shows { IfOk result (λ db. HasTarget db initial) }
    {
        let found = Self::initial_sync_target();
        if let Some(target) = expected {
            if target != found {
                return Err(InitFault::Mismatch { found });
            }
        }
        Ok(Self::fresh(alloc)?)
    }

    /// Keeps what was applied so far, by one sync of the keeper. It fails only where the keeper's count of
    /// failed syncs rises, and is Ok only where that of kept ones does.
    final fn finalize<Kp: Keeper>(&mut self, keeper: &mut Kp) -> Result<(), KeeperFailed>
        ensures cause { HasCause (Kp.faults keeper.old) (Kp.faults keeper.new) result }
        ensures keeps { Keeps (Kp.kept keeper.old) (Kp.kept keeper.new) result }
        ensures same { self.new ≡ self.old }
    {
        keeper.sync()
    }

    // A fresh database has the initial target.
    ghost initial_is_fresh: { (db : Self) → IsFresh db → HasTarget db initial };
}
