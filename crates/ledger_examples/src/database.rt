//! The databases: full and compact logs with names, layouts and test operations.
ghost use Rattle.std.specs.Prelude.{◌≡◌, ℕ, ◌≤◌, ◌^◌, List, MatchOption, IsOkUnless, IfOk, OnOk, OnErr};
ghost use Rattle.ledger_examples.specs.Tests.{test_operations};
ghost use Rattle.ledger_examples.specs.Batches.{first_refusal, added_batches, with_batches};

use crate::adding::add;
use crate::operations::make_operations;
use crate::{BatchStore, CompactConfig, CompactExampleFamily, Config, ExampleFamily};
use ledger_activity::CurrentFamily;
use ledger_codec::Digest;
use ledger_compact::CompactLog;
use ledger_log::{AnyFamily, ImmutableFamily, KeylessFamily, Log, LogFault};
use ledger_merkle::{Hasher, Location, Sha256Hasher};
use std::alloc::Global;

/// The full database of the family any, over SHA-256.
pub type AnyDatabase = Log<AnyFamily, Sha256Hasher>;

/// The full database of the family current, over SHA-256.
pub type CurrentDatabase = Log<CurrentFamily, Sha256Hasher>;

/// The full database of the family immutable, over SHA-256.
pub type ImmutableDatabase = Log<ImmutableFamily, Sha256Hasher>;

/// The full database of the family keyless, over SHA-256.
pub type KeylessDatabase = Log<KeylessFamily, Sha256Hasher>;

/// The compact database of the family immutable, over SHA-256.
pub type CompactImmutableDatabase = CompactLog<ImmutableFamily, Sha256Hasher>;

/// The compact database of the family keyless, over SHA-256.
pub type CompactKeylessDatabase = CompactLog<KeylessFamily, Sha256Hasher>;

/// A database by which a server or a client is tried. What it does is said once, over its family and its store;
/// its name and its layout are its own.
pub trait ExampleDatabase<F: ExampleFamily>: BatchStore<F> {
    /// The type of its layout.
    type Layout;

    // The name that is shown.
    ghost name_shown: { List ℕ };

    // The layout.
    ghost layout: { Self.Layout };

    /// The name that is shown.
    fn name() -> &'static str
        ensures { result.now ≡ name_shown };

    /// The layout of the example databases.
    fn create_config() -> Self::Layout
        ensures { result ≡ layout };

    /// This many test operations of this seed, with a commit behind each tenth and behind all of them. Commits of
    /// any and current have the number of operations before them as floor; those of immutable and keyless have
    /// `starting_loc`, and the last one 32 bytes of 1 as metadata. Refused for want of memory alone.
    final fn create_test_operations(
        alloc: Global,
        count: usize,
        seed: u64,
        starting_loc: u64,
    ) -> Result<Vec<F::Op>, LogFault>
        requires count { count ≤ 2 ^ 32 }
        requires start { starting_loc ≤ 2 ^ 32 }
        ensures may { IsOkUnless result LogFault.OutOfMemory }
        ensures ok { IfOk result
            (λ ops. ops.items ≡ test_operations F.test_of F.test_commit_of seed starting_loc count) }
    {
        let start = Location::ZERO.plus(starting_loc);
        Ok(make_operations::<F>(alloc, count, seed, start)?)
    }

    /// Adds operations that end with a commit, each run up to a commit as one batch; nothing where they don't
    /// end with one. Any and current put the log's floor for the floor of each commit. Refused as the first
    /// refused batch is, and then nothing is added.
    final fn add_operations(&mut self, operations: Vec<F::Op>) -> Result<(), LogFault>
        ensures refusal { MatchOption
            (first_refusal F.floor_of (Self.size_of self.old) (Self.last_floor_of self.old)
            (added_batches F.floor_of F.added_of (Self.last_floor_of self.old) operations.items))
            (IsOkUnless result LogFault.OutOfMemory) (λ fault. result ≡ Err fault) }
        ensures ok { OnOk result (self.new
            ≡ with_batches Self.appended self.old
            (added_batches F.floor_of F.added_of (Self.last_floor_of self.old) operations.items)) }
        ensures err { OnErr result (self.new ≡ self.old) }
    {
        add::<F, Self>(self, operations)
    }

    /// The floor that is shown: 0 of any and current, the floor of immutable, the last commit's place of keyless.
    final fn current_floor(&self) -> u64
        ensures { result ≡ F.floor_shown (Self.last_floor_of self.now) (Self.size_of self.now) }
    {
        F::shown_floor(self.last_floor(), self.count())
    }

    /// The root over all operations: of current the operations root, to which clients sync.
    final fn root(&self) -> Digest
        ensures { result ≡ Self.root_of self.now }
    {
        self.digest()
    }
}

impl<F: ExampleFamily, H: Hasher> ExampleDatabase<F> for Log<F, H> {
    type Layout = Config;

    ghost name_shown = { F.shown_name };

    ghost layout = { record { items_per_blob = 4096; write_buffer = 4096 } };

    fn name() -> &'static str {
        F::name()
    }

    fn create_config() -> Config {
        Config::EXAMPLE
    }
}

impl<F: CompactExampleFamily, H: Hasher> ExampleDatabase<F> for CompactLog<F, H> {
    type Layout = CompactConfig;

    ghost name_shown = { F.compact_name_shown };

    ghost layout = { record { items_per_section = 4096; write_buffer = 1024 } };

    fn name() -> &'static str {
        F::compact_name()
    }

    fn create_config() -> CompactConfig {
        CompactConfig::EXAMPLE
    }
}
