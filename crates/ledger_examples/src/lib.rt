//! Databases by which servers and clients are tried.
//!
//! ```text
//! count, seed --create_test_operations--> operations --add_operations--> a log, full or compact
//!                                                                          |
//!                              Syncable, CompactSyncable <-----------------+
//! ```
//!
//! Test operations are made of hashes of their numbers, so that two databases made of the same count and seed
//! have the same root. What the four families do differently with them is in [`ExampleFamily`]; all else is
//! said once, for each log.
#![tactic(auto)]

mod adding;
mod agreement;
mod config;
mod database;
mod family;
mod names;
mod operations;
mod store;
mod syncable;

pub use agreement::agree;
pub use config::{CompactConfig, Config, crate_version};
pub use database::{
    AnyDatabase, CompactImmutableDatabase, CompactKeylessDatabase, CurrentDatabase,
    ExampleDatabase, ImmutableDatabase, KeylessDatabase,
};
pub use family::{CompactExampleFamily, ExampleFamily};
pub use ledger_compact::CompactSyncable;
pub use names::{DatabaseType, StorageKind, SyncMode};
pub use store::BatchStore;
pub use syncable::Syncable;
