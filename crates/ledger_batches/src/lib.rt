//! Batches: changes of a database that are read, written and sealed before they are applied, in chains.
//!
//! ```text
//! database --over--> Unmerkleized --stage--> Staged
//!              |       |  ^    ^               |  ^
//!              |       +--+    |               +--+ expand
//!              |     get, write +--new_batch--+
//!              |       |                      |
//!              |       +--merkleize--> Merkleized <--merkleize-- Staged
//!              +<--------apply------------+
//! ```
//!
//! A batch reads through its own writes, then through those of the batches that it stands on, then in the
//! database. That is handed in at each call: batches hold no log, and know one again by its size and root. What
//! a sealed batch appends, and the root after it, are known before the database has it.
#![tactic(auto)]

mod applying;
mod family;
mod merkleized;
mod reading;
mod sealing;
mod staged;
mod unmerkleized;

pub use applying::apply;
pub use family::BatchFamily;
use ledger_activity::CurrentFamily;
pub use ledger_chain::{ManagedFault, State};
use ledger_log::AnyFamily;
pub use merkleized::Merkleized;
pub use staged::Staged;
pub use unmerkleized::Unmerkleized;

/// A batch over a log of the family any.
pub type AnyUnmerkleized = Unmerkleized<AnyFamily>;

/// A batch over a log of the family any, with keys read for slots.
pub type AnyStaged = Staged<AnyFamily>;

/// A sealed batch over a log of the family any.
pub type AnyMerkleized = Merkleized<AnyFamily>;

/// A batch over a log of the family current.
pub type CurrentUnmerkleized = Unmerkleized<CurrentFamily>;

/// A batch over a log of the family current, with keys read for slots.
pub type CurrentStaged = Staged<CurrentFamily>;

/// A sealed batch over a log of the family current.
pub type CurrentMerkleized = Merkleized<CurrentFamily>;
