//! Transfers that settle against accounts, a whole batch at a time.
//!
//! A transfer is a list of changes: amounts that leave or reach a key's account, and effects on it. A batch settles against the
//! accounts that it opens with: for each key that it touches no effect may be refused, the opening balance has to cover all
//! debits, and the final balance has to be a `u64`. So a credit of a batch funds no debit of it.
//!
//! ```text
//!  a given body         transfers ─▶ Plan ─ settle(reads) ─▶ a slot per key, or the offence of a key
//!
//!  candidates           Selection ─ touch ─▶ new keys ─ register(reads) ─ apply ─▶ a verdict per candidate
//!  in rounds               ▲                                                │
//!                          └──────────────── next round ◀───────────────────┴─ settle ─▶ a slot per key
//! ```
//!
//! A [`Selection`] takes each candidate exactly where it settles with those taken before it, and a [`Plan`] of the taken transfers
//! gives the same slots.
#![tactic(auto)]

mod account;
mod balance;
mod change;
mod fault;
mod forecast;
mod held;
mod key_hasher;
mod plan;
mod register;
mod revise;
mod seeded;
mod selection;
mod sequenced;
mod settle;
mod slot;
mod slots;
mod taken;
mod totals;
mod transfer;
mod tried;

pub use account::Account;
pub use balance::{Balance, NoEffect};
pub use change::Change;
pub use fault::{PlanFault, Rejection};
pub use forecast::{has_no_effects, overdraws};
pub use held::{Held, Sums};
pub use key_hasher::KeyHasher;
pub use plan::Plan;
pub use seeded::Seeded;
pub use selection::{Selection, Stopped};
pub use sequenced::Sequenced;
pub use slot::Slot;
pub use totals::{Effects, Totals};
pub use transfer::{Transfer, touches_of};
