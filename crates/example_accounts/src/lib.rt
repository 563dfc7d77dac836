//! Accounts and transfers of one's own: wallets of coins and points, and the orders that shops take.
//!
//! ```text
//!   Wallet: Account        what is held under a key, and what points do to it
//!   Wallet: AccountValue   its 32 bytes in a log
//!   Order: Transfer        which wallets an order changes, and how
//! ```
//!
//! What each call means is said in `specs/`, in the records that the traits ask for: `specs/Wallets.antt` and
//! `specs/Orders.antt` are read as the rules of the game. `specs/WalletProofs.antt` proves the laws of the traits.
#![tactic(auto)]

mod order;
mod wallet;

pub use order::Order;
pub use wallet::{Points, Wallet};
