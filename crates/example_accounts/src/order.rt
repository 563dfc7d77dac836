//! The transfer: what is bought at a shop, and what points bring there.

use crate::wallet::{Points, Wallet};
use ledger_codec::OutOfMemory;
use ledger_log::Key;
use ledger_transfers::{Change, Transfer};

/// What a customer and a shop agreed on.
#[derive(Clone, Copy, Debug, PartialEq, Eq)]
pub enum Order {
    /// The buyer pays the price to the shop, and earns a point for each ten coins of it.
    Buy { buyer: Key, shop: Key, price: u64 },
    /// The holder gives points back, and the shop pays a coin for each.
    Redeem { holder: Key, shop: Key, points: u64 },
}

impl Order {
    pub fn buy(buyer: Key, shop: Key, price: u64) -> Order {
        Order::Buy { buyer, shop, price }
    }

    pub fn redeem(holder: Key, shop: Key, points: u64) -> Order {
        Order::Redeem {
            holder,
            shop,
            points,
        }
    }
}

impl Transfer for Order {
    ghost use Rattle.example_accounts.specs.Orders.{order_changes};

    type Key = Key;

    type Account = Wallet;

    ghost changes_of = { order_changes };

    fn changes(&self, out: &mut Vec<(Key, Change<Points>)>) -> Result<(), OutOfMemory> {
        match self {
            Order::Buy { buyer, shop, price } => {
                let earned = Points::Earn(*price / 10);
                out.push((*buyer, Change::debit(*price).with_effect(earned)))?;
                out.push((*shop, Change::credit(*price)))?;
            }
            Order::Redeem {
                holder,
                shop,
                points,
            } => {
                let spent = Points::Spend(*points);
                out.push((*holder, Change::credit(*points).with_effect(spent)))?;
                out.push((*shop, Change::debit(*points)))?;
            }
        }
        Ok(())
    }
}
