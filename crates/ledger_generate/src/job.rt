//! The accounts and payments of a generated job.
ghost use Rattle.std.specs.Prelude.{◌≡◌, ◌<◌, IfOk};
ghost use Rattle.ledger_generate.specs.Generated.{key_at, open_at, payment_at, opens, all_payments};

use crate::sizes::Sizes;
use ledger_job::{Open, Payment, filled};
use ledger_log::Key;
use std::alloc::{AllocError, Global};

/// The key of an account: `g` and its number, filled with zero bytes.
#[tactic(auto, unfolding(crate::specs::Generated::key_at))]
fn key_at(alloc: Global, number: u64) -> Result<Key, AllocError>
    ensures { IfOk result (λ key. key ≡ key_at number) }
{
    let name = format!(in alloc; "g{number}")?;
    Ok(filled(name.as_bytes()))
}

/// The accounts, as they open.
#[tactic(auto, unfolding(crate::specs::Generated::opens))]
pub(crate) fn opens(alloc: Global, sizes: Sizes) -> Result<Vec<Open>, AllocError>
    ensures { IfOk result (λ v. v.items ≡ opens sizes) }
{
    let balance = sizes.opening_balance();
    let mut all = Vec::with_capacity(alloc, sizes.accounts() as usize)?;
    for number in 0..sizes.accounts() {
        let key = key_at(alloc, number)?;
        all.push(Open {
            key,
            balance,
            nonce: 0,
        })?;
    }
    Ok(all)
}

/// The key of the account with this number.
#[tactic(auto, unfolding(crate::specs::Generated::opens))]
fn key_of(sizes: Sizes, accounts: &[Open], number: u64) -> Key
    requires all { accounts.now ≡ opens sizes }
    requires within { number < sizes.accounts }
    ensures { result ≡ key_at number }
{
    accounts[number as usize].key
}

/// The payment with this number.
fn payment_at(sizes: Sizes, accounts: &[Open], place: u64) -> Payment
    requires all { accounts.now ≡ opens sizes }
    requires within { place < sizes.transfers }
    ensures { result ≡ payment_at sizes place }
{
    let count = sizes.accounts();
    let _few = sizes.transfers();
    let moved = sizes.seed() + place;
    let payer = place % count;
    let payee = (payer + 1 + moved % (count - 1)) % count;
    Payment {
        from: key_of(sizes, accounts, payer),
        to: key_of(sizes, accounts, payee),
        amount: 1 + moved % 10,
        nonce: place / count,
    }
}

/// The payments between these accounts.
#[tactic(auto, unfolding(crate::specs::Generated::all_payments))]
pub(crate) fn payments(
    alloc: Global,
    sizes: Sizes,
    accounts: &[Open],
) -> Result<Vec<Payment>, AllocError>
    requires { accounts.now ≡ opens sizes }
    ensures { IfOk result (λ v. v.items ≡ all_payments sizes) }
{
    let mut all = Vec::with_capacity(alloc, sizes.transfers() as usize)?;
    for place in 0..sizes.transfers() {
        all.push(payment_at(sizes, accounts, place))?;
    }
    Ok(all)
}
