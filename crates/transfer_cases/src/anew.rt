//! Plain settling of payments: each candidate is tried with all that were taken, from the opening accounts on.

use crate::payment::Payment;
use ledger_codec::OutOfMemory;
use std::alloc::Global;

/// The verdicts on the candidates, where each key below `keys` opens with this balance and nonce 0.
pub fn verdicts_anew(
    alloc: Global,
    keys: u8,
    opening: u64,
    candidates: &[Payment],
) -> Result<Vec<bool>, OutOfMemory> {
    let mut taken = Vec::new(alloc);
    let mut verdicts = Vec::new(alloc);
    for candidate in candidates {
        taken.push(*candidate)?;
        let settles = all_settle(&taken, keys, opening);
        if !settles {
            taken.pop();
        }
        verdicts.push(settles)?;
    }
    Ok(verdicts)
}

/// Whether each key below `keys` settles.
fn all_settle(payments: &[Payment], keys: u8, opening: u64) -> bool {
    for key in 0..keys {
        if !settles(payments, key, opening) {
            return false;
        }
    }
    true
}

/// Whether a key settles: its payments are numbered from 0, the opening balance covers them, and the last balance fits.
fn settles(payments: &[Payment], key: u8, opening: u64) -> bool {
    let mut nonce: u64 = 0;
    let mut debits: u128 = 0;
    let mut credits: u128 = 0;
    for payment in payments {
        if payment.from == key {
            if payment.nonce != nonce {
                return false;
            }
            nonce = nonce.saturating_add(1);
            debits = debits.saturating_add(u128::from(payment.amount));
        }
        if payment.to == key {
            credits = credits.saturating_add(u128::from(payment.amount));
        }
    }
    let opening = u128::from(opening);
    debits <= opening
        && opening.saturating_sub(debits).saturating_add(credits) <= u128::from(u64::MAX)
}
