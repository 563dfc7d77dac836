//! What became of blocks, as text.

use example_accounts::Wallet;
use ledger_codec::List;
use ledger_job::BlockVerdicts;
use ledger_log::Key;
use ledger_program::Fault;
use ledger_settling::Report;
use ledger_transfers::Rejection;
use std::alloc::{AllocError, Global};
use std::fmt::Write;

/// The letter of which a key is made.
fn letter(key: &Key) -> char {
    char::from(key[0])
}

/// A digit for each order: 1 where it was taken.
fn push_round(out: &mut String, verdicts: &[bool]) -> Result<(), AllocError> {
    out.push(' ')?;
    for taken in verdicts {
        out.push(if *taken { '1' } else { '0' })?;
    }
    Ok(())
}

fn push_rounds(out: &mut String, rounds: &[List<bool>]) -> Result<(), AllocError> {
    out.push_str("of each round")?;
    for round in rounds {
        push_round(out, round.as_slice())?;
    }
    out.push('\n')
}

fn push_block(out: &mut String, place: usize, verdicts: &BlockVerdicts) -> Result<(), AllocError> {
    write!(out, "block {place}: ")?;
    match verdicts {
        BlockVerdicts::Body => out.push_str("settled\n"),
        BlockVerdicts::Rounds(rounds) => push_rounds(out, rounds.as_slice()),
    }
}

fn push_wallet(out: &mut String, key: &Key, wallet: &Wallet) -> Result<(), AllocError> {
    let name = letter(key);
    let Wallet { coins, points } = wallet;
    write!(out, "wallet {name}: {coins} coins, {points} points\n")
}

/// What was synced, a line a block, a line a wallet, and the size and root of the log.
pub fn report_text(alloc: Global, report: &Report<Wallet>) -> Result<String, AllocError> {
    let mut out = String::new(alloc);
    let (start, end) = (report.start.get(), report.end.get());
    write!(out, "synced {start} to {end}\n")?;
    for (place, verdicts) in report.verdicts.as_slice().iter().enumerate() {
        push_block(&mut out, place, verdicts)?;
    }
    for (key, wallet) in &report.accounts {
        push_wallet(&mut out, key, wallet)?;
    }
    let (size, root) = (report.size.get(), hex::encode(alloc, &report.root)?);
    write!(out, "size {size}\nroot {root}\n")?;
    Ok(out)
}

/// Which block isn't settled, and whose wallet stands against it.
pub fn fault_text(alloc: Global, fault: &Fault) -> Result<String, AllocError> {
    let mut out = String::new(alloc);
    match fault {
        Fault::Rejected { block, rejection } => push_rejection(&mut out, *block, rejection)?,
        _ => out.push_str("the log wasn't followed\n")?,
    }
    Ok(out)
}

fn push_rejection(
    out: &mut String,
    block: usize,
    rejection: &Rejection<Key>,
) -> Result<(), AllocError> {
    let (name, why) = match rejection {
        Rejection::Refused(key) => (letter(key), "doesn't have the points"),
        Rejection::Insufficient(key) => (letter(key), "doesn't have the coins"),
        Rejection::Overflow(key) => (letter(key), "can't hold so many coins"),
    };
    write!(out, "block {block} isn't settled: {name} {why}\n")
}
