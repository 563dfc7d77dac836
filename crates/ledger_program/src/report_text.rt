//! The printed report.
ghost use Rattle.std.specs.Prelude.{◌≡◌, ◌++◌, ◌∷◌, [], IfOk, OnOk, string_bytes};
ghost use Rattle.std.specs.List.{flat_map};
ghost use Rattle.ledger_program.specs.Text.{synced_line, digits_of, round_field, round_fields, body_line, rounds_line, block_line, block_lines, account_line, end_lines, text_of};

use crate::key_text::key_text;
use ledger_codec::{Digest, List};
use ledger_job::BlockVerdicts;
use ledger_log::Key;
use ledger_settling::{Accounts, Report};
use ledger_transfers::Sequenced;
use std::alloc::{AllocError, Global};
use std::fmt::Write;

#[tactic(auto, unfolding(crate::specs::Text::synced_line))]
fn push_synced(out: &mut String, start: u64, end: u64) -> Result<(), AllocError>
    ensures { OnOk result (string_bytes out.new ≡ string_bytes out.old ++ synced_line start end) }
{
    write!(out, "synced {start} {end}\n")
}

/// A digit for each candidate: 1 where it was taken.
fn push_digits(out: &mut String, verdicts: &[bool]) -> Result<(), AllocError>
    ensures { OnOk result (string_bytes out.new ≡ string_bytes out.old ++ digits_of verdicts.now) }
{
    'each: for verdict in verdicts {
        push_digit(out, *verdict)?;
    }
    Ok(())
}

fn push_digit(out: &mut String, verdict: bool) -> Result<(), AllocError>
    ensures { OnOk result (string_bytes out.new ≡ string_bytes out.old ++ digits_of (verdict ∷ [])) }
{
    if verdict {
        out.push('1')
    } else {
        out.push('0')
    }
}

#[tactic(auto, unfolding(crate::specs::Text::round_field))]
fn push_round(out: &mut String, verdicts: &[bool]) -> Result<(), AllocError>
    ensures { OnOk result (string_bytes out.new ≡ string_bytes out.old ++ round_field verdicts.now) }
{
    match verdicts {
        [] => out.push_str(" -"),
        _ => {
            out.push(' ')?;
            push_digits(out, verdicts)
        }
    }
}

fn push_rounds(out: &mut String, rounds: &[List<bool>]) -> Result<(), AllocError>
    ensures { OnOk result (string_bytes out.new ≡ string_bytes out.old ++ round_fields rounds.now) }
{
    'each: for round in rounds {
        push_round(out, round.as_slice())?;
    }
    Ok(())
}

#[tactic(auto, unfolding(crate::specs::Text::body_line))]
fn push_body(out: &mut String, place: usize) -> Result<(), AllocError>
    ensures { OnOk result (string_bytes out.new ≡ string_bytes out.old ++ body_line place) }
{
    write!(out, "block {place} body\n")
}

#[tactic(auto, unfolding(crate::specs::Text::rounds_line))]
fn push_rounds_line(out: &mut String, place: usize, rounds: &[List<bool>]) -> Result<(), AllocError>
    ensures { OnOk result (string_bytes out.new ≡ string_bytes out.old ++ rounds_line place rounds.now) }
{
    write!(out, "block {place} rounds")?;
    push_rounds(out, rounds)?;
    out.push('\n')
}

fn push_block(out: &mut String, place: usize, verdicts: &BlockVerdicts) -> Result<(), AllocError>
    ensures { OnOk result (string_bytes out.new ≡ string_bytes out.old ++ block_line place verdicts.now) }
{
    match verdicts {
        BlockVerdicts::Body => push_body(out, place),
        BlockVerdicts::Rounds(rounds) => push_rounds_line(out, place, rounds.as_slice()),
    }
}

fn push_blocks(out: &mut String, verdicts: &[BlockVerdicts]) -> Result<(), AllocError>
    ensures { OnOk result (string_bytes out.new ≡ string_bytes out.old ++ block_lines 0 verdicts.now) }
{
    'each: for (place, verdict) in verdicts.iter().enumerate() {
        push_block(out, place, verdict)?;
    }
    Ok(())
}

#[tactic(auto, unfolding(crate::specs::Text::account_line))]
fn push_account(
    alloc: Global,
    out: &mut String,
    key: &Key,
    account: &Sequenced,
) -> Result<(), AllocError>
    ensures { OnOk result (string_bytes out.new ≡ string_bytes out.old
        ++ account_line (key.now, account.now)) }
{
    let name = key_text(alloc, key)?;
    let balance = account.balance;
    let nonce = account.nonce;
    write!(out, "account {name} {balance} {nonce}\n")
}

fn push_accounts(
    alloc: Global,
    out: &mut String,
    accounts: &Accounts<Sequenced>,
) -> Result<(), AllocError>
    ensures { OnOk result (string_bytes out.new ≡ string_bytes out.old
        ++ flat_map account_line accounts.now.entries) }
{
    'accounts: for (key, account) in accounts {
        push_account(alloc, out, key, account)?;
    }
    Ok(())
}

/// Adds the lines of a log's size and root, which end a report.
#[tactic(auto, unfolding(crate::specs::Text::end_lines))]
pub fn push_end(alloc: Global, out: &mut String, size: u64, root: &Digest) -> Result<(), AllocError>
    ensures { OnOk result (string_bytes out.new ≡ string_bytes out.old ++ end_lines size root.now) }
{
    let digits = hex::encode(alloc, root)?;
    write!(out, "size {size}\nroot {digits}\n")
}

/// The text of a report: what was synced, a line a block, a line an account, and the size and root.
#[tactic(auto, unfolding(crate::specs::Text::text_of))]
pub(crate) fn report_text(alloc: Global, report: &Report<Sequenced>) -> Result<String, AllocError>
    ensures { IfOk result (λ text. string_bytes text ≡ text_of report.now) }
{
    let mut out = String::new(alloc);
    push_synced(&mut out, report.start.get(), report.end.get())?;
    push_blocks(&mut out, report.verdicts.as_slice())?;
    push_accounts(alloc, &mut out, &report.accounts)?;
    push_end(alloc, &mut out, report.size.get(), &report.root)?;
    Ok(out)
}
