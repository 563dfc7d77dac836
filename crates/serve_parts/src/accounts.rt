//! The accounts of a job that is served.
ghost use Rattle.std.specs.Prelude.{◌≡◌, ◌++◌, ℕ, IfOk, OnOk, IsErrOf, Ok, Err};
ghost use Rattle.ledger_job.specs.declared.job.JobFault.TheVariants.{BadLine};
ghost use Rattle.serve_parts.specs.Accounts.{is_account_line, account_in, listed, accounts_of};

use ledger_job::{JobFault, Line, Open, all_lines, cut, parse_line};
use std::alloc::{AllocError, Global};

/// Whether a line stands in a job that is served.
fn is_account_line(line: &Option<Line>) -> bool
    ensures { result ≡ is_account_line line.now }
{
    matches!(line, Some(Line::Skipped | Line::Open(_)))
}

/// The account that a line opens.
fn account_in(line: Option<Line>) -> Option<Open>
    ensures { result ≡ account_in line }
{
    match line {
        Some(Line::Open(account)) => Some(account),
        _ => None,
    }
}

/// Puts an account behind the others, where there is one.
fn keep(accounts: &mut Vec<Open>, account: Option<Open>) -> Result<(), AllocError>
    ensures { OnOk result (accounts.new.items ≡ accounts.old.items ++ listed account) }
{
    match account {
        Some(account) => {
            accounts.push(account)?;
            Ok(())
        }
        None => Ok(()),
    }
}

/// The accounts that a job opens which is served, in the order of their lines. Every other line offends, but for
/// those that are skipped.
pub fn parse_accounts(alloc: Global, text: &[u8]) -> Result<Vec<Open>, JobFault>
    ensures accounts { IfOk result (λ accounts. accounts_of text.now ≡ Ok accounts.items) }
    ensures bad { (n : ℕ) → IsErrOf result (BadLine n) → accounts_of text.now ≡ Err n }
{
    let mut accounts = Vec::new(alloc);
    let mut number = 0;
    let mut left = all_lines(text);
    'each: while let Some(rest) = left {
        let (bytes, more) = cut(rest, b'\n');
        number += 1;
        let line = parse_line(bytes);
        if !is_account_line(&line) {
            return Err(JobFault::BadLine(number));
        }
        keep(&mut accounts, account_in(line))?;
        left = more;
    }
    Ok(accounts)
}
