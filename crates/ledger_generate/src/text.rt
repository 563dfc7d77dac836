//! The three lines of a generated job's report.
ghost use Rattle.std.specs.Prelude.{◌≡◌, ◌++◌, IfOk, OnOk, string_bytes};
ghost use Rattle.ledger_generate.specs.Text.{generated_line, lines_of};

use crate::sizes::Sizes;
use ledger_program::push_end;
use ledger_settling::Report;
use ledger_transfers::Sequenced;
use std::alloc::{AllocError, Global};
use std::fmt::Write;

#[tactic(auto, unfolding(crate::specs::Text::generated_line))]
fn push_generated(out: &mut String, accounts: u64, transfers: u64) -> Result<(), AllocError>
    ensures { OnOk result (string_bytes out.new ≡ string_bytes out.old
        ++ generated_line accounts transfers) }
{
    write!(out, "generated {accounts} {transfers}\n")
}

/// How many accounts and payments there are, and the size and the root of the log that was made.
#[tactic(auto, unfolding(crate::specs::Text::lines_of))]
pub(crate) fn lines(
    alloc: Global,
    sizes: Sizes,
    report: &Report<Sequenced>,
) -> Result<String, AllocError>
    ensures { IfOk result (λ text. string_bytes text ≡ lines_of sizes report.now) }
{
    let mut out = String::new(alloc);
    push_generated(&mut out, sizes.accounts(), sizes.transfers())?;
    push_end(alloc, &mut out, report.size.get(), &report.root)?;
    Ok(out)
}
