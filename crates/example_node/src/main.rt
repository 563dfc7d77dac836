//! A node over accounts and transfers of its own: it follows a log of wallets over a link to a peer, settles blocks of
//! orders on it, and prints what became of them.
//!
//! ```text
//!   peer's log <== link ==> settle --> Report --> printed
//!                             ^
//!                      blocks of orders
//! ```
//!
//! The peer stands in the same program: a log in memory, and a link that serves it. Over another link the node stays
//! as it is.
#![tactic(auto)]

mod fault;
mod peer;
mod show;

ghost use Rattle.std.specs.Prelude.{◌≡◌, IfOk};
ghost use Rattle.example_node.specs.Node.{orders};
ghost use Rattle.ledger_settling.specs.Reports.{ReportOf};

use example_accounts::{Order, Wallet};
use fault::NodeFault;
use ledger_codec::List;
use ledger_job::Block;
use ledger_log::Target;
use ledger_program::{Fault, follow};
use ledger_settling::Report;
use ledger_strategy::Sequential;
use peer::{ANN, BOB, SHOP, link_to, target_of, wallets};
use show::{fault_text, report_text};
use std::alloc::{AllocError, Global};
use std::process::ExitCode;
use std::random::RandomSource;
use std::thread::Threads;
use sync_client::{Limits, NoTargets};
use sync_net::Link;

/// Follows the target's log over the link, two operations a request, and settles the blocks on it.
fn settle<R: RandomSource + Threads + Sync, L: Link>(
    rt: &R,
    alloc: Global,
    target: &Target,
    blocks: &[Block<Order>],
    link: &mut L,
) -> Result<Report<Wallet>, Fault>
    ensures { IfOk result (λ report. ReportOf orders report.target blocks.now report) }
{
    let Some(limits) = Limits::new(2, 4) else {
        unreachable!();
    };
    follow(
        rt,
        alloc,
        target,
        &mut NoTargets,
        &limits,
        blocks,
        link,
        &Sequential,
    )
}

/// A block of two rounds, from which is taken what settles, and a body, which settles whole.
fn shopping(alloc: Global) -> Result<Vec<Block<Order>>, AllocError> {
    let first = vec![in alloc;
        Order::buy(ANN, SHOP, 40),
        Order::buy(BOB, SHOP, 70),
        Order::redeem(ANN, SHOP, 4),
    ]?;
    let second = vec![in alloc; Order::redeem(ANN, SHOP, 1), Order::buy(BOB, SHOP, 50)]?;
    let rounds = vec![in alloc; List::from_vec(first), List::from_vec(second)]?;
    let body = vec![in alloc; Order::redeem(BOB, SHOP, 8)]?;
    Ok(vec![in alloc;
        Block::Rounds(List::from_vec(rounds)),
        Block::Body(List::from_vec(body)),
    ]?)
}

/// A body that the shop can't pay for: what it is given in a block comes too late for the block.
fn too_much(alloc: Global) -> Result<Vec<Block<Order>>, AllocError> {
    let body = vec![in alloc; Order::buy(ANN, SHOP, 60), Order::redeem(BOB, SHOP, 30)]?;
    Ok(vec![in alloc; Block::Body(List::from_vec(body))]?)
}

/// Settles the blocks, and says what became of them.
fn outcome_text<R: RandomSource + Threads + Sync, L: Link>(
    rt: &R,
    alloc: Global,
    target: &Target,
    blocks: &[Block<Order>],
    link: &mut L,
) -> Result<String, AllocError> {
    match settle(rt, alloc, target, blocks, link) {
        Ok(report) => report_text(alloc, &report),
        Err(fault) => fault_text(alloc, &fault),
    }
}

/// Follows the peer's log twice over one link, for two lists of blocks.
fn run<R: RandomSource + Threads + Sync + Print>(rt: &R, alloc: Global) -> Result<(), NodeFault> {
    let log = wallets(alloc)?;
    let target = target_of(&log);
    let mut link = link_to(alloc, log);
    let blocks = shopping(alloc)?;
    let text = outcome_text(rt, alloc, &target, &blocks, &mut link)?;
    print!(rt; "{text}")?;
    let blocks = too_much(alloc)?;
    let text = outcome_text(rt, alloc, &target, &blocks, &mut link)?;
    print!(rt; "{text}")?;
    Ok(())
}

fn main(rt: HostRuntime) -> ExitCode {
    match run(&rt, rt.alloc()) {
        Ok(()) => ExitCode::SUCCESS,
        Err(_) => ExitCode::FAILURE,
    }
}
