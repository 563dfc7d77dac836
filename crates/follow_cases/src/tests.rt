//! Worked cases. Roots and frames are those of vectors/cases.py.

mod copies;
mod damage;
mod ends;
mod later;
mod orders;
mod rows;
mod vectors;

use ledger_codec::{Digest, List};
use ledger_job::{Block, Payment};
use ledger_log::{AnyFamily, AnyOp, Log, Target};
use ledger_merkle::{Location, Sha256Hasher};
use ledger_program::{Fault, follow};
use ledger_settling::Report;
use ledger_strategy::Sequential;
use ledger_transfers::Sequenced;
use std::alloc::Global;
use std::random::RandomSource;
use std::thread::Threads;
use sync_client::{Limits, NoTargets, Targets};
use sync_net::{ErrorCode, Link};
use sync_server::{MemoryLink, TapeLink};

/// What a call of `follow` answered.
#[derive(Clone, Copy, Debug, PartialEq, Eq)]
enum Told {
    /// A report of so many operations that were fetched, so many accounts, this size and this root.
    Report(usize, usize, u64, Digest),
    Network,
    RequestChannelClosed,
    InvalidResponse,
    UnexpectedResponse(u64),
    /// The code, and the length of the text.
    Server(ErrorCode, usize),
    InvalidProof(u64),
    TooManyStrays,
    /// The places of a stale target.
    StaleUpdate(u64, u64),
    WrongRoot(Digest),
    BadLog(u64),
    BadValue(u64),
    Rejected(usize),
    Full(usize),
    OutOfMemory,
}

fn fault_told(fault: Fault) -> Told {
    match fault {
        Fault::Network => Told::Network,
        Fault::RequestChannelClosed => Told::RequestChannelClosed,
        Fault::InvalidResponse => Told::InvalidResponse,
        Fault::UnexpectedResponse { request_id } => Told::UnexpectedResponse(request_id),
        Fault::Server { code, message } => Told::Server(code, message.as_str().len()),
        Fault::InvalidProof { request_id } => Told::InvalidProof(request_id),
        Fault::TooManyStrays => Told::TooManyStrays,
        Fault::StaleUpdate { start, end } => Told::StaleUpdate(start.get(), end.get()),
        Fault::WrongRoot { found } => Told::WrongRoot(found),
        Fault::BadLog { location } => Told::BadLog(location.get()),
        Fault::BadValue { location } => Told::BadValue(location.get()),
        Fault::Rejected {
            block,
            rejection: _,
        } => Told::Rejected(block),
        Fault::Full { block } => Told::Full(block),
        Fault::OutOfMemory => Told::OutOfMemory,
    }
}

fn report_told(report: Report<Sequenced>) -> Told {
    let kept = report.kept.as_slice().len();
    let accounts = report.accounts.len();
    Told::Report(kept, accounts, report.size.get(), report.root)
}

/// What following a log to its target with these blocks answers.
fn followed<R: RandomSource + Threads + Sync + AllocGlobal, L: Link>(
    rt: &R,
    target: &Target,
    limits: &Limits,
    blocks: &[Block<Payment>],
    link: &mut L,
) -> Told {
    followed_on(rt, target, &mut NoTargets, limits, blocks, link)
}

/// The same, where later targets may be named.
fn followed_on<R: RandomSource + Threads + Sync + AllocGlobal, L: Link, Ts: Targets>(
    rt: &R,
    target: &Target,
    updates: &mut Ts,
    limits: &Limits,
    blocks: &[Block<Payment>],
    link: &mut L,
) -> Told {
    let alloc = rt.alloc();
    match follow::<R, Payment, Sequenced, L, Sequential, Ts>(
        rt,
        alloc,
        target,
        updates,
        limits,
        blocks,
        link,
        &Sequential,
    ) {
        Ok(report) => report_told(report),
        Err(fault) => fault_told(fault),
    }
}

/// The bytes of a text of hexadecimal digits.
fn bytes_of(alloc: Global, text: &str) -> Option<Vec<u8>> {
    hex::decode(alloc, text).ok()
}

/// The digest of 64 hexadecimal digits.
fn digest_of(text: &str) -> Option<Digest> {
    let mut digest = [0; 32];
    hex::decode_to_slice(text, &mut digest).ok()?;
    Some(digest)
}

/// The target from one place to another with this root.
fn target(root: &str, start: u64, end: u64) -> Option<Target> {
    Target::new(digest_of(root)?, Location::new(start)?, Location::new(end)?)
}

/// A link that gives these bytes as they fit, whose calls with the numbers `failing` fail.
fn tape(alloc: Global, bytes: Vec<u8>, cuts: &[usize], failing: &[u64]) -> Option<TapeLink> {
    let cuts = Vec::from_slice(alloc, cuts).ok()?;
    let failing = Vec::from_slice(alloc, failing).ok()?;
    Some(TapeLink::new(alloc, bytes, cuts, failing))
}

/// A link that serves a log as it is asked.
fn serving(alloc: Global, log: Log<AnyFamily, Sha256Hasher>) -> MemoryLink<AnyFamily> {
    MemoryLink::new(
        alloc,
        log,
        Vec::new(alloc),
        Vec::new(alloc),
        Vec::new(alloc),
    )
}

/// The log of these operations.
fn log_of(alloc: Global, ops: &[AnyOp]) -> Option<Log<AnyFamily, Sha256Hasher>> {
    let ops = Vec::from_slice(alloc, ops).ok()?;
    Log::from_parts(alloc, Vec::new(alloc), Location::ZERO, ops).ok()
}

/// One block, a body of these payments.
fn body(alloc: Global, payments: &[Payment]) -> Option<Vec<Block<Payment>>> {
    let payments = Vec::from_slice(alloc, payments).ok()?;
    let mut blocks = Vec::new(alloc);
    blocks.push(Block::Body(List::from_vec(payments))).ok()?;
    Some(blocks)
}

/// The value of an account.
fn value_of(balance: u8, nonce: u8) -> [u8; 32] {
    let mut value = [0; 32];
    value[7] = balance;
    value[15] = nonce;
    value
}
