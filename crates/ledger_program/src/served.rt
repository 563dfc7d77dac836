//! The log that a job serves.
ghost use Rattle.std.specs.Prelude.{◌≡◌, [], All, IfOk, OnOk};
ghost use Rattle.ledger_log.specs.Any.{IsSoundAny};
ghost use Rattle.ledger_log.specs.declared.any.AnyOp.TheVariants.{Update};
ghost use Rattle.ledger_program.specs.Served.{update_of, served, IsServedList, IsLongOrMemory};
ghost use Rattle.ledger_settling.specs.Reports.{IsWhole};

use ledger_codec::OutOfMemory;
use ledger_job::Open;
use ledger_log::{AnyFamily, AnyOp, Key, Log, LogFault, Value};
use ledger_managed::AccountValue;
use ledger_merkle::{Location, Sha256Hasher};
use ledger_transfers::Sequenced;
use std::alloc::{AllocError, Global};

/// What an account that is opened writes.
fn update(account: &Open) -> AnyOp
    ensures is { result ≡ update_of account.now }
    ensures sound { IsSoundAny result }
{
    let balance = account.balance;
    let nonce = account.nonce;
    written(account.key, Sequenced { balance, nonce }.to_value())
}

/// An Update of bytes that are owned, of which their types say that they are 32.
fn written(key: Key, value: Value) -> AnyOp
    ensures is { result ≡ Update key value }
    ensures sound { IsSoundAny result }
{
    AnyOp::Update(key, value)
}

/// The operations of the log that a job serves: a commit, one Update an `open` line, and a commit.
#[tactic(auto, unfolding(crate::specs::Served::served))]
pub(crate) fn served(alloc: Global, accounts: &[Open]) -> Result<Vec<AnyOp>, AllocError>
    ensures list { IfOk result (λ v. v.items ≡ served accounts.now) }
    ensures sound { IfOk result (λ v. All IsSoundAny v.items) }
{
    let mut ops = Vec::with_capacity(alloc, accounts.len().saturating_add(2))?;
    ops.push(AnyOp::CommitFloor(None, Location::ZERO))?;
    'opens: for account in accounts {
        ops.push(update(account))?;
    }
    ops.push(AnyOp::CommitFloor(None, Location::ZERO))?;
    Ok(ops)
}

/// The log of these operations, which a job serves.
pub(crate) fn open_served(
    alloc: Global,
    ops: Vec<AnyOp>,
) -> Result<Log<AnyFamily, Sha256Hasher>, OutOfMemory>
    requires { IsServedList ops.items }
    ensures log { IfOk result (λ log. log ≡ record { front = 0; pinned = []; ops = ops.items }) }
    ensures whole { OnOk result (IsWhole 0 ops.items) }
{
    match Log::from_parts(alloc, Vec::new(alloc), Location::ZERO, ops) {
        Ok(log) => {
            let _floor = log.floor();
            Ok(log)
        }
        Err(fault) => Err(wanting(fault)),
    }
}

/// The log that a job with these accounts serves.
pub fn served_log(
    alloc: Global,
    accounts: &[Open],
) -> Result<Log<AnyFamily, Sha256Hasher>, OutOfMemory>
    ensures { IfOk result (λ log. log ≡ record { front = 0; pinned = []; ops = served accounts.now }) }
{
    let ops = served(alloc, accounts)?;
    open_served(alloc, ops)
}

/// Want of memory: a served log has no other fault but to be too long, which no memory holds.
fn wanting(_fault: LogFault) -> OutOfMemory
    requires { IsLongOrMemory _fault }
{
    OutOfMemory
}
