//! The accounts of a log.
ghost use Rattle.std.specs.Prelude.{◌≡◌, ◌+◌, ◌<◌, ◌++◌, ◌∷◌, [], List as Items, Some, length, slice_get, IfOk, IfErr, OnOk, All, IsTrue, MatchBool};
ghost use Rattle.ledger_log.specs.declared.any.AnyOp.{AnyOp as Op};
ghost use Rattle.ledger_settling.specs.Blocks.{IsReadable};
ghost use Rattle.ledger_settling.specs.Reports.{IsReplay};
ghost use Rattle.ledger_settling.specs.Faults.{ReplayFails, IsUnreadable};
ghost use Rattle.ledger_settling.specs.declared.fault.ReportFault.TheVariants.{BadValue};

use crate::fault::ReportFault;
use crate::report::Accounts;
use ledger_codec::OutOfMemory;
use ledger_log::{AnyFamily, AnyOp, Log};
use ledger_managed::AccountValue;
use ledger_merkle::Sha256Hasher;
use std::alloc::Global;
use std::collections::BTreeMap;

/// The operation of a log at a place behind its front.
pub(crate) fn op_behind(log: &Log<AnyFamily, Sha256Hasher>, place: u64) -> &AnyOp
    requires { place < length log.now.ops }
    ensures { slice_get log.now.ops place ≡ Some result.now }
{
    // Its type says that its size is within 2^62.
    let _within = log.size();
    let Some(op) = log.op_at(log.front().plus(place)) else {
        unreachable!();
    };
    op
}

/// The fault of an operation that can't be read, at a place behind the log's front.
fn bad_value(log: &Log<AnyFamily, Sha256Hasher>, place: u64) -> ReportFault
    requires { place < length log.now.ops }
    ensures { result ≡ BadValue (log.now.front + place) }
{
    let _within = log.size();
    ReportFault::BadValue {
        location: log.front().plus(place),
    }
}

/// How many operations a log retains.
pub(crate) fn count_of(log: &Log<AnyFamily, Sha256Hasher>) -> u64
    ensures { result ≡ length log.now.ops }
{
    log.size().get() - log.front().get()
}

/// The accounts after the operations of a log.
pub(crate) fn replay<A: AccountValue>(
    alloc: Global,
    log: &Log<AnyFamily, Sha256Hasher>,
) -> Result<Accounts<A>, ReportFault>
    ensures accounts { IfOk result (λ accounts. IsReplay A.eq A.values accounts log.now.ops) }
    ensures readable { OnOk result (All (IsReadable A.values) log.now.ops) }
    ensures fails { IfErr result (ReplayFails A.values log.now.front log.now.ops) }
{
    let count = count_of(log);
    let mut accounts = BTreeMap::new(alloc);
    for place in 0..count {
        let op = op_behind(log, place);
        if !replay_op(&mut accounts, op)? {
            return Err(bad_value(log, place));
        }
    }
    Ok(accounts)
}

/// Whether the operation can be read, and then the accounts after it.
fn replay_op<A: AccountValue>(accounts: &mut Accounts<A>, op: &AnyOp) -> Result<bool, OutOfMemory>
    ensures readable { IfOk result (λ r. MatchBool r (IsReadable A.values op.now)
        (IsUnreadable A.values op.now)) }
    ensures replay { IfOk result (λ r. IsTrue r → (base : Items Op)
        → IsReplay A.eq A.values accounts.old base
        → IsReplay A.eq A.values accounts.new (base ++ op.now ∷ [])) }
{
    match op {
        AnyOp::Update(key, value) => match A::from_value(value) {
            Some(account) => {
                accounts.insert(*key, account)?;
                Ok(true)
            }
            None => Ok(false),
        },
        AnyOp::Delete(key) => {
            accounts.remove(key);
            Ok(true)
        }
        AnyOp::CommitFloor(_metadata, _floor) => Ok(true),
    }
}
