//! Worked calls on a shared log.
ghost use Rattle.std.specs.Prelude.{◌≡◌};
ghost use Rattle.sync_shared.specs.Replies.{Belongs};

use ledger_log::{AnyFamily, AnyOp, Family, Log};
use ledger_merkle::{Location, Sha256Hasher};
use std::alloc::Global;
use std::sync::Wait;
use std::test::Fail;
use std::thread::{Threads, join};
use sync_net::{GetSyncTargetRequest, Message};
use sync_shared::{Pass, ShareRefusal, SharedLog};

/// The size that a shared log tells when it is asked for its target, 0 where it refuses.
pub(super) fn size_told<F: Family, R: Wait>(
    rt: &R,
    alloc: Global,
    shared: &SharedLog<F>,
    pass: &mut Pass<F>,
) -> u64
    requires { Belongs shared.now.from pass.old }
    ensures belongs { Belongs shared.now.from pass.new }
    ensures caller { pass.new.caller ≡ pass.old.caller }
{
    let request = Message::GetSyncTargetRequest(GetSyncTargetRequest { request_id: 9 });
    let reply = shared.serve(rt, alloc, pass, request);
    size_in(&reply)
}

/// The size in a target's reply.
fn size_in<Op>(reply: &Result<Message<Op>, ShareRefusal>) -> u64 {
    match reply {
        Ok(message) => size_of(message),
        Err(_) => 0,
    }
}

/// The size in a target.
fn size_of<Op>(message: &Message<Op>) -> u64 {
    match message {
        Message::GetSyncTargetResponse(reply) => reply.target.end.get(),
        _ => 0,
    }
}

/// The size with which a batch is taken, 0 where it is refused.
fn taken<F: Family, R: Wait>(
    rt: &R,
    alloc: Global,
    shared: &SharedLog<F>,
    pass: &mut Pass<F>,
    ops: &[F::Op],
) -> u64
    requires { Belongs shared.now.from pass.old }
    ensures { Belongs shared.now.from pass.new }
{
    let answer = shared.append(rt, alloc, pass, ops);
    match answer {
        Ok(size) => size.get(),
        Err(_) => 0,
    }
}

/// Appends to a log and asks for its size, each in a thread.
fn update_and_ask<R: Threads + Wait + Sync>(
    rt: &R,
    alloc: Global,
    shared: &SharedLog<AnyFamily>,
    one: &mut Pass<AnyFamily>,
    two: &mut Pass<AnyFamily>,
    batch: &[AnyOp],
) -> (u64, u64)
    requires one { Belongs shared.now.from one.old }
    requires two { Belongs shared.now.from two.old }
{
    join(
        rt,
        || taken::<AnyFamily, R>(rt, alloc, shared, one, batch),
        || size_told::<AnyFamily, R>(rt, alloc, shared, two),
    )
}

#[test]
fn a_reply_comes_from_the_log_as_it_has_grown(rt: HostRuntime) -> Result<(), Fail> {
    let log: Log<AnyFamily, Sha256Hasher> = Log::fresh(rt.alloc()).map_err(|_| "no log")?;
    let (shared, mut passes) = SharedLog::share(rt.alloc(), log, 1, 4).map_err(|_| "no lock")?;
    let mut pass = passes.pop().ok_or("no pass")?;
    let commit = [AnyOp::CommitFloor(None, Location::ZERO)];
    assert!(rt; size_told(&rt, rt.alloc(), &shared, &mut pass) == 1);
    assert!(rt; taken(&rt, rt.alloc(), &shared, &mut pass, &commit) == 2);
    assert!(rt; taken(&rt, rt.alloc(), &shared, &mut pass, &[]) == 0);
    assert!(rt; size_told(&rt, rt.alloc(), &shared, &mut pass) == 2);
    assert!(rt; size_told(&rt, rt.alloc(), &shared, &mut pass) == 0);
    Ok(())
}

#[test]
fn threads_share_one_log(rt: HostRuntime) -> Result<(), Fail> {
    let log: Log<AnyFamily, Sha256Hasher> = Log::fresh(rt.alloc()).map_err(|_| "no log")?;
    let (shared, mut passes) = SharedLog::share(rt.alloc(), log, 2, 1).map_err(|_| "no lock")?;
    let mut one = passes.pop().ok_or("no pass")?;
    let mut two = passes.pop().ok_or("no pass")?;
    let commit = [AnyOp::CommitFloor(None, Location::ZERO)];
    let (size, told) = update_and_ask(&rt, rt.alloc(), &shared, &mut one, &mut two, &commit);
    assert!(rt; size == 2);
    assert!(rt; told == 1 || told == 2);
    Ok(())
}
