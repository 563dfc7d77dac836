//! What a block appends behind its changes: a copy of an old account for each change, while there is one from the floor
//! on, and a commit whose floor is the first account's place.

use super::vectors::{ROOT_NONE_MOVED, ROOT_ONE_MOVED, ROOT_TWO_MOVED};
use super::{Told, body, digest_of, followed, serving, value_of};
use ledger_job::Payment;
use ledger_log::{AnyFamily, AnyOp, Log, Target};
use ledger_merkle::{Location, Sha256Hasher};
use std::alloc::Global;
use std::random::RandomSource;
use std::thread::Threads;
use sync_client::Limits;

/// The log that opens so many accounts of 10.
fn opened(alloc: Global, count: u8) -> Option<Log<AnyFamily, Sha256Hasher>> {
    let mut ops = Vec::new(alloc);
    ops.push(AnyOp::CommitFloor(None, Location::ZERO)).ok()?;
    for key in 1..=count {
        ops.push(AnyOp::Update([key; 32], value_of(10, 0))).ok()?;
    }
    ops.push(AnyOp::CommitFloor(None, Location::ZERO)).ok()?;
    Log::from_parts(alloc, Vec::new(alloc), Location::ZERO, ops).ok()
}

/// What a body of these payments makes of such a log.
fn settled<R: RandomSource + Threads + Sync + AllocGlobal>(
    rt: &R,
    count: u8,
    payments: &[Payment],
) -> Option<Told> {
    let alloc = rt.alloc();
    let log = opened(alloc, count)?;
    let target = Target::new(log.root(), Location::ZERO, log.size())?;
    let blocks = body(alloc, payments)?;
    let mut link = serving(alloc, log);
    Some(followed(rt, &target, &Limits::new(50, 1)?, &blocks, &mut link))
}

/// The first payment of an account.
const fn payment(from: u8, to: u8, amount: u64) -> Payment {
    Payment {
        from: [from; 32],
        to: [to; 32],
        amount,
        nonce: 0,
    }
}

/// The report of so many fetched operations and accounts, with this size and root.
fn report(kept: usize, accounts: usize, size: u64, root: &str) -> Option<Told> {
    Some(Told::Report(kept, accounts, size, digest_of(root)?))
}

#[test]
fn old_accounts_are_copied_and_the_floor_rises(rt: HostRuntime) {
    let to_a_new_one = [payment(3, 4, 1)];
    assert_eq!(rt;
        settled(&rt, 3, &to_a_new_one),
        report(5, 4, 10, ROOT_TWO_MOVED)
    );
    let to_itself = [payment(4, 4, 3)];
    assert_eq!(rt;
        settled(&rt, 4, &to_itself),
        report(6, 4, 9, ROOT_ONE_MOVED)
    );
    assert_eq!(rt; settled(&rt, 1, &[]), report(3, 1, 4, ROOT_NONE_MOVED));
}
