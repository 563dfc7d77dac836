//! Two runs over links that give one stream of bytes answer alike, however the bytes are cut, whatever the strategies,
//! and with the same later targets.
ghost use Rattle.std.specs.Prelude.{◌≡◌, ℕ, List};
ghost use Rattle.follow_laws.specs.Alike.{AreBytes, Tells, Ran, IsAlike};
ghost use Rattle.ledger_program.specs.Follow.{beginning};
ghost use Rattle.ledger_settling.specs.Blocks.{meaning};
ghost use Rattle.sync_client.specs.Runs.{SessionLaws};

use ledger_job::Block;
use ledger_log::{Key, Target};
use ledger_managed::AccountValue;
use ledger_program::{Fault, follow};
use ledger_settling::Report;
use ledger_strategy::Strategy;
use ledger_transfers::Transfer;
use std::alloc::Global;
use std::random::RandomSource;
use std::thread::Threads;
use sync_client::{Limits, Targets};
use sync_net::Link;

/// One run of `follow`.
fn run<
    R: RandomSource + Threads + Sync,
    T: Transfer<Key = Key, Account = A>,
    A: AccountValue,
    L: Link,
    St: Strategy,
    Ts: Targets,
>(
    rt: &R,
    alloc: Global,
    target: &Target,
    updates: &mut Ts,
    limits: &Limits,
    blocks: &[Block<T>],
    link: &mut L,
    strategy: &St,
) -> Result<Report<A>, Fault>
    ensures ran { Ran (meaning T.changes_of A.eq A.rules A.values)
        (beginning target.now (Ts.answers updates.old) limits.now (L.wire link.old) (L.faults link.old))
        (Ts.answers updates.new) (L.wire link.new) (L.faults link.new) blocks.now result }
    ensures laws { SessionLaws (beginning target.now (Ts.answers updates.old) limits.now (L.wire link.old)
        (L.faults link.old)).rules (beginning target.now (Ts.answers updates.old) limits.now
        (L.wire link.old) (L.faults link.old)).start }
{
    match follow(rt, alloc, target, updates, limits, blocks, link, strategy) {
        Ok(report) => {
            let _size = report.size.get();
            Ok(report)
        }
        Err(fault) => Err(fault),
    }
}

/// What two runs answered.
#[derive(Drop)]
pub struct Runs<A> {
    pub one: Result<Report<A>, Fault>,
    pub other: Result<Report<A>, Fault>,
}

/// Follows one target, with the same limits and blocks, over two links, one after the other. Where both links tell
/// what they give, both gave the beginning of one stream of bytes, each that gave the end gave all of it, and the same
/// answers on later targets were to come, the two answers are one: want of memory and failed calls aside, which aren't
/// of the bytes, and the key and the reason of a rejection, which a block may have several of.
pub fn follow_twice<
    R: RandomSource + Threads + Sync,
    T: Transfer<Key = Key, Account = A>,
    A: AccountValue,
    L: Link,
    M: Link,
    St: Strategy,
    Su: Strategy,
    Ts: Targets,
    Us: Targets,
>(
    rt: &R,
    alloc: Global,
    target: &Target,
    limits: &Limits,
    blocks: &[Block<T>],
    updates: &mut Ts,
    link: &mut L,
    strategy: &St,
    others: &mut Us,
    other: &mut M,
    another: &Su,
) -> Runs<A>
    ensures one_answer { (stream : List ℕ)
        → AreBytes stream
        → Tells stream (L.wire link.old) (L.wire link.new)
        → Tells stream (M.wire other.old) (M.wire other.new)
        → Ts.answers updates.old ≡ Us.answers others.old
        → IsAlike A.eq result.one result.other }
{
    let one = run::<R, T, A, L, St, Ts>(rt, alloc, target, updates, limits, blocks, link, strategy);
    let other = run::<R, T, A, M, Su, Us>(
        rt, alloc, target, others, limits, blocks, other, another,
    );
    Runs { one, other }
}
