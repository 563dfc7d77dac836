//! Worked parts of keyless logs of three and of nine operations. Digests, asks and answers are those of
//! vectors/session.py.

mod later;
mod vectors;

ghost use Rattle.std.specs.Prelude.{◌≡◌, ◌≤◌, ◌^◌, ℕ, true, None, Option, IfOk, List as Items};
ghost use Rattle.sync_net.specs.Wire.{Wire};
ghost use Rattle.sync_net.specs.Service.{Service};

use self::vectors::{LEAF_0, LEAF_1, LEAF_2, OTHER_ROOT, PAIR, ROOT};
use ledger_codec::{Digest, List};
use ledger_log::{KeylessOp, Target};
use ledger_merkle::{Location, Proof};
use std::alloc::Global;
use sync_client::{CollectFault, Collector, Limits, NoTargets, SyncFault, sync_full};
use sync_net::{Generator, GetOperationsResponse, Link, LinkError, Machine};

/// The first operation.
const FIRST: [KeylessOp; 1] = [KeylessOp::Commit(None, Location::ZERO)];

/// The second operation.
const SECOND: [KeylessOp; 1] = [KeylessOp::Append([1; 32])];

/// The third operation.
const THIRD: [KeylessOp; 1] = [KeylessOp::Append([2; 32])];

/// The operations behind the first.
const REST: [KeylessOp; 2] = [KeylessOp::Append([1; 32]), KeylessOp::Append([2; 32])];

/// The operations behind the first, and one more.
const MANY: [KeylessOp; 3] = [
    KeylessOp::Append([1; 32]),
    KeylessOp::Append([2; 32]),
    KeylessOp::Append([3; 32]),
];

fn at(value: u64) -> Location
    requires { value ≤ 2 ^ 62 }
    ensures { result ≡ value }
{
    Location::ZERO.plus(value)
}

/// A collector of the operations from a place on, two at once.
fn collector(alloc: Global, start: u64) -> Option<Collector<KeylessOp>> {
    let target = Target::new(ROOT, Location::new(start)?, at(3))?;
    Some(Collector::new(alloc, target, Limits::new(2, 1)?))
}

/// An answer with these operations, the digests of their proof and pinned nodes.
fn answer(
    alloc: Global,
    ops: &[KeylessOp],
    digests: &[Digest],
    pinned: &[Digest],
) -> Option<GetOperationsResponse<KeylessOp>> {
    Some(GetOperationsResponse {
        request_id: 7,
        proof: Proof {
            leaves: at(3),
            inactive_peaks: 0,
            digests: List::from_vec(Vec::from_slice(alloc, digests).ok()?),
        },
        operations: List::from_vec(Vec::from_slice(alloc, ops).ok()?),
        pinned_nodes: Some(List::from_vec(Vec::from_slice(alloc, pinned).ok()?)),
    })
}

/// Where the range begins and ends that is asked next, and whether this answer to it is kept.
fn turn(
    collector: &mut Collector<KeylessOp>,
    answer: GetOperationsResponse<KeylessOp>,
) -> Option<(u64, u64, Result<(), CollectFault>)> {
    let asked = collector.next_ask().ok()??;
    let start = asked.start.get();
    let end = asked.end.get();
    Some((start, end, collector.accept(asked, 7, answer)))
}

/// The number of operations and pinned nodes of a finished part, or why there is none.
fn finished(collector: Collector<KeylessOp>) -> Option<Result<(usize, usize), CollectFault>> {
    if !collector.is_complete() {
        return None;
    }
    Some(match collector.finish() {
        Ok(part) => Ok((part.ops.as_slice().len(), part.pinned.as_slice().len())),
        Err(fault) => Err(fault),
    })
}

#[test]
fn limits_are_bounded(rt: HostRuntime) {
    assert!(rt; Limits::new(0, 1).is_none());
    assert!(rt; Limits::new(1, 0).is_none());
    assert!(rt; Limits::new(1, 65).is_none());
    assert!(rt; Limits::new(1, 64).is_some());
}

/// The asks of a collector whose first answer is short.
fn short_turns(alloc: Global) -> Option<[(u64, u64, Result<(), CollectFault>); 3]> {
    let mut all = collector(alloc, 0)?;
    let short = answer(alloc, &FIRST, &[LEAF_1, LEAF_2], &[])?;
    let first = turn(&mut all, short)?;
    let second = answer(alloc, &SECOND, &[LEAF_0, LEAF_2], &[])?;
    let rest = turn(&mut all, second)?;
    let third = answer(alloc, &THIRD, &[PAIR], &[])?;
    let last = turn(&mut all, third)?;
    Some([first, rest, last])
}

#[test]
fn the_rest_of_a_short_answer_is_asked(rt: HostRuntime) {
    let asked = [(0, 2, Ok(())), (1, 2, Ok(())), (2, 3, Ok(()))];
    assert!(rt; short_turns(rt.alloc()) == Some(asked));
}

/// The part from the second operation on, behind this pinned node.
fn part_behind(alloc: Global, node: Digest) -> Option<Result<(usize, usize), CollectFault>> {
    let mut all = collector(alloc, 1)?;
    let both = answer(alloc, &REST, &[LEAF_0], &[node])?;
    let _asked = turn(&mut all, both)?;
    finished(all)
}

#[test]
fn a_part_has_its_root(rt: HostRuntime) {
    assert!(rt; part_behind(rt.alloc(), LEAF_0) == Some(Ok((2, 1))));
}

/// The root over the leaves that come with a finished part.
fn root_of_leaves(alloc: Global) -> Option<Digest> {
    let mut all = collector(alloc, 1)?;
    let both = answer(alloc, &REST, &[LEAF_0], &[LEAF_0])?;
    let _asked = turn(&mut all, both)?;
    if !all.is_complete() {
        return None;
    }
    Some(all.finish_hashed().ok()?.list.root())
}

#[test]
fn a_part_comes_with_its_leaves(rt: HostRuntime) {
    assert!(rt; root_of_leaves(rt.alloc()) == Some(ROOT));
}

#[test]
fn a_wrong_pinned_node_gives_another_root(rt: HostRuntime) {
    let other = CollectFault::WrongRoot { found: OTHER_ROOT };
    assert!(rt; part_behind(rt.alloc(), LEAF_1) == Some(Err(other)));
}

/// Whether an answer to the range from the second operation on is kept.
fn kept(
    alloc: Global,
    ops: &[KeylessOp],
    digests: &[Digest],
    pinned: &[Digest],
) -> Option<Result<(), CollectFault>> {
    let mut all = collector(alloc, 1)?;
    let given = answer(alloc, ops, digests, pinned)?;
    Some(turn(&mut all, given)?.2)
}

#[test]
fn bad_answers_are_refused(rt: HostRuntime) {
    let alloc = rt.alloc();
    let refused = Some(Err(CollectFault::InvalidProof { request_id: 7 }));
    assert!(rt; kept(alloc, &REST, &[LEAF_0], &[]) == refused);
    assert!(rt; kept(alloc, &REST, &[LEAF_1], &[LEAF_0]) == refused);
    assert!(rt; kept(alloc, &[], &[LEAF_0], &[LEAF_0]) == refused);
    assert!(rt; kept(alloc, &MANY, &[LEAF_0], &[LEAF_0]) == refused);
}

/// A link that takes all and gives the end.
#[derive(Drop)]
struct Silent;

impl Link for Silent {
    ghost faults = { λ _. 0 };

    ghost exact = { true };

    ghost steady = { λ _. Unit {0} };

    ghost wire = { λ _. None };

    ghost service = { λ _. None };

    fn send(&mut self, _bytes: &[u8]) -> Result<(), LinkError> {
        Ok(())
    }

    fn recv(&mut self, _buffer: &mut [u8]) -> Result<usize, LinkError> {
        Ok(0)
    }
}

/// Why nothing is fetched over a silent link, and over the machine that was left by that.
fn faults_of_silence(alloc: Global) -> Option<(Option<SyncFault>, Option<SyncFault>)> {
    let target = Target::new(ROOT, at(0), at(3))?;
    let limits = Limits::new(2, 1)?;
    let mut machine: Machine<KeylessOp> = Machine::new(alloc, Generator::new());
    let first = sync_full(
        alloc,
        &target,
        &mut NoTargets,
        &limits,
        &mut machine,
        &mut Silent,
    )
    .err();
    let mut closed: Machine<KeylessOp> = Machine::new(alloc, Generator::new());
    let _ended = closed.end();
    let second = sync_full(
        alloc,
        &target,
        &mut NoTargets,
        &limits,
        &mut closed,
        &mut Silent,
    )
    .err();
    Some((first, second))
}

#[test]
fn a_silent_link_gives_nothing(rt: HostRuntime) {
    let faults = faults_of_silence(rt.alloc());
    assert!(rt;
        matches!(
            faults,
            Some((
                Some(SyncFault::RequestChannelClosed),
                Some(SyncFault::Closed)
            ))
        )
    );
}
