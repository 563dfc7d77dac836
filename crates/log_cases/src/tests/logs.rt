//! Worked logs. The expected roots are those of vectors/roots.py. What a call answers is asked by functions for any
//! digest: at one digest what they say of a log takes minutes to prove.
ghost use Rattle.std.specs.Prelude.{◌≡◌, ◌<◌, ◌≤◌, ◌^◌, [], IfOk, OnOk, map};
ghost use Rattle.ledger_merkle.specs.Leaves.{leaves_from};
ghost use Rattle.ledger_log.specs.Any.{any_spelling};
ghost use Rattle.ledger_log.specs.View.{log_size, log_peaks_at};

use ledger_codec::Digest;
use ledger_log::{
    AnyFamily, AnyOp, Family, ImmutableFamily, ImmutableOp, Key, KeyedFamily, KeylessFamily,
    KeylessOp, Log, LogFault, Value,
};
use ledger_merkle::{Hasher, Location, MAX_LEAVES, MerkleList, Sha256Hasher, Toy, check_range};
use std::alloc::Global;
use std::num::NonZeroU64;

type AnyLog = Log<AnyFamily, Sha256Hasher>;

/// This place. Tests name places up to 2^62.
fn at(value: u64) -> Location {
    match Location::new(value) {
        Some(location) => location,
        None => Location::ZERO,
    }
}

fn commit(floor: u64) -> AnyOp {
    AnyOp::CommitFloor(None, at(floor))
}

/// A log of these operations from a place on, with so many pinned nodes.
fn late<H: Hasher>(
    alloc: Global,
    start: u64,
    nodes: usize,
    ops: &[AnyOp],
) -> Result<Log<AnyFamily, H>, LogFault> {
    let nodes = Vec::from_elem(alloc, [0; 32], nodes)?;
    Log::from_parts(alloc, nodes, at(start), Vec::from_slice(alloc, ops)?)
}

/// The log of these operations from place 0 on.
fn log_of<H: Hasher>(alloc: Global, ops: &[AnyOp]) -> Result<Log<AnyFamily, H>, LogFault> {
    late(alloc, 0, 0, ops)
}

fn append<F: Family, H: Hasher>(log: &mut Log<F, H>, ops: &[F::Op]) -> Result<(), LogFault> {
    log.append_batch(ops)
}

fn prune<F: Family, H: Hasher>(log: &mut Log<F, H>, loc: u64) -> Result<(), LogFault> {
    log.prune(at(loc))
}

fn copy<F: Family, H: Hasher>(log: &Log<F, H>) -> Result<Log<F, H>, LogFault> {
    log.copy()
}

fn get<F: KeyedFamily, H: Hasher>(log: &Log<F, H>, key: &Key) -> Option<Value> {
    log.get(key)
}

/// How many nodes are pinned at a place.
fn count<F: Family, H: Hasher>(log: &Log<F, H>, loc: u64) -> Option<usize> {
    Some(log.pinned_nodes_at(at(loc)).ok()?.len())
}

fn floor<F: Family, H: Hasher>(log: &Log<F, H>) -> u64 {
    log.floor().get()
}

fn root_of<F: Family, H: Hasher>(log: &Log<F, H>) -> Digest {
    log.root()
}

/// A log's root, size and front.
fn shown<F: Family, H: Hasher>(log: &Log<F, H>) -> (Digest, u64, u64) {
    (log.root(), log.size().get(), log.front().get())
}

/// Two logs hold the same as far as their answers show.
fn alike<F: Family, H: Hasher>(one: &Log<F, H>, other: &Log<F, H>) -> bool {
    shown(one) == shown(other) && one.sync_boundary() == other.floor()
}

/// A fresh log.
fn fresh<F: Family, H: Hasher>(alloc: Global) -> Result<Log<F, H>, LogFault> {
    Log::fresh(alloc)
}

/// Whether there is something at a place.
fn has<F: Family, H: Hasher>(log: &Log<F, H>, loc: u64) -> bool {
    log.op_at(at(loc)).is_some()
}

/// Whether a fresh log has something at its first two places, and is the log of one commit.
fn begins(alloc: Global) -> Result<[bool; 3], LogFault> {
    let log: AnyLog = fresh(alloc)?;
    let is_one = alike(&log, &log_of(alloc, &[commit(0)])?);
    Ok([has(&log, 0), has(&log, 1), is_one])
}

/// What a fresh log of a family shows.
fn shown_fresh<F: Family>(alloc: Global) -> Result<(Digest, u64, u64), LogFault> {
    let log: Log<F, Sha256Hasher> = fresh(alloc)?;
    Ok(shown(&log))
}

#[test]
fn begins_with_one_commit(rt: HostRuntime) -> Result<(), LogFault> {
    let alloc = rt.alloc();
    assert_eq!(rt; begins(alloc)?, [true, false, true]);
    let keyless = shown_fresh::<KeylessFamily>(alloc)?;
    assert_eq!(rt; keyless.1, 1);
    assert_eq!(rt; shown_fresh::<ImmutableFamily>(alloc)?, keyless);
    Ok(())
}

/// What a log answers to no operations and to four batches, and its size behind them.
fn answers(alloc: Global) -> Result<([Result<(), LogFault>; 5], u64), LogFault> {
    let mut log: AnyLog = fresh(alloc)?;
    let none = append(&mut log, &[]);
    let beyond = append(&mut log, &[commit(2)]);
    let taken = append(&mut log, &[commit(1)]);
    let regressed = append(&mut log, &[commit(0)]);
    let two = append(&mut log, &[commit(1), commit(1)]);
    Ok(([none, beyond, taken, regressed, two], shown(&log).1))
}

#[test]
fn takes_batches_that_end_in_a_commit(rt: HostRuntime) -> Result<(), LogFault> {
    let beyond = LogFault::FloorBeyond {
        floor: at(2),
        location: at(1),
    };
    let regressed = LogFault::FloorRegressed {
        floor: at(0),
        current: at(1),
    };
    let none = Err(LogFault::NotABatch);
    let wanted = [none, Err(beyond), Ok(()), Err(regressed), none];
    assert!(rt; answers(rt.alloc())? == (wanted, 2));
    Ok(())
}

/// What dropping what is below a place of two commits answers, the front, and whether root and size stay.
fn pruned(alloc: Global, loc: u64) -> Result<(Result<(), LogFault>, u64, bool), LogFault> {
    let mut log: AnyLog = log_of(alloc, &[commit(0), commit(1)])?;
    let (root, size, _front) = shown(&log);
    let answer = prune(&mut log, loc);
    let (now, still, front) = shown(&log);
    Ok((answer, front, now == root && still == size))
}

#[test]
fn prunes_up_to_the_floor(rt: HostRuntime) -> Result<(), LogFault> {
    let above = LogFault::AboveFloor { floor: at(1) };
    assert!(rt; pruned(rt.alloc(), 2)? == (Err(above), 0, true));
    assert!(rt; pruned(rt.alloc(), 1)? == (Ok(()), 1, true));
    Ok(())
}

/// Why one operation from `start` on isn't proved in the log of the first `count`.
fn refused<F: Family, H: Hasher>(log: &Log<F, H>, count: u64, start: u64) -> Option<LogFault> {
    let (end, from) = (at(count), at(start));
    if from.get() < end.get() {
        log.historical_proof(end, from, NonZeroU64::MIN).err()
    } else {
        None
    }
}

/// Why a log that begins at its second commit refuses two ranges, and how many nodes are pinned at the places up to 3.
fn outside(alloc: Global) -> Result<([Option<LogFault>; 2], [Option<usize>; 4]), LogFault> {
    let mut log: AnyLog = log_of(alloc, &[commit(0), commit(1)])?;
    prune(&mut log, 1)?;
    let ranges = [refused(&log, 2, 0), refused(&log, 3, 1)];
    let nodes = [
        count(&log, 0),
        count(&log, 1),
        count(&log, 2),
        count(&log, 3),
    ];
    Ok((ranges, nodes))
}

#[test]
fn refuses_ranges_outside(rt: HostRuntime) -> Result<(), LogFault> {
    let pruned = LogFault::Pruned { front: at(1) };
    let beyond = LogFault::Beyond { size: at(2) };
    let wanted = ([Some(pruned), Some(beyond)], [None, Some(1), Some(1), None]);
    assert!(rt; outside(rt.alloc())? == wanted);
    Ok(())
}

/// Why there is no log of these operations from a place on, with so many pinned nodes.
fn no_log(alloc: Global, start: u64, nodes: usize, ops: &[AnyOp]) -> Option<LogFault> {
    late::<Sha256Hasher>(alloc, start, nodes, ops).err()
}

#[test]
fn refuses_parts_that_are_no_log(rt: HostRuntime) {
    let alloc = rt.alloc();
    let ops = [commit(0)];
    assert_eq!(rt; no_log(alloc, 0, 0, &[]), Some(LogFault::NoCommit));
    let outside = LogFault::FloorOutside { floor: at(0) };
    assert_eq!(rt; no_log(alloc, 1, 1, &ops), Some(outside));
    let nodes = LogFault::Nodes { needed: 1 };
    assert_eq!(rt; no_log(alloc, 1, 0, &ops), Some(nodes));
}

/// What a log answers, and comes to, that has one commit so far below the greatest size and gets one more.
fn at_the_end(
    alloc: Global,
    below: u64,
    nodes: usize,
) -> Result<(Result<(), LogFault>, u64), LogFault> {
    let start = MAX_LEAVES.saturating_sub(below);
    let mut log: AnyLog = late(alloc, start, nodes, &[commit(start)])?;
    let answer = append(&mut log, &[commit(start)]);
    Ok((answer, shown(&log).1))
}

#[test]
fn ends_at_the_greatest_size(rt: HostRuntime) -> Result<(), LogFault> {
    let alloc = rt.alloc();
    let full = LogFault::Full {
        size: at(MAX_LEAVES),
    };
    assert_eq!(rt; at_the_end(alloc, 1, 62)?, (Err(full), MAX_LEAVES));
    assert_eq!(rt; at_the_end(alloc, 2, 61)?, (Ok(()), MAX_LEAVES));
    Ok(())
}

/// What a log has for two keys.
fn both(log: &AnyLog) -> [Option<Value>; 2] {
    [get(log, &[1; 32]), get(log, &[2; 32])]
}

/// What a log has for two keys, behind each of three batches and of two prunes.
fn values(alloc: Global) -> Result<[[Option<Value>; 2]; 5], LogFault> {
    let (a, b) = ([1; 32], [2; 32]);
    let mut log: AnyLog = fresh(alloc)?;
    let twice = [AnyOp::Update(a, [3; 32]), AnyOp::Update(a, [4; 32])];
    append(&mut log, &[twice[0], twice[1], commit(0)])?;
    let first = both(&log);
    let updated = AnyOp::Update(b, [5; 32]);
    append(&mut log, &[AnyOp::Delete(a), updated, commit(5)])?;
    let second = both(&copy(&log)?);
    prune(&mut log, 5)?;
    let third = both(&log);
    append(&mut log, &[commit(6)])?;
    let fourth = both(&log);
    prune(&mut log, 6)?;
    Ok([first, second, third, fourth, both(&log)])
}

#[test]
fn keeps_the_last_value_of_a_key(rt: HostRuntime) -> Result<(), LogFault> {
    let (four, five) = (Some([4; 32]), Some([5; 32]));
    let wanted = [
        [four, None],
        [None, five],
        [None, five],
        [None, five],
        [None, None],
    ];
    assert!(rt; values(rt.alloc())? == wanted);
    Ok(())
}

/// What a log answers to batches, one behind the other.
fn together<F: Family, H: Hasher>(log: &mut Log<F, H>, ops: &[F::Op]) -> Result<(), LogFault> {
    log.append_batches(ops)
}

/// What a log answers to a batch without its commit, and to three together, and whether it has them then.
fn batched(alloc: Global) -> Result<(Result<(), LogFault>, Result<(), LogFault>, bool), LogFault> {
    let more = [AnyOp::Delete([1; 32]), commit(1), commit(2)];
    let mut log: AnyLog = fresh(alloc)?;
    let alone = together(&mut log, &more[..1]);
    let all = together(&mut log, &more);
    let ops = [commit(0), more[0], more[1], more[2]];
    Ok((alone, all, alike(&log, &log_of(alloc, &ops)?)))
}

#[test]
fn takes_batches_together(rt: HostRuntime) -> Result<(), LogFault> {
    let none = Err(LogFault::NotABatch);
    assert!(rt; batched(rt.alloc())? == (none, Ok(()), true));
    Ok(())
}

/// Drops what is below a place: the pinned nodes from there on stay.
fn drop_below<H: Hasher>(
    log: &mut Log<AnyFamily, H>,
    loc: Location,
    place: Location,
) -> Result<(), LogFault>
    requires front { log.old.front ≤ loc }
    requires above { loc ≤ place }
    requires within { place ≤ log_size log.old }
    ensures { OnOk result (log_peaks_at H.digest any_spelling log.new place
        ≡ log_peaks_at H.digest any_spelling log.old place) }
{
    log.prune(loc)?;
    Ok(())
}

/// Whether dropping what is below a place leaves the pinned nodes of a later one; None where the log isn't so long.
fn stay<H: Hasher>(
    log: &mut Log<AnyFamily, H>,
    loc: Location,
    place: Location,
) -> Result<Option<bool>, LogFault> {
    if log.front().get() <= loc.get()
        && loc.get() <= place.get()
        && place.get() <= log.size().get()
    {
        let nodes = log.pinned_nodes_at(place)?;
        drop_below(log, loc, place)?;
        return Ok(Some(log.pinned_nodes_at(place)? == nodes));
    }
    Ok(None)
}

/// Whether the nodes pinned at the third of three commits stay where what is below the second one is dropped.
fn stay_of_three(alloc: Global) -> Result<Option<bool>, LogFault> {
    let mut log: AnyLog = log_of(alloc, &[commit(0), commit(1), commit(1)])?;
    stay(&mut log, at(1), at(2))
}

#[test]
fn keeps_its_nodes(rt: HostRuntime) -> Result<(), LogFault> {
    assert!(rt; stay_of_three(rt.alloc())? == Some(true));
    Ok(())
}

/// The leaves of these operations from place 0 on.
fn leaves_of<H: Hasher>(alloc: Global, ops: &[AnyOp]) -> Result<MerkleList<H>, LogFault>
    ensures { IfOk result (λ list.
        list
        ≡ record {
          front = 0;
          pinned = [];
          leaves = leaves_from H.digest 0 (map any_spelling ops.now);
        }) }
{
    let mut list = MerkleList::new(alloc);
    list.extend(ops)?;
    Ok(list)
}

/// What opening a log of these operations on their leaves answers.
fn opened<H: Hasher>(alloc: Global, ops: &[AnyOp]) -> Result<Log<AnyFamily, H>, LogFault> {
    let list = leaves_of(alloc, ops)?;
    Log::from_list(alloc, list, Vec::from_slice(alloc, ops)?)
}

/// Why no log is opened on the leaves of these operations.
fn not_opened(alloc: Global, ops: &[AnyOp]) -> Option<LogFault> {
    opened::<Sha256Hasher>(alloc, ops).err()
}

/// What a log that was opened on its leaves has for two keys, and whether it is the log of its operations.
fn opened_on(alloc: Global) -> Result<([Option<Value>; 2], bool), LogFault> {
    let (a, b) = ([1; 32], [2; 32]);
    let ops = [AnyOp::Update(a, b), AnyOp::Update(a, a), commit(0)];
    let log: AnyLog = opened(alloc, &ops)?;
    Ok((both(&log), alike(&log, &log_of(alloc, &ops)?)))
}

#[test]
fn opens_on_the_leaves_of_its_operations(rt: HostRuntime) -> Result<(), LogFault> {
    let alloc = rt.alloc();
    assert!(rt; opened_on(alloc)? == ([Some([1; 32]), None], true));
    let update = [AnyOp::Update([1; 32], [2; 32])];
    assert!(rt; not_opened(alloc, &update) == Some(LogFault::NoCommit));
    let outside = LogFault::FloorOutside { floor: at(1) };
    assert!(rt; not_opened(alloc, &[commit(1)]) == Some(outside));
    Ok(())
}

/// The root of the log of three operations under the toy digest, and of a fresh one.
fn toy_root(alloc: Global, value: [u8; 32]) -> Result<(Digest, Digest), LogFault> {
    let mut log: Log<AnyFamily, Toy> = fresh(alloc)?;
    let root = root_of(&log);
    append(&mut log, &[AnyOp::Update([0; 32], value), commit(0)])?;
    let grown = root_of(&log);
    Ok((root, grown))
}

/// The root of a commit, an account and a commit.
fn root_of_three(alloc: Global) -> Result<Digest, LogFault> {
    let ops = [commit(0), AnyOp::Update([0; 32], [1; 32]), commit(0)];
    let log: AnyLog = log_of(alloc, &ops)?;
    Ok(root_of(&log))
}

#[test]
fn has_the_roots_of_the_vectors(rt: HostRuntime) -> Result<(), LogFault> {
    let alloc = rt.alloc();
    let (fresh, root) = toy_root(alloc, [1; 32])?;
    assert_eq!(rt; [fresh[30], fresh[31]], [0x00, 0x05]);
    assert_eq!(rt; [root[30], root[31]], [0x00, 0x2d]);
    let mut other = [1; 32];
    other[0] = 2;
    other[1] = 0;
    assert!(rt; toy_root(alloc, other)?.1 == root);
    let want = [
        0xa2, 0x0f, 0x33, 0xd8, 0x86, 0xb6, 0xc3, 0xdd, 0xe4, 0x4d, 0x3d, 0x7b, 0x54, 0x3d, 0xaa,
        0x39, 0x3a, 0xb9, 0x8a, 0x1c, 0xe3, 0x7f, 0xc9, 0x43, 0xaf, 0x1c, 0xa2, 0x8e, 0xe4, 0xac,
        0x20, 0x39,
    ];
    assert!(rt; root_of_three(alloc)? == want);
    Ok(())
}

/// Whether the last operation of the first three is proved against their root.
fn proves_the_third<H: Hasher>(log: &Log<AnyFamily, H>, root: &Digest) -> Result<bool, LogFault> {
    let (three, two) = (at(3), at(2));
    if two.get() < three.get() {
        let (proof, ops) = log.historical_proof(three, two, NonZeroU64::MAX)?;
        if ops.len() == 1 {
            let ops = ops.as_slice();
            let verdict = check_range::<H, AnyOp>(root, &proof, three, two, ops);
            return Ok(verdict.is_ok());
        }
    }
    Ok(false)
}

/// Whether the third operation of a log is proved once more batches came and those before it were dropped.
fn proved_later(alloc: Global) -> Result<bool, LogFault> {
    let mut log: AnyLog = log_of(alloc, &[commit(0), AnyOp::Delete([7; 32]), commit(2)])?;
    let root = root_of(&log);
    append(&mut log, &[AnyOp::Update([7; 32], [8; 32]), commit(2)])?;
    prune(&mut log, 2)?;
    proves_the_third(&log, &root)
}

#[test]
fn proves_history_after_more_batches(rt: HostRuntime) -> Result<(), LogFault> {
    assert!(rt; proved_later(rt.alloc())?);
    Ok(())
}

/// What an immutable log has for a key that it was given, and its root.
fn immutable(alloc: Global) -> Result<(Option<Value>, Digest), LogFault> {
    let mut log: Log<ImmutableFamily, Sha256Hasher> = fresh(alloc)?;
    let set = ImmutableOp::Set([1; 32], [2; 32]);
    append(&mut log, &[set, ImmutableOp::Commit(Some([3; 32]), at(1))])?;
    let root = root_of(&log);
    Ok((get(&log, &[1; 32]), root))
}

/// The floor and the root of a keyless log.
fn keyless(alloc: Global) -> Result<(u64, Digest), LogFault> {
    let mut log: Log<KeylessFamily, Sha256Hasher> = fresh(alloc)?;
    append(
        &mut log,
        &[KeylessOp::Append([2; 32]), KeylessOp::Commit(None, at(2))],
    )?;
    let root = root_of(&log);
    Ok((floor(&log), root))
}

#[test]
fn spells_each_kind_of_operation(rt: HostRuntime) -> Result<(), LogFault> {
    let alloc = rt.alloc();
    let (value, immutable) = immutable(alloc)?;
    let (floor, keyless) = keyless(alloc)?;
    assert_eq!(rt; (value, floor), (Some([2; 32]), 2));
    assert!(rt; keyless != immutable);
    Ok(())
}
