//! Worked examples. The expected roots are those of ledger_examples' vectors/families.py.
ghost use Rattle.std.specs.Prelude.{◌≡◌, ◌≤◌, ◌^◌};

use ledger_codec::{Digest, List};
use ledger_compact::{CompactLog, CompactSyncable, run_both};
use ledger_log::{
    CompactState, ImmutableFamily, ImmutableOp, KeylessFamily, KeylessOp, Log, LogFault,
};
use ledger_merkle::{Location, Sha256Hasher};
use std::alloc::Global;

type Compact = CompactLog<KeylessFamily, Sha256Hasher>;

const IMMUTABLE: Digest = [
    0xe0, 0x5f, 0xa5, 0x3f, 0x1e, 0x4f, 0x87, 0x39, 0x97, 0xcf, 0x34, 0x73, 0x9f, 0xc2, 0x8e, 0xa1,
    0x31, 0xa0, 0xfc, 0xa3, 0xd5, 0x05, 0xf8, 0x5b, 0x47, 0x43, 0x45, 0xfd, 0x5c, 0x36, 0xf0, 0x6c,
];

const KEYLESS: Digest = [
    0x43, 0x7c, 0x55, 0xc0, 0x1e, 0xbc, 0xb7, 0x43, 0xbb, 0x9a, 0xc7, 0x87, 0x02, 0xd2, 0x42, 0xef,
    0x1a, 0x82, 0x7b, 0xfb, 0x00, 0x40, 0xfc, 0x68, 0x8f, 0xe0, 0x65, 0x80, 0x54, 0x6e, 0x6f, 0x91,
];

fn at(value: u64) -> Location
    requires { value ≤ 2 ^ 62 }
    ensures { result ≡ value }
{
    Location::ZERO.plus(value)
}

/// A batch.
fn batch(alloc: Global, ops: &[ImmutableOp]) -> Result<List<ImmutableOp>, LogFault> {
    Ok(List::from_vec(Vec::from_slice(alloc, ops)?))
}

#[test]
fn full_and_compact_logs_agree(rt: HostRuntime) -> Result<(), LogFault> {
    let alloc = rt.alloc();
    let empty = List::new(alloc);
    let set = ImmutableOp::Set([1; 32], [2; 32]);
    let taken = batch(alloc, &[set, ImmutableOp::Commit(None, at(1))])?;
    let low = batch(alloc, &[ImmutableOp::Commit(None, at(0))])?;
    let twins = run_both::<ImmutableFamily, Sha256Hasher>(alloc, &[empty, taken, low])?;
    assert_eq!(rt; twins.full.root(), IMMUTABLE);
    assert_eq!(rt; twins.compact.root(), IMMUTABLE);
    assert_eq!(rt; twins.compact.size().get(), 3);
    let regressed = LogFault::FloorRegressed {
        floor: at(0),
        current: at(1),
    };
    let answers = [Some(LogFault::NotABatch), None, Some(regressed)];
    assert_eq!(rt; twins.full_answers.as_slice(), answers.as_slice());
    assert_eq!(rt; twins.compact_answers.as_slice(), answers.as_slice());
    Ok(())
}

/// A keyless log of three operations.
fn three(alloc: Global) -> Result<Compact, LogFault> {
    let mut log = Compact::fresh(alloc)?;
    log.append_batch(&[KeylessOp::Append([1; 32]), KeylessOp::Commit(None, at(1))])?;
    Ok(log)
}

/// The root of the log that is made of its state, and of the full log's.
fn roots_of_states(alloc: Global) -> Result<(Digest, Digest), LogFault> {
    let log = three(alloc)?;
    let again = Compact::from_state(alloc, &log.target(), log.state()?)?;
    let mut full = Log::<KeylessFamily, Sha256Hasher>::fresh(alloc)?;
    full.append_batch(&[KeylessOp::Append([1; 32]), KeylessOp::Commit(None, at(1))])?;
    full.prune(at(1))?;
    let other = Compact::from_state(alloc, &full.target(), full.state()?)?;
    Ok((again.copy()?.root(), other.root()))
}

#[test]
fn states_are_taken_again(rt: HostRuntime) -> Result<(), LogFault> {
    let (again, other) = roots_of_states(rt.alloc())?;
    assert_eq!(rt; again, KEYLESS);
    assert_eq!(rt; other, KEYLESS);
    Ok(())
}

/// A change of a state or of its target.
#[derive(Clone, Copy)]
enum Change {
    Size,
    NoNodes,
    Node,
    NoCommit,
    Commit,
}

/// The state with this change.
fn changed(
    alloc: Global,
    change: Change,
    state: CompactState<KeylessOp>,
) -> Result<CompactState<KeylessOp>, LogFault> {
    let mut state = state;
    match change {
        Change::Size => state.leaf_count = at(4),
        Change::NoNodes => state.pinned_nodes = List::new(alloc),
        Change::Node => {
            let nodes = Vec::from_elem(alloc, [0; 32], 2)?;
            state.pinned_nodes = List::from_vec(nodes);
        }
        Change::NoCommit => state.last_commit_op = KeylessOp::Append([1; 32]),
        Change::Commit => state.last_commit_op = KeylessOp::Commit(None, at(0)),
    }
    Ok(state)
}

/// What is answered to the changed state.
fn answer(alloc: Global, change: Change) -> Result<Option<LogFault>, LogFault> {
    let log = three(alloc)?;
    let state = changed(alloc, change, log.state()?)?;
    Ok(Compact::from_state(alloc, &log.target(), state).err())
}

#[test]
fn states_that_are_none_are_refused(rt: HostRuntime) -> Result<(), LogFault> {
    let alloc = rt.alloc();
    assert_eq!(rt; answer(alloc, Change::Size)?, Some(LogFault::Size));
    let needed = Some(LogFault::Nodes { needed: 2 });
    assert_eq!(rt; answer(alloc, Change::NoNodes)?, needed);
    let other = answer(alloc, Change::Node)?;
    assert!(rt; matches!(other, Some(LogFault::WrongRoot { .. })));
    let no_commit = answer(alloc, Change::NoCommit)?;
    assert_eq!(rt; no_commit, Some(LogFault::NoCommit));
    let unproved = answer(alloc, Change::Commit)?;
    assert_eq!(rt; unproved, Some(LogFault::BadCommitProof));
    Ok(())
}
