//! What is promised of full and compact logs that stand for each other, and of states.
ghost use Rattle.std.specs.Prelude.{◌≡◌, Some, IfOk, IsOkUnless};
ghost use Rattle.sha2.specs.Sha256.{sha256};
ghost use Rattle.ledger_compact.specs.View.{compact_of, fresh_log, with_ops};
ghost use Rattle.ledger_log.specs.Keyless.{keyless_commit, keyless_spelling};
ghost use Rattle.promise_cases.specs.Cases.{one_more};

use ledger_codec::{Digest, List};
use ledger_compact::{CompactLog, CompactSyncable, Twins, run_both};
use ledger_examples::{ExampleDatabase, agree};
use ledger_log::{CompactState, CompactTarget, KeylessFamily, KeylessOp, Log, LogFault};
use ledger_merkle::{Location, Proof, Sha256Hasher};
use std::alloc::{AllocError, Global};

type Full = Log<KeylessFamily, Sha256Hasher>;

type Compact = CompactLog<KeylessFamily, Sha256Hasher>;

/// A value, and a commit.
#[tactic(auto, unfolding(crate::specs::Cases::one_more))]
fn operations(alloc: Global) -> Result<Vec<KeylessOp>, AllocError>
    ensures { IfOk result (λ ops. ops.items ≡ one_more) }
{
    let mut ops = Vec::new(alloc);
    ops.push(KeylessOp::Append([1; 32]))?;
    ops.push(KeylessOp::Commit(None, Location::ZERO))?;
    Ok(ops)
}

/// A compact log of three operations: it is what is kept of the full log of the same three.
fn appended(alloc: Global) -> Result<Compact, LogFault>
    ensures { IfOk result (λ log. compact_of sha256 keyless_spelling
        (with_ops (fresh_log keyless_commit) one_more) ≡ Some log) }
{
    let ops = operations(alloc)?;
    let mut log = Compact::fresh(alloc)?;
    log.append_batch(&ops)?;
    Ok(log)
}

/// The log of a log's own state: it is that log, unless memory is wanting.
fn again(alloc: Global, log: &Compact) -> Result<Compact, LogFault>
    ensures taken { IsOkUnless result LogFault.OutOfMemory }
    ensures same { IfOk result (λ again. again ≡ log.now) }
{
    let state = log.state()?;
    CompactLog::from_state(alloc, &log.target(), state)
}

/// The log of a full log's state: what is kept of that log, unless memory is wanting.
fn of_full(alloc: Global, log: &Full) -> Result<Compact, LogFault>
    ensures taken { IsOkUnless result LogFault.OutOfMemory }
    ensures kept { IfOk result (λ kept. compact_of sha256 keyless_spelling log.now ≡ Some kept) }
{
    let state = CompactSyncable::state(log)?;
    CompactLog::from_state(alloc, &CompactSyncable::target(log), state)
}

/// A full and a compact log to which the same was added: both took it, unless memory is wanting, and the one is what
/// is kept of the other.
fn grown(alloc: Global) -> Result<Twins<KeylessFamily, Sha256Hasher>, LogFault>
    ensures taken { IsOkUnless result LogFault.OutOfMemory }
    ensures agree { IfOk result (λ twins. compact_of sha256 keyless_spelling twins.full
        ≡ Some twins.compact) }
{
    let mut twins = run_both::<KeylessFamily, Sha256Hasher>(alloc, &[])?;
    let _ = agree(&twins.full, &twins.compact);
    twins.full.add_operations(operations(alloc)?)?;
    twins.compact.add_operations(operations(alloc)?)?;
    Ok(twins)
}

/// The root of a commit, a value and a commit.
const THREE: Digest = [
    0x00, 0xc1, 0x0f, 0x6b, 0x36, 0x35, 0xe9, 0xdf, 0x47, 0x93, 0x34, 0xcf, 0xaa, 0x03, 0x16, 0xf8,
    0x5c, 0x5a, 0xc3, 0xbd, 0xc3, 0x3b, 0xed, 0x1e, 0xfb, 0x9a, 0xfb, 0xd9, 0xd6, 0x03, 0xc4, 0xf4,
];

/// The roots of the logs above, None where memory is wanting.
fn roots(alloc: Global) -> Option<[Digest; 4]> {
    let log = appended(alloc).ok()?;
    let again = again(alloc, &log).ok()?;
    let twins = grown(alloc).ok()?;
    let kept = of_full(alloc, &twins.full).ok()?;
    Some([log.root(), again.root(), twins.compact.root(), kept.root()])
}

#[test]
fn all_ways_lead_to_one_log(rt: HostRuntime) {
    assert_eq!(rt; roots(rt.alloc()), Some([THREE; 4]));
}

/// The leaf of a commit with floor 5 at place 0, and the root over it.
const LATE: [Digest; 2] = [
    [
        0xc5, 0xd3, 0x86, 0xae, 0xfb, 0xf5, 0xc9, 0x08, 0x04, 0x91, 0x2f, 0x3c, 0xbb, 0xd3, 0xc6,
        0x6f, 0x83, 0x45, 0xc7, 0xe8, 0x9a, 0x41, 0xdb, 0x06, 0x5c, 0xf8, 0x38, 0x46, 0xb3, 0x1e,
        0x41, 0xa1,
    ],
    [
        0x62, 0x7f, 0x34, 0x80, 0x14, 0xa0, 0x59, 0x39, 0xde, 0xd4, 0xfe, 0x0a, 0xef, 0x3b, 0x5c,
        0xd4, 0x70, 0x32, 0x3e, 0x87, 0x39, 0x3d, 0x8e, 0x7e, 0x6e, 0x58, 0x5f, 0x6f, 0xfd, 0xd8,
        0x94, 0x33,
    ],
];

/// The answer to a state of this size under a target of that size: a commit with floor 5 as the last one.
fn late_state(alloc: Global, size: Location) -> Result<Option<LogFault>, LogFault> {
    let target = CompactTarget {
        root: LATE[1],
        leaf_count: size,
    };
    let state = CompactState {
        leaf_count: size,
        pinned_nodes: List::from_vec(Vec::from_slice(alloc, &LATE[..1])?),
        last_commit_op: KeylessOp::Commit(None, Location::ZERO.plus(5)),
        last_commit_proof: Proof {
            leaves: size,
            inactive_peaks: 0,
            digests: List::new(alloc),
        },
    };
    Ok(Compact::from_state(alloc, &target, state).err())
}

#[test]
fn floors_outside_and_empty_states_are_refused(rt: HostRuntime) -> Result<(), LogFault> {
    let alloc = rt.alloc();
    let outside = LogFault::FloorOutside {
        floor: Location::ZERO.plus(5),
    };
    let one = Location::ZERO.plus(1);
    assert!(rt; late_state(alloc, one)? == Some(outside));
    assert!(rt; late_state(alloc, Location::ZERO)? == Some(LogFault::Size));
    Ok(())
}
