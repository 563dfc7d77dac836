//! Worked examples. The expected roots are those of ledger_examples' vectors/families.py.
ghost use Rattle.std.specs.Prelude.{◌≡◌, ◌≤◌, ◌^◌};

use ledger_activity::CurrentFamily;
use ledger_codec::Digest;
use ledger_compact::{CompactLog, run_both};
use ledger_examples::{
    DatabaseType, ExampleDatabase, ExampleFamily, ImmutableDatabase, StorageKind, SyncMode,
    Syncable, agree, crate_version,
};
use ledger_log::{
    AnyFamily, AnyOp, Family, ImmutableFamily, ImmutableOp, KeylessFamily, Log, LogFault,
};
use ledger_merkle::{Location, Sha256Hasher, check_range};
use std::alloc::Global;
use std::num::NonZeroU64;

type Full<F> = Log<F, Sha256Hasher>;

type Compact<F> = CompactLog<F, Sha256Hasher>;

const ANY: Digest = [
    0xc6, 0x47, 0x2c, 0x9e, 0xd4, 0x66, 0x67, 0x33, 0x83, 0xdb, 0x9e, 0xca, 0x35, 0x10, 0x40, 0x54,
    0x14, 0xeb, 0x22, 0x82, 0xfe, 0x2e, 0x70, 0xc1, 0x1e, 0xf3, 0xfa, 0x47, 0xd9, 0x61, 0x0e, 0x5c,
];

const IMMUTABLE_FIRST: Digest = [
    0x17, 0x0b, 0x08, 0x44, 0x65, 0x65, 0xc9, 0x5a, 0x7d, 0x70, 0x05, 0xcf, 0x03, 0xa9, 0x50, 0x7c,
    0x0d, 0xaf, 0x95, 0xc8, 0xf7, 0x6e, 0x1d, 0x9d, 0x53, 0xb0, 0x00, 0x09, 0xa4, 0xa2, 0xd1, 0xbe,
];

const IMMUTABLE: Digest = [
    0xad, 0xd8, 0xd8, 0xa6, 0x66, 0xf7, 0x24, 0xb2, 0x45, 0xe0, 0xf1, 0x21, 0xd2, 0x9a, 0x9e, 0x1d,
    0xec, 0xf7, 0x9b, 0x9f, 0x69, 0x8c, 0x1c, 0x6f, 0x99, 0xa3, 0xd6, 0xdc, 0x22, 0xcd, 0x8e, 0x1a,
];

const KEYLESS_FIRST: Digest = [
    0xed, 0x0b, 0x3d, 0xa4, 0xba, 0xc4, 0xff, 0x53, 0xda, 0x3f, 0xec, 0xfb, 0x47, 0x02, 0x51, 0x3a,
    0x53, 0x65, 0x40, 0x7c, 0x0e, 0x7a, 0x90, 0x5f, 0xf0, 0x3e, 0x65, 0x47, 0xea, 0x8d, 0x58, 0x50,
];

const KEYLESS: Digest = [
    0xa3, 0x1c, 0x52, 0x0d, 0xe3, 0xc8, 0x8f, 0x74, 0x09, 0xcb, 0xe8, 0x56, 0xab, 0x1e, 0xbf, 0xed,
    0x50, 0x20, 0xfe, 0x2b, 0xad, 0xe9, 0x4e, 0x16, 0xd0, 0x11, 0xad, 0x15, 0xce, 0x91, 0x43, 0x4f,
];

const LARGE: Digest = [
    0x4f, 0x21, 0xd1, 0x43, 0x2f, 0xd6, 0x52, 0x61, 0x0b, 0x38, 0xde, 0xcd, 0x2e, 0xd8, 0x3e, 0xe4,
    0xc7, 0x86, 0x31, 0x94, 0x0c, 0x8a, 0x70, 0x83, 0x1b, 0x21, 0xb4, 0xb2, 0xaf, 0xa6, 0x53, 0xab,
];

/// A size, a shown floor and a root.
type Told = (u64, u64, Digest);

/// Adds the test operations of this count and seed from the shown floor on.
fn add_tests<F: ExampleFamily, D: ExampleDatabase<F>>(
    alloc: Global,
    db: &mut D,
    count: usize,
    seed: u64,
) -> Result<Told, LogFault>
    requires { count ≤ 2 ^ 32 }
{
    let start = db.current_floor().min(1 << 32);
    let ops = D::create_test_operations(alloc, count, seed, start)?;
    db.add_operations(ops)?;
    Ok((db.count().get(), db.current_floor(), db.root()))
}

/// What a fresh database tells after two rounds of test operations.
fn two_rounds<F: ExampleFamily, D: ExampleDatabase<F>>(
    alloc: Global,
    db: D,
) -> Result<(Told, Told), LogFault> {
    let mut db = db;
    let first = add_tests::<F, D>(alloc, &mut db, 12, 42)?;
    let second = add_tests::<F, D>(alloc, &mut db, 15, 99)?;
    Ok((first, second))
}

#[test]
fn full_and_compact_immutable_agree(rt: HostRuntime) -> Result<(), LogFault> {
    let alloc = rt.alloc();
    let want = ((15, 0, IMMUTABLE_FIRST), (32, 0, IMMUTABLE));
    let full = two_rounds::<ImmutableFamily, _>(alloc, Full::<ImmutableFamily>::fresh(alloc)?)?;
    assert!(rt; full == want);
    let compact = two_rounds::<ImmutableFamily, _>(
        alloc,
        Compact::<ImmutableFamily>::fresh(alloc)?,
    )?;
    assert!(rt; compact == want);
    Ok(())
}

#[test]
fn full_and_compact_keyless_agree(rt: HostRuntime) -> Result<(), LogFault> {
    let alloc = rt.alloc();
    let want = ((15, 14, KEYLESS_FIRST), (32, 31, KEYLESS));
    let full = two_rounds::<KeylessFamily, _>(alloc, Full::<KeylessFamily>::fresh(alloc)?)?;
    assert!(rt; full == want);
    let compact = two_rounds::<KeylessFamily, _>(alloc, Compact::<KeylessFamily>::fresh(alloc)?)?;
    assert!(rt; compact == want);
    Ok(())
}

/// How many operations there are, how many of the last two are commits, and the last one's floor.
fn ends(alloc: Global, count: usize) -> Result<(usize, usize, Option<u64>), LogFault>
    requires { count ≤ 2 ^ 32 }
{
    let ops = Full::<AnyFamily>::create_test_operations(alloc, count, 12345, 0)?;
    let mut commits = 0;
    let mut floor = None;
    for op in ops.as_slice() {
        match op {
            AnyOp::CommitFloor(None, at) => {
                commits = if commits == 1 { 2 } else { 1 };
                floor = Some(at.get());
            }
            _ => commits = 0,
        }
    }
    Ok((ops.len(), commits, floor))
}

#[test]
fn test_operations_end_with_commits(rt: HostRuntime) -> Result<(), LogFault> {
    let alloc = rt.alloc();
    assert!(rt; ends(alloc, 5)? == (6, 1, Some(5)));
    assert!(rt; ends(alloc, 20)? == (23, 2, Some(20)));
    assert!(rt; ends(alloc, 50)? == (56, 2, Some(50)));
    Ok(())
}

#[test]
fn floors_of_any_and_current_stay(rt: HostRuntime) -> Result<(), LogFault> {
    let alloc = rt.alloc();
    let mut any = Full::<AnyFamily>::fresh(alloc)?;
    let told = add_tests::<AnyFamily, _>(alloc, &mut any, 50, 12345)?;
    assert!(rt; told == (57, 0, ANY));
    assert_eq!(rt; any.floor().get(), 0);
    let mut current = Full::<CurrentFamily>::fresh(alloc)?;
    let told = add_tests::<CurrentFamily, _>(alloc, &mut current, 50, 12345)?;
    assert!(rt; told == (57, 0, ANY));
    Ok(())
}

/// The size after an addition of these operations to a fresh log.
fn size_with(alloc: Global, ops: &[AnyOp]) -> Result<u64, LogFault> {
    let mut log = Full::<AnyFamily>::fresh(alloc)?;
    log.add_operations(Vec::from_slice(alloc, ops)?)?;
    Ok(log.size().get())
}

#[test]
fn what_ends_with_no_commit_adds_nothing(rt: HostRuntime) -> Result<(), LogFault> {
    let alloc = rt.alloc();
    assert_eq!(rt; size_with(alloc, &[])?, 1);
    assert_eq!(rt; size_with(alloc, &[AnyOp::Update([1; 32], [2; 32])])?, 1);
    let delete = AnyOp::Delete([1; 32]);
    let commit = AnyOp::CommitFloor(None, Location::ZERO);
    assert_eq!(rt; size_with(alloc, &[delete, commit, commit])?, 4);
    Ok(())
}

/// The fault of an addition whose second batch is refused, and the size then.
fn half(alloc: Global) -> Result<(Option<LogFault>, u64), LogFault> {
    let mut log = Full::<ImmutableFamily>::fresh(alloc)?;
    let low = ImmutableOp::Commit(None, Location::ZERO.plus(1));
    let high = ImmutableOp::Commit(None, Location::ZERO.plus(9));
    let fault = log.add_operations(Vec::from_slice(alloc, &[low, high])?);
    Ok((fault.err(), log.size().get()))
}

#[test]
fn no_batch_is_half_added(rt: HostRuntime) -> Result<(), LogFault> {
    let beyond = LogFault::FloorBeyond {
        floor: Location::ZERO.plus(9),
        location: Location::ZERO.plus(2),
    };
    assert!(rt; half(rt.alloc())? == (Some(beyond), 1));
    Ok(())
}

/// The size, the number of nodes and that of digests of the state of a compact keyless log, and the root of
/// the log that is made of it.
fn state_sizes(alloc: Global) -> Result<(u64, usize, usize, Digest), LogFault> {
    let mut log = Compact::<KeylessFamily>::fresh(alloc)?;
    let _ = add_tests::<KeylessFamily, _>(alloc, &mut log, 12, 42)?;
    let state = log.state()?;
    let size = state.leaf_count.get();
    let nodes = state.pinned_nodes.as_slice().len();
    let digests = state.last_commit_proof.digests.as_slice().len();
    let again = Compact::<KeylessFamily>::from_state(alloc, &log.target(), state)?;
    Ok((size, nodes, digests, again.root()))
}

#[test]
fn a_state_has_peaks_and_a_proof(rt: HostRuntime) -> Result<(), LogFault> {
    assert!(rt; state_sizes(rt.alloc())? == (15, 4, 3, KEYLESS_FIRST));
    Ok(())
}

/// Sizes that a server is told of a database through its trait: all, the boundary, nodes, and what lies above it.
fn served<F: Family, D: Syncable<F, Sha256Hasher>>(
    db: &D,
) -> Result<(u64, u64, usize, usize), LogFault> {
    let size = db.size();
    let boundary = db.sync_boundary();
    let nodes = db.pinned_nodes_at(size)?.len();
    if size.get() <= boundary.get() {
        return Ok((size.get(), boundary.get(), nodes, 0));
    }
    let (_, ops) = db.historical_proof(size, boundary, NonZeroU64::MAX)?;
    Ok((size.get(), boundary.get(), nodes, ops.len()))
}

/// What is served of a database of test operations.
fn served_tests(alloc: Global) -> Result<(u64, u64, usize, usize), LogFault> {
    let mut db = ImmutableDatabase::fresh(alloc)?;
    let _ = add_tests::<ImmutableFamily, _>(alloc, &mut db, 12, 42)?;
    served::<ImmutableFamily, ImmutableDatabase>(&db)
}

/// Whether a full and a compact database agree.
fn twins_agree(alloc: Global) -> Result<bool, LogFault> {
    let twins = run_both::<KeylessFamily, Sha256Hasher>(alloc, &[])?;
    Ok(agree(&twins.full, &twins.compact))
}

#[test]
fn databases_are_served_and_agree(rt: HostRuntime) -> Result<(), LogFault> {
    let alloc = rt.alloc();
    assert!(rt; served_tests(alloc)? == (15, 0, 4, 15));
    assert!(rt; twins_agree(alloc)?);
    Ok(())
}

/// Whether the operation at this place is proved under the log's root.
fn is_proved(log: &Full<ImmutableFamily>, at: Location) -> Result<bool, LogFault> {
    let size = log.size();
    if size.get() <= at.get() {
        return Ok(false);
    }
    let (proof, ops) = log.historical_proof(size, at, NonZeroU64::MIN)?;
    if ops.len() != 1 {
        return Ok(false);
    }
    let root = log.root();
    Ok(check_range::<Sha256Hasher, ImmutableOp>(&root, &proof, size, at, ops.as_slice()).is_ok())
}

/// How many places each 97th from here on are; None where one of them isn't proved.
fn count_proved(log: &Full<ImmutableFamily>, from: u64) -> Result<Option<u64>, LogFault>
    requires { from ≤ 2 ^ 32 }
{
    let count = log
        .size()
        .get()
        .saturating_sub(from)
        .div_ceil(97)
        .min(1 << 32);
    for step in 0..count {
        if !is_proved(log, Location::ZERO.plus(from + 97 * step))? {
            return Ok(None);
        }
    }
    Ok(Some(count))
}

/// A log of 10,000 test operations twice.
fn large(alloc: Global) -> Result<Full<ImmutableFamily>, LogFault> {
    let mut log = Full::<ImmutableFamily>::fresh(alloc)?;
    log.add_operations(Full::<ImmutableFamily>::create_test_operations(alloc, 10_000, 1, 0)?)?;
    log.add_operations(Full::<ImmutableFamily>::create_test_operations(alloc, 10_000, 2, 10_000)?)?;
    Ok(log)
}

#[test]
fn proves_a_large_log_pruned_and_whole(rt: HostRuntime) -> Result<(), LogFault> {
    let mut log = large(rt.alloc())?;
    assert_eq!(rt; log.size().get(), 22_003);
    assert_eq!(rt; log.root(), LARGE);
    assert_eq!(rt; count_proved(&log, 0)?, Some(227));
    log.prune(log.floor())?;
    assert_eq!(rt; log.front().get(), 10_000);
    assert_eq!(rt; count_proved(&log, 10_000)?, Some(124));
    assert_eq!(rt; log.root(), LARGE);
    Ok(())
}

#[test]
fn names_are_read_in_either_case(rt: HostRuntime) {
    assert_eq!(rt; DatabaseType::parse("KeyLess"), Some(DatabaseType::Keyless));
    assert_eq!(rt; DatabaseType::parse("x"), None);
    assert_eq!(rt; SyncMode::parse("COMPACT"), Some(SyncMode::Compact));
    assert_eq!(rt; StorageKind::parse("full "), None);
    assert!(rt; DatabaseType::Immutable.supports_client_mode(SyncMode::Compact));
    assert!(rt; !DatabaseType::Current.supports_compact_storage());
    assert_eq!(rt; Compact::<KeylessFamily>::name(), "compact keyless");
    assert_eq!(rt; Full::<CurrentFamily>::name(), "current");
    assert_eq!(rt; Full::<AnyFamily>::create_config().write_buffer, 4096);
    assert_eq!(rt;
        Compact::<ImmutableFamily>::create_config().write_buffer,
        1024
    );
    assert_eq!(rt; crate_version(), "2026.7.1");
}
