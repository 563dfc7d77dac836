//! Logs of test operations. The roots are those of vectors/logs.py.
use ledger_activity::CurrentFamily;
use ledger_codec::Digest;
use ledger_log::{AnyFamily, ImmutableFamily, KeylessFamily};
use ledger_merkle::Location;
use serve_parts::{compact_test_log, test_batch, test_log};
use std::alloc::Global;
use std::test::Fail;

const ANY: Digest = [
    0xd6, 0xad, 0xba, 0x68, 0x97, 0xc1, 0x41, 0x72, 0xaf, 0x30, 0x28, 0x27, 0x98, 0xe6, 0x1a, 0x0b,
    0xac, 0x04, 0xeb, 0x14, 0x82, 0x33, 0x68, 0x5f, 0xe3, 0xfd, 0x8c, 0xb3, 0xa2, 0x8c, 0xaa, 0x5d,
];

const GROWN: Digest = [
    0xf1, 0xab, 0x28, 0xb4, 0x1f, 0xcd, 0x66, 0xb4, 0x00, 0x9e, 0x6c, 0xaa, 0x28, 0x65, 0x9e, 0x7c,
    0x67, 0xa3, 0x36, 0xe7, 0x92, 0x8b, 0x95, 0x4b, 0xbc, 0x65, 0xda, 0x9e, 0x5d, 0xa7, 0xbf, 0x2a,
];

const IMMUTABLE: Digest = [
    0x17, 0x0b, 0x08, 0x44, 0x65, 0x65, 0xc9, 0x5a, 0x7d, 0x70, 0x05, 0xcf, 0x03, 0xa9, 0x50, 0x7c,
    0x0d, 0xaf, 0x95, 0xc8, 0xf7, 0x6e, 0x1d, 0x9d, 0x53, 0xb0, 0x00, 0x09, 0xa4, 0xa2, 0xd1, 0xbe,
];

const KEYLESS: Digest = [
    0xed, 0x0b, 0x3d, 0xa4, 0xba, 0xc4, 0xff, 0x53, 0xda, 0x3f, 0xec, 0xfb, 0x47, 0x02, 0x51, 0x3a,
    0x53, 0x65, 0x40, 0x7c, 0x0e, 0x7a, 0x90, 0x5f, 0xf0, 0x3e, 0x65, 0x47, 0xea, 0x8d, 0x58, 0x50,
];

#[test]
fn logs_have_their_roots(rt: HostRuntime) -> Result<(), Fail> {
    let alloc = rt.alloc();
    let any = test_log::<AnyFamily>(alloc, 5, 0).map_err(|_| "memory")?;
    assert!(rt; any.root() == ANY && any.size().get() == 7);
    let current = test_log::<CurrentFamily>(alloc, 5, 0).map_err(|_| "memory")?;
    assert!(rt; current.root() == ANY);
    let immutable = test_log::<ImmutableFamily>(alloc, 12, 42).map_err(|_| "memory")?;
    assert!(rt; immutable.root() == IMMUTABLE);
    let keyless = test_log::<KeylessFamily>(alloc, 12, 42).map_err(|_| "memory")?;
    assert!(rt; keyless.root() == KEYLESS);
    Ok(())
}

#[test]
fn compact_logs_have_them_too(rt: HostRuntime) -> Result<(), Fail> {
    let alloc = rt.alloc();
    let immutable = compact_test_log::<ImmutableFamily>(alloc, 12, 42).map_err(|_| "memory")?;
    assert!(rt; immutable.root() == IMMUTABLE);
    let keyless = compact_test_log::<KeylessFamily>(alloc, 12, 42).map_err(|_| "memory")?;
    assert!(rt; keyless.root() == KEYLESS);
    Ok(())
}

#[test]
fn a_batch_is_appended(rt: HostRuntime) -> Result<(), Fail> {
    let alloc = rt.alloc();
    let mut log = test_log::<AnyFamily>(alloc, 5, 0).map_err(|_| "memory")?;
    let batch = test_batch::<AnyFamily>(alloc, 3, 1, Location::ZERO).map_err(|_| "memory")?;
    assert!(rt; log.append_batch(&batch).is_ok());
    assert!(rt; log.root() == GROWN && log.size().get() == 11);
    Ok(())
}
