//! What is promised of names, of a job's text and of the keys in it.
ghost use Rattle.std.specs.Prelude.{◌≡◌, IfSome, Some};
ghost use Rattle.ledger_examples.specs.declared.names.SyncMode.TheVariants as modes;
ghost use Rattle.ledger_examples.specs.declared.names.StorageKind.TheVariants as kinds;
ghost use Rattle.ledger_job.specs.Keys.{filled};
ghost use Rattle.promise_cases.specs.Texts.{OffendsFirst};

use ledger_examples::{StorageKind, SyncMode};
use ledger_job::{Job, JobFault, JobKind, Open, filled, is_name, parse_job};
use ledger_log::Key;
use serve_parts::parse_accounts;
use std::alloc::Global;

/// The mode that a name in letters of either case is read as.
fn full() -> Option<SyncMode>
    ensures { result ≡ Some modes.Full }
{
    SyncMode::parse("Full")
}

/// The kind of storage, likewise.
fn compact() -> Option<StorageKind>
    ensures { result ≡ Some kinds.Compact }
{
    StorageKind::parse("compacT")
}

/// The key that a name is filled to, which no longer text has.
fn key_of(text: &[u8]) -> Option<Key>
    ensures { IfSome result (λ key. key ≡ filled text.now) }
{
    if is_name(text) {
        Some(filled(text))
    } else {
        None
    }
}

/// The job of a text whose one line is none: that line offends, unless memory is wanting.
fn strange(alloc: Global) -> Result<Job, JobFault>
    ensures { OffendsFirst result }
{
    parse_job(alloc, JobKind::Local, b"?")
}

/// The accounts of that text, likewise.
fn strange_accounts(alloc: Global) -> Result<Vec<Open>, JobFault>
    ensures { OffendsFirst result }
{
    parse_accounts(alloc, b"?")
}

#[test]
fn names_are_read_in_either_case(rt: HostRuntime) {
    assert_eq!(rt; full(), Some(SyncMode::Full));
    assert_eq!(rt; compact(), Some(StorageKind::Compact));
}

#[test]
fn names_are_keys_and_other_lines_offend(rt: HostRuntime) {
    let alloc = rt.alloc();
    assert!(rt; key_of(b"alice").is_some_and(|key| &key[..5] == b"alice".as_slice()));
    assert!(rt; key_of(&[b'a'; 33]).is_none());
    assert!(rt; matches!(strange(alloc), Err(JobFault::BadLine(1))));
    assert!(rt; matches!(strange_accounts(alloc), Err(JobFault::BadLine(1))));
}
