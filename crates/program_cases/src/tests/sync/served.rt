//! Syncs over links that serve a log: a sync ends with status 0, or for want of memory, where no count rises.
ghost use Rattle.std.specs.Prelude.{◌≡◌, ◌⊎◌, Some, map, string_bytes};
ghost use Rattle.ledger_codec.specs.Causes.{Rose};
ghost use Rattle.ledger_examples.specs.declared.names.DatabaseType.TheVariants.{Any as any_family};
ghost use Rattle.ledger_examples.specs.declared.names.SyncMode.TheVariants.{Full as full_mode};
ghost use Rattle.ledger_log.specs.Any.{any_floor, any_spelling};
ghost use Rattle.ledger_sync.specs.Forms.{form_of};
ghost use Rattle.ledger_sync.specs.declared.form.SyncForm.{SyncForm as Form};
ghost use Rattle.sync_client.specs.Owing.{OwesNothing};
ghost use Rattle.sync_dial.specs.Dialing.{dialed_link, failed_dials};
ghost use Rattle.sync_net.specs.Core.{data_of};
ghost use Rattle.sync_net.specs.Service.{service_of};
ghost use Rattle.sync_program.specs.Fresh.{fresh_any};
ghost use Rattle.sync_server.specs.Links.{service_told};

use super::{run_sync, words_of};
use ledger_codec::{MemorySink, Sink};
use ledger_examples::{AnyDatabase, ExampleDatabase};
use ledger_log::{AnyFamily, Log, LogFault};
use ledger_merkle::Sha256Hasher;
use std::alloc::Global;
use std::test::Fail;
use sync_dial::MemoryDialer;
use sync_server::MemoryLink;

/// A dialer to a link that serves the log.
fn dialer_to(
    alloc: Global,
    log: Log<AnyFamily, Sha256Hasher>,
) -> MemoryDialer<MemoryLink<AnyFamily>>
    ensures { OwesNothing (data_of any_spelling any_floor log) (service_of (dialed_link result).lost
        (service_told any_spelling any_floor (dialed_link result))) }
{
    let order = Vec::new(alloc);
    let cuts = Vec::new(alloc);
    let failing = Vec::new(alloc);
    MemoryDialer::new(MemoryLink::new(alloc, log, order, cuts, failing), false)
}

/// The status of a sync over a dialer to the log with which databases begin.
fn status_over_fresh<K: Sink>(
    alloc: Global,
    words: &[String],
    dialer: &mut MemoryDialer<MemoryLink<AnyFamily>>,
    out: &mut K,
) -> u8
    requires { OwesNothing (data_of any_spelling any_floor fresh_any)
        (service_of (dialed_link dialer.old).lost
        (service_told any_spelling any_floor (dialed_link dialer.old))) }
    ensures { (asked : Form) → form_of (map string_bytes words.now) ≡ Some asked → asked.mode ≡ full_mode
        → asked.family ≡ any_family
        → (Rose (failed_dials dialer.old) (failed_dials dialer.new) → ⊥)
        → (Rose (dialed_link dialer.old).calls.faults (dialed_link dialer.new).calls.faults → ⊥)
        → (Rose (K.faults out.old) (K.faults out.new) → ⊥)
        → (result ≡ 0) ⊎ (result ≡ 11) }
{
    run_sync(alloc, words, dialer, out).status
}

/// The lines of a log of one commit.
const ONE: &str = "synced any full\nstart 0\nsize 1\nfloor 0\nroot \
     0bed121a0d9f1dced663f73b63b29ff808c1fc28d93e96ce55d1fd847411e955\n";

#[test]
fn a_fresh_log_is_synced(rt: HostRuntime) -> Result<(), Fail> {
    let alloc = rt.alloc();
    let words = words_of(alloc, "sync x")?;
    let Ok(log) = Log::<AnyFamily, Sha256Hasher>::fresh(alloc) else {
        return Ok(());
    };
    let mut dialer = dialer_to(alloc, log);
    let mut sink = MemorySink::new(alloc, Vec::new(alloc));
    assert_eq!(rt; status_over_fresh(alloc, &words, &mut dialer, &mut sink), 0);
    assert!(rt; sink.bytes() == ONE.as_bytes());
    Ok(())
}

/// The lines of a log of 50 test operations, whose root is that of ledger_examples' vectors/families.py.
const TESTED: &str = "synced any full\nstart 0\nsize 57\nfloor 0\nroot \
     c6472c9ed466673383db9eca3510405414eb2282fe2e70c11ef3fa47d9610e5c\n";

/// The database of 50 test operations.
fn tested(alloc: Global) -> Result<AnyDatabase, LogFault> {
    let mut database = AnyDatabase::fresh(alloc)?;
    let operations = AnyDatabase::create_test_operations(alloc, 50, 12345, 0)?;
    database.add_operations(operations)?;
    Ok(database)
}

#[test]
fn test_operations_are_synced(rt: HostRuntime) -> Result<(), Fail> {
    let alloc = rt.alloc();
    let words = words_of(alloc, "sync x --batch-size 25")?;
    let Ok(database) = tested(alloc) else {
        return Ok(());
    };
    let mut dialer = dialer_to(alloc, database);
    let mut sink = MemorySink::new(alloc, Vec::new(alloc));
    let outcome = run_sync(alloc, &words, &mut dialer, &mut sink);
    assert_eq!(rt; outcome.status, 0);
    assert!(rt; sink.bytes() == TESTED.as_bytes());
    Ok(())
}
