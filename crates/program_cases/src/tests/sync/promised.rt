//! What a sync promises without words, and what is brought and fetched over a link that serves the log with which
//! databases begin, and whose calls don't fail.
ghost use Rattle.std.specs.Prelude.{◌≡◌, [], IfErr, IfOk, IfSome, IsOkUnless};
ghost use Rattle.ledger_log.specs.Any.{any_floor, any_spelling};
ghost use Rattle.ledger_sync.specs.Brought.{MayFail};
ghost use Rattle.sync_client.specs.Owing.{OwesNothing};
ghost use Rattle.sync_client.specs.declared.fault.SyncFault.TheVariants.{OutOfMemory as memory_wanting};
ghost use Rattle.sync_fetch.specs.declared.fault.StateFault.TheVariants.{Fetch};
ghost use Rattle.sync_net.specs.Core.{data_of};
ghost use Rattle.sync_net.specs.Service.{service_of};
ghost use Rattle.sync_program.specs.Fresh.{fresh_any};
ghost use Rattle.sync_server.specs.Links.{service_told};

use super::run_sync;
use ledger_codec::MemorySink;
use ledger_examples::{DatabaseType, SyncMode};
use ledger_log::{AnyFamily, Log};
use ledger_merkle::Sha256Hasher;
use ledger_sync::{SyncForm, Synced, bring, fetch_log};
use std::alloc::Global;
use sync_client::{Limits, SyncFault};
use sync_dial::MemoryDialer;
use sync_fetch::StateFault;
use sync_net::{Generator, Machine};
use sync_server::{MemoryLink, TapeLink};

/// The status of a sync without words, which dials nobody.
fn wordless(
    alloc: Global,
    words: &[String],
    dialer: &mut MemoryDialer<TapeLink>,
    out: &mut MemorySink,
) -> u8
    requires { words.now ≡ [] }
    ensures usage { result ≡ 2 }
    ensures undialed { dialer.new ≡ dialer.old }
{
    run_sync(alloc, words, dialer, out).status
}

/// The status and the text of a sync without words.
fn without_words(alloc: Global) -> (u8, MemorySink) {
    let tape = TapeLink::new(alloc, Vec::new(alloc), Vec::new(alloc), Vec::new(alloc));
    let mut sink = MemorySink::new(alloc, Vec::new(alloc));
    let status = wordless(alloc, &[], &mut MemoryDialer::new(tape, false), &mut sink);
    (status, sink)
}

#[test]
fn nobody_is_dialed_without_words(rt: HostRuntime) {
    let (status, sink) = without_words(rt.alloc());
    assert_eq!(rt; status, 2);
    assert!(rt; sink.bytes() == b"error usage\n".as_slice());
}

/// A link that serves the log, None where memory is wanting.
fn link_to_fresh(alloc: Global) -> Option<MemoryLink<AnyFamily>>
    ensures steady { IfSome result (λ link. link.calls.failing ≡ []) }
    ensures serves { IfSome result (λ link. OwesNothing (data_of any_spelling any_floor fresh_any)
        (service_of link.lost (service_told any_spelling any_floor link))) }
{
    let Ok(log) = Log::<AnyFamily, Sha256Hasher>::fresh(alloc) else {
        return None;
    };
    let order = Vec::new(alloc);
    let cuts = Vec::new(alloc);
    let failing = Vec::new(alloc);
    Some(MemoryLink::new(alloc, log, order, cuts, failing))
}

/// What is brought over the link with these limits: a log, or a call of the link failed, or memory was wanting.
fn brought(alloc: Global, limits: Limits) -> Result<Synced, StateFault>
    ensures { IfErr result MayFail }
{
    let Some(mut link) = link_to_fresh(alloc) else {
        return Err(StateFault::Fetch(SyncFault::OutOfMemory));
    };
    let form = SyncForm {
        mode: SyncMode::Full,
        family: DatabaseType::Any,
        limits,
    };
    match bring(alloc, &form, &mut link) {
        Ok(synced) => Ok(synced),
        Err(fault) => Err(fault),
    }
}

/// The log that is fetched over the link: the one that is served, unless memory is wanting.
fn fetched(alloc: Global, limits: &Limits) -> Result<Log<AnyFamily, Sha256Hasher>, StateFault>
    ensures own { IfOk result (λ log. log ≡ fresh_any) }
    ensures may { IsOkUnless result (Fetch memory_wanting) }
{
    let Some(mut link) = link_to_fresh(alloc) else {
        return Err(StateFault::Fetch(SyncFault::OutOfMemory));
    };
    let _few = limits.outstanding();
    let mut machine = Machine::new(alloc, Generator::new());
    match fetch_log::<AnyFamily, MemoryLink<AnyFamily>>(alloc, limits, &mut machine, &mut link) {
        Ok(log) => Ok(log),
        Err(fault) => Err(fault),
    }
}

/// The sizes of what is brought and fetched.
fn sizes(alloc: Global) -> Option<(u64, u64)> {
    let limits = Limits::new(50, 1)?;
    let brought = brought(alloc, limits).ok()?;
    let log = fetched(alloc, &limits).ok()?;
    Some((brought.size.get(), log.size().get()))
}

#[test]
fn the_log_that_is_served_comes(rt: HostRuntime) {
    assert_eq!(rt; sizes(rt.alloc()), Some((1, 1)));
}
