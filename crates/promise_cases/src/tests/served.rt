//! What is promised of a link that serves a log whole.
ghost use Rattle.std.specs.Prelude.{◌≡◌, []};
ghost use Rattle.ledger_log.specs.Keyless.{keyless_floor, keyless_spelling};
ghost use Rattle.promise_cases.specs.Served.{IsRefusal};
ghost use Rattle.sync_client.specs.Owing.{OwesNothing};
ghost use Rattle.sync_net.specs.Core.{data_of};
ghost use Rattle.sync_net.specs.Service.{service_of};
ghost use Rattle.sync_server.specs.Links.{service_told};

use ledger_log::{CompactTarget, KeylessFamily, KeylessOp, Log};
use ledger_merkle::Sha256Hasher;
use std::alloc::Global;
use sync_client::SyncFault;
use sync_fetch::fetch_compact_target;
use sync_net::{ErrorCode, Generator, Machine};
use sync_server::MemoryLink;

/// A link that serves the log, and whose calls don't fail.
pub(super) fn link_to(
    alloc: Global,
    log: Log<KeylessFamily, Sha256Hasher>,
) -> MemoryLink<KeylessFamily>
    ensures steady { result.calls.failing ≡ [] }
    ensures serves { OwesNothing (data_of keyless_spelling keyless_floor log)
        (service_of result.lost (service_told keyless_spelling keyless_floor result)) }
{
    let order = Vec::new(alloc);
    let cuts = Vec::new(alloc);
    let failing = Vec::new(alloc);
    MemoryLink::new(alloc, log, order, cuts, failing)
}

/// The compact target of a log that is served whole: it is refused, unless memory is wanting.
fn compact_target(
    alloc: Global,
    log: Log<KeylessFamily, Sha256Hasher>,
) -> Result<CompactTarget, SyncFault>
    ensures { IsRefusal result }
{
    let mut link = link_to(alloc, log);
    let mut machine: Machine<KeylessOp> = Machine::new(alloc, Generator::new());
    fetch_compact_target(&mut machine, &mut link)
}

/// The code and the text by which a fresh log's compact target is refused.
fn refusal(alloc: Global) -> Option<bool> {
    let log = Log::fresh(alloc).ok()?;
    match compact_target(alloc, log) {
        Err(SyncFault::Server { code, message }) => {
            let is_right = code == ErrorCode::InvalidRequest;
            Some(is_right && message.as_str() == "unexpected message type")
        }
        _ => None,
    }
}

#[test]
fn a_whole_log_has_no_compact_target(rt: HostRuntime) {
    assert_eq!(rt; refusal(rt.alloc()), Some(true));
}
