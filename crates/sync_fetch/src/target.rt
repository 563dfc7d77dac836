//! Fetching what there is to sync to.
ghost use Rattle.std.specs.Prelude.{◌≡◌, ◌≤◌, [], OnOk, IsTrue};
ghost use Rattle.sync_client.specs.Counts.{CountKept, NeverNetwork};
ghost use Rattle.sync_client.specs.Owing.{Begins};
ghost use Rattle.sync_net.specs.Core.{LogData};
ghost use Rattle.sync_fetch.specs.Exchange.{OneWay};
ghost use Rattle.sync_fetch.specs.Served.{FetchesTarget, IsToldOf, RefusesCompact};
ghost use Rattle.sync_fetch.specs.Told.{TargetFetched, CompactTargetFetched};

use crate::exchange::{await_reply, send_request};
use ledger_codec::Spell;
use ledger_log::{CompactTarget, Target};
use sync_client::SyncFault;
use sync_net::{Link, Machine, Message};

/// The target that the peer serves, by a machine without pending requests, which owns the numbers. Nothing
/// proves it: a part that is fetched afterwards is proved against it.
pub fn fetch_target<Op: Spell, L: Link>(
    machine: &mut Machine<Op>,
    link: &mut L,
) -> Result<Target, SyncFault>
    requires { machine.old.pending ≡ [] }
    ensures later { OnOk result (L.faults link.old ≤ L.faults link.new) }
    ensures fetched { TargetFetched result Op.reading Op.written machine.old machine.new (L.wire link.old)
        (L.wire link.new) (L.faults link.old) (L.faults link.new) }
    ensures one_way { OneWay Op.reading }
    ensures exact { IsTrue L.exact → CountKept result (L.faults link.old) (L.faults link.new) }
    ensures steady { L.steady link.old →
        L.steady link.new × NeverNetwork result (L.faults link.old) (L.faults link.new) }
    ensures serving { (held : LogData) (h : IsToldOf Op.written held)
        → Begins held machine.old (L.service link.old)
        → FetchesTarget Op.written held h.log result machine.new (L.service link.new) }
{
    let made = machine.submit_sync_target();
    match send_request(made, link) {
        Ok(()) => {}
        Err(fault) => return Err(fault),
    }
    let message = match await_reply(machine, link) {
        Ok(message) => message,
        Err(fault) => return Err(fault),
    };
    match &message {
        Message::GetSyncTargetResponse(answer) => Ok(answer.target),
        _ => unreachable!(),
    }
}

/// The compact target that the peer serves, by a machine without pending requests, which owns the numbers.
pub fn fetch_compact_target<Op: Spell, L: Link>(
    machine: &mut Machine<Op>,
    link: &mut L,
) -> Result<CompactTarget, SyncFault>
    requires { machine.old.pending ≡ [] }
    ensures later { OnOk result (L.faults link.old ≤ L.faults link.new) }
    ensures fetched { CompactTargetFetched result Op.reading Op.written machine.old machine.new
        (L.wire link.old) (L.wire link.new) (L.faults link.old) (L.faults link.new) }
    ensures one_way { OneWay Op.reading }
    ensures exact { IsTrue L.exact → CountKept result (L.faults link.old) (L.faults link.new) }
    ensures steady { L.steady link.old →
        L.steady link.new × NeverNetwork result (L.faults link.old) (L.faults link.new) }
    ensures serving { (held : LogData)
        → Begins held machine.old (L.service link.old)
        → RefusesCompact held result (L.service link.new) }
{
    let made = machine.submit_compact_target();
    match send_request(made, link) {
        Ok(()) => {}
        Err(fault) => return Err(fault),
    }
    let message = match await_reply(machine, link) {
        Ok(message) => message,
        Err(fault) => return Err(fault),
    };
    match &message {
        Message::GetCompactTargetResponse(answer) => Ok(answer.target),
        _ => unreachable!(),
    }
}
