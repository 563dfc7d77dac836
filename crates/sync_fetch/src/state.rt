//! Fetching a log without its operations.
ghost use Rattle.std.specs.Prelude.{◌≡◌, [], IfOk, IsTrue};
ghost use Rattle.sha2.specs.Sha256.{sha256};
ghost use Rattle.ledger_compact.specs.View.{compact_root};
ghost use Rattle.sync_client.specs.Counts.{CountKept, NeverNetwork};
ghost use Rattle.sync_fetch.specs.Exchange.{OneWay};
ghost use Rattle.sync_fetch.specs.States.{StateFetched, CompactFetched, KeptUnlessNetwork, KeptAndNoNetwork};

use crate::exchange::{await_reply, send_request};
use crate::fault::StateFault;
use ledger_codec::Spell;
use ledger_compact::CompactLog;
use ledger_log::{CompactFamily, CompactState, CompactTarget};
use ledger_merkle::Sha256Hasher;
use std::alloc::Global;
use sync_client::SyncFault;
use sync_net::{Link, Machine, Message};

/// The compact log with this target, of the state that the peer serves for it, by a machine without pending
/// requests, which owns the numbers. A peer whose log has gone on refuses with `StaleTarget`.
pub fn fetch_compact<F: CompactFamily, L: Link>(
    alloc: Global,
    target: &CompactTarget,
    machine: &mut Machine<F::Op>,
    link: &mut L,
) -> Result<CompactLog<F, Sha256Hasher>, StateFault>
where
    F::Op: Spell,
    requires { machine.old.pending ≡ [] }
    ensures fetched { CompactFetched sha256 F.Op.spelling F.floor_of target.now result F.Op.reading
        F.Op.written machine.old machine.new (L.wire link.old) (L.wire link.new) (L.faults link.old)
        (L.faults link.new) }
    ensures root { IfOk result (λ log. compact_root sha256 log ≡ target.now.root) }
    ensures size { IfOk result (λ log. log.size ≡ target.now.leaf_count) }
    ensures one_way { OneWay F.Op.reading }
    ensures exact { IsTrue L.exact → KeptUnlessNetwork result (L.faults link.old) (L.faults link.new) }
    ensures steady { L.steady link.old →
        L.steady link.new × KeptAndNoNetwork result (L.faults link.old) (L.faults link.new) }
{
    let state = match fetch_state(target, machine, link) {
        Ok(state) => state,
        Err(fault) => return Err(StateFault::Fetch(fault)),
    };
    match CompactLog::from_state(alloc, target, state) {
        Ok(log) => Ok(log),
        Err(fault) => Err(StateFault::WrongState(fault)),
    }
}

/// The state that the peer serves for a compact target.
fn fetch_state<Op: Spell, L: Link>(
    target: &CompactTarget,
    machine: &mut Machine<Op>,
    link: &mut L,
) -> Result<CompactState<Op>, SyncFault>
    requires { machine.old.pending ≡ [] }
    ensures fetched { StateFetched target.now result Op.reading Op.written machine.old machine.new
        (L.wire link.old) (L.wire link.new) (L.faults link.old) (L.faults link.new) }
    ensures one_way { OneWay Op.reading }
    ensures exact { IsTrue L.exact → CountKept result (L.faults link.old) (L.faults link.new) }
    ensures steady { L.steady link.old →
        L.steady link.new × NeverNetwork result (L.faults link.old) (L.faults link.new) }
{
    let made = machine.submit_compact_state(*target);
    match send_request(made, link) {
        Ok(()) => {}
        Err(fault) => return Err(fault),
    }
    let message = match await_reply(machine, link) {
        Ok(message) => message,
        Err(fault) => return Err(fault),
    };
    match message {
        Message::GetCompactStateResponse(answer) => Ok(answer.state),
        _ => unreachable!(),
    }
}
