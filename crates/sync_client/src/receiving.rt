//! Bytes that come over a link, fed to the machine.
ghost use Rattle.std.specs.Prelude.{◌≡◌, ◌<◌, ◌≤◌, length, IsTrue, false};
ghost use Rattle.sync_client.specs.Counts.{CountKept, NeverNetwork};
ghost use Rattle.sync_client.specs.Owing.{Gives};
ghost use Rattle.sync_client.specs.Turns.{Receives, TakesIn};

use crate::fault::SyncFault;
use ledger_codec::Spell;
use sync_net::{Link, LinkError, Machine, MachineFault};

/// Feeds bytes that came to an open machine.
fn take_in<Op: Spell>(machine: &mut Machine<Op>, piece: &[u8]) -> Result<(), SyncFault>
    requires live { machine.old.closed ≡ false }
    ensures takes { TakesIn result machine.old machine.new piece.now }
{
    match machine.feed(piece) {
        Ok(()) => Ok(()),
        Err(MachineFault::OutOfMemory) => Err(SyncFault::OutOfMemory),
        Err(_) => unreachable!(),
    }
}

/// Receives the next bytes. Their end closes the machine. Whoever waits for an answer calls it: a session, and the
/// fetch of one target.
pub fn receive<Op: Spell, L: Link>(
    machine: &mut Machine<Op>,
    link: &mut L,
    buffer: &mut [u8],
) -> Result<(), SyncFault>
    requires room { 0 < length buffer.old }
    requires most { length buffer.old ≤ 4096 }
    requires live { machine.old.closed ≡ false }
    ensures exact { IsTrue L.exact → CountKept result (L.faults link.old) (L.faults link.new) }
    ensures steady { L.steady link.old →
        L.steady link.new × NeverNetwork result (L.faults link.old) (L.faults link.new) }
    ensures receives { Receives result machine.old machine.new
        (L.wire link.old) (L.wire link.new) (L.faults link.old) (L.faults link.new) }
    ensures gives { Gives result machine.old machine.new (L.service link.old) (L.service link.new) }
{
    match link.recv(buffer) {
        Ok(0) => {
            let _ended = machine.end();
            Err(SyncFault::RequestChannelClosed)
        }
        Ok(count) => take_in(machine, &buffer[..count]),
        Err(LinkError::Failed) => Err(SyncFault::Network),
        Err(LinkError::OutOfMemory) => Err(SyncFault::OutOfMemory),
    }
}
