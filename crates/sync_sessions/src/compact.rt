//! Sessions over a log that never changes, without its operations.
ghost use Rattle.std.specs.Prelude.{◌≡◌, ◌≤◌, IfOk, Some};
ghost use Rattle.ledger_compact.specs.View.{compact_of};
ghost use Rattle.sha2.specs.Sha256.{sha256};
ghost use Rattle.sync_net.specs.Messages.{MessageFits, message_written};
ghost use Rattle.sync_compact.specs.Core.{compact_core};
ghost use Rattle.sync_sessions.specs.Compact.{CompactRun, IsCompactReply, KeepsAll, NeverSpent};
ghost use Rattle.sync_sessions.specs.Hearing.{frame_of};
ghost use Rattle.sync_sessions.specs.Replying.{Turns};

use crate::ending::SessionEnd;
use crate::family::ServedFamily;
use crate::gate::Gate;
use crate::hearing::{BUFFER_SIZE, next_message};
use crate::sending::send_message;
use ledger_codec::{Framer, MAX_MESSAGE_SIZE, OutOfMemory, Spell};
use ledger_compact::{CompactLog, CompactSyncable};
use ledger_log::{CompactFamily, Log};
use ledger_merkle::Sha256Hasher;
use std::alloc::Global;
use std::sync::Wait;
use sync_compact::CompactMode;
use sync_net::{Link, Message};
use sync_server::ServeMode;

/// A log, full or compact, over which [`CompactMode`] serves.
pub trait CompactServed<F: CompactFamily>: CompactSyncable<F, Sha256Hasher> {
    /// The reply of [`CompactMode`].
    fn compact_reply(
        &self,
        alloc: Global,
        message: Message<F::Op>,
    ) -> Result<Message<F::Op>, OutOfMemory>
        ensures answer { IfOk result (λ reply. reply ≡ compact_core sha256 (Self.kept self.now) message) }
        ensures limits { IfOk result (λ reply. MessageFits (λ op. Unit {0}) reply) };
}

impl<F: CompactFamily> CompactServed<F> for Log<F, Sha256Hasher> {
    fn compact_reply(
        &self,
        alloc: Global,
        message: Message<F::Op>,
    ) -> Result<Message<F::Op>, OutOfMemory>
        ensures answer { IfOk result (λ reply.
            reply ≡ compact_core sha256 (compact_of sha256 F.Op.spelling self.now) message) }
        ensures limits { IfOk result (λ reply. MessageFits (λ op. Unit {0}) reply) }
    {
        CompactMode::reply(alloc, self, message)
    }
}

impl<F: CompactFamily> CompactServed<F> for CompactLog<F, Sha256Hasher> {
    fn compact_reply(
        &self,
        alloc: Global,
        message: Message<F::Op>,
    ) -> Result<Message<F::Op>, OutOfMemory>
        ensures answer { IfOk result (λ reply. reply ≡ compact_core sha256 (Some self.now) message) }
        ensures limits { IfOk result (λ reply. MessageFits (λ op. Unit {0}) reply) }
    {
        CompactMode::reply(alloc, self, message)
    }
}

/// Answers one message, and sends the reply.
fn answer<F: ServedFamily + CompactFamily, DB: CompactServed<F>, L: Link>(
    alloc: Global,
    served: &DB,
    link: &mut L,
    message: Message<F::Op>,
) -> Result<(), SessionEnd>
where
    F::Op: Spell,
    ensures later { L.faults link.old ≤ L.faults link.new }
    ensures turns { Turns (frame_of (message_written F.Op.written))
        (IsCompactReply (DB.CompactSyncable.kept served.now)) KeepsAll NeverSpent
        result tt message tt
        (L.wire link.old) (L.wire link.new) (L.faults link.old) (L.faults link.new) }
{
    match served.compact_reply(alloc, message) {
        Ok(reply) => send_message(alloc, link, &reply),
        Err(_) => Err(SessionEnd::OutOfMemory),
    }
}

/// Answers the messages that come over a link, in their order, as [`crate::run_session`] does, from a log that stays
/// as it is.
pub(crate) fn run_compact<
    R: Wait,
    F: ServedFamily + CompactFamily,
    DB: CompactServed<F>,
    L: Link,
    G: Gate,
>(rt: &R, alloc: Global, served: &DB, link: &mut L, gate: &G, session: usize) -> SessionEnd
where
    F::Op: Spell,
    ensures later { L.faults link.old ≤ L.faults link.new }
    ensures runs { CompactRun F.Op.reading F.Op.written (DB.CompactSyncable.kept served.now)
        result (L.wire link.old) (L.wire link.new) (L.faults link.old) (L.faults link.new) }
{
    let mut frames = Framer::new(alloc, MAX_MESSAGE_SIZE);
    let mut buffer = [0; BUFFER_SIZE];
    let mut request: usize = 0;
    for _ in rt.forever() {
        let message = match next_message(rt, alloc, &mut frames, link, &mut buffer) {
            Ok(message) => message,
            Err(end) => return end,
        };
        gate.pass(session, request);
        match answer::<F, DB, L>(alloc, served, link, message) {
            Ok(()) => {}
            Err(end) => return end,
        }
        request = request.saturating_add(1);
    }
    unreachable!()
}
