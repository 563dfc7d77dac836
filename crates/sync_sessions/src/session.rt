//! Sessions over a shared log.
ghost use Rattle.std.specs.Prelude.{◌≡◌, ◌≤◌};
ghost use Rattle.sync_net.specs.Messages.{message_written};
ghost use Rattle.sync_shared.specs.Replies.{Belongs, Missed};
ghost use Rattle.sync_sessions.specs.Hearing.{frame_of};
ghost use Rattle.sync_sessions.specs.Replying.{RepliedIn, Turns};
ghost use Rattle.sync_sessions.specs.Turns.{IsSpent, Session};

use crate::ending::{SessionEnd, refused_end};
use crate::family::ServedFamily;
use crate::gate::Gate;
use crate::hearing::{BUFFER_SIZE, next_message};
use crate::sending::send_message;
use ledger_codec::{Framer, MAX_MESSAGE_SIZE, Spell};
use std::alloc::Global;
use std::sync::Wait;
use sync_net::{Link, Message};
use sync_shared::{Pass, SharedLog};

/// Answers one message in a turn of the pass, and sends the reply.
fn answer<R: Wait, F: ServedFamily, L: Link>(
    rt: &R,
    alloc: Global,
    shared: &SharedLog<F>,
    pass: &mut Pass<F>,
    link: &mut L,
    message: Message<F::Op>,
) -> Result<(), SessionEnd>
where
    F::Op: Spell,
    requires { Belongs shared.now.from pass.old }
    ensures belongs { Belongs shared.now.from pass.new }
    ensures later { L.faults link.old ≤ L.faults link.new }
    ensures turns { Turns (frame_of (message_written F.Op.written))
        (RepliedIn F.floor_of shared.now.opening F.Op.spelling) Missed IsSpent
        result pass.old message pass.new
        (L.wire link.old) (L.wire link.new) (L.faults link.old) (L.faults link.new) }
{
    match shared.serve(rt, alloc, pass, message) {
        Ok(reply) => send_message(alloc, link, &reply),
        Err(refusal) => Err(refused_end(refusal)),
    }
}

/// Answers the messages that come over a link, each in a turn of the pass and in their order, until the link ends or
/// cannot go on. Before each it passes the gate, with the session's number and the place of the message. A frame that
/// is no message gets no reply. It waits for the peer and for its turns.
pub fn run_session<R: Wait, F: ServedFamily, L: Link, G: Gate>(
    rt: &R,
    alloc: Global,
    shared: &SharedLog<F>,
    pass: &mut Pass<F>,
    link: &mut L,
    gate: &G,
    session: usize,
) -> SessionEnd
where
    F::Op: Spell,
    requires { Belongs shared.now.from pass.old }
    ensures belongs { Belongs shared.now.from pass.new }
    ensures later { L.faults link.old ≤ L.faults link.new }
    ensures runs { Session F.Op.reading F.Op.written F.floor_of shared.now.opening F.Op.spelling
        result pass.old pass.new
        (L.wire link.old) (L.wire link.new) (L.faults link.old) (L.faults link.new) }
{
    let mut frames = Framer::new(alloc, MAX_MESSAGE_SIZE);
    let mut buffer = [0; BUFFER_SIZE];
    let mut request: usize = 0;
    for _ in rt.forever() {
        let message = match next_message(rt, alloc, &mut frames, link, &mut buffer) {
            Ok(message) => message,
            Err(end) => return end,
        };
        gate.pass(session, request);
        match answer(rt, alloc, shared, pass, link, message) {
            Ok(()) => {}
            Err(end) => return end,
        }
        request = request.saturating_add(1);
    }
    unreachable!()
}
