//! One request over a link, and its answer.
ghost use Rattle.std.specs.Prelude.{◌≡◌, ◌<◌, ◌≤◌, ◌∷◌, [], List as Items, ℕ, Ok, OnOk, length, IsTrue, false};
ghost use Rattle.ledger_codec.specs.Sequences.{all_of, string_written};
ghost use Rattle.sync_client.specs.Counts.{CountKept, NeverNetwork};
ghost use Rattle.sync_net.specs.Core.{LogData};
ghost use Rattle.sync_net.specs.Messages.{message_at};
ghost use Rattle.sync_net.specs.Numbered.{number_of};
ghost use Rattle.sync_net.specs.declared.ask.Pending.{Pending as PendingValue};
ghost use Rattle.sync_fetch.specs.Served.{IsDue, NextServed, ReplyServed, ServesSent};
ghost use Rattle.sync_fetch.specs.Told.{HeldAnswer, NextAnswer, Awaits, Sends};

use ledger_codec::Spell;
use sync_client::{MAX_STRAYS, SyncFault, receive};
use sync_net::{Answer, Link, LinkError, Machine, MachineFault, Message, SubmitRefusal, Submitted};

/// How many bytes are asked of the link at once.
const BUFFER_SIZE: usize = 4096;

/// Sends the frame of a request that was made.
pub(crate) fn send_request<L: Link>(
    made: Result<Submitted, SubmitRefusal>,
    link: &mut L,
) -> Result<(), SyncFault>
    ensures exact { IsTrue L.exact → CountKept result (L.faults link.old) (L.faults link.new) }
    ensures steady { L.steady link.old →
        L.steady link.new × NeverNetwork result (L.faults link.old) (L.faults link.new) }
    ensures sends { Sends result made (L.wire link.old) (L.wire link.new) (L.faults link.old)
        (L.faults link.new) }
    ensures serving { ServesSent result made (L.service link.old) (L.service link.new) }
{
    let frame = match made {
        Ok(submitted) => submitted.frame,
        Err(SubmitRefusal::Closed) => return Err(SyncFault::Closed),
        Err(SubmitRefusal::Exhausted) => return Err(SyncFault::Exhausted),
        Err(SubmitRefusal::OutOfMemory) => return Err(SyncFault::OutOfMemory),
    };
    match link.send(&frame) {
        Ok(()) => Ok(()),
        Err(LinkError::Failed) => Err(SyncFault::Network),
        Err(LinkError::OutOfMemory) => Err(SyncFault::OutOfMemory),
    }
}

/// The answer that the next whole frame is, None where none is held.
fn answer_held<Op: Spell>(machine: &mut Machine<Op>) -> Result<Option<Answer<Op>>, SyncFault>
    ensures { HeldAnswer result Op.reading machine.old machine.new }
{
    match machine.next_answer() {
        Ok(found) => Ok(found),
        Err(MachineFault::InvalidResponse) => Err(SyncFault::InvalidResponse),
        Err(MachineFault::UnexpectedResponse { request_id }) => {
            Err(SyncFault::UnexpectedResponse { request_id })
        }
        Err(MachineFault::Server { code, message }) => Err(SyncFault::Server { code, message }),
        Err(MachineFault::RequestChannelClosed) => Err(SyncFault::RequestChannelClosed),
        Err(MachineFault::Closed) => Err(SyncFault::Closed),
        Err(MachineFault::OutOfMemory) => Err(SyncFault::OutOfMemory),
    }
}

/// The next answer, received as far as it isn't held.
fn next_answer<Op: Spell, L: Link>(
    machine: &mut Machine<Op>,
    link: &mut L,
    buffer: &mut [u8],
) -> Result<Answer<Op>, SyncFault>
    requires room { 0 < length buffer.old }
    requires most { length buffer.old ≤ 4096 }
    requires live { machine.old.closed ≡ false }
    ensures exact { IsTrue L.exact → CountKept result (L.faults link.old) (L.faults link.new) }
    ensures steady { L.steady link.old →
        L.steady link.new × NeverNetwork result (L.faults link.old) (L.faults link.new) }
    ensures answers { NextAnswer result Op.reading machine.old machine.new (L.wire link.old)
        (L.wire link.new) (L.faults link.old) (L.faults link.new) }
    ensures serving { (held : LogData) (body : Items ℕ)
        → length body ≤ 10485760
        → IsDue held (string_written body) machine.old.held (L.service link.old)
        → NextServed result Op.reading body held machine.old machine.new (L.service link.new) }
{
    loop {
        match answer_held(machine) {
            Ok(Some(answer)) => return Ok(answer),
            Ok(None) => {}
            Err(fault) => return Err(fault),
        }
        match receive(machine, link, buffer) {
            Ok(()) => {}
            Err(fault) => return Err(fault),
        }
    }
}

/// The message that answers the one pending request.
pub(crate) fn await_reply<Op: Spell, L: Link>(
    machine: &mut Machine<Op>,
    link: &mut L,
) -> Result<Message<Op>, SyncFault>
    requires live { machine.old.closed ≡ false }
    ensures later { OnOk result (L.faults link.old ≤ L.faults link.new) }
    ensures exact { IsTrue L.exact → CountKept result (L.faults link.old) (L.faults link.new) }
    ensures steady { L.steady link.old →
        L.steady link.new × NeverNetwork result (L.faults link.old) (L.faults link.new) }
    ensures awaits { (p : PendingValue) →
        machine.old.pending ≡ p ∷ [] →
        Awaits result Op.reading p machine.old machine.new (L.wire link.old) (L.wire link.new)
        (L.faults link.old) (L.faults link.new) }
    ensures serving { (held : LogData) (p : PendingValue) (body : Items ℕ) (reply : Message Op)
        → length body ≤ 10485760
        → all_of (message_at Op.reading) body ≡ Ok reply
        → p.number ≡ number_of reply
        → machine.old.pending ≡ p ∷ []
        → IsDue held (string_written body) machine.old.held (L.service link.old)
        → ReplyServed result p reply held machine.new (L.service link.new) }
{
    let mut buffer = [0; BUFFER_SIZE];
    let mut strays = 0;
    loop {
        match next_answer(machine, link, &mut buffer) {
            Ok(Answer::Reply { message, .. }) => return Ok(message),
            Ok(Answer::Stray { .. }) => {
                if strays >= MAX_STRAYS {
                    return Err(SyncFault::TooManyStrays);
                }
                strays += 1;
            }
            Err(fault) => return Err(fault),
        }
    }
}
