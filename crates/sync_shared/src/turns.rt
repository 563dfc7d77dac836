//! What a call does in its turn.
ghost use Rattle.std.specs.Prelude.{◌≡◌, ◌<◌, ◌∷◌, [], ◌++◌, IfOk, OnErr, vec_len, vec_capacity};
ghost use Rattle.sha2.specs.Sha256.{sha256};
ghost use Rattle.ledger_log.specs.View.{log_floor, log_size};
ghost use Rattle.sync_net.specs.Core.{core};
ghost use Rattle.sync_net.specs.Messages.{MessageFits};
ghost use Rattle.turn_lock.specs.History.{entry};
ghost use Rattle.sync_shared.specs.declared.event.Event.TheVariants.{Request};
ghost use Rattle.sync_shared.specs.declared.event.EventOutcome.TheVariants.{Replied};
ghost use Rattle.sync_shared.specs.Turns.{answer_of, entries, IsAnswer};

use crate::event::{Event, EventOutcome};
use ledger_codec::{List, OutOfMemory};
use ledger_log::{Family, Log, LogFault};
use ledger_merkle::{Location, Sha256Hasher};
use std::alloc::Global;
use sync_net::{GetCompactTargetRequest, Message};
use sync_server::{FullMode, ServeMode};
use turn_lock::{Entry, Held};

/// A log under its lock, with the history of its calls.
pub(crate) type HeldLog<F, Op> = Held<Log<F, Sha256Hasher>, Event<Op>, EventOutcome>;

/// The reply to a message, which is kept. One that isn't served is answered as any other that isn't.
fn reply_to<F: Family>(
    alloc: Global,
    log: &Log<F, Sha256Hasher>,
    message: &Message<F::Op>,
) -> Result<Message<F::Op>, OutOfMemory>
    ensures reply { IfOk result (λ reply. reply ≡ core sha256 F.Op.spelling (log_floor F.floor_of log.now)
        log.now message.now) }
    ensures limits { IfOk result (λ reply. MessageFits (λ op. Unit {0}) reply) }
{
    let asked = match message {
        Message::GetOperationsRequest(request) => Message::GetOperationsRequest(*request),
        Message::GetSyncTargetRequest(request) => Message::GetSyncTargetRequest(*request),
        other => Message::GetCompactTargetRequest(GetCompactTargetRequest {
            request_id: other.request_id(),
        }),
    };
    FullMode::reply(alloc, log, asked)
}

/// Replies to a message, and enters that.
pub(crate) fn serve_held<F: Family>(
    alloc: Global,
    held: &mut HeldLog<F, F::Op>,
    caller: usize,
    message: Message<F::Op>,
) -> Result<Message<F::Op>, OutOfMemory>
    ensures log { held.new.value ≡ held.old.value }
    ensures reply { IfOk result (λ reply. reply ≡ core sha256 F.Op.spelling
        (log_floor F.floor_of held.old.value) held.old.value message) }
    ensures limits { IfOk result (λ reply. MessageFits (λ op. Unit {0}) reply) }
    ensures entry { IfOk result (λ reply. held.new.history.items ≡ held.old.history.items
        ++ entry caller (Request message) (Replied (log_size held.old.value)) ∷ []) }
    ensures none { OnErr result (held.new.history.items ≡ held.old.history.items) }
{
    if held.history.reserve(1).is_err() {
        return Err(OutOfMemory);
    }
    let reply = reply_to::<F>(alloc, &held.value, &message)?;
    let size = held.value.size();
    held.history.push_reserved(Entry {
        caller,
        event: Event::Request(message),
        outcome: EventOutcome::Replied { size },
    });
    Ok(reply)
}

/// A list of these operations.
fn copy_of<Op: Copy>(alloc: Global, ops: &[Op]) -> Result<List<Op>, OutOfMemory>
    ensures { IfOk result (λ copy. copy ≡ ops.now) }
{
    let mut items = Vec::new(alloc);
    items.extend_from_slice(ops)?;
    Ok(List::from_vec(items))
}

/// How a log answers a batch.
#[derive(Drop)]
pub(crate) enum Answer {
    /// It has this size now.
    Taken(Location),
    /// It is as it was.
    Refused(LogFault),
    /// It is as it was, for want of memory.
    Starved,
}

/// Appends a batch.
fn append_to<F: Family>(log: &mut Log<F, Sha256Hasher>, ops: &[F::Op]) -> Answer
    ensures { IsAnswer F.floor_of log.old ops.now log.new result }
{
    match log.append_batch(ops) {
        Ok(()) => Answer::Taken(log.size()),
        Err(fault) => answer_of(fault),
    }
}

/// What a refusal is to an answer.
fn answer_of(fault: LogFault) -> Answer
    ensures { result ≡ answer_of fault }
{
    match fault {
        LogFault::OutOfMemory => Answer::Starved,
        other => Answer::Refused(other),
    }
}

/// Appends a batch or refuses it, and enters that.
pub(crate) fn append_held<F: Family>(
    alloc: Global,
    held: &mut HeldLog<F, F::Op>,
    caller: usize,
    ops: &[F::Op],
) -> Answer
    ensures answer { IsAnswer F.floor_of held.old.value ops.now held.new.value result }
    ensures entry { held.new.history.items ≡ held.old.history.items ++ entries caller ops.now result }
{
    if held.history.reserve(1).is_err() {
        return Answer::Starved;
    }
    let Ok(batch) = copy_of(alloc, ops) else {
        return Answer::Starved;
    };
    let answer = append_to::<F>(&mut held.value, ops);
    enter_batch(&mut held.history, caller, batch, &answer);
    answer
}

/// Enters a batch with its answer, for which there is room.
fn enter_batch<Op: Drop>(
    history: &mut Vec<Entry<Event<Op>, EventOutcome>>,
    caller: usize,
    batch: List<Op>,
    answer: &Answer,
)
    requires { vec_len history.old < vec_capacity history.old }
    ensures { history.new.items ≡ history.old.items ++ entries caller batch answer.now }
{
    let outcome = match answer {
        Answer::Taken(size) => EventOutcome::Appended { size: *size },
        Answer::Refused(fault) => EventOutcome::Refused(*fault),
        Answer::Starved => return,
    };
    history.push_reserved(Entry {
        caller,
        event: Event::Batch(batch),
        outcome,
    });
}
