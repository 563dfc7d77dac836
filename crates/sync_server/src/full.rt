//! The mode that serves operations and targets.
ghost use Rattle.std.specs.Prelude.{◌≡◌, IfOk};
ghost use Rattle.ledger_log.specs.View.{log_floor};
ghost use Rattle.sync_net.specs.Messages.{MessageFits};
ghost use Rattle.sync_net.specs.Core.{core, refuse, unexpected, target_reply};

use crate::mode::{FullMode, ServeMode};
use crate::operations::operations_reply;
use crate::refusals::{refusal, text_of};
use ledger_codec::OutOfMemory;
use ledger_log::{Family, Log, Target};
use ledger_merkle::Hasher;
use std::alloc::Global;
use sync_net::{ErrorCode, GetSyncTargetResponse, Message};

impl<F: Family, H: Hasher> ServeMode<F, Log<F, H>> for FullMode {
    ghost use Rattle.std.specs.Prelude.{◌≡◌, IfOk};
    ghost use Rattle.ledger_log.specs.View.{log_floor};
    ghost use Rattle.sync_net.specs.Messages.{MessageFits};
    ghost use Rattle.sync_net.specs.Core.{core};

    ghost answer = { λ log message. core H.digest F.Op.spelling (log_floor F.floor_of log) log message };

    fn reply(
        alloc: Global,
        db: &Log<F, H>,
        message: Message<F::Op>,
    ) -> Result<Message<F::Op>, OutOfMemory>
        ensures answer { IfOk result
            (λ reply. reply ≡ core H.digest F.Op.spelling (log_floor F.floor_of db.now) db.now message) }
        ensures limits { IfOk result (λ reply. MessageFits (λ op. Unit {0}) reply) }
    {
        match message {
            Message::GetOperationsRequest(request) => operations_reply(alloc, db, &request),
            Message::GetSyncTargetRequest(request) => target_reply(alloc, db, request.request_id),
            Message::GetOperationsResponse(m) => unexpected_reply(alloc, m.request_id),
            Message::GetSyncTargetResponse(m) => unexpected_reply(alloc, m.request_id),
            Message::GetCompactTargetRequest(m) => unexpected_reply(alloc, m.request_id),
            Message::GetCompactTargetResponse(m) => unexpected_reply(alloc, m.request_id),
            Message::GetCompactStateRequest(m) => unexpected_reply(alloc, m.request_id),
            Message::GetCompactStateResponse(m) => unexpected_reply(alloc, m.request_id),
            Message::Error(m) => unexpected_reply(alloc, m.request_id),
        }
    }
}

/// The root, the sync boundary and the size of a log.
fn target_reply<F: Family, H: Hasher>(
    alloc: Global,
    log: &Log<F, H>,
    number: u64,
) -> Result<Message<F::Op>, OutOfMemory>
    ensures answer { IfOk result (λ reply.
        reply ≡ target_reply H.digest F.Op.spelling (log_floor F.floor_of log.now) log.now number) }
    ensures limits { IfOk result (λ reply. MessageFits (λ op. Unit {0}) reply) }
{
    match Target::new(log.root(), log.sync_boundary(), log.size()) {
        Some(target) => Ok(Message::GetSyncTargetResponse(GetSyncTargetResponse {
            request_id: number,
            target,
        })),
        None => unexpected_reply(alloc, number),
    }
}

/// The refusal of a message that isn't served.
fn unexpected_reply<Op>(alloc: Global, number: u64) -> Result<Message<Op>, OutOfMemory>
    ensures answer { IfOk result (λ reply. reply ≡ refuse number unexpected) }
    ensures limits { IfOk result (λ reply. MessageFits (λ op. Unit {0}) reply) }
{
    let text = text_of(alloc, "unexpected message type")?;
    Ok(refusal(number, ErrorCode::InvalidRequest, text))
}
