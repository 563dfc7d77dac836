//! The mode that serves compact targets and states.
ghost use Rattle.std.specs.Prelude.{◌≡◌, ◌≤◌, IfOk, length};
ghost use Rattle.sync_net.specs.Messages.{MessageFits};
ghost use Rattle.sync_net.specs.Core.{refuse, unexpected};
ghost use Rattle.sync_compact.specs.Core.{compact_core, target_reply, state_reply};

use ledger_codec::{OutOfMemory, Text};
use ledger_compact::{CompactLog, CompactSyncable};
use ledger_log::{CompactFamily, CompactTarget, Log};
use ledger_merkle::Hasher;
use std::alloc::Global;
use sync_net::{
    ErrorCode, ErrorResponse, GetCompactStateResponse, GetCompactTargetResponse, Message,
};
use sync_server::ServeMode;

/// Serves the target and the state of a log, without its operations. The log may be full or compact.
pub struct CompactMode;

impl<F: CompactFamily, H: Hasher> ServeMode<F, Log<F, H>> for CompactMode {
    ghost use Rattle.std.specs.Prelude.{◌≡◌, IfOk};
    ghost use Rattle.sync_net.specs.Messages.{MessageFits};
    ghost use Rattle.ledger_compact.specs.View.{compact_of};
    ghost use Rattle.sync_compact.specs.Core.{compact_core};

    ghost answer = { λ log message. compact_core H.digest (compact_of H.digest F.Op.spelling log) message };

    fn reply(
        alloc: Global,
        db: &Log<F, H>,
        message: Message<F::Op>,
    ) -> Result<Message<F::Op>, OutOfMemory>
        ensures answer { IfOk result
            (λ reply. reply ≡ compact_core H.digest (compact_of H.digest F.Op.spelling db.now) message) }
        ensures limits { IfOk result (λ reply. MessageFits (λ op. Unit {0}) reply) }
    {
        compact_reply::<F, H, Log<F, H>>(alloc, db, message)
    }
}

impl<F: CompactFamily, H: Hasher> ServeMode<F, CompactLog<F, H>> for CompactMode {
    ghost use Rattle.std.specs.Prelude.{◌≡◌, IfOk, Some};
    ghost use Rattle.sync_net.specs.Messages.{MessageFits};
    ghost use Rattle.sync_compact.specs.Core.{compact_core};

    ghost answer = { λ log message. compact_core H.digest (Some log) message };

    fn reply(
        alloc: Global,
        db: &CompactLog<F, H>,
        message: Message<F::Op>,
    ) -> Result<Message<F::Op>, OutOfMemory>
        ensures answer { IfOk result (λ reply. reply ≡ compact_core H.digest (Some db.now) message) }
        ensures limits { IfOk result (λ reply. MessageFits (λ op. Unit {0}) reply) }
    {
        compact_reply::<F, H, CompactLog<F, H>>(alloc, db, message)
    }
}

/// The reply over whatever a compact log can be made of.
fn compact_reply<F: CompactFamily, H: Hasher, DB: CompactSyncable<F, H>>(
    alloc: Global,
    db: &DB,
    message: Message<F::Op>,
) -> Result<Message<F::Op>, OutOfMemory>
    ensures answer { IfOk result (λ reply. reply ≡ compact_core H.digest (DB.kept db.now) message) }
    ensures limits { IfOk result (λ reply. MessageFits (λ op. Unit {0}) reply) }
{
    match message {
        Message::GetCompactTargetRequest(m) => Ok(target_reply::<F, H, DB>(db, m.request_id)),
        Message::GetCompactStateRequest(m) => {
            state_reply::<F, H, DB>(alloc, db, m.request_id, &m.target)
        }
        Message::GetOperationsRequest(m) => unexpected_reply(alloc, m.request_id),
        Message::GetOperationsResponse(m) => unexpected_reply(alloc, m.request_id),
        Message::GetSyncTargetRequest(m) => unexpected_reply(alloc, m.request_id),
        Message::GetSyncTargetResponse(m) => unexpected_reply(alloc, m.request_id),
        Message::GetCompactTargetResponse(m) => unexpected_reply(alloc, m.request_id),
        Message::GetCompactStateResponse(m) => unexpected_reply(alloc, m.request_id),
        Message::Error(m) => unexpected_reply(alloc, m.request_id),
    }
}

/// The root and the size.
fn target_reply<F: CompactFamily, H: Hasher, DB: CompactSyncable<F, H>>(
    db: &DB,
    number: u64,
) -> Message<F::Op>
    ensures answer { result ≡ target_reply H.digest (DB.kept db.now) number }
    ensures limits { MessageFits (λ op. Unit {0}) result }
{
    Message::GetCompactTargetResponse(GetCompactTargetResponse {
        request_id: number,
        target: db.target(),
    })
}

/// The state, where this is the target.
fn state_reply<F: CompactFamily, H: Hasher, DB: CompactSyncable<F, H>>(
    alloc: Global,
    db: &DB,
    number: u64,
    target: &CompactTarget,
) -> Result<Message<F::Op>, OutOfMemory>
    ensures answer { IfOk result (λ reply. reply ≡ state_reply H.digest (DB.kept db.now) number
        target.now) }
    ensures limits { IfOk result (λ reply. MessageFits (λ op. Unit {0}) reply) }
{
    if target.leaf_count.get() == 0 {
        let words = "invalid request: leaf_count is 0";
        return refusal(alloc, number, ErrorCode::InvalidRequest, words);
    }
    if *target != db.target() {
        let words = "stale compact target: target is no longer current";
        return refusal(alloc, number, ErrorCode::StaleTarget, words);
    }
    match db.state() {
        Ok(state) => {
            let _size = state.leaf_count.get();
            Ok(Message::GetCompactStateResponse(GetCompactStateResponse {
                request_id: number,
                state,
            }))
        }
        Err(_) => Err(OutOfMemory),
    }
}

/// The refusal of a message that isn't served.
fn unexpected_reply<Op>(alloc: Global, number: u64) -> Result<Message<Op>, OutOfMemory>
    ensures answer { IfOk result (λ reply. reply ≡ refuse number unexpected) }
    ensures limits { IfOk result (λ reply. MessageFits (λ op. Unit {0}) reply) }
{
    refusal(
        alloc,
        number,
        ErrorCode::InvalidRequest,
        "unexpected message type",
    )
}

/// The refusal of the request of this number, in these words.
fn refusal<Op>(
    alloc: Global,
    number: u64,
    code: ErrorCode,
    words: &str,
) -> Result<Message<Op>, OutOfMemory>
    requires short { length words.now ≤ 100 }
    ensures answer { IfOk result (λ reply. reply ≡ refuse number
        (record { code = code; text = words.now })) }
    ensures limits { IfOk result (λ reply. MessageFits (λ op. Unit {0}) reply) }
{
    let text = String::from_str(alloc, words)?;
    Ok(Message::Error(ErrorResponse {
        request_id: number,
        error_code: code,
        message: Text::from_string(text),
    }))
}
