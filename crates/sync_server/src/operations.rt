//! Answers with operations.
ghost use Rattle.std.specs.Prelude.{◌≡◌, ◌<◌, ◌≤◌, ◌-◌, min, IfOk, IfSome};
ghost use Rattle.std.specs.Int.NonZero.{non_zero_u64_get};
ghost use Rattle.ledger_log.specs.View.{log_size, log_peaks_at};
ghost use Rattle.sync_net.specs.Fields.{PinnedFit};
ghost use Rattle.sync_net.specs.Messages.{MessageFits};
ghost use Rattle.sync_net.specs.Core.{operations_reply, operations_answer, served_count, pinned_for};

use crate::mode::MAX_BATCH_SIZE;
use crate::refusals::range_refusal;
use ledger_codec::{Digest, List, OutOfMemory};
use ledger_log::{Family, Log};
use ledger_merkle::{Hasher, Location};
use std::alloc::Global;
use std::num::NonZeroU64;
use sync_net::{GetOperationsRequest, GetOperationsResponse, Message};

/// The reply to a request for operations.
pub(crate) fn operations_reply<F: Family, H: Hasher>(
    alloc: Global,
    log: &Log<F, H>,
    request: &GetOperationsRequest,
) -> Result<Message<F::Op>, OutOfMemory>
    ensures answer { IfOk result (λ reply.
        reply
        ≡ operations_reply H.digest F.Op.spelling log.now request.now.request_id request.now.op_count
        request.now.start_loc (non_zero_u64_get request.now.max_ops)
        request.now.include_pinned_nodes) }
    ensures limits { IfOk result (λ reply. MessageFits (λ op. Unit {0}) reply) }
{
    let refused = range_refusal(
        alloc,
        request.request_id,
        log.front().get(),
        log.size().get(),
        request.op_count.get(),
        request.start_loc.get(),
    )?;
    match refused {
        Some(refusal) => Ok(refusal),
        None => answer(log, request),
    }
}

/// The operations that are asked for, as far as one answer holds them.
fn answer<F: Family, H: Hasher>(
    log: &Log<F, H>,
    request: &GetOperationsRequest,
) -> Result<Message<F::Op>, OutOfMemory>
    requires some { request.now.start_loc < request.now.op_count }
    requires held { request.now.op_count ≤ log_size log.now }
    requires kept { log.now.front ≤ request.now.start_loc }
    ensures answer { IfOk result (λ reply.
        reply
        ≡ operations_answer H.digest F.Op.spelling log.now request.now.request_id request.now.op_count
        request.now.start_loc
        (served_count (log_size log.now) request.now.op_count request.now.start_loc
        (non_zero_u64_get request.now.max_ops))
        request.now.include_pinned_nodes) }
    ensures limits { IfOk result (λ reply. MessageFits (λ op. Unit {0}) reply) }
{
    let most = batch_of(request.max_ops);
    match log.historical_proof(request.op_count, request.start_loc, most) {
        Ok((proof, ops)) => {
            let pinned_nodes = pinned(log, request.start_loc, request.include_pinned_nodes)?;
            Ok(Message::GetOperationsResponse(GetOperationsResponse {
                request_id: request.request_id,
                proof,
                operations: List::from_vec(ops),
                pinned_nodes,
            }))
        }
        Err(_) => Err(OutOfMemory),
    }
}

/// How many operations one answer holds at most.
fn batch_of(max_ops: NonZeroU64) -> NonZeroU64
    ensures { non_zero_u64_get result ≡ min (non_zero_u64_get max_ops) 100 }
{
    match NonZeroU64::new(max_ops.get().min(MAX_BATCH_SIZE)) {
        Some(most) => most,
        None => max_ops,
    }
}

/// The peaks before the first operation, where they are wanted.
fn pinned<F: Family, H: Hasher>(
    log: &Log<F, H>,
    start: Location,
    wanted: bool,
) -> Result<Option<List<Digest>>, OutOfMemory>
    requires held { start ≤ log_size log.now }
    requires kept { log.now.front ≤ start }
    ensures nodes { IfOk result
        (λ nodes. nodes ≡ pinned_for wanted (log_peaks_at H.digest F.Op.spelling log.now start)) }
    ensures limits { IfOk result (λ nodes. PinnedFit nodes) }
{
    if !wanted {
        return Ok(None);
    }
    match log.pinned_nodes_at(start) {
        Ok(nodes) => Ok(Some(List::from_vec(nodes))),
        Err(_) => Err(OutOfMemory),
    }
}
