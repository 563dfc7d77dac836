//! The four answers, and the refusal.

use crate::code::ErrorCode;
use crate::fields::{NUMBER_SIZE, byte_of, read_code, read_pinned, size_of_pinned, write_pinned};
use ledger_codec::{
    CodecError, Digest, List, MAX_DIGESTS, OutOfMemory, Reader, Spell, Text, Writer, size_of_vec,
};
use ledger_log::{CompactState, CompactTarget, Target};
use ledger_merkle::Proof;
use std::alloc::Global;

/// Operations of a range, with their proof.
#[derive(Drop)]
pub struct GetOperationsResponse<Op> {
    /// The number of the request that is answered.
    pub request_id: u64,
    /// The proof of the operations.
    pub proof: Proof,
    /// The first operations of the range that was asked for, at most `MAX_DIGESTS`.
    pub operations: List<Op>,
    /// The peaks before the first operation, at most `MAX_PINNED_NODES`, where they were asked for.
    pub pinned_nodes: Option<List<Digest>>,
}

/// The target to sync to.
#[derive(Clone, Copy, Debug, PartialEq, Eq)]
pub struct GetSyncTargetResponse {
    /// The number of the request that is answered.
    pub request_id: u64,
    /// The target.
    pub target: Target,
}

/// The compact target to sync to.
#[derive(Clone, Copy, Debug, PartialEq, Eq)]
pub struct GetCompactTargetResponse {
    /// The number of the request that is answered.
    pub request_id: u64,
    /// The target.
    pub target: CompactTarget,
}

/// The state of a compact target.
#[derive(Drop)]
pub struct GetCompactStateResponse<Op> {
    /// The number of the request that is answered.
    pub request_id: u64,
    /// The state.
    pub state: CompactState<Op>,
}

/// The refusal of a request.
#[derive(Debug, Drop)]
pub struct ErrorResponse {
    /// The number of the request that is refused.
    pub request_id: u64,
    /// What kind of refusal it is.
    pub error_code: ErrorCode,
    /// Why, for people to read.
    pub message: Text,
}

impl<Op: Spell> Spell for GetOperationsResponse<Op> {
    ghost use Rattle.sync_net.specs.Messages.{operations_response_at, operations_response_written, IsSoundOperationsResponse, OperationsResponseFits};
    ghost use Rattle.sync_net.specs.Laws.{operations_response_laws};

    ghost reading = { operations_response_at Op.reading };

    ghost written = { operations_response_written Op.written };

    ghost sound = { IsSoundOperationsResponse Op.sound };

    ghost fits = { OperationsResponseFits Op.fits };

    ghost laws = { operations_response_laws Op.reading Op.written Op.sound Op.fits Op.laws };

    fn size(&self) -> usize {
        self.proof
            .size()
            .saturating_add(size_of_vec(self.operations.as_slice()))
            .saturating_add(size_of_pinned(&self.pinned_nodes))
            .saturating_add(NUMBER_SIZE)
    }

    fn spell(&self, out: &mut Writer) -> Result<(), OutOfMemory> {
        out.write_u64(self.request_id)?;
        self.proof.spell(out)?;
        out.write_vec(self.operations.as_slice())?;
        write_pinned(out, &self.pinned_nodes)
    }

    #[tactic(auto, unfolding(crate::specs::Messages::operations_response_at))]
    fn read(alloc: Global, from: &mut Reader<'_>) -> Result<GetOperationsResponse<Op>, CodecError> {
        let mut at = from.fork();
        let request_id = at.read_u64()?;
        let proof = Proof::read(alloc, &mut at)?;
        let operations = List::from_vec(at.read_vec::<Op>(alloc, MAX_DIGESTS)?);
        let pinned_nodes = read_pinned(alloc, &mut at)?;
        *from = at;
        Ok(GetOperationsResponse {
            request_id,
            proof,
            operations,
            pinned_nodes,
        })
    }
}

impl Spell for GetSyncTargetResponse {
    ghost use Rattle.sync_net.specs.Messages.{sync_target_response_at, sync_target_response_written, IsSoundSyncTargetResponse};
    ghost use Rattle.sync_net.specs.Laws.{sync_target_response_laws};

    ghost reading = { sync_target_response_at };

    ghost written = { sync_target_response_written };

    ghost sound = { IsSoundSyncTargetResponse };

    ghost fits = { λ _. Unit {0} };

    ghost laws = { sync_target_response_laws };

    fn size(&self) -> usize {
        self.target.size().saturating_add(NUMBER_SIZE)
    }

    fn spell(&self, out: &mut Writer) -> Result<(), OutOfMemory> {
        out.write_u64(self.request_id)?;
        self.target.spell(out)
    }

    #[tactic(auto, unfolding(crate::specs::Messages::sync_target_response_at))]
    fn read(alloc: Global, from: &mut Reader<'_>) -> Result<GetSyncTargetResponse, CodecError> {
        let mut at = from.fork();
        let request_id = at.read_u64()?;
        let target = Target::read(alloc, &mut at)?;
        *from = at;
        Ok(GetSyncTargetResponse { request_id, target })
    }
}

impl Spell for GetCompactTargetResponse {
    ghost use Rattle.sync_net.specs.Messages.{compact_target_response_at, compact_target_response_written, IsSoundCompactTargetResponse};
    ghost use Rattle.sync_net.specs.Laws.{compact_target_response_laws};

    ghost reading = { compact_target_response_at };

    ghost written = { compact_target_response_written };

    ghost sound = { IsSoundCompactTargetResponse };

    ghost fits = { λ _. Unit {0} };

    ghost laws = { compact_target_response_laws };

    fn size(&self) -> usize {
        self.target.size().saturating_add(NUMBER_SIZE)
    }

    fn spell(&self, out: &mut Writer) -> Result<(), OutOfMemory> {
        out.write_u64(self.request_id)?;
        self.target.spell(out)
    }

    #[tactic(auto, unfolding(crate::specs::Messages::compact_target_response_at))]
    fn read(alloc: Global, from: &mut Reader<'_>) -> Result<GetCompactTargetResponse, CodecError> {
        let mut at = from.fork();
        let request_id = at.read_u64()?;
        let target = CompactTarget::read(alloc, &mut at)?;
        *from = at;
        Ok(GetCompactTargetResponse { request_id, target })
    }
}

impl<Op: Spell> Spell for GetCompactStateResponse<Op> {
    ghost use Rattle.ledger_log.specs.Spellings.{CompactStateFits};
    ghost use Rattle.sync_net.specs.Messages.{compact_state_response_at, compact_state_response_written, IsSoundCompactStateResponse};
    ghost use Rattle.sync_net.specs.Laws.{compact_state_response_laws};

    ghost reading = { compact_state_response_at Op.reading };

    ghost written = { compact_state_response_written Op.written };

    ghost sound = { IsSoundCompactStateResponse Op.sound };

    ghost fits = { λ m. CompactStateFits Op.fits m.state };

    ghost laws = { compact_state_response_laws Op.reading Op.written Op.sound Op.fits Op.laws };

    fn size(&self) -> usize {
        self.state.size().saturating_add(NUMBER_SIZE)
    }

    fn spell(&self, out: &mut Writer) -> Result<(), OutOfMemory> {
        out.write_u64(self.request_id)?;
        self.state.spell(out)
    }

    #[tactic(auto, unfolding(crate::specs::Messages::compact_state_response_at))]
    fn read(
        alloc: Global,
        from: &mut Reader<'_>,
    ) -> Result<GetCompactStateResponse<Op>, CodecError> {
        let mut at = from.fork();
        let request_id = at.read_u64()?;
        let state = CompactState::<Op>::read(alloc, &mut at)?;
        *from = at;
        Ok(GetCompactStateResponse { request_id, state })
    }
}

impl Spell for ErrorResponse {
    ghost use Rattle.std.specs.Prelude.{◌≤◌, length};
    ghost use Rattle.sync_net.specs.Messages.{error_response_at, error_response_written, IsSoundErrorResponse};
    ghost use Rattle.sync_net.specs.Laws.{error_response_laws};

    ghost reading = { error_response_at };

    ghost written = { error_response_written };

    ghost sound = { IsSoundErrorResponse };

    ghost fits = { λ m. length m.message ≤ 10485760 };

    ghost laws = { error_response_laws };

    fn size(&self) -> usize {
        let code = 1;
        self.message.size().saturating_add(NUMBER_SIZE + code)
    }

    fn spell(&self, out: &mut Writer) -> Result<(), OutOfMemory> {
        out.write_u64(self.request_id)?;
        out.write_u8(byte_of(self.error_code))?;
        self.message.spell(out)
    }

    #[tactic(auto, unfolding(crate::specs::Messages::error_response_at))]
    fn read(alloc: Global, from: &mut Reader<'_>) -> Result<ErrorResponse, CodecError> {
        let mut at = from.fork();
        let request_id = at.read_u64()?;
        let error_code = read_code(&mut at)?;
        let message = Text::read(alloc, &mut at)?;
        *from = at;
        Ok(ErrorResponse {
            request_id,
            error_code,
            message,
        })
    }
}
