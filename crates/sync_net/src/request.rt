//! The four requests.
ghost use Rattle.std.specs.Prelude.{◌≡◌, ◌<◌, ◌≤◌, ◌++◌, OnOk, MatchResult};
ghost use Rattle.ledger_codec.specs.Parsing.{Reads};

use crate::fields::{NUMBER_SIZE, read_flag, read_non_zero, write_flag};
use ledger_codec::{CodecError, OutOfMemory, Reader, Spell, Writer};
use ledger_log::CompactTarget;
use ledger_merkle::Location;
use std::alloc::Global;
use std::num::NonZeroU64;

/// Asks for the operations of a range and their proof.
#[derive(Clone, Copy, Debug, PartialEq, Eq)]
pub struct GetOperationsRequest {
    /// The client's number of this request.
    pub request_id: u64,
    /// The number of leaves of the tree in which the operations are to be proved.
    pub op_count: Location,
    /// The place of the first operation.
    pub start_loc: Location,
    /// How many operations at most.
    pub max_ops: NonZeroU64,
    /// Whether the peaks before the first operation are wanted.
    pub include_pinned_nodes: bool,
}

/// Asks for the target to sync to.
#[derive(Clone, Copy, Debug, PartialEq, Eq)]
pub struct GetSyncTargetRequest {
    /// The client's number of this request.
    pub request_id: u64,
}

/// Asks for the compact target to sync to.
#[derive(Clone, Copy, Debug, PartialEq, Eq)]
pub struct GetCompactTargetRequest {
    /// The client's number of this request.
    pub request_id: u64,
}

/// Asks for the state of a compact target.
#[derive(Clone, Copy, Debug, PartialEq, Eq)]
pub struct GetCompactStateRequest {
    /// The client's number of this request.
    pub request_id: u64,
    /// The target whose state is wanted.
    pub target: CompactTarget,
}

/// A request whose range is empty whatever the log.
#[derive(Clone, Copy, Debug, PartialEq, Eq)]
pub struct InvalidRange {
    /// The place of the first operation.
    pub start: Location,
    /// The number of leaves of the tree.
    pub op_count: Location,
}

impl GetOperationsRequest {
    /// Refuses a request exactly where its first place is at or above its number of leaves.
    pub fn validate(&self) -> Result<(), InvalidRange>
        ensures { MatchResult result (λ _. self.now.start_loc < self.now.op_count) (λ e.
            (self.now.op_count ≤ self.now.start_loc)
            × (e.start ≡ self.now.start_loc)
            × (e.op_count ≡ self.now.op_count)) }
    {
        if self.start_loc.get() < self.op_count.get() {
            Ok(())
        } else {
            Err(InvalidRange {
                start: self.start_loc,
                op_count: self.op_count,
            })
        }
    }
}

impl Spell for GetOperationsRequest {
    ghost use Rattle.sync_net.specs.Messages.{operations_request_at, operations_request_written, IsSoundOperationsRequest};
    ghost use Rattle.sync_net.specs.Laws.{operations_request_laws};

    ghost reading = { operations_request_at };

    ghost written = { operations_request_written };

    ghost sound = { IsSoundOperationsRequest };

    ghost fits = { λ _. Unit {0} };

    ghost laws = { operations_request_laws };

    fn size(&self) -> usize {
        let flag = 1;
        self.op_count
            .size()
            .saturating_add(self.start_loc.size())
            .saturating_add(NUMBER_SIZE + NUMBER_SIZE + flag)
    }

    fn spell(&self, out: &mut Writer) -> Result<(), OutOfMemory> {
        out.write_u64(self.request_id)?;
        self.op_count.spell(out)?;
        self.start_loc.spell(out)?;
        out.write_u64(self.max_ops.get())?;
        write_flag(out, self.include_pinned_nodes)
    }

    #[tactic(auto, unfolding(crate::specs::Messages::operations_request_at))]
    fn read(alloc: Global, from: &mut Reader<'_>) -> Result<GetOperationsRequest, CodecError> {
        let mut at = from.fork();
        let request_id = at.read_u64()?;
        let op_count = Location::read(alloc, &mut at)?;
        let start_loc = Location::read(alloc, &mut at)?;
        let max_ops = read_non_zero(&mut at)?;
        let include_pinned_nodes = read_flag(&mut at)?;
        *from = at;
        Ok(GetOperationsRequest {
            request_id,
            op_count,
            start_loc,
            max_ops,
            include_pinned_nodes,
        })
    }
}

impl Spell for GetSyncTargetRequest {
    ghost use Rattle.sync_net.specs.Messages.{sync_target_request_at, sync_target_request_written, IsNumber};
    ghost use Rattle.sync_net.specs.Laws.{sync_target_request_laws};

    ghost reading = { sync_target_request_at };

    ghost written = { sync_target_request_written };

    ghost sound = { λ m. IsNumber m.request_id };

    ghost fits = { λ _. Unit {0} };

    ghost laws = { sync_target_request_laws };

    fn size(&self) -> usize {
        NUMBER_SIZE
    }

    fn spell(&self, out: &mut Writer) -> Result<(), OutOfMemory> {
        out.write_u64(self.request_id)
    }

    fn read(_alloc: Global, from: &mut Reader<'_>) -> Result<GetSyncTargetRequest, CodecError> {
        Ok(GetSyncTargetRequest {
            request_id: from.read_u64()?,
        })
    }
}

impl Spell for GetCompactTargetRequest {
    ghost use Rattle.sync_net.specs.Messages.{compact_target_request_at, compact_target_request_written, IsNumber};
    ghost use Rattle.sync_net.specs.Laws.{compact_target_request_laws};

    ghost reading = { compact_target_request_at };

    ghost written = { compact_target_request_written };

    ghost sound = { λ m. IsNumber m.request_id };

    ghost fits = { λ _. Unit {0} };

    ghost laws = { compact_target_request_laws };

    fn size(&self) -> usize {
        NUMBER_SIZE
    }

    fn spell(&self, out: &mut Writer) -> Result<(), OutOfMemory> {
        out.write_u64(self.request_id)
    }

    fn read(_alloc: Global, from: &mut Reader<'_>) -> Result<GetCompactTargetRequest, CodecError> {
        Ok(GetCompactTargetRequest {
            request_id: from.read_u64()?,
        })
    }
}

impl Spell for GetCompactStateRequest {
    ghost use Rattle.sync_net.specs.Messages.{compact_state_request_at, compact_state_request_written, IsSoundCompactStateRequest};
    ghost use Rattle.sync_net.specs.Laws.{compact_state_request_laws};

    ghost reading = { compact_state_request_at };

    ghost written = { compact_state_request_written };

    ghost sound = { IsSoundCompactStateRequest };

    ghost fits = { λ _. Unit {0} };

    ghost laws = { compact_state_request_laws };

    fn size(&self) -> usize {
        self.target.size().saturating_add(NUMBER_SIZE)
    }

    fn spell(&self, out: &mut Writer) -> Result<(), OutOfMemory> {
        out.write_u64(self.request_id)?;
        self.target.spell(out)
    }

    #[tactic(auto, unfolding(crate::specs::Messages::compact_state_request_at))]
    fn read(alloc: Global, from: &mut Reader<'_>) -> Result<GetCompactStateRequest, CodecError> {
        let mut at = from.fork();
        let request_id = at.read_u64()?;
        let target = CompactTarget::read(alloc, &mut at)?;
        *from = at;
        Ok(GetCompactStateRequest { request_id, target })
    }
}
