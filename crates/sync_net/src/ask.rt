//! What is asked, and what is answered.
ghost use Rattle.std.specs.Prelude.{◌≡◌, length};
ghost use Rattle.sync_net.specs.Asks.{request_of, IsSoundAsk};

use crate::message::Message;
use crate::request::{
    GetCompactStateRequest, GetCompactTargetRequest, GetOperationsRequest, GetSyncTargetRequest,
};
use ledger_codec::Digest;
use ledger_log::CompactTarget;
use ledger_merkle::Location;
use std::num::NonZeroU64;

/// What is asked, without the number under which it is asked.
#[derive(Clone, Copy, Debug, PartialEq, Eq)]
pub enum Ask {
    /// The operations of a range.
    Operations {
        op_count: Location,
        start_loc: Location,
        max_ops: NonZeroU64,
        pinned: bool,
    },
    /// The target.
    SyncTarget,
    /// The compact target.
    CompactTarget,
    /// The state of a compact target.
    CompactState {
        target: CompactTarget,
    },
}

impl Ask {
    /// The request that asks this under a number.
    pub fn request<Op>(&self, number: u64) -> Message<Op>
        ensures request { result ≡ request_of number self.now }
        ensures sound { IsSoundAsk self.now }
    {
        match self {
            Ask::Operations {
                op_count,
                start_loc,
                max_ops,
                pinned,
            } => Message::GetOperationsRequest(GetOperationsRequest {
                request_id: number,
                op_count: *op_count,
                start_loc: *start_loc,
                max_ops: *max_ops,
                include_pinned_nodes: *pinned,
            }),
            Ask::SyncTarget => Message::GetSyncTargetRequest(GetSyncTargetRequest {
                request_id: number,
            }),
            Ask::CompactTarget => {
                Message::GetCompactTargetRequest(GetCompactTargetRequest { request_id: number })
            }
            Ask::CompactState { target } => {
                let _size = digest_size(&target.root);
                Message::GetCompactStateRequest(GetCompactStateRequest {
                    request_id: number,
                    target: *target,
                })
            }
        }
    }
}

/// The number of bytes of a digest.
fn digest_size(digest: &Digest) -> usize
    ensures { length digest.now ≡ 32 }
{
    digest.len()
}

/// An ask that waits for its answer.
#[derive(Clone, Copy, Debug, PartialEq, Eq)]
pub struct Pending {
    /// The number under which it is asked.
    pub number: u64,
    /// What is asked.
    pub ask: Ask,
}

/// A request that was made.
#[derive(Drop)]
pub struct Submitted {
    /// Its number.
    pub number: u64,
    /// The bytes to be sent.
    pub frame: Vec<u8>,
}

/// What came in.
#[derive(Drop)]
pub enum Answer<Op> {
    /// The answer to what is no longer pending.
    Reply {
        number: u64,
        ask: Ask,
        message: Message<Op>,
    },
    /// A message under a number that isn't pending.
    Stray {
        number: u64,
    },
}
