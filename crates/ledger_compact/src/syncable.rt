//! Whatever a compact log can be made of.
ghost use Rattle.std.specs.Prelude.{◌≡◌, ◌+◌, ◌≤◌, None, Option, Some, IsOkUnless, IfOk, option_map};
ghost use Rattle.ledger_log.specs.View.{log_size, log_peaks_at};
ghost use Rattle.ledger_compact.specs.View.{CompactView, compact_of, last_op, target_of, state_of};
ghost use Rattle.ledger_compact.specs.Refusals.{state_refusal};

use crate::CompactLog;
use ledger_codec::{Digest, List};
use ledger_log::{CompactFamily, CompactState, CompactTarget, Log, LogFault};
use ledger_merkle::{Hasher, Location, Proof};

/// A log of which a target and a state can be told: full or compact.
pub trait CompactSyncable<F: CompactFamily, H: Hasher> {
    // What is kept of it, which is None of no log.
    ghost kept: { Self → Option (CompactView F.Op) };

    /// What a client is told to sync to: the root and the size. It takes no memory.
    fn target(&self) -> CompactTarget
        ensures { option_map (target_of H.digest) (kept self.now) ≡ Some result };

    /// The peaks, the last commit and its proof, which [`CompactLog::from_state`] takes with the target.
    /// Refused for want of memory alone.
    fn state(&self) -> Result<CompactState<F::Op>, LogFault>
        ensures may { IsOkUnless result LogFault.OutOfMemory }
        ensures ok { IfOk result (λ state. option_map state_of (kept self.now) ≡ Some state) }
        ensures taken { (log : CompactView F.Op) → kept self.now ≡ Some log
            → state_refusal H.digest F.Op.spelling F.floor_of (target_of H.digest log) (state_of log)
            ≡ None };
}

impl<F: CompactFamily, H: Hasher> CompactSyncable<F, H> for CompactLog<F, H> {
    ghost use Rattle.std.specs.Prelude.{Some};

    ghost kept = { λ log. Some log };

    fn target(&self) -> CompactTarget {
        CompactLog::target(self)
    }

    fn state(&self) -> Result<CompactState<F::Op>, LogFault> {
        CompactLog::state(self)
    }
}

impl<F: CompactFamily, H: Hasher> CompactSyncable<F, H> for Log<F, H> {
    ghost kept = { compact_of H.digest F.Op.spelling };

    fn target(&self) -> CompactTarget {
        let _last = last_commit(self);
        CompactTarget {
            root: self.root(),
            leaf_count: self.size(),
        }
    }

    fn state(&self) -> Result<CompactState<F::Op>, LogFault> {
        let size = self.size();
        let place = last_place(self);
        let last = last_commit(self);
        let nodes = retained_peaks(self, size)?;
        let digests = retained_peaks(self, place)?;
        Ok(CompactState {
            leaf_count: size,
            pinned_nodes: nodes,
            last_commit_op: last,
            last_commit_proof: Proof {
                leaves: size,
                inactive_peaks: 0,
                digests,
            },
        })
    }
}

/// The place of the last commit.
fn last_place<F: CompactFamily, H: Hasher>(log: &Log<F, H>) -> Location
    ensures next { result + 1 ≡ log_size log.now }
    ensures least { log.now.front ≤ result }
    ensures taken { (c : CompactView F.Op) →
        compact_of H.digest F.Op.spelling log.now ≡ Some c →
        state_refusal H.digest F.Op.spelling F.floor_of (target_of H.digest c) (state_of c) ≡ None }
{
    let _front = log.front();
    let _floor = log.floor();
    Location::ZERO.plus(log.size().get() - 1)
}

/// The last commit.
fn last_commit<F: CompactFamily, H: Hasher>(log: &Log<F, H>) -> F::Op
    ensures { last_op log.now.ops ≡ Some result }
{
    match log.op_at(last_place(log)) {
        Some(op) => *op,
        None => unreachable!(),
    }
}

/// The peaks of the first operations, at a place from the front on.
fn retained_peaks<F: CompactFamily, H: Hasher>(
    log: &Log<F, H>,
    at: Location,
) -> Result<List<Digest>, LogFault>
    requires least { log.now.front ≤ at }
    requires most { at ≤ log_size log.now }
    ensures may { IsOkUnless result LogFault.OutOfMemory }
    ensures nodes { IfOk result (λ nodes. nodes ≡ log_peaks_at H.digest F.Op.spelling log.now at) }
{
    match log.pinned_nodes_at(at) {
        Ok(nodes) => Ok(List::from_vec(nodes)),
        Err(fault) => Err(fault),
    }
}
