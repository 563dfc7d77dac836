//! What a server asks of a full log.
ghost use Rattle.std.specs.Prelude.{◌≡◌, ◌-◌, ◌<◌, ◌≤◌, ◌^◌, Some, min, map, length, count_ones, MatchOption, IsOkUnless, IfOk};
ghost use Rattle.std.specs.Int.NonZero.{non_zero_u64_get};
ghost use Rattle.ledger_merkle.specs.Range.{RangeOk};
ghost use Rattle.ledger_merkle.specs.Levels.{proof_digests};
ghost use Rattle.ledger_log.specs.View.{LogView, log_size, log_list, log_range, log_peaks_at, log_root_at, last_floor};
ghost use Rattle.ledger_log.specs.Faults.{range_refusal};

use ledger_codec::Digest;
use ledger_log::{Family, Log, LogFault};
use ledger_merkle::{Hasher, Location, Proof};
use std::num::NonZeroU64;

/// A database from which operations are fetched with their proofs.
pub trait Syncable<F: Family, H: Hasher> {
    // The log that it holds.
    ghost log: { Self → LogView F.Op };

    /// The number of operations.
    fn size(&self) -> Location
        ensures size { result ≡ log_size (log self.now) }
        ensures most { log_size (log self.now) ≤ 2 ^ 62 };

    /// Where a client's range has to begin: the floor of the last commit.
    fn sync_boundary(&self) -> Location
        ensures floor { last_floor F.floor_of (log self.now).ops ≡ Some result }
        ensures least { (log self.now).front ≤ result }
        ensures most { result < log_size (log self.now) };

    /// At most `max_ops` operations from `start_loc` on among the first `op_count`, with their proof. Refused
    /// where `op_count` is above the size, else where `start_loc` is below the front.
    fn historical_proof(
        &self,
        op_count: Location,
        start_loc: Location,
        max_ops: NonZeroU64,
    ) -> Result<(Proof, Vec<F::Op>), LogFault>
        requires { start_loc < op_count }
        ensures refusal { MatchOption (range_refusal (log self.now) op_count start_loc)
            (IsOkUnless result LogFault.OutOfMemory) (λ fault. result ≡ Err fault) }
        ensures ops { IfOk result (λ r.
            r.1.items
            ≡ log_range (log self.now) start_loc
            (min (non_zero_u64_get max_ops) (op_count - start_loc))) }
        ensures count { IfOk result (λ r. length r.1.items
            ≡ min (non_zero_u64_get max_ops) (op_count - start_loc)) }
        ensures exact { IfOk result (λ r.
            r.0
            ≡ record {
              leaves = op_count;
              inactive_peaks = 0;
              digests = proof_digests H.digest (log_list H.digest F.Op.spelling (log self.now))
                  op_count start_loc (min (non_zero_u64_get max_ops) (op_count - start_loc));
            }) }
        ensures holds { IfOk result (λ r.
            RangeOk H.digest (log_root_at H.digest F.Op.spelling (log self.now) op_count) r.0.leaves
            r.0.inactive_peaks r.0.digests op_count start_loc (map F.Op.spelling r.1.items)) };

    /// The peaks of the first `loc` operations. Refused where `loc` is above the size, else where it is below
    /// the front.
    fn pinned_nodes_at(&self, loc: Location) -> Result<Vec<Digest>, LogFault>
        ensures refusal { MatchOption (range_refusal (log self.now) loc loc)
            (IsOkUnless result LogFault.OutOfMemory) (λ fault. result ≡ Err fault) }
        ensures nodes { IfOk result (λ nodes. nodes.items
            ≡ log_peaks_at H.digest F.Op.spelling (log self.now) loc) }
        ensures count { IfOk result (λ nodes. length nodes.items ≡ count_ones loc) };
}

impl<F: Family, H: Hasher> Syncable<F, H> for Log<F, H> {
    ghost log = { λ log. log };

    fn size(&self) -> Location {
        Log::size(self)
    }

    fn sync_boundary(&self) -> Location {
        Log::sync_boundary(self)
    }

    fn historical_proof(
        &self,
        op_count: Location,
        start_loc: Location,
        max_ops: NonZeroU64,
    ) -> Result<(Proof, Vec<F::Op>), LogFault> {
        Log::historical_proof(self, op_count, start_loc, max_ops)
    }

    fn pinned_nodes_at(&self, loc: Location) -> Result<Vec<Digest>, LogFault> {
        Log::pinned_nodes_at(self, loc)
    }
}
