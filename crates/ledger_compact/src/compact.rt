//! The compact log: the size, the peaks, the last commit and what proves it.
ghost use Rattle.std.specs.Prelude.{◌≡◌, ◌+◌, ◌<◌, ◌≤◌, ◌^◌, ◌∷◌, [], None, Some, MatchOption, IsOk, IsOkUnless, IfOk, OnOk, OnErr, length};
ghost use Rattle.ledger_log.specs.View.{LogView, batch_floor};
ghost use Rattle.ledger_compact.specs.View.{CompactView, compact_of, with_batch, with_ops, fresh_log, compact_root, target_of, state_of, view_of};
ghost use Rattle.ledger_compact.specs.Refusals.{compact_refusal, state_refusal};

use crate::admission::admit;
use crate::growth::{peaks_after, pushed};
use crate::item::is_last;
use ledger_codec::{Digest, List, OutOfMemory};
use ledger_log::{CompactFamily, CompactState, CompactTarget, LogFault};
use ledger_merkle::{Hasher, Location, Peaks, Proof};
use std::alloc::Global;
use std::marker::{Model, PhantomData};

/// A log without its operations: its size, its peaks, and its last commit with the peaks before it, which
/// prove it. It stands for each log that has these. All calls keep it as it was where they are refused.
#[derive(Drop)]
pub struct CompactLog<F: CompactFamily, H: Hasher> {
    alloc: Global,
    peaks: Peaks<H>,
    before: Vec<Digest>,
    last: F::Op,
    floor: Location,
    family: PhantomData<F>,
}

impl<F: CompactFamily, H: Hasher> Model for CompactLog<F, H> {
    ghost use Rattle.std.specs.Prelude.{◌≡◌, ◌<◌, ◌≤◌, ◌^◌, ◌-◌, ◌∷◌, [], length, count_ones, Some};
    ghost use Rattle.ledger_merkle.specs.Tree.{root};
    ghost use Rattle.ledger_merkle.specs.Range.{RangeOk};
    ghost use Rattle.ledger_compact.specs.View.{CompactView};

    ghost Value = { CompactView F.Op };

    ghost view = { λ l. record { size = l.peaks.size; nodes = l.peaks.nodes; before = l.before.items; last = l.last } };

    ghost invariant = { λ l. (l.peaks.size ≤ 2 ^ 62) × (length l.peaks.nodes ≡ count_ones l.peaks.size) × (F.floor_of l.last ≡ Some l.floor) × (l.floor < l.peaks.size) × RangeOk H.digest (root H.digest l.peaks.size l.peaks.nodes) l.peaks.size 0 l.before.items l.peaks.size (l.peaks.size - 1) (F.Op.spelling l.last ∷ []) };
}

impl<F: CompactFamily, H: Hasher> CompactLog<F, H> {
    /// A log of one commit, without metadata and with floor 0. Refused for want of memory alone.
    pub fn fresh(alloc: Global) -> Result<CompactLog<F, H>, LogFault>
        ensures may { IsOkUnless result LogFault.OutOfMemory }
        ensures ok { IfOk result (λ log. compact_of H.digest F.Op.spelling (fresh_log F.commit_of)
            ≡ Some log) }
    {
        let last = F::commit(None, Location::ZERO);
        let peaks = pushed(Peaks::<H>::new(alloc), &last)?;
        Ok(CompactLog {
            alloc,
            peaks,
            before: Vec::new(alloc),
            last,
            floor: Location::ZERO,
            family: PhantomData,
        })
    }

    /// The compact log that the state describes. Refused, in this order, where its size isn't the target's
    /// or is 0, where the number of nodes is wrong, where they have another root, where the operation is no
    /// commit, where it isn't proved at the last place, and where its floor is above that place. It takes no
    /// memory.
    pub fn from_state(
        alloc: Global,
        target: &CompactTarget,
        state: CompactState<F::Op>,
    ) -> Result<CompactLog<F, H>, LogFault>
        ensures refusal { MatchOption (state_refusal H.digest F.Op.spelling F.floor_of target.now state)
            (IsOk result) (λ fault. result ≡ Err fault) }
        ensures ok { IfOk result (λ log. log ≡ view_of state) }
        ensures same { IfOk result (λ log. state ≡ state_of log) }
    {
        let size = state.leaf_count;
        if size != target.leaf_count || size.get() == 0 {
            return Err(LogFault::Size);
        }
        let needed = size.get().count_ones() as usize;
        let nodes = state.pinned_nodes.into_vec();
        let Some(peaks) = Peaks::<H>::from_parts(alloc, size, nodes) else {
            return Err(LogFault::Nodes { needed });
        };
        let found = peaks.root();
        if found != target.root {
            return Err(LogFault::WrongRoot { found });
        }
        let last = state.last_commit_op;
        let Some(floor) = F::commit_floor(&last) else {
            return Err(LogFault::NoCommit);
        };
        let proof = state.last_commit_proof;
        if !is_last::<H, F::Op>(&target.root, size, &last, &proof) {
            return Err(LogFault::BadCommitProof);
        }
        if size.get() <= floor.get() {
            return Err(LogFault::FloorOutside { floor });
        }
        Ok(CompactLog {
            alloc,
            peaks,
            before: proof.digests.into_vec(),
            last,
            floor,
            family: PhantomData,
        })
    }

    /// The number of operations.
    pub fn size(&self) -> Location
        ensures size { result ≡ self.now.size }
        ensures least { 1 ≤ self.now.size }
        ensures most { self.now.size ≤ 2 ^ 62 }
    {
        let _floor = self.floor.get();
        self.peaks.size()
    }

    /// The root over all operations. It takes no memory.
    pub fn root(&self) -> Digest
        ensures { result ≡ compact_root H.digest self.now }
    {
        self.peaks.root()
    }

    /// The floor of the last commit: nobody needs the operations below it.
    pub fn floor(&self) -> Location
        ensures floor { F.floor_of self.now.last ≡ Some result }
        ensures most { result < self.now.size }
    {
        self.floor
    }

    /// The last commit.
    pub fn last_commit(&self) -> F::Op
        ensures { result ≡ self.now.last }
    {
        self.last
    }

    /// Appends a batch: some operations, and behind them its one commit. Refused, in this order, where the
    /// last operation isn't the batch's one commit, where its floor is below the log's, where its floor is
    /// above its own place, and where the log would be too long. All or nothing.
    pub fn append_batch(&mut self, ops: &[F::Op]) -> Result<(), LogFault>
        ensures refusal { MatchOption (compact_refusal F.floor_of self.old ops.now)
            (IsOkUnless result LogFault.OutOfMemory) (λ fault. result ≡ Err fault) }
        ensures ok { IfOk result (λ _. self.new ≡ with_batch H.digest F.Op.spelling self.old ops.now) }
        ensures stands { OnOk result ((log : LogView F.Op) →
            compact_of H.digest F.Op.spelling log ≡ Some self.old →
            compact_of H.digest F.Op.spelling (with_ops log ops.now) ≡ Some self.new) }
        ensures err { OnErr result (self.new ≡ self.old) }
    {
        let floor = match admit::<F>(self.size(), self.floor, ops) {
            Ok(floor) => floor,
            Err(fault) => return Err(fault),
        };
        self.grow(ops, floor)?;
        Ok(())
    }

    /// Appends operations that end with a commit of this floor.
    fn grow(&mut self, ops: &[F::Op], floor: Location) -> Result<(), OutOfMemory>
        requires commit { batch_floor F.floor_of ops.now ≡ Some floor }
        requires within { floor < self.old.size + length ops.now }
        requires most { self.old.size + length ops.now ≤ 2 ^ 62 }
        ensures ok { OnOk result (self.new ≡ with_batch H.digest F.Op.spelling self.old ops.now) }
        ensures err { OnErr result (self.new ≡ self.old) }
    {
        let Some((last, others)) = ops.split_last() else {
            return Ok(());
        };
        let grown = peaks_after(self.alloc, &self.peaks, others, last)?;
        self.peaks = grown.peaks;
        self.before = grown.before;
        self.last = *last;
        self.floor = floor;
        Ok(())
    }

    /// What a client is told to sync to.
    pub fn target(&self) -> CompactTarget
        ensures { result ≡ target_of H.digest self.now }
    {
        CompactTarget {
            root: self.root(),
            leaf_count: self.size(),
        }
    }

    /// The peaks, the last commit and its proof, which [`CompactLog::from_state`] takes with the target.
    /// Refused for want of memory alone.
    pub fn state(&self) -> Result<CompactState<F::Op>, LogFault>
        ensures may { IsOkUnless result LogFault.OutOfMemory }
        ensures ok { IfOk result (λ state. state ≡ state_of self.now) }
        ensures taken { state_refusal H.digest F.Op.spelling F.floor_of (target_of H.digest self.now)
            (state_of self.now)
            ≡ None }
    {
        let size = self.peaks.size();
        let nodes = Vec::from_slice(self.alloc, self.peaks.nodes())?;
        let before = Vec::from_slice(self.alloc, self.before.as_slice())?;
        Ok(CompactState {
            leaf_count: size,
            pinned_nodes: List::from_vec(nodes),
            last_commit_op: self.last,
            last_commit_proof: Proof {
                leaves: size,
                inactive_peaks: 0,
                digests: List::from_vec(before),
            },
        })
    }

    /// An equal log. Refused for want of memory alone.
    pub fn copy(&self) -> Result<CompactLog<F, H>, LogFault>
        ensures may { IsOkUnless result LogFault.OutOfMemory }
        ensures ok { IfOk result (λ log. log ≡ self.now) }
    {
        Ok(CompactLog {
            alloc: self.alloc,
            peaks: self.peaks.copy()?,
            before: Vec::from_slice(self.alloc, self.before.as_slice())?,
            last: self.last,
            floor: self.floor,
            family: PhantomData,
        })
    }
}
