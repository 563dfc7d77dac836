//! The log: its Merkle list, the operations that it retains, and an index of their keys.
ghost use Rattle.std.specs.Prelude.{◌≡◌, ℕ, All, ◌+◌, ◌-◌, ◌<◌, ◌≤◌, ◌^◌, ◌⊎◌, ◌++◌, ◌∷◌, [], None, List as Items, length, map, min, Some, MatchOption, IsOkUnless, IfOk, OnOk, OnErr, IfSome, slice_get, take, drop, count_ones, IsOk};
ghost use Rattle.std.specs.Int.NonZero.{non_zero_u64_get};
ghost use Rattle.ledger_merkle.specs.Range.{RangeOk};
ghost use Rattle.ledger_merkle.specs.Leaves.{ListView, leaves_from, list_size};
ghost use Rattle.ledger_merkle.specs.Levels.{proof_digests};
ghost use Rattle.ledger_log.specs.View.{LogView, log_size, log_root, log_list, log_range, log_peaks_at, log_root_at, log_floor, pruned, last_floor, batch_floor, value_at, key_written, KeptAbove};
ghost use Rattle.ledger_log.specs.Index.{HasEntry, end_at};
ghost use Rattle.ledger_log.specs.Faults.{parts_refusal, ops_refusal, append_refusal, batches_refusal, range_refusal, prune_refusal};

mod active;

use crate::index::{Index, copy_of, forget, forget_unwritten, index_of, look_up, make_room, note};
use crate::{Family, Key, KeyedFamily, LogFault, Value};
use ledger_codec::{Digest, OutOfMemory};
use ledger_merkle::{Hasher, Leaf, Location, MAX_LEAVES, MerkleList, Proof, Retained};
use std::alloc::Global;
use std::marker::{Model, PhantomData};
use std::num::NonZeroU64;

/// A log of a family: its front, the peaks there, and the operations from there on, the last of which is a
/// commit. All calls keep it as it was where they are refused.
#[derive(Drop)]
pub struct Log<F: Family, H: Hasher> {
    alloc: Global,
    list: MerkleList<H>,
    ops: Retained<F::Op>,
    index: Index,
    floor: Location,
    family: PhantomData<F>,
}

impl<F: Family, H: Hasher> Model for Log<F, H> {
    ghost use Rattle.std.specs.Prelude.{◌≡◌, ◌<◌, ◌≤◌, ◌^◌, ◌+◌, length, count_ones, map, Some};
    ghost use Rattle.ledger_merkle.specs.Leaves.{leaves_from};
    ghost use Rattle.ledger_log.specs.View.{LogView, last_floor};
    ghost use Rattle.ledger_log.specs.Index.{IsIndex};

    ghost Value = { LogView F.Op };

    ghost view = { λ l. record { front = l.list.front; pinned = l.list.pinned; ops = l.ops } };

    ghost invariant = { λ l. (length l.list.pinned ≡ count_ones l.list.front) × (l.list.front + length l.ops ≤ 2 ^ 62) × (length l.list.leaves ≡ length l.ops) × (l.list.leaves ≡ leaves_from H.digest l.list.front (map F.Op.spelling l.ops)) × (last_floor F.floor_of l.ops ≡ Some l.floor) × (l.list.front ≤ l.floor) × (l.floor < l.list.front + length l.ops) × IsIndex F.write_of l.index l.list.front l.ops };
}

impl<F: Family, H: Hasher> Log<F, H> {
    /// A log of one commit, without metadata and with floor 0. Refused for want of memory alone.
    pub fn fresh(alloc: Global) -> Result<Log<F, H>, LogFault>
        ensures may { IsOkUnless result LogFault.OutOfMemory }
        ensures ok { IfOk result
            (λ log. log ≡ record { front = 0; pinned = []; ops = F.commit_of None 0 ∷ [] }) }
    {
        let mut ops = Vec::new(alloc);
        ops.push(F::commit(None, Location::ZERO))?;
        Log::from_parts(alloc, Vec::new(alloc), Location::ZERO, ops)
    }

    /// The log with these pinned nodes at `start` and these operations from there on. Refused, in this order,
    /// where the number of nodes isn't that of the binary ones of `start`, where the log would be too long,
    /// where the last operation is no commit, and where its floor is below `start` or above its own place.
    pub fn from_parts(
        alloc: Global,
        pinned: Vec<Digest>,
        start: Location,
        ops: Vec<F::Op>,
    ) -> Result<Log<F, H>, LogFault>
        ensures refusal { MatchOption
            (parts_refusal F.floor_of (record { front = start; pinned = pinned.items; ops = ops.items }))
            (IsOkUnless result LogFault.OutOfMemory) (λ fault. result ≡ Err fault) }
        ensures ok { IfOk result
            (λ log. log ≡ record { front = start; pinned = pinned.items; ops = ops.items }) }
    {
        let needed = start.get().count_ones() as usize;
        let Some(list) = MerkleList::<H>::from_parts(alloc, start, pinned) else {
            return Err(LogFault::Nodes { needed });
        };
        let floor = floor_behind::<F>(start, ops.as_slice())?;
        let list = grown(list, ops.as_slice())?;
        let ops = Retained::from_vec(alloc, ops);
        Ok(Log::with_floor(alloc, list, ops, floor)?)
    }

    /// The log of these operations, whose leaves `list` holds already: what `from_parts` gives, with nothing
    /// hashed again. Refused as `from_parts` is.
    pub fn from_list(
        alloc: Global,
        list: MerkleList<H>,
        ops: Vec<F::Op>,
    ) -> Result<Log<F, H>, LogFault>
        requires { list.leaves ≡ leaves_from H.digest list.front (map F.Op.spelling ops.items) }
        ensures refusal { MatchOption
            (parts_refusal F.floor_of
            (record { front = list.front; pinned = list.pinned; ops = ops.items }))
            (IsOkUnless result LogFault.OutOfMemory) (λ fault. result ≡ Err fault) }
        ensures ok { IfOk result
            (λ log. log ≡ record { front = list.front; pinned = list.pinned; ops = ops.items }) }
    {
        let floor = floor_behind::<F>(list.front(), ops.as_slice())?;
        let ops = Retained::from_vec(alloc, ops);
        Ok(Log::with_floor(alloc, list, ops, floor)?)
    }

    /// The log of these operations, whose leaves the list holds, with this last floor.
    fn with_floor(
        alloc: Global,
        list: MerkleList<H>,
        ops: Retained<F::Op>,
        floor: Location,
    ) -> Result<Log<F, H>, OutOfMemory>
        requires leaves { list.leaves ≡ leaves_from H.digest list.front (map F.Op.spelling ops) }
        requires floor { last_floor F.floor_of ops ≡ Some floor }
        requires least { list.front ≤ floor }
        requires most { floor < list.front + length ops }
        requires room { list.front + length ops ≤ 2 ^ 62 }
        ensures { IfOk result
            (λ log. log ≡ record { front = list.front; pinned = list.pinned; ops = ops }) }
    {
        let index = index_of::<F>(alloc, ops.as_slice(), list.front().get())?;
        Ok(Log {
            alloc,
            list,
            ops,
            index,
            floor,
            family: PhantomData,
        })
    }

    /// The leaves of the operations.
    fn list(&self) -> &MerkleList<H>
        ensures list { result.now ≡ log_list H.digest F.Op.spelling self.now }
        ensures size { list_size result.now ≡ log_size self.now }
    {
        let _ops = &self.ops;
        &self.list
    }

    /// The number of operations, with those below the front.
    pub fn size(&self) -> Location
        ensures size { result ≡ log_size self.now }
        ensures most { log_size self.now ≤ 2 ^ 62 }
    {
        let _ops = &self.ops;
        self.list.size()
    }

    /// The first retained place.
    pub fn front(&self) -> Location
        ensures front { result ≡ self.now.front }
        ensures pins { length self.now.pinned ≡ count_ones self.now.front }
    {
        self.list.front()
    }

    /// The floor of the last commit: nobody needs the operations below it.
    pub fn floor(&self) -> Location
        ensures floor { last_floor F.floor_of self.now.ops ≡ Some result }
        ensures least { self.now.front ≤ result }
        ensures most { result < log_size self.now }
    {
        self.floor
    }

    /// Where a client's range has to begin, so that it has all that is needed: the floor.
    pub fn sync_boundary(&self) -> Location
        ensures floor { last_floor F.floor_of self.now.ops ≡ Some result }
        ensures least { self.now.front ≤ result }
        ensures most { result < log_size self.now }
    {
        self.floor
    }

    /// The root over all operations. It takes no memory.
    pub fn root(&self) -> Digest
        ensures { result ≡ log_root H.digest F.Op.spelling self.now }
    {
        self.list().root()
    }

    /// The operation at this place, None exactly outside front to size.
    pub fn op_at(&self, loc: Location) -> Option<&F::Op>
        ensures { MatchOption result ((loc < self.now.front) ⊎ (log_size self.now ≤ loc))
            (λ op. (self.now.front ≤ loc) × (slice_get self.now.ops (loc - self.now.front) ≡ Some op.now)) }
    {
        let place = loc.get().checked_sub(self.list.front().get())?;
        self.ops.as_slice().get(place as usize)
    }

    /// Appends a batch: some operations, and behind them its one commit. Refused, in this order, where the
    /// last operation isn't the batch's one commit, where its floor is below the log's, where its floor is
    /// above its own place, and where the log would be too long. All or nothing, in time linear in the batch.
    pub fn append_batch(&mut self, ops: &[F::Op]) -> Result<(), LogFault>
        ensures refusal { MatchOption (append_refusal F.floor_of self.old ops.now)
            (IsOkUnless result LogFault.OutOfMemory) (λ fault. result ≡ Err fault) }
        ensures ok { IfOk result (λ _.
            self.new
            ≡ record {
              front = self.old.front;
              pinned = self.old.pinned;
              ops = self.old.ops ++ ops.now;
            }) }
        ensures err { OnErr result (self.new ≡ self.old) }
    {
        let Some(_floor) = floor_of_batch::<F>(ops) else {
            return Err(LogFault::NotABatch);
        };
        self.append_batches(ops)
    }

    /// Appends batches, one behind the other: all of them or none, in time linear in them. Refused as
    /// `append_batch` refuses one batch of all these operations, with the commits before the last one allowed;
    /// that each batch by itself would be taken is for the caller to test.
    pub fn append_batches(&mut self, ops: &[F::Op]) -> Result<(), LogFault>
        ensures refusal { MatchOption (batches_refusal F.floor_of self.old ops.now)
            (IsOkUnless result LogFault.OutOfMemory) (λ fault. result ≡ Err fault) }
        ensures ok { IfOk result (λ _.
            self.new
            ≡ record {
              front = self.old.front;
              pinned = self.old.pinned;
              ops = self.old.ops ++ ops.now;
            }) }
        ensures err { OnErr result (self.new ≡ self.old) }
    {
        let Some(floor) = floor_of_last::<F>(ops) else {
            return Err(LogFault::NotABatch);
        };
        let current = self.floor;
        if floor.get() < current.get() {
            return Err(LogFault::FloorRegressed { floor, current });
        }
        let old_size = self.size();
        let size = old_size.get().saturating_add(ops.len() as u64);
        if size - 1 < floor.get() {
            return Err(LogFault::FloorBeyond {
                floor,
                location: Location::ZERO.plus(size - 1),
            });
        }
        if size > MAX_LEAVES {
            return Err(LogFault::Full { size: old_size });
        }
        extend_all::<F, H>(&mut self.index, &mut self.list, &mut self.ops, ops)?;
        note::<F>(&mut self.index, ops, old_size.get());
        self.floor = floor;
        Ok(())
    }

    /// At most `max_ops` operations from `start_loc` on among the first `op_count`, with their proof in the
    /// tree of these. Refused where `op_count` is above the size, else where `start_loc` is below the front.
    pub fn historical_proof(
        &self,
        op_count: Location,
        start_loc: Location,
        max_ops: NonZeroU64,
    ) -> Result<(Proof, Vec<F::Op>), LogFault>
        requires { start_loc < op_count }
        ensures refusal { MatchOption (range_refusal self.now op_count start_loc)
            (IsOkUnless result LogFault.OutOfMemory) (λ fault. result ≡ Err fault) }
        ensures ops { IfOk result (λ r.
            r.1.items
            ≡ log_range self.now start_loc (min (non_zero_u64_get max_ops) (op_count - start_loc))) }
        ensures count { IfOk result (λ r. length r.1.items
            ≡ min (non_zero_u64_get max_ops) (op_count - start_loc)) }
        ensures exact { IfOk result (λ r.
            r.0
            ≡ record {
              leaves = op_count;
              inactive_peaks = 0;
              digests = proof_digests H.digest (log_list H.digest F.Op.spelling self.now) op_count
                  start_loc (min (non_zero_u64_get max_ops) (op_count - start_loc));
            }) }
        ensures holds { IfOk result (λ r.
            RangeOk H.digest (log_root_at H.digest F.Op.spelling self.now op_count) r.0.leaves
            r.0.inactive_peaks r.0.digests op_count start_loc (map F.Op.spelling r.1.items)) }
    {
        let size = self.size();
        if size.get() < op_count.get() {
            return Err(LogFault::Beyond { size });
        }
        let front = self.front();
        if start_loc.get() < front.get() {
            return Err(LogFault::Pruned { front });
        }
        let count = max_ops.get().min(op_count.get() - start_loc.get());
        let proof = self.list().proof(op_count, start_loc, count)?;
        let place = (start_loc.get() - front.get()) as usize;
        let ops = copy_range(self.alloc, self.ops.as_slice(), place, count as usize)?;
        Ok((proof, ops))
    }

    /// The peaks of the first `loc` operations. Refused where `loc` is above the size, else where it is below
    /// the front.
    pub fn pinned_nodes_at(&self, loc: Location) -> Result<Vec<Digest>, LogFault>
        ensures refusal { MatchOption (range_refusal self.now loc loc)
            (IsOkUnless result LogFault.OutOfMemory) (λ fault. result ≡ Err fault) }
        ensures nodes { IfOk result (λ nodes. nodes.items
            ≡ log_peaks_at H.digest F.Op.spelling self.now loc) }
        ensures count { IfOk result (λ nodes. length nodes.items ≡ count_ones loc) }
    {
        let size = self.size();
        if size.get() < loc.get() {
            return Err(LogFault::Beyond { size });
        }
        let front = self.front();
        if loc.get() < front.get() {
            return Err(LogFault::Pruned { front });
        }
        let nodes = self.list().pinned(loc)?;
        Ok(nodes)
    }

    /// Drops the operations below `loc`, where that is above the front. Refused exactly where `loc` is above
    /// the floor. Root, size and floor stay.
    pub fn prune(&mut self, loc: Location) -> Result<(), LogFault>
        ensures refusal { MatchOption (prune_refusal F.floor_of self.old loc)
            (IsOkUnless result LogFault.OutOfMemory) (λ fault. result ≡ Err fault) }
        ensures ok { IfOk result (λ _. self.new ≡ pruned H.digest F.Op.spelling self.old loc) }
        ensures size { log_size self.new ≡ log_size self.old }
        ensures root { log_root H.digest F.Op.spelling self.new ≡ log_root H.digest F.Op.spelling self.old }
        ensures kept { OnOk result (KeptAbove H.digest F.Op.spelling self.old self.new) }
        ensures err { OnErr result (self.new ≡ self.old) }
    {
        let floor = self.floor();
        if floor.get() < loc.get() {
            return Err(LogFault::AboveFloor { floor });
        }
        if self.front().get() < loc.get() {
            self.drop_below(loc)?;
        }
        Ok(())
    }

    /// Drops the operations below a place from the front to the floor.
    fn drop_below(&mut self, loc: Location) -> Result<(), OutOfMemory>
        requires least { self.old.front ≤ loc }
        requires most { loc ≤ log_floor F.floor_of self.old }
        ensures ok { OnOk result (self.new
            ≡ record {
              front = loc;
              pinned = log_peaks_at H.digest F.Op.spelling self.old loc;
              ops = drop (loc - self.old.front) self.old.ops;
            }) }
        ensures kept { OnOk result (KeptAbove H.digest F.Op.spelling self.old self.new) }
        ensures err { OnErr result (self.new ≡ self.old) }
    {
        let front = self.list.front().get();
        self.list.prune(loc)?;
        let count = (loc.get() - front) as usize;
        forget::<F>(&mut self.index, &self.ops.as_slice()[..count], loc.get());
        self.ops.skip(count);
        Ok(())
    }

    /// How many keys the index has.
    #[cfg(test)]
    pub(crate) fn entry_count(&self) -> usize {
        self.index.len()
    }

    /// An equal log. Refused for want of memory alone.
    pub fn copy(&self) -> Result<Log<F, H>, LogFault>
        ensures may { IsOkUnless result LogFault.OutOfMemory }
        ensures ok { IfOk result (λ log. log ≡ self.now) }
    {
        Ok(Log {
            alloc: self.alloc,
            list: self.list.copy()?,
            ops: self.ops.copy()?,
            index: copy_of(&self.index)?,
            floor: self.floor,
            family: PhantomData,
        })
    }
}

impl<F: KeyedFamily, H: Hasher> Log<F, H> {
    /// The value of the key's last write among the retained operations, None where there is none or it is a
    /// deletion. One look-up.
    pub fn get(&self, key: &Key) -> Option<Value>
        ensures { result ≡ value_at F.write_of key.now self.now.ops }
    {
        look_up::<F>(
            &self.index,
            self.ops.as_slice(),
            self.list.front().get(),
            key,
        )
    }
}

/// The floor of the last operation, None where there is none or it is no commit.
fn floor_of_last<F: Family>(ops: &[F::Op]) -> Option<Location>
    ensures floor { result ≡ last_floor F.floor_of ops.now }
    ensures most { IfSome result (λ f. f ≤ 2 ^ 62) }
{
    let (last, _) = ops.split_last()?;
    F::commit_floor(last)
}

/// The floor of the last of these operations, which begin at `start`, where they are a log.
fn floor_behind<F: Family>(start: Location, ops: &[F::Op]) -> Result<Location, LogFault>
    ensures refusal { MatchOption (ops_refusal F.floor_of start ops.now) (IsOk result)
        (λ fault. result ≡ Err fault) }
    ensures floor { IfOk result (λ f. last_floor F.floor_of ops.now ≡ Some f) }
    ensures within { IfOk result (λ f. (start ≤ f) × (f < start + length ops.now)) }
    ensures room { OnOk result (start + length ops.now ≤ 2 ^ 62) }
{
    let size = start.get().saturating_add(ops.len() as u64);
    if size > MAX_LEAVES {
        return Err(LogFault::Size);
    }
    let Some(floor) = floor_of_last::<F>(ops) else {
        return Err(LogFault::NoCommit);
    };
    if floor.get() < start.get() || size <= floor.get() {
        return Err(LogFault::FloorOutside { floor });
    }
    Ok(floor)
}

/// The floor of the last operation, None where it isn't the one commit.
fn floor_of_batch<F: Family>(ops: &[F::Op]) -> Option<Location>
    ensures floor { result ≡ batch_floor F.floor_of ops.now }
    ensures most { IfSome result (λ f. f ≤ 2 ^ 62) }
{
    let (last, others) = ops.split_last()?;
    for op in others {
        if F::commit_floor(op).is_some() {
            return None;
        }
    }
    F::commit_floor(last)
}

/// The list with these items as leaves more. A refusal gives the list up.
fn grown<H: Hasher, T: Leaf>(list: MerkleList<H>, items: &[T]) -> Result<MerkleList<H>, OutOfMemory>
    requires { list_size list + length items.now ≤ 2 ^ 62 }
    ensures { IfOk result (λ grown.
        grown
        ≡ record {
          front = list.front;
          pinned = list.pinned;
          leaves = list.leaves ++ leaves_from H.digest (list_size list) (map T.spelling items.now);
        }) }
{
    let mut list = list;
    list.extend(items)?;
    Ok(list)
}

/// Appends the operations and their leaves, and makes entries for their keys: all of it or, where memory is
/// refused, nothing. No entry is left behind.
fn extend_all<F: Family, H: Hasher>(
    index: &mut Index,
    list: &mut MerkleList<H>,
    ops: &mut Retained<F::Op>,
    more: &[F::Op],
) -> Result<(), OutOfMemory>
    requires { list_size list.old + length more.now ≤ 2 ^ 62 }
    ensures same { (k : Items ℕ) → end_at index.new k ≡ end_at index.old k }
    ensures room { OnOk result (All (λ op. HasEntry index.new (key_written (F.write_of op))) more.now) }
    ensures leaves { OnOk result (list.new
        ≡ record {
          front = list.old.front;
          pinned = list.old.pinned;
          leaves = list.old.leaves
              ++ leaves_from H.digest (list_size list.old) (map F.Op.spelling more.now);
        }) }
    ensures ops { OnOk result (ops.new ≡ ops.old ++ more.now) }
    ensures err { OnErr result ((list.new ≡ list.old) × (ops.new ≡ ops.old)) }
{
    match extend_with_room::<F, H>(index, list, ops, more) {
        Ok(()) => Ok(()),
        Err(fault) => {
            forget_unwritten::<F>(index, more);
            Err(fault)
        }
    }
}

/// The same, where a refusal may leave entries behind.
fn extend_with_room<F: Family, H: Hasher>(
    index: &mut Index,
    list: &mut MerkleList<H>,
    ops: &mut Retained<F::Op>,
    more: &[F::Op],
) -> Result<(), OutOfMemory>
    requires { list_size list.old + length more.now ≤ 2 ^ 62 }
    ensures same { (k : Items ℕ) → end_at index.new k ≡ end_at index.old k }
    ensures room { OnOk result (All (λ op. HasEntry index.new (key_written (F.write_of op))) more.now) }
    ensures leaves { OnOk result (list.new
        ≡ record {
          front = list.old.front;
          pinned = list.old.pinned;
          leaves = list.old.leaves
              ++ leaves_from H.digest (list_size list.old) (map F.Op.spelling more.now);
        }) }
    ensures ops { OnOk result (ops.new ≡ ops.old ++ more.now) }
    ensures err { OnErr result ((list.new ≡ list.old) × (ops.new ≡ ops.old)) }
{
    make_room::<F>(index, more)?;
    extend_both(list, ops, more)
}

/// Appends the operations and their leaves: both or, where memory is refused, neither.
fn extend_both<H: Hasher, T: Leaf + Copy>(
    list: &mut MerkleList<H>,
    ops: &mut Retained<T>,
    more: &[T],
) -> Result<(), OutOfMemory>
    requires { list_size list.old + length more.now ≤ 2 ^ 62 }
    ensures leaves { OnOk result (list.new
        ≡ record {
          front = list.old.front;
          pinned = list.old.pinned;
          leaves = list.old.leaves ++ leaves_from H.digest (list_size list.old) (map T.spelling more.now);
        }) }
    ensures ops { OnOk result (ops.new ≡ ops.old ++ more.now) }
    ensures err { OnErr result ((list.new ≡ list.old) × (ops.new ≡ ops.old)) }
{
    let count = ops.len();
    ops.extend_from_slice(more)?;
    match list.extend(more) {
        Ok(()) => Ok(()),
        Err(fault) => {
            ops.truncate(count);
            Err(fault)
        }
    }
}

/// A copy of `count` items from this place on.
fn copy_range<T: Copy>(
    alloc: Global,
    items: &[T],
    place: usize,
    count: usize,
) -> Result<Vec<T>, OutOfMemory>
    requires { place + count ≤ length items.now }
    ensures { IfOk result (λ copy. copy.items ≡ take count (drop place items.now)) }
{
    Ok(Vec::from_slice(alloc, &items[place..place + count])?)
}
