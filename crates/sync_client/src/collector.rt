//! Which ranges are asked, and the operations that came.
ghost use Rattle.std.specs.Prelude.{◌≡◌, ◌+◌, ◌-◌, ◌<◌, ◌≤◌, ◌^◌, ◌∷◌, ◌++◌, [], List as Items, true, length, count_ones, nat_lt, nat_le, ◌||◌, IfOk, IfSome, OnOk, OnErr};
ghost use Rattle.sha2.specs.Sha256.{sha256};
ghost use Rattle.sync_client.specs.Asking.{judged_by, first_plan, rest_of};
ghost use Rattle.sync_client.specs.Collected.{opening, is_complete, ranges_of, IsOutstanding, nothing_left};
ghost use Rattle.sync_client.specs.Parts.{Assembles, IsHashed, part_of};
ghost use Rattle.sync_client.specs.Tiles.{Tiles};
ghost use Rattle.sync_client.specs.Updates.{aimed};
ghost use Rattle.sync_client.specs.Told.{Asks, Accepts, Retargets, Finishes};

use crate::asked::Asked;
use crate::fault::CollectFault;
use crate::hashed::HashedPart;
use crate::joining::{list_behind, operations};
use crate::judging::{is_good, put_nodes};
use crate::limits::Limits;
use crate::ranges::{end_of_batch, forget, move_first, target_for};
use crate::targets::MAX_UPDATES;
use ledger_codec::{Digest, List, OutOfMemory};
use ledger_log::Target;
use ledger_merkle::{Leaf, Location, Part};
use std::alloc::Global;
use std::marker::Model;
use std::ops::Range;
use sync_net::GetOperationsResponse;

/// Operations from a place on, as one answer brought them.
#[derive(Drop)]
pub struct Piece<Op> {
    /// The place of the first operation.
    pub at: Location,
    /// The operations.
    pub ops: List<Op>,
}

/// Asks the target's range piece by piece, and keeps what comes. Pieces stand in the order in which they
/// came; they are sorted once, when all have. A later target that is taken changes where the range ends, and the
/// root; each range that was asked keeps the target that was current then.
#[derive(Drop)]
pub struct Collector<Op: Leaf + Copy> {
    alloc: Global,
    target: Target,
    low: Location,
    taken: usize,
    limits: Limits,
    fresh: Location,
    rests: Vec<Range<Location>>,
    pending: Vec<Asked>,
    pinned: List<Digest>,
    kept: Vec<Piece<Op>>,
}

impl<Op: Leaf + Copy> Model for Collector<Op> {
    ghost use Rattle.sync_client.specs.Collected.{Collected};
    ghost use Rattle.sync_client.specs.Tiles.{Tiles};

    ghost Value = { Collected Op };

    ghost view = { λ c. record {
      plan = record { target = c.target; limits = c.limits; low = c.low; taken = c.taken };
      fresh = c.fresh;
      rests = c.rests.items;
      pending = c.pending.items;
      pinned = c.pinned;
      kept = c.kept.items;
    } };

    ghost invariant = { λ c. Tiles (record {
      plan = record { target = c.target; limits = c.limits; low = c.low; taken = c.taken };
      fresh = c.fresh;
      rests = c.rests.items;
      pending = c.pending.items;
      pinned = c.pinned;
      kept = c.kept.items;
    }) };
}

impl<Op: Leaf + Copy> Collector<Op> {
    /// Nothing is asked. The target is the first one, and the current one.
    pub fn new(alloc: Global, target: Target, limits: Limits) -> Collector<Op>
        ensures value { result ≡ opening (first_plan target limits) }
        ensures tiles { Tiles result }
    {
        // Its type keeps it below the most places of a log.
        let _near = target.end.get();
        Collector {
            alloc,
            target,
            low: target.start,
            taken: 0,
            limits,
            fresh: target.start,
            rests: Vec::new(alloc),
            pending: Vec::new(alloc),
            pinned: List::from_vec(Vec::new(alloc)),
            kept: Vec::new(alloc),
        }
    }

    /// The range that is asked next: first what short answers left, then a new batch. None where enough
    /// are under way, or all is asked.
    #[tactic(auto, unfolding(crate::specs::Collected::ask_next))]
    pub fn next_ask(&mut self) -> Result<Option<Range<Location>>, OutOfMemory>
        ensures asks { Asks result self.old self.new }
        ensures within { IfOk result
            (λ found. IfSome found (λ r. (r.start < r.end) × (r.end ≤ self.old.plan.target.end))) }
        ensures outstanding { IfOk result (λ found. IfSome found
            (λ r. IsOutstanding r (ranges_of self.new.pending))) }
        ensures tiles { Tiles self.new }
    {
        if self.pending.len() >= self.limits.outstanding() {
            return Ok(None);
        }
        if self.rests.len() > 0 {
            return Ok(Some(move_first(&mut self.rests, &mut self.pending, &self.target)?));
        }
        let start = self.fresh;
        if start.get() >= self.target.end.get() {
            return Ok(None);
        }
        let end = end_of_batch(start, self.limits.batch(), self.target.end);
        self.pending.push(Asked {
            range: Range { start, end },
            target: self.target,
        })?;
        self.fresh = end;
        Ok(Some(Range { start, end }))
    }

    /// Keeps the answer to a range that is under way, where it is good by the target that the range was asked
    /// for. What it leaves of the range is asked again.
    pub fn accept(
        &mut self,
        asked: Range<Location>,
        request_id: u64,
        response: GetOperationsResponse<Op>,
    ) -> Result<(), CollectFault>
        requires { IsOutstanding asked (ranges_of self.old.pending) }
        ensures accepts { Accepts result (judged_by sha256 Op.spelling) asked request_id response self.old
            self.new }
        ensures tiles { Tiles self.new }
    {
        let target = target_for(&self.pending, &asked, &self.target);
        if !is_good::<Op>(self.target.start, &target, &asked, &response) {
            return Err(CollectFault::InvalidProof { request_id });
        }
        let is_first = asked.start.get() == self.target.start.get();
        match keep(&mut self.kept, &mut self.rests, &asked, response.operations) {
            Ok(()) => {}
            Err(OutOfMemory) => return Err(CollectFault::OutOfMemory),
        }
        forget(&mut self.pending, &asked);
        put_nodes(
            self.alloc,
            &mut self.pinned,
            is_first,
            response.pinned_nodes,
        );
        Ok(())
    }

    /// Takes a later target: from now on the range ends at its end, and the part has its root. Refused where it
    /// begins below the current one, or doesn't end behind it. It costs a few words, whatever was kept.
    pub fn retarget(&mut self, target: Target) -> Result<(), CollectFault>
        requires few { self.old.plan.taken < 8 }
        ensures retargets { Retargets result target self.old self.new }
        ensures tiles { Tiles self.new }
    {
        if is_stale(&target, self.low, self.target.end) {
            return Err(CollectFault::StaleUpdate {
                start: target.start,
                end: target.end,
            });
        }
        self.target = joined(&self.target, &target);
        self.low = target.start;
        self.taken += 1;
        Ok(())
    }

    /// The target with the first start, and the root and end of the one that was taken last.
    pub(crate) fn target(&self) -> Target
        ensures value { result ≡ self.now.plan.target }
        ensures tiles { Tiles self.now }
    {
        self.target
    }

    /// Whether no later target is taken any more: nothing is left to fetch, or all that may be were taken.
    pub(crate) fn is_settled(&self) -> bool
        ensures value { result ≡ (is_complete self.now || nat_le 8 self.now.plan.taken) }
        ensures tiles { Tiles self.now }
    {
        self.is_complete() || self.taken >= MAX_UPDATES
    }

    /// Whether every location of the range is kept.
    pub fn is_complete(&self) -> bool
        ensures value { result ≡ is_complete self.now }
        ensures tiles { Tiles self.now }
        ensures most { self.now.plan.target.end ≤ 2 ^ 62 }
    {
        is_all_kept(
            self.pending.len(),
            self.rests.len(),
            self.fresh,
            self.target.end,
        )
    }

    /// The part that the kept operations make, which has the current target's root.
    pub fn finish(self) -> Result<Part<Op>, CollectFault>
        requires { is_complete self ≡ true }
        ensures finishes { Finishes result sha256 Op.spelling self }
        ensures whole { IfOk result (λ part.
            (length part.ops ≡ self.plan.target.end - self.plan.target.start)
            × (length part.pinned ≡ count_ones self.plan.target.start)) }
        ensures one { IfOk result
            (λ part. (ops : Items Op) → Assembles self.plan.target.start self.kept ops → ops ≡ part.ops) }
    {
        match self.finish_hashed() {
            Ok(hashed) => Ok(hashed.part),
            Err(fault) => Err(fault),
        }
    }

    /// What `finish` answers, with the leaves that the root was worked out from.
    pub fn finish_hashed(self) -> Result<HashedPart<Op>, CollectFault>
        requires { is_complete self ≡ true }
        ensures finishes { Finishes (part_of result) sha256 Op.spelling self }
        ensures whole { IfOk result (λ h.
            (length h.part.ops ≡ self.plan.target.end - self.plan.target.start)
            × (length h.part.pinned ≡ count_ones self.plan.target.start)) }
        ensures one { IfOk result
            (λ h. (ops : Items Op) → Assembles self.plan.target.start self.kept ops → ops ≡ h.part.ops) }
        ensures leaves { IfOk result (IsHashed Op.spelling) }
    {
        let Collector {
            alloc,
            target,
            pinned,
            kept,
            ..
        } = self;
        let count = target.end.get() - target.start.get();
        let ops = operations(alloc, kept, count as usize)?;
        let nodes = Vec::from_slice(alloc, pinned.as_slice())?;
        let list = list_behind::<Op>(alloc, target.start, nodes, &ops)?;
        let found = list.root();
        if found != target.root {
            return Err(CollectFault::WrongRoot { found });
        }
        Ok(HashedPart {
            part: Part {
                start: target.start,
                pinned,
                ops: List::from_vec(ops),
            },
            list,
        })
    }
}

/// Whether nothing is asked or left to ask.
fn is_all_kept(pending: usize, rests: usize, fresh: Location, end: Location) -> bool
    ensures value { result ≡ nothing_left pending rests fresh end }
    ensures most { end ≤ 2 ^ 62 }
{
    let end = end.get();
    pending == 0 && rests == 0 && fresh.get() == end
}

/// Whether a later target begins below this place, or doesn't end behind that one.
fn is_stale(later: &Target, low: Location, end: Location) -> bool
    ensures { result ≡ (nat_lt later.now.start low || nat_le later.now.end end) }
{
    later.start.get() < low.get() || later.end.get() <= end.get()
}

/// The first target's start, with a later one's root and end.
fn joined(first: &Target, later: &Target) -> Target
    requires { first.now.end < later.now.end }
    ensures value { result ≡ aimed first.now later.now }
    ensures near { result.end ≤ 2 ^ 62 }
{
    let _near = later.end.get();
    match Target::new(later.root, first.start, later.end) {
        Some(target) => target,
        None => unreachable!(),
    }
}

/// Keeps the operations, and what they leave of the range to be asked.
fn keep<Op: Copy>(
    kept: &mut Vec<Piece<Op>>,
    rests: &mut Vec<Range<Location>>,
    asked: &Range<Location>,
    ops: List<Op>,
) -> Result<(), OutOfMemory>
    requires { asked.now.start + length ops ≤ asked.now.end }
    ensures ok { OnOk result
        ((kept.new.items ≡ kept.old.items ++ record { at = asked.now.start; ops = ops } ∷ [])
        × (rests.new.items ≡ rests.old.items ++ rest_of asked.now (length ops))) }
    ensures err { OnErr result ((kept.new.items ≡ kept.old.items) × (rests.new.items ≡ rests.old.items)) }
{
    let end = asked.end;
    let most = end.get();
    let start = asked.start.plus(ops.as_slice().len() as u64);
    kept.push(Piece {
        at: asked.start,
        ops,
    })?;
    if start.get() < most {
        match rests.push(Range { start, end }) {
            Ok(()) => {}
            Err(_) => {
                let _piece = kept.pop();
                return Err(OutOfMemory);
            }
        }
    }
    Ok(())
}
