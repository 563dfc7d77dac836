//! What the reports of finalized blocks add up to, and whether two of them disagree.
ghost use Rattle.std.specs.Prelude.{◌≡◌, ◌≢◌, ◌⊎◌, ◌≤◌, ◌∷◌, ◌++◌, Err, [], All, Contains, IfErr, IsTrue, bytes_eq, false, not, option_copied, unwrap_or, IfOk, MatchOption, None, OnErr, OnOk, Some, count_by, length, map, nat_le};
ghost use Rattle.std.specs.List.{list_any};
ghost use Rattle.std.specs.Option.{option_map_or};
ghost use Rattle.std.specs.declared.cmp.Ordering.TheVariants.{Greater};
ghost use Rattle.simulate_parts.specs.Tracker.{AfterRefusal, Agree, digests_at, disagrees_at_height, finalized_rounds, first_fault, fresh, grown_by, kept_at_height, kept_at_round, later_round, observe_fault, observed, raised, round_cmp, tracker_of};

use crate::lists::{copy_bytes, copy_lists};
use crate::peer::{Peer, Round};
use ledger_codec::{List, OutOfMemory};
use std::alloc::Global;
use std::collections::BTreeMap;
use std::marker::Model;

/// A validator's report that a block is final.
#[derive(Debug, Drop)]
pub struct FinalizationUpdate {
    pub pk: Peer,
    pub round: Round,
    pub height: u64,
    pub block_digest: List<u8>,
}

impl FinalizationUpdate {
    /// A copy of the report.
    pub fn copy(&self, alloc: Global) -> Result<Self, OutOfMemory>
        ensures { IfOk result (λ copy. copy ≡ self.now) }
    {
        Ok(FinalizationUpdate {
            pk: self.pk,
            round: self.round,
            height: self.height,
            block_digest: copy_bytes(alloc, self.block_digest.as_slice())?,
        })
    }
}

/// Why a report is refused. `Height` and `Round` name the place where another digest is kept.
#[derive(Clone, Copy, Debug, PartialEq, Eq)]
pub enum ObserveFault {
    Height { height: u64 },
    Round { round: Round },
    OutOfMemory,
}

impl From<OutOfMemory> for ObserveFault {
    ghost use Rattle.simulate_parts.specs.declared.tracker.ObserveFault.TheVariants.{OutOfMemory as out_of_memory};

    ghost from_gives = { λ _ e. e ≡ out_of_memory };

    fn from(_error: OutOfMemory) -> ObserveFault {
        ObserveFault::OutOfMemory
    }
}

/// The digest at each height, the digests at each round, and each validator's last finalized round.
#[derive(Drop)]
pub struct ProgressTracker {
    alloc: Global,
    heights: BTreeMap<u64, List<u8>>,
    rounds: BTreeMap<Round, List<List<u8>>>,
    validators: BTreeMap<Peer, Round>,
}

impl Model for ProgressTracker {
    ghost use Rattle.simulate_parts.specs.TrackerView.{TrackerView};

    ghost Value = { TrackerView };

    ghost view = { λ t. record { heights = t.heights.entries; rounds = t.rounds.entries; validators = t.validators.entries } };
}

impl ProgressTracker {
    /// A tracker of no reports.
    pub fn default(alloc: Global) -> Self
        ensures { result ≡ fresh }
    {
        ProgressTracker {
            alloc,
            heights: BTreeMap::new(alloc),
            rounds: BTreeMap::new(alloc),
            validators: BTreeMap::new(alloc),
        }
    }

    /// The tracker of these reports, in order, or the first refusal of one. Ok means that no two of them
    /// name different digests at one height or round.
    pub fn of(alloc: Global, updates: &[FinalizationUpdate]) -> Result<Self, ObserveFault>
        ensures ok { IfOk result (λ t. t ≡ tracker_of updates.now) }
        ensures agree { OnOk result (Agree updates.now) }
        ensures may { OnOk result (first_fault updates.now ≡ None) }
        ensures refuses { IfErr result (λ e. (e ≡ ObserveFault.OutOfMemory)
            ⊎ (first_fault updates.now ≡ Some e)) }
    {
        let mut tracker = ProgressTracker::default(alloc);
        for update in updates {
            match tracker.observe_copy(update) {
                Ok(()) => {}
                Err(fault) => return Err(fault),
            }
        }
        Ok(tracker)
    }

    /// Takes a copy of a report, as `observe` takes a report.
    pub fn observe_copy(&mut self, update: &FinalizationUpdate) -> Result<(), ObserveFault>
        ensures ok { OnOk result (self.new ≡ observed self.old update.now) }
        ensures may { OnOk result (observe_fault self.old update.now ≡ None) }
        ensures refuses { IfErr result (λ e. (e ≡ ObserveFault.OutOfMemory)
            ⊎ (observe_fault self.old update.now ≡ Some e)) }
    {
        match update.copy(self.alloc) {
            Ok(update) => self.observe(update),
            Err(OutOfMemory) => Err(ObserveFault::OutOfMemory),
        }
    }

    /// Takes a report. Height and Round are answered exactly where another digest is kept at the report's
    /// height, or else at its round. A conflict at the height changes nothing. A conflict at the round
    /// keeps the digest at both places and leaves the validator's round.
    pub fn observe(&mut self, update: FinalizationUpdate) -> Result<(), ObserveFault>
        ensures ok { OnOk result (self.new ≡ observed self.old update) }
        ensures may { OnOk result (observe_fault self.old update ≡ None) }
        ensures refuses { IfErr result (λ e. (e ≡ ObserveFault.OutOfMemory)
            ⊎ (observe_fault self.old update ≡ Some e)) }
        ensures height { IsTrue (disagrees_at_height self.old update)
            → result ≡ Err (ObserveFault.Height update.height) }
        ensures stays { IfErr result (λ e. AfterRefusal self.old update e self.new) }
    {
        let digest = update.block_digest.as_slice();
        if holds_other(self.heights.get(&update.height), digest) {
            return Err(ObserveFault::Height {
                height: update.height,
            });
        }
        keep_at_height(self.alloc, &mut self.heights, update.height, digest)?;
        let disagrees = has_other(listed(self.rounds.get(&update.round)), digest);
        keep_at_round(self.alloc, &mut self.rounds, update.round, digest)?;
        if disagrees {
            return Err(ObserveFault::Round {
                round: update.round,
            });
        }
        raise(&mut self.validators, update.pk, update.round)?;
        Ok(())
    }

    /// Whether at least `total` validators have finalized a view of at least `required`, in any epoch.
    pub fn all_reached(&self, total: usize, required: u64) -> bool
        ensures { result ≡ nat_le total (count_by (λ r. nat_le required r.view)
            (finalized_rounds self.now)) }
    {
        self.validators
            .values()
            .filter(|round| required <= round.view)
            .count()
            >= total
    }

    /// The least view that a validator has finalized, 0 where none has.
    pub fn min_view(&self) -> u64
        ensures none { finalized_rounds self.now ≡ [] → result ≡ 0 }
        ensures least { All (λ r. result ≤ r.view) (finalized_rounds self.now) }
        ensures among { finalized_rounds self.now ≢ []
            → Contains (map (λ r. r.view) (finalized_rounds self.now)) result }
    {
        self.validators
            .values()
            .map(|round| round.view)
            .min()
            .unwrap_or(0)
    }

    /// The greatest round that a validator has finalized, None where none has.
    pub fn max_round(&self) -> Option<Round>
        ensures { MatchOption result (finalized_rounds self.now ≡ [])
            (λ r. Contains (finalized_rounds self.now) r
            × All (λ q. round_cmp q r ≢ Greater) (finalized_rounds self.now)) }
    {
        self.validators.values().copied().max()
    }

    /// The number of validators that have reported.
    pub fn tracked_count(&self) -> usize
        ensures { result ≡ length self.now.validators }
    {
        self.validators.len()
    }

    /// The number of different digests at a view of epoch 0.
    pub fn unique_digests_at(&self, view: u64) -> usize
        ensures { result ≡ length (digests_at self.now (record { epoch = 0; view = view })) }
    {
        listed(self.rounds.get(&Round { epoch: 0, view })).len()
    }
}

/// Whether this digest is there and another one.
fn holds_other(kept: Option<&List<u8>>, digest: &[u8]) -> bool
    ensures { result ≡ option_map_or (λ d. not (bytes_eq d digest.now)) (option_copied kept.entry) false }
{
    match kept {
        Some(kept) => kept.as_slice() != digest,
        None => false,
    }
}

/// The digests that are kept at a round.
fn listed<'a>(kept: Option<&'a List<List<u8>>>) -> &'a [List<u8>]
    ensures { result.now ≡ unwrap_or (option_copied kept.entry) [] }
{
    match kept {
        Some(kept) => kept.as_slice(),
        None => &[],
    }
}

/// Whether another digest is among these.
fn has_other(digests: &[List<u8>], digest: &[u8]) -> bool
    ensures { result ≡ list_any (λ d. not (bytes_eq d digest.now)) digests.now }
{
    digests.iter().any(|kept| kept.as_slice() != digest)
}

/// Keeps a digest at a height where none is.
fn keep_at_height(
    alloc: Global,
    heights: &mut BTreeMap<u64, List<u8>>,
    height: u64,
    digest: &[u8],
) -> Result<(), OutOfMemory>
    ensures ok { OnOk result (heights.new.entries ≡ kept_at_height heights.old.entries height digest.now) }
    ensures err { OnErr result (heights.new.entries ≡ heights.old.entries) }
{
    if heights.contains_key(&height) {
        return Ok(());
    }
    let digest = copy_bytes(alloc, digest)?;
    heights.insert(height, digest)?;
    Ok(())
}

/// Whether this digest is among these.
fn has(digests: &[List<u8>], digest: &[u8]) -> bool
    ensures { result ≡ list_any (λ d. bytes_eq d digest.now) digests.now }
{
    digests.iter().any(|kept| kept.as_slice() == digest)
}

/// These digests with this one at the end, None where it is among them.
fn grown(
    alloc: Global,
    digests: &[List<u8>],
    digest: &[u8],
) -> Result<Option<List<List<u8>>>, OutOfMemory>
    ensures { IfOk result (λ o. o ≡ grown_by digests.now digest.now) }
{
    if has(digests, digest) {
        return Ok(None);
    }
    let mut grown = copy_lists(alloc, digests)?;
    grown.push(copy_bytes(alloc, digest)?)?;
    Ok(Some(List::from_vec(grown)))
}

/// Keeps a digest among those at a round.
fn keep_at_round(
    alloc: Global,
    rounds: &mut BTreeMap<Round, List<List<u8>>>,
    round: Round,
    digest: &[u8],
) -> Result<(), OutOfMemory>
    ensures ok { OnOk result (rounds.new.entries ≡ kept_at_round rounds.old.entries round digest.now) }
    ensures err { OnErr result (rounds.new.entries ≡ rounds.old.entries) }
{
    match grown(alloc, listed(rounds.get(&round)), digest)? {
        Some(digests) => {
            rounds.insert(round, digests)?;
            Ok(())
        }
        None => Ok(()),
    }
}

/// Sets a validator's round where that is no step back.
fn raise(
    validators: &mut BTreeMap<Peer, Round>,
    peer: Peer,
    round: Round,
) -> Result<(), OutOfMemory>
    ensures ok { OnOk result (validators.new.entries ≡ raised validators.old.entries peer round) }
    ensures err { OnErr result (validators.new.entries ≡ validators.old.entries) }
{
    let round = match validators.get(&peer) {
        Some(last) => later(*last, round),
        None => round,
    };
    validators.insert(peer, round)?;
    Ok(())
}

/// The later of two rounds.
fn later(last: Round, round: Round) -> Round
    ensures { result ≡ later_round (Some last) round }
{
    if last > round { last } else { round }
}
