//! The engines of a run and what surrounds them.
ghost use Rattle.std.specs.Prelude.{◌≡◌, ◌<◌, ◌%◌, ◌++◌, ◌∷◌, ◌||◌, [], IfErr, IfOk, IfSome, IsPermutation, IsSorted, IsTrue, List, OnOk, false, filter, get_or, length, option_map, remove, unwrap_or, vec_len};
ghost use Rattle.std.specs.List.{list_any};
ghost use Rattle.std.specs.Option.{option_map_or};
ghost use Rattle.rand_pcg.specs.Lcg.{Lcg};
ghost use Rattle.rand_pcg.specs.Pcg.{pcg32};
ghost use Rattle.simulate_parts.specs.Seats.{active_peers};
ghost use Rattle.simulate_parts.specs.Team.{names, place_of};
ghost use Rattle.simulate_parts.specs.Tracker.{finalized_rounds, peer_cmp};
ghost use Rattle.ledger_simulate.specs.Causes.{IsSkip};
ghost use Rattle.ledger_simulate.specs.Delays.{Launches, delay_round, reaches, starts};
ghost use Rattle.ledger_simulate.specs.Failures.{acted, crashed, crashed_all, first_passed, height_at, looked_at, no_tally, passed_at, picked, random_count, standing_of, crashed_at_random, tally_of, window_entered, window_passed, windows_entered};
ghost use Rattle.ledger_simulate.specs.Handling.{ChangesEnginesAlone, ChangesEngines};
ghost use Rattle.ledger_simulate.specs.Links.{changed_links, common_link};
ghost use Rattle.ledger_simulate.specs.Opening.{starts as first_starts};
ghost use Rattle.ledger_simulate.specs.Plans.{named_late, target_count};
ghost use Rattle.ledger_simulate.specs.Stops.{stops_late};
ghost use Rattle.ledger_simulate.specs.declared.event.Event.TheVariants.{Started};

use crate::agenda::Agenda;
use crate::event::Event;
use crate::exercise::Exercise;
use crate::fault::{PlanFault, Stop};
use crate::links::Links;
use crate::messages::Rules;
use crate::plan::Plan;
use ledger_codec::OutOfMemory;
use rand_core::utils::NextWord;
use rand_pcg::Pcg32;
use simulate_parts::{
    Action, Crash, EngineDefinition, FaultConfig, Peer, ProcessedHeight, ProgressTracker, Round,
    Seats, SimLink, Start, active_keys, is_among, start_engine, stop_engine,
};
use std::alloc::Global;
use std::collections::BTreeMap;

/// The engines that run, the links between them, the words that decide about messages and random crashes,
/// the storage fault that new engines are told of, and what the configured failures came to.
#[derive(Drop)]
pub struct World<D: EngineDefinition> {
    pub alloc: Global,
    pub seats: Seats<D>,
    pub links: Links,
    pub words: Pcg32,
    pub rules: Rules,
    pub fault: FaultConfig,
    pub exercise: Exercise,
}

impl<D: EngineDefinition> World<D> {
    /// Nobody runs yet.
    pub fn new(alloc: Global, plan: &Plan<D>, words: Pcg32) -> Result<Self, OutOfMemory>
        ensures seats { IfOk result (λ w. w.seats.entries ≡ []) }
        ensures words { IfOk result (λ w. w.words ≡ words) }
        ensures started { IfOk result (λ w. w.exercise.delayed_started ≡ false) }
        ensures tally { IfOk result (λ w. tally_of w.exercise ≡ no_tally (length plan.now.crashes)) }
        ensures rules { IfOk result (λ w.
            IfSome (D.carried_size plan.now.engine) (λ told. w.rules.max_size ≡ told)
            × IfSome (D.carried_on plan.now.engine) (λ told. w.rules.channels.items ≡ told)) }
        ensures links { IfOk result
            (λ w. (common_link w.links ≡ plan.now.link) × (changed_links w.links ≡ [])) }
    {
        Ok(World {
            alloc,
            seats: BTreeMap::new(alloc),
            links: Links::new(alloc, plan.link),
            words,
            rules: Rules {
                max_size: plan.engine.max_message_size(),
                channels: plan.engine.channels(alloc)?,
            },
            fault: match plan.storage_fault {
                Some(fault) => fault,
                None => FaultConfig { rate: None },
            },
            exercise: Exercise::new(alloc, plan.crashes.as_slice().len())?,
        })
    }

    /// Starts a participant's engine now, in place of the one that it had. The engine's birth is the number
    /// of its Started event.
    pub fn launch(
        &mut self,
        plan: &Plan<D>,
        agenda: &mut Agenda,
        pk: Peer,
    ) -> Result<(), OutOfMemory>
        ensures made { OnOk result
            (agenda.new ≡ record agenda.old { events = agenda.old.events ++ (0, Started pk) ∷ [] }) }
        ensures changes_alone { OnOk result
            (ChangesEnginesAlone (D.peer_of plan.now.engine) agenda.old agenda.new self.old self.new) }
        ensures exercise { OnOk result (self.new.exercise ≡ self.old.exercise) }
    {
        let participants = plan.participants.as_slice();
        let start = Start {
            pk,
            index: place(participants, pk),
            delayed: is_among(named_late_by(plan.crashes.as_slice()), &pk),
            fault: self.fault,
            birth: agenda.number()?,
        };
        start_engine(
            self.alloc,
            &plan.engine,
            participants,
            &mut self.seats,
            start,
        )?;
        agenda.after(0, Event::Started { pk })?;
        Ok(())
    }

    /// Starts a participant's engine now; nothing where the peer is none.
    pub fn relaunch(
        &mut self,
        plan: &Plan<D>,
        agenda: &mut Agenda,
        pk: Peer,
    ) -> Result<(), OutOfMemory>
        ensures changes_alone { OnOk result
            (ChangesEnginesAlone (D.peer_of plan.now.engine) agenda.old agenda.new self.old self.new) }
        ensures exercise { OnOk result (self.new.exercise ≡ self.old.exercise) }
    {
        if !is_among(plan.participants.as_slice(), &pk) {
            return Ok(());
        }
        self.launch(plan, agenda, pk)
    }

    /// Stops a peer, counts the crash where it ran, and says whether it did.
    fn crash(&mut self, pk: &Peer) -> bool
        ensures standing { standing_of self.new ≡ crashed (standing_of self.old) pk.now }
        ensures words { self.new.words ≡ self.old.words }
        ensures links { self.new.links ≡ self.old.links }
        ensures rules { self.new.rules ≡ self.old.rules }
        ensures started { self.new.exercise.delayed_started ≡ self.old.exercise.delayed_started }
    {
        let ran = stop_engine(&mut self.seats, pk);
        if ran {
            self.exercise.count_crash();
        }
        ran
    }

    /// Stops a peer for a downtime.
    fn crash_for(&mut self, agenda: &mut Agenda, pk: Peer, downtime: u64) -> Result<(), OutOfMemory>
        ensures changes_alone { OnOk result
            ((peer_of : _) → ChangesEnginesAlone peer_of agenda.old agenda.new self.old self.new) }
        ensures standing { OnOk result (standing_of self.new ≡ crashed (standing_of self.old) pk) }
        ensures started { OnOk result
            (self.new.exercise.delayed_started ≡ self.old.exercise.delayed_started) }
    {
        if !self.crash(&pk) {
            return Ok(());
        }
        agenda.after(downtime, Event::Recover { pk })?;
        Ok(())
    }

    /// Does what a schedule says, and counts it.
    pub fn act(
        &mut self,
        plan: &Plan<D>,
        agenda: &mut Agenda,
        action: Action,
    ) -> Result<(), OutOfMemory>
        ensures changes { OnOk result
            (ChangesEngines (D.peer_of plan.now.engine) agenda.old agenda.new self.old self.new) }
        ensures tally { OnOk result (tally_of self.new.exercise ≡ acted action (standing_of self.old)) }
        ensures started { OnOk result
            (self.new.exercise.delayed_started ≡ self.old.exercise.delayed_started) }
    {
        self.exercise.count_action();
        match action {
            Action::SetStorageFault(fault) => {
                self.fault = fault;
                Ok(())
            }
            Action::Heal(link) => {
                self.links = Links::new(self.alloc, link);
                Ok(())
            }
            Action::UpdateLink { from, to, link } => {
                self.update_link(plan, from, to, link)?;
                Ok(())
            }
            Action::Crash(pk) => {
                self.crash(&pk);
                Ok(())
            }
            Action::Restart(pk) => {
                self.relaunch(plan, agenda, pk)?;
                Ok(())
            }
        }
    }

    /// Sets one directed link; nothing where the two peers are equal or one is no participant.
    fn update_link(
        &mut self,
        plan: &Plan<D>,
        from: Peer,
        to: Peer,
        link: SimLink,
    ) -> Result<(), OutOfMemory>
        ensures seats { self.new.seats ≡ self.old.seats }
        ensures rules { self.new.rules ≡ self.old.rules }
        ensures exercise { self.new.exercise ≡ self.old.exercise }
    {
        let participants = plan.participants.as_slice();
        if from == to || !is_among(participants, &from) || !is_among(participants, &to) {
            return Ok(());
        }
        self.links.set(from, to, link)
    }

    /// Crashes as many running peers as the configured random failure says, each by a word modulo the
    /// number of those left, and sets the ticker again.
    pub fn crash_at_random(
        &mut self,
        plan: &Plan<D>,
        agenda: &mut Agenda,
    ) -> Result<(), OutOfMemory>
        ensures changes { OnOk result
            (ChangesEngines (D.peer_of plan.now.engine) agenda.old agenda.new self.old self.new) }
        ensures tally { OnOk result (tally_of self.new.exercise
            ≡ (crashed_at_random plan.now.crashes self.old.words (standing_of self.old)).tally) }
        ensures started { OnOk result
            (self.new.exercise.delayed_started ≡ self.old.exercise.delayed_started) }
    {
        let Some(random) = random_of(plan.crashes.as_slice()) else {
            return Ok(());
        };
        let picked = victims(self.alloc, &mut self.words, &self.seats, random.count)?;
        self.crash_all(agenda, picked, random.downtime)?;
        agenda.after(random.frequency, Event::CrashTick)?;
        Ok(())
    }

    /// Stops these peers for a downtime.
    fn crash_all(
        &mut self,
        agenda: &mut Agenda,
        peers: Vec<Peer>,
        downtime: u64,
    ) -> Result<(), OutOfMemory>
        ensures changes { OnOk result
            ((peer_of : _) → ChangesEngines peer_of agenda.old agenda.new self.old self.new) }
        ensures standing { OnOk result
            (standing_of self.new ≡ crashed_all (standing_of self.old) peers.items) }
        ensures started { OnOk result
            (self.new.exercise.delayed_started ≡ self.old.exercise.delayed_started) }
    {
        for pk in peers {
            self.crash_for(agenda, pk, downtime)?;
        }
        Ok(())
    }

    /// Crashes the participants whose heights have entered the windows in which they are to crash.
    pub fn enter_windows(&mut self, plan: &Plan<D>, agenda: &mut Agenda) -> Result<(), Stop>
        ensures changes_alone { OnOk result
            (ChangesEnginesAlone (D.peer_of plan.now.engine) agenda.old agenda.new self.old self.new) }
        ensures standing { OnOk result (standing_of self.new
            ≡ windows_entered D.State.height_of 0 plan.now.crashes (standing_of self.old)) }
        ensures unpassed { OnOk result
            (first_passed D.State.height_of 0 plan.now.crashes (standing_of self.old) ≡ None) }
        ensures started { OnOk result
            (self.new.exercise.delayed_started ≡ self.old.exercise.delayed_started) }
        ensures skips { IfErr result (IsSkip
            (λ h. first_passed D.State.height_of 0 plan.now.crashes (standing_of self.old) ≡ Some h)) }
        ensures late { IfErr result (λ s. IsTrue (stops_late s)) }
    {
        for (index, crash) in plan.crashes.as_slice().iter().enumerate() {
            match self.look_at(agenda, index, crash) {
                Ok(()) => {}
                Err(stop) => return Err(stop),
            }
        }
        Ok(())
    }

    /// Looks at the window of the configured failure at this place, if it is one.
    fn look_at(&mut self, agenda: &mut Agenda, index: usize, crash: &Crash) -> Result<(), Stop>
        ensures changes_alone { OnOk result
            ((peer_of : _) → ChangesEnginesAlone peer_of agenda.old agenda.new self.old self.new) }
        ensures standing { OnOk result
            (standing_of self.new ≡ looked_at D.State.height_of index crash.now (standing_of self.old)) }
        ensures unpassed { OnOk result
            (passed_at D.State.height_of index crash.now (standing_of self.old) ≡ None) }
        ensures started { OnOk result
            (self.new.exercise.delayed_started ≡ self.old.exercise.delayed_started) }
        ensures skips { IfErr result
            (IsSkip (λ h. passed_at D.State.height_of index crash.now (standing_of self.old) ≡ Some h)) }
        ensures late { IfErr result (λ s. IsTrue (stops_late s)) }
    {
        match crash {
            Crash::ProcessedHeight {
                participant,
                first,
                last,
                downtime,
            } => {
                let window = Window {
                    participant: *participant,
                    first: *first,
                    last: *last,
                    downtime: *downtime,
                };
                self.enter_window(agenda, index, window)
            }
            _ => Ok(()),
        }
    }

    /// Crashes a participant whose height is in the window of the configured failure at this place, once.
    fn enter_window(
        &mut self,
        agenda: &mut Agenda,
        index: usize,
        window: Window,
    ) -> Result<(), Stop>
        ensures changes_alone { OnOk result
            ((peer_of : _) → ChangesEnginesAlone peer_of agenda.old agenda.new self.old self.new) }
        ensures standing { OnOk result (standing_of self.new
            ≡ window_entered D.State.height_of index window.participant window.first window.last
            (standing_of self.old)) }
        ensures unpassed { OnOk result (window_passed D.State.height_of index window.participant
            window.first window.last (standing_of self.old)
            ≡ None) }
        ensures started { OnOk result
            (self.new.exercise.delayed_started ≡ self.old.exercise.delayed_started) }
        ensures skips { IfErr result (IsSkip (λ h.
            window_passed D.State.height_of index window.participant window.first window.last
            (standing_of self.old)
            ≡ Some h)) }
        ensures late { IfErr result (λ s. IsTrue (stops_late s)) }
    {
        if self.exercise.has_entered(index) {
            return Ok(());
        }
        let Some(height) = height_of(&self.seats, &window.participant) else {
            return Ok(());
        };
        if height < window.first {
            return Ok(());
        }
        if height > window.last {
            return Err(Stop::Fault(PlanFault::SkippedWindow { height }));
        }
        self.exercise.enter(index);
        match self.crash_for(agenda, window.participant, window.downtime) {
            Ok(()) => Ok(()),
            Err(OutOfMemory) => Err(Stop::OutOfMemory),
        }
    }

    /// How many participants count for the exit condition.
    pub fn target(&self, plan: &Plan<D>) -> usize
        ensures { result
            ≡ target_count plan.now.participants plan.now.crashes self.now.exercise.delayed_started }
    {
        let participants = plan.participants.as_slice();
        let all = participants.len();
        if self.exercise.delayed_started {
            all
        } else {
            all.saturating_sub(count_late(participants, named_late_by(plan.crashes.as_slice())))
        }
    }

    /// Starts the delayed participants, in ascending order, once a finalized round reaches theirs.
    pub fn start_delayed(
        &mut self,
        plan: &Plan<D>,
        agenda: &mut Agenda,
        tracker: &ProgressTracker,
    ) -> Result<(), OutOfMemory>
        ensures changes_alone { OnOk result
            (ChangesEnginesAlone (D.peer_of plan.now.engine) agenda.old agenda.new self.old self.new) }
        ensures tally { OnOk result (tally_of self.new.exercise ≡ tally_of self.old.exercise) }
        ensures launches { OnOk result ((launched : List Peer)
            × Launches plan.now.participants plan.now.crashes self.old.exercise.delayed_started
            self.new.exercise.delayed_started launched
            × (agenda.new.events ≡ agenda.old.events ++ first_starts launched)) }
        ensures started { OnOk result (self.new.exercise.delayed_started
            ≡ (self.old.exercise.delayed_started
            || starts plan.now.participants plan.now.crashes tracker.now)) }
    {
        let participants = plan.participants.as_slice();
        let crashes = plan.crashes.as_slice();
        if self.exercise.delayed_started {
            return Ok(());
        }
        if !is_due(participants, crashes, tracker) {
            return Ok(());
        }
        let delayed = late_ones(self.alloc, participants, named_late_by(crashes))?;
        self.launch_all(plan, agenda, delayed)?;
        self.exercise.delayed_started = true;
        Ok(())
    }

    /// Starts these participants' engines now, in order.
    fn launch_all(
        &mut self,
        plan: &Plan<D>,
        agenda: &mut Agenda,
        participants: Vec<Peer>,
    ) -> Result<(), OutOfMemory>
        ensures changes_alone { OnOk result
            (ChangesEnginesAlone (D.peer_of plan.now.engine) agenda.old agenda.new self.old self.new) }
        ensures events { OnOk result
            (agenda.new.events ≡ agenda.old.events ++ first_starts participants.items) }
        ensures exercise { OnOk result (self.new.exercise ≡ self.old.exercise) }
    {
        for pk in participants {
            self.launch(plan, agenda, pk)?;
        }
        Ok(())
    }
}

/// A window of heights in which a participant crashes.
#[derive(Clone, Copy)]
struct Window {
    participant: Peer,
    first: u64,
    last: u64,
    downtime: u64,
}

/// A random failure.
#[derive(Clone, Copy)]
pub struct Random {
    pub frequency: u64,
    pub downtime: u64,
    pub count: usize,
}

/// The configured random failure.
pub fn random_of(crashes: &[Crash]) -> Option<Random>
    ensures { option_map_or (λ r. r.count) result 0 ≡ random_count crashes.now }
{
    for crash in crashes {
        if let Crash::Random {
            frequency,
            downtime,
            count,
        } = crash
        {
            return Some(Random {
                frequency: *frequency,
                downtime: *downtime,
                count: *count,
            });
        }
    }
    None
}

/// So many running peers, or all where fewer run, each taken by a word modulo the number of those left.
fn victims<D: EngineDefinition>(
    alloc: Global,
    words: &mut Pcg32,
    seats: &Seats<D>,
    count: usize,
) -> Result<Vec<Peer>, OutOfMemory>
    ensures { IfOk result (λ peers. peers.items ≡ picked count words.old (active_peers seats.now.entries)) }
{
    let mut left = active_keys(alloc, seats)?;
    let mut picked = Vec::new(alloc);
    for _ in 0..count {
        if left.len() == 0 {
            break;
        }
        picked.push(pick(words, &mut left))?;
    }
    Ok(picked)
}

/// Takes one of these peers out, by a word modulo their number.
fn pick(words: &mut Pcg32, left: &mut Vec<Peer>) -> Peer
    requires { 0 < vec_len left.old }
    ensures taken { result ≡ get_or left.old.items ((pcg32 words.old).0 % length left.old.items) result }
    ensures left { left.new.items ≡ remove left.old.items ((pcg32 words.old).0 % length left.old.items) }
    ensures words { words.new ≡ (pcg32 words.old).1 }
{
    let at = words.next_word() as usize % left.len();
    left.remove(at)
}

/// Whether a finalized round reaches the one at which the delayed participants are started, and there are
/// some.
fn is_due(participants: &[Peer], crashes: &[Crash], tracker: &ProgressTracker) -> bool
    ensures { result ≡ starts participants.now crashes.now tracker.now }
{
    any_reaches(crashes, tracker) && count_late(participants, named_late_by(crashes)) != 0
}

/// Whether a finalized round reaches the one at which the delayed participants are started.
fn any_reaches(crashes: &[Crash], tracker: &ProgressTracker) -> bool
    ensures { result ≡ list_any (reaches (delay_round crashes.now)) (finalized_rounds tracker.now) }
{
    is_reached(delay_of(crashes), tracker.max_round())
}

/// Whether there is a round that is due, and one that isn't before it.
fn is_reached(due: Option<Round>, reached: Option<Round>) -> bool
    ensures { result ≡ unwrap_or (option_map (reaches due) reached) false }
{
    let Some(reached) = reached else {
        return false;
    };
    match due {
        Some(due) => reached >= due,
        None => false,
    }
}

/// The round at which the delayed participants are started.
fn delay_of(crashes: &[Crash]) -> Option<Round>
    ensures { result ≡ delay_round crashes.now }
{
    for crash in crashes {
        if let Crash::DelayRound { round, .. } = crash {
            return Some(*round);
        }
    }
    None
}

/// The peers that the plan's failures name to be started late.
pub fn named_late_by(crashes: &[Crash]) -> &[Peer]
    ensures { result.now ≡ named_late crashes.now }
{
    for crash in crashes {
        if let Crash::DelayRound { participants, .. } = crash {
            return participants.as_slice();
        }
    }
    &[]
}

/// How many of these participants are named.
fn count_late(participants: &[Peer], named: &[Peer]) -> usize
    ensures { result ≡ length (filter (names named.now) participants.now) }
{
    participants
        .iter()
        .filter(|peer| is_among(named, *peer))
        .count()
}

/// Those participants that are named, in ascending order.
fn late_ones(alloc: Global, participants: &[Peer], named: &[Peer]) -> Result<Vec<Peer>, OutOfMemory>
    ensures permutation { IfOk result
        (λ late. IsPermutation (filter (names named.now) participants.now) late.items) }
    ensures sorted { IfOk result (λ late. IsSorted peer_cmp late.items) }
{
    let mut late = late_among(alloc, participants, named)?;
    late.sort()?;
    Ok(late)
}

/// Those participants that are named.
fn late_among(
    alloc: Global,
    participants: &[Peer],
    named: &[Peer],
) -> Result<Vec<Peer>, OutOfMemory>
    ensures { IfOk result (λ late. late.items ≡ filter (names named.now) participants.now) }
{
    let late = participants
        .iter()
        .filter(|peer| is_among(named, *peer))
        .copied()
        .collect(alloc)?;
    Ok(late)
}

/// The height of a peer's state, where it runs.
fn height_of<D: EngineDefinition>(seats: &Seats<D>, pk: &Peer) -> Option<u64>
    ensures { result ≡ height_at D.State.height_of seats.now.entries pk.now }
{
    match seats.get(pk) {
        Some(seat) => match &seat.running {
            Some(running) => Some(running.state.processed_height()),
            None => None,
        },
        None => None,
    }
}

/// The place of a peer among these, 0 where it is none.
fn place(peers: &[Peer], pk: Peer) -> usize {
    for (i, peer) in peers.iter().enumerate() {
        if *peer == pk {
            return i;
        }
    }
    0
}
