//! Worked runs.

ghost use Rattle.std.specs.Prelude.{IfOk};
ghost use Rattle.simulate_parts.specs.Engine.{DistinctPeers};

use ledger_codec::{List, OutOfMemory};
use ledger_simulate::{PlanBuilder, PlanFault, PlanResult, SimEnd, Simulation, Stepped};
use simulate_parts::{
    Action, CheckFault, Crash, EngineDefinition, ExitCondition, Fraction, InitContext, Peer,
    ProcessedHeight, ProgressTracker, Round, Schedule, SimLink, StateView, StepEvent, StepOut,
};
use std::alloc::Global;
use std::test::Fail;

/// The bytes that a state shows. Its height is their number.
#[derive(Drop)]
struct Log {
    bytes: Vec<u8>,
}

impl ProcessedHeight for Log {
    ghost use Rattle.std.specs.Prelude.{vec_len};

    ghost height_of = { λ s. vec_len s.bytes };

    ghost bytes_of = { λ s. s.bytes.items };

    fn processed_height(&self) -> u64 {
        self.bytes.len() as u64
    }

    fn shown(&self, alloc: Global) -> Result<Vec<u8>, OutOfMemory> {
        Ok(Vec::from_slice(alloc, self.bytes.as_slice())?)
    }
}

/// Engines that log the times of their events, set two timers and tell peer 2
/// something as they start, and report blocks at one time:
/// one of view 1, and if `more`, one of view 2 and then another one at the first height.
#[derive(Drop)]
struct Script {
    peers: u64,
    timers: (u64, u64),
    report_at: u64,
    more: bool,
}

impl EngineDefinition for Script {
    ghost use Rattle.std.specs.Prelude.{◌∷◌, [], None, Some};

    type Engine = Peer;

    type State = Log;

    ghost peer_of = { λ _ engine. engine };

    ghost taking_part = { λ _. None };

    ghost carried_on = { λ _. Some (0 ∷ []) };

    ghost carried_size = { λ _. Some 64 };

    ghost made = { λ _ _ _. Unit {0} };

    ghost reports = { λ _. None };

    ghost journal = { λ _. None };

    fn participants(&self, alloc: Global) -> Result<Vec<Peer>, OutOfMemory> {
        few(alloc, self.peers)
    }

    fn channels(&self, alloc: Global) -> Result<Vec<u64>, OutOfMemory> {
        let mut channels = Vec::new(alloc);
        channels.push(0)?;
        Ok(channels)
    }

    fn max_message_size(&self) -> u32 {
        64
    }

    fn init(&self, alloc: Global, context: &InitContext) -> Result<(Peer, Log), OutOfMemory> {
        Ok((
            context.public_key,
            Log {
                bytes: Vec::new(alloc),
            },
        ))
    }

    fn step(
        &self,
        alloc: Global,
        _engine: &mut Peer,
        state: &mut Log,
        event: &StepEvent,
        out: &mut StepOut,
    ) -> Result<(), OutOfMemory> {
        match event {
            StepEvent::Started => {
                state.bytes.push(0)?;
                greet(alloc, Peer(2), out)?;
                out.set_timer(alloc, self.timers.0)?;
                out.set_timer(alloc, self.timers.1)
            }
            StepEvent::Timer { at } => {
                state.bytes.push((*at % 256) as u8)?;
                if *at >= self.report_at {
                    return report(alloc, self.more, out);
                }
                Ok(())
            }
            StepEvent::Received { .. } => Ok(()),
        }
    }
}

/// Sends a peer something.
fn greet(alloc: Global, to: Peer, out: &mut StepOut) -> Result<(), OutOfMemory> {
    let bytes = one_byte(alloc, 7)?;
    out.send(alloc, to, 0, bytes)
}

/// The peers 1 and 2, or 1 alone.
fn few(alloc: Global, count: u64) -> Result<Vec<Peer>, OutOfMemory>
    ensures { IfOk result (λ peers. DistinctPeers peers.items) }
{
    let mut peers = Vec::new(alloc);
    peers.push(Peer(1))?;
    if count > 1 {
        peers.push(Peer(2))?;
    }
    Ok(peers)
}

/// Reports a block of view 1, and if `more` a second block and one that conflicts with the first.
fn report(alloc: Global, more: bool, out: &mut StepOut) -> Result<(), OutOfMemory> {
    report_one(alloc, (1, 1, 1), out)?;
    if more {
        report_one(alloc, (2, 2, 2), out)?;
        report_one(alloc, (3, 1, 3), out)?;
    }
    Ok(())
}

/// Reports a block: its view, its height and its digest.
fn report_one(alloc: Global, block: (u64, u64, u8), out: &mut StepOut) -> Result<(), OutOfMemory> {
    let round = Round {
        epoch: 0,
        view: block.0,
    };
    let digest = one_byte(alloc, block.2)?;
    out.finalize(alloc, round, block.1, digest)
}

/// A digest of one byte.
fn one_byte(alloc: Global, byte: u8) -> Result<List<u8>, OutOfMemory> {
    let mut bytes = Vec::new(alloc);
    bytes.push(byte)?;
    Ok(List::from_vec(bytes))
}

/// A schedule with one action more, where it may be added.
fn then(schedule: Schedule, time: u64, action: Action) -> Result<Schedule, OutOfMemory> {
    if schedule.may_add(time) {
        schedule.at(time, action)
    } else {
        Ok(schedule)
    }
}

/// Crash at 1, crash at 2, restart at 3.
fn bumpy(alloc: Global) -> Result<Schedule, OutOfMemory> {
    let once = then(Schedule::new(alloc), 1, Action::Crash(Peer(1)))?;
    let twice = then(once, 2, Action::Crash(Peer(1)))?;
    then(twice, 3, Action::Restart(Peer(1)))
}

/// An engine that reports view 1 some 50 ms after its start.
fn late_reporter() -> Script {
    Script {
        peers: 1,
        timers: (50, 90),
        report_at: 50,
        more: false,
    }
}

/// A plan of the late reporter, which wants one view.
fn late(alloc: Global) -> Result<PlanBuilder<Script>, OutOfMemory> {
    wanting(alloc, late_reporter(), 1)
}

/// A plan of these engines, which wants so many views.
fn wanting(alloc: Global, engine: Script, views: u64) -> Result<PlanBuilder<Script>, OutOfMemory> {
    Ok(PlanBuilder::new(alloc, engine)?.required_finalizations(views))
}

/// The plan with one failure more, where it fits beside the others.
fn with(builder: PlanBuilder<Script>, crash: Crash) -> Result<PlanBuilder<Script>, OutOfMemory> {
    if builder.may_crash(&crash) {
        builder.crash(crash)
    } else {
        Ok(builder)
    }
}

/// What a run of the plan comes to.
fn ran(alloc: Global, builder: PlanBuilder<Script>) -> Result<PlanResult, SimEnd> {
    builder.build().run(alloc)
}

/// What a run came to: its crashes, or nothing.
fn crashes_of(run: Result<PlanResult, SimEnd>) -> Option<u64> {
    match run {
        Ok(result) => Some(result.crashes()),
        Err(_) => None,
    }
}

#[test]
fn survives_crashes(rt: HostRuntime) -> Result<(), OutOfMemory> {
    let alloc = rt.alloc();
    let plan = with(late(alloc)?, Crash::Schedule(bumpy(alloc)?))?;
    assert_eq!(rt; crashes_of(ran(alloc, plan)), Some(1));
    Ok(())
}

#[test]
fn tolerates_a_random_crash_that_is_never_due(rt: HostRuntime) -> Result<(), OutOfMemory> {
    let alloc = rt.alloc();
    let plan = with(late(alloc)?, Crash::Schedule(bumpy(alloc)?))?;
    let plan = with(plan, never_due())?;
    assert_eq!(rt; crashes_of(ran(alloc, plan)), Some(1));
    Ok(())
}

/// Whether a run ended by a fork.
fn is_forked(run: Result<PlanResult, SimEnd>) -> bool {
    match run {
        Err(SimEnd::Fault(ended)) => is_fork(ended.fault()),
        _ => false,
    }
}

/// Whether a fault is a fork.
fn is_fork(fault: &PlanFault) -> bool {
    matches!(fault, PlanFault::Fork { .. })
}

#[test]
fn finds_a_fork_behind_the_end(rt: HostRuntime) -> Result<(), OutOfMemory> {
    let alloc = rt.alloc();
    let engine = Script {
        peers: 1,
        timers: (5, 9),
        report_at: 5,
        more: true,
    };
    assert!(rt; is_forked(ran(alloc, wanting(alloc, engine, 2)?)));
    Ok(())
}

/// The place of the failure that came to nothing, where a run ended so.
fn missed(run: Result<PlanResult, SimEnd>) -> Option<usize> {
    match run {
        Err(SimEnd::Fault(ended)) => match ended.fault() {
            PlanFault::NotExercised { index } => Some(*index),
            _ => None,
        },
        _ => None,
    }
}

/// The height that skipped a window, where a run ended so.
fn skipped(run: Result<PlanResult, SimEnd>) -> Option<u64> {
    match run {
        Err(SimEnd::Fault(ended)) => match ended.fault() {
            PlanFault::SkippedWindow { height } => Some(*height),
            _ => None,
        },
        _ => None,
    }
}

/// A window of heights of the first peer. The late reporter has height 2 as it reports.
fn window(first: u64, last: u64) -> Crash {
    Crash::ProcessedHeight {
        participant: Peer(1),
        first,
        last,
        downtime: 1,
    }
}

/// A random crash that is never due.
fn never_due() -> Crash {
    Crash::Random {
        frequency: 600_000,
        downtime: 1,
        count: 1,
    }
}

#[test]
fn names_the_first_failure_that_came_to_nothing(rt: HostRuntime) -> Result<(), OutOfMemory> {
    let alloc = rt.alloc();
    let plan = with(late(alloc)?, Crash::Schedule(bumpy(alloc)?))?;
    let plan = with(plan, window(3, 9))?;
    assert_eq!(rt; missed(ran(alloc, plan)), Some(1));
    Ok(())
}

#[test]
fn misses_a_random_crash_where_none_ran(rt: HostRuntime) -> Result<(), OutOfMemory> {
    let alloc = rt.alloc();
    let plan = with(late(alloc)?, never_due())?;
    assert_eq!(rt; missed(ran(alloc, plan)), Some(0));
    Ok(())
}

#[test]
fn counts_a_crash_in_a_window(rt: HostRuntime) -> Result<(), OutOfMemory> {
    let alloc = rt.alloc();
    let plan = with(late(alloc)?, window(2, 2))?;
    assert_eq!(rt; crashes_of(ran(alloc, plan)), Some(1));
    Ok(())
}

#[test]
fn ends_where_a_window_is_skipped(rt: HostRuntime) -> Result<(), OutOfMemory> {
    let alloc = rt.alloc();
    let plan = with(late(alloc)?, window(0, 1))?;
    assert_eq!(rt; skipped(ran(alloc, plan)), Some(2));
    Ok(())
}

/// Ends a run once two validators have reported.
#[derive(Drop)]
pub struct TwoTracked;

impl ExitCondition for TwoTracked {
    ghost use Rattle.std.specs.Prelude.{Ok, codes, length, nat_le};

    ghost exit_name = { λ _. codes "two_tracked" };

    ghost exit_verdict = { λ _ tracker states target. Ok (nat_le 2 (length tracker.validators)) };

    fn name(&self) -> &str {
        "two_tracked"
    }

    fn requires_polling(&self) -> bool {
        false
    }

    fn reached(
        &self,
        tracker: &ProgressTracker,
        _states: &[StateView],
        _target_count: usize,
    ) -> Result<bool, CheckFault> {
        Ok(tracker.tracked_count() >= 2)
    }
}

#[test]
fn ends_by_its_own_condition(rt: HostRuntime) -> Result<(), Fail> {
    let alloc = rt.alloc();
    let engine = Script {
        peers: 2,
        timers: (5, 9),
        report_at: 5,
        more: false,
    };
    let Ok(plan) = wanting(alloc, engine, 100) else {
        return Ok(());
    };
    let plan = plan.exit_condition(Box::new(alloc, TwoTracked)?);
    assert_eq!(rt; crashes_of(ran(alloc, plan)), Some(0));
    Ok(())
}

/// Steps a run three times, and gives its result where the third step ends it.
fn third<D: EngineDefinition>(simulation: Simulation<'_, D>) -> Option<PlanResult> {
    let Ok(Stepped::On(simulation)) = simulation.step() else {
        return None;
    };
    let Ok(Stepped::On(simulation)) = simulation.step() else {
        return None;
    };
    match simulation.step() {
        Ok(Stepped::Done(result)) => Some(result),
        _ => None,
    }
}

/// Whether the first engine shows these bytes where the third step of a run ends it.
fn shows(alloc: Global, builder: PlanBuilder<Script>, bytes: &[u8]) -> Result<bool, OutOfMemory> {
    let plan = builder.build();
    match third(Simulation::new(alloc, &plan, 0)?) {
        Some(result) => match result.states().first() {
            Some(state) => Ok(state.shown.as_slice() == bytes),
            None => Ok(false),
        },
        None => Ok(false),
    }
}

#[test]
fn handles_events_by_time(rt: HostRuntime) -> Result<(), OutOfMemory> {
    let alloc = rt.alloc();
    let engine = Script {
        peers: 1,
        timers: (5, 3),
        report_at: 5,
        more: false,
    };
    assert!(rt; shows(alloc, wanting(alloc, engine, 1)?, &[0, 3, 5])?);
    Ok(())
}

/// Seven engines that tell each other something every 10 ms, and report nothing.
#[derive(Drop)]
struct Gossip;

impl EngineDefinition for Gossip {
    ghost use Rattle.std.specs.Prelude.{◌∷◌, [], None, Some};

    type Engine = Peer;

    type State = bool;

    ghost peer_of = { λ _ engine. engine };

    ghost taking_part = { λ _. None };

    ghost carried_on = { λ _. Some (0 ∷ []) };

    ghost carried_size = { λ _. Some 64 };

    ghost made = { λ _ _ _. Unit {0} };

    ghost reports = { λ _. None };

    ghost journal = { λ _. None };

    fn participants(&self, alloc: Global) -> Result<Vec<Peer>, OutOfMemory> {
        seven(alloc)
    }

    fn channels(&self, alloc: Global) -> Result<Vec<u64>, OutOfMemory> {
        let mut channels = Vec::new(alloc);
        channels.push(0)?;
        Ok(channels)
    }

    fn max_message_size(&self) -> u32 {
        64
    }

    fn init(&self, _alloc: Global, context: &InitContext) -> Result<(Peer, bool), OutOfMemory> {
        Ok((context.public_key, true))
    }

    fn step(
        &self,
        alloc: Global,
        _engine: &mut Peer,
        _state: &mut bool,
        event: &StepEvent,
        out: &mut StepOut,
    ) -> Result<(), OutOfMemory> {
        if let StepEvent::Received { .. } = event {
            return Ok(());
        }
        for to in 1..8 {
            greet(alloc, Peer(to), out)?;
        }
        out.set_timer(alloc, 10)
    }
}

/// The peers 1 to 7.
fn seven(alloc: Global) -> Result<Vec<Peer>, OutOfMemory>
    ensures { IfOk result (λ peers. DistinctPeers peers.items) }
{
    Ok(Vec::from_slice(
        alloc,
        &[
            Peer(1),
            Peer(2),
            Peer(3),
            Peer(4),
            Peer(5),
            Peer(6),
            Peer(7),
        ],
    )?)
}

/// Steps a run of lossy gossip with crashes to its limit of events, and gives the first event that is left
/// and the number of those that were handled.
fn lossy_run(alloc: Global, seed: u64, steps: u64) -> Result<Option<(u64, u64)>, OutOfMemory> {
    let lossy = SimLink {
        latency: 10,
        jitter: 5,
        success: Fraction { num: 9, den: 10 },
    };
    let builder = PlanBuilder::new(alloc, Gossip)?.link(lossy);
    let random = Crash::Random {
        frequency: 500,
        downtime: 100,
        count: 2,
    };
    if !builder.may_crash(&random) {
        return Ok(None);
    }
    steps_of(alloc, builder.crash(random)?, seed, steps)
}

/// The first event that is left after so many steps, and the number of those that were handled.
fn steps_of(
    alloc: Global,
    builder: PlanBuilder<Gossip>,
    seed: u64,
    steps: u64,
) -> Result<Option<(u64, u64)>, OutOfMemory> {
    let plan = builder.build();
    let mut simulation = Simulation::new(alloc, &plan, seed)?;
    for _ in 0..steps {
        simulation = match simulation.step() {
            Ok(Stepped::On(next)) => next,
            _ => return Ok(None),
        };
    }
    Ok(simulation.next_event())
}

#[test]
fn repeats_a_run_under_one_seed(rt: HostRuntime) -> Result<(), OutOfMemory> {
    let alloc = rt.alloc();
    let first = lossy_run(alloc, 1, 10_000)?;
    let second = lossy_run(alloc, 1, 10_000)?;
    let other = lossy_run(alloc, 2, 10_000)?;
    assert!(rt; first.is_some());
    assert!(rt; first == second);
    assert!(rt; first != other);
    Ok(())
}

/// The digest of the handled events of a run of two engines, of which one tells the other something.
fn state_of(alloc: Global, seed: u64) -> Result<Option<[u8; 32]>, OutOfMemory> {
    let engine = Script {
        peers: 2,
        timers: (50, 90),
        report_at: 50,
        more: false,
    };
    let plan = wanting(alloc, engine, 1)?.build();
    Ok(match plan.run_with_seed(alloc, seed) {
        Ok(result) => Some(*result.state()),
        Err(_) => None,
    })
}

#[test]
fn shows_one_state_a_seed(rt: HostRuntime) -> Result<(), OutOfMemory> {
    let alloc = rt.alloc();
    let first = state_of(alloc, 1)?;
    let second = state_of(alloc, 1)?;
    let other = state_of(alloc, 2)?;
    assert!(rt; first.is_some());
    assert!(rt; first == second);
    assert!(rt; first != other);
    Ok(())
}
