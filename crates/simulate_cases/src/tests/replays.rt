//! Whole runs of recording engines. What they show is worked in vectors/runs.py.

ghost use Rattle.std.specs.Prelude.{◌≡◌, ◌≤◌, IfOk, count_by, false};
ghost use Rattle.simulate_parts.specs.Engine.{DistinctPeers};
ghost use Rattle.ledger_simulate.specs.Plans.{Runs, delays, crashes_at_random};

use super::runs::TwoTracked;
use ledger_codec::{List, OutOfMemory};
use ledger_simulate::{
    Action, Crash, EngineDefinition, ExitCondition, FaultConfig, Fraction, InitContext, Peer, Plan,
    PlanResult, ProcessedHeight, ProcessedHeightAtLeast, Round, Schedule, SimEnd, SimLink,
    StepEvent, StepOut,
};
use simulate_parts::push;
use std::alloc::Global;
use std::test::Fail;

/// What an engine was told, and how many milliseconds it has run, which is its height.
#[derive(Drop)]
struct Record {
    bytes: Vec<u8>,
    clock: u64,
}

impl ProcessedHeight for Record {
    ghost use Rattle.std.specs.Prelude.{◌++◌, ◌∷◌, ◌%◌, []};

    ghost height_of = { λ s. s.clock };

    ghost bytes_of = { λ s. s.bytes.items ++ (s.clock % 256) ∷ [] };

    fn processed_height(&self) -> u64 {
        self.clock
    }

    fn shown(&self, alloc: Global) -> Result<Vec<u8>, OutOfMemory> {
        let mut bytes = Vec::from_slice(alloc, self.bytes.as_slice())?;
        bytes.push((self.clock % 256) as u8)?;
        Ok(bytes)
    }
}

/// Engines that record what `init` told them, and from whom and at which height messages came. The first
/// peer tells all of them something every 10 ms, and each reports once, at the height that it is given.
#[derive(Drop)]
struct Recorder {
    alone: bool,
    first_at: u64,
    second_at: u64,
}

impl EngineDefinition for Recorder {
    ghost use Rattle.std.specs.Prelude.{◌∷◌, [], None, Some};

    type Engine = Peer;

    type State = Record;

    ghost peer_of = { λ _ engine. engine };

    ghost taking_part = { λ _. None };

    ghost carried_on = { λ _. None };

    ghost carried_size = { λ _. Some 64 };

    ghost made = { λ _ _ _. Unit {0} };

    ghost reports = { λ _. None };

    ghost journal = { λ _. None };

    fn participants(&self, alloc: Global) -> Result<Vec<Peer>, OutOfMemory> {
        if self.alone { one(alloc) } else { three(alloc) }
    }

    fn channels(&self, alloc: Global) -> Result<Vec<u64>, OutOfMemory> {
        let mut channels = Vec::new(alloc);
        channels.push(0)?;
        Ok(channels)
    }

    fn max_message_size(&self) -> u32 {
        64
    }

    fn init(&self, alloc: Global, context: &InitContext) -> Result<(Peer, Record), OutOfMemory> {
        let mut bytes = Vec::new(alloc);
        bytes.push((context.index % 256) as u8)?;
        bytes.push(u8::from(context.delayed))?;
        bytes.push((context.restart % 256) as u8)?;
        bytes.push(match context.fault.rate {
            Some(rate) => (rate.num % 256) as u8,
            None => 0,
        })?;
        Ok((context.public_key, Record { bytes, clock: 0 }))
    }

    fn step(
        &self,
        alloc: Global,
        engine: &mut Peer,
        state: &mut Record,
        event: &StepEvent,
        out: &mut StepOut,
    ) -> Result<(), OutOfMemory> {
        match event {
            StepEvent::Started => out.set_timer(alloc, 1),
            StepEvent::Timer { .. } => {
                state.clock = state.clock.saturating_add(1);
                out.set_timer(alloc, 1)?;
                self.speak(alloc, *engine, state.clock, out)
            }
            StepEvent::Received { from, .. } => {
                state.bytes.push((from.0 % 256) as u8)?;
                state.bytes.push((state.clock % 256) as u8)?;
                Ok(())
            }
        }
    }
}

impl Recorder {
    /// Sends and reports what is due of a peer at a height.
    fn speak(
        &self,
        alloc: Global,
        pk: Peer,
        clock: u64,
        out: &mut StepOut,
    ) -> Result<(), OutOfMemory> {
        if pk.0 == 1 && clock % 10 == 0 {
            for to in 1..4 {
                out.send(alloc, Peer(to), 0, List::new(alloc))?;
            }
        }
        let due = if pk.0 == 1 {
            self.first_at
        } else {
            self.second_at
        };
        if pk.0 < 3 && clock == due {
            let round = Round {
                epoch: 0,
                view: pk.0,
            };
            out.finalize(alloc, round, pk.0, List::new(alloc))?;
        }
        Ok(())
    }
}

/// The peers 2, 1 and 3.
fn three(alloc: Global) -> Result<Vec<Peer>, OutOfMemory>
    ensures { IfOk result (λ peers. DistinctPeers peers.items) }
{
    Ok(Vec::from_slice(alloc, &[Peer(2), Peer(1), Peer(3)])?)
}

/// The peer 1.
pub fn one(alloc: Global) -> Result<Vec<Peer>, OutOfMemory>
    ensures { IfOk result (λ peers. DistinctPeers peers.items) }
{
    Ok(Vec::from_slice(alloc, &[Peer(1)])?)
}

/// A link that loses nothing.
fn lasting(latency: u64) -> SimLink {
    SimLink {
        latency,
        jitter: 0,
        success: Fraction { num: 1, den: 1 },
    }
}

/// A storage fault of this many of four.
fn of_four(num: u32) -> FaultConfig {
    FaultConfig {
        rate: if num <= 4 {
            Some(Fraction { num, den: 4 })
        } else {
            None
        },
    }
}

/// A run with these failures.
fn run_with(
    alloc: Global,
    engine: Recorder,
    participants: Vec<Peer>,
    condition: Box<dyn ExitCondition>,
    crashes: List<Crash>,
) -> Result<PlanResult, SimEnd>
    requires { Runs participants.items crashes }
{
    let plan = Plan {
        seed: 0,
        participants: List::from_vec(participants),
        link: lasting(10),
        engine,
        crashes,
        required_finalizations: 1,
        exit_condition: Some(condition),
        timeout: None,
        storage_fault: Some(of_four(3)),
        finalization_property: List::new(alloc),
        property: List::new(alloc),
        max_events: 10_000,
    };
    plan.run(alloc)
}

/// Whether a run crashed so many peers, and shows these states as it ends.
fn comes_to(run: Result<PlanResult, SimEnd>, crashes: u64, states: &[&[u8]]) -> bool {
    match run {
        Ok(ran) => ran.crashes() == crashes && shows(&ran, states),
        Err(_) => false,
    }
}

/// Whether a result shows these states.
fn shows(ran: &PlanResult, states: &[&[u8]]) -> bool {
    if ran.states().len() != states.len() {
        return false;
    }
    for (i, state) in ran.states().iter().enumerate() {
        if state.shown.as_slice() != states[i] {
            return false;
        }
    }
    true
}

/// A fault, a crash and a restart, and links that are set and healed.
fn eventful(alloc: Global) -> Result<Schedule, OutOfMemory> {
    let mut schedule = Schedule::new(alloc);
    for (time, action) in [
        (5, Action::SetStorageFault(of_four(1))),
        (10, Action::Crash(Peer(2))),
        (20, Action::Restart(Peer(2))),
        (30, Action::Heal(lasting(3))),
        (35, set_link(1, 2, 7)),
        (45, Action::Heal(lasting(4))),
        (46, set_link(1, 9, 50)),
    ] {
        if schedule.may_add(time) {
            schedule = schedule.at(time, action)?;
        }
    }
    Ok(schedule)
}

/// A link from one peer to another.
fn set_link(from: u64, to: u64, latency: u64) -> Action {
    Action::UpdateLink {
        from: Peer(from),
        to: Peer(to),
        link: lasting(latency),
    }
}

/// The third peer is started late, once another one has reported, beside another failure, which is neither
/// late nor random.
fn late_beside(alloc: Global, other: Crash) -> Result<List<Crash>, OutOfMemory>
    requires delays { delays other ≡ false }
    requires random { crashes_at_random other ≡ false }
    ensures { IfOk result (λ cs. (count_by delays cs ≤ 1) × (count_by crashes_at_random cs ≤ 1)) }
{
    let mut participants = List::new(alloc);
    push(alloc, &mut participants, Peer(3))?;
    let mut crashes = List::new(alloc);
    push(alloc, &mut crashes, other)?;
    let late = Crash::DelayRound {
        participants,
        round: Round { epoch: 0, view: 1 },
    };
    push(alloc, &mut crashes, late)?;
    Ok(crashes)
}

/// A random crash every 20 ms.
fn every_20(alloc: Global) -> Result<List<Crash>, OutOfMemory>
    ensures { IfOk result (λ cs. (count_by delays cs ≤ 1) × (count_by crashes_at_random cs ≤ 1)) }
{
    let mut crashes = List::new(alloc);
    let random = Crash::Random {
        frequency: 20,
        downtime: 5,
        count: 1,
    };
    push(alloc, &mut crashes, random)?;
    Ok(crashes)
}

#[test]
fn starts_restarts_and_links(rt: HostRuntime) -> Result<(), Fail> {
    let alloc = rt.alloc();
    let engine = Recorder {
        alone: false,
        first_at: 15,
        second_at: 45,
    };
    let condition = Box::new(alloc, TwoTracked)?;
    let crashes = late_beside(alloc, Crash::Schedule(eventful(alloc)?))?;
    let run = run_with(alloc, engine, three(alloc)?, condition, crashes);
    assert!(rt;
        comes_to(
            run,
            1,
            &[
                &[1, 0, 0, 3, 65],
                &[0, 0, 1, 1, 1, 9, 1, 12, 1, 26, 1, 33, 1, 43, 45],
                &[2, 1, 0, 1, 1, 14, 1, 17, 1, 27, 1, 38, 1, 48, 50],
            ]
        )
    );
    Ok(())
}

#[test]
fn recovers_from_a_window(rt: HostRuntime) -> Result<(), Fail> {
    let alloc = rt.alloc();
    let engine = Recorder {
        alone: false,
        first_at: 25,
        second_at: 45,
    };
    let window = Crash::ProcessedHeight {
        participant: Peer(2),
        first: 20,
        last: 30,
        downtime: 8,
    };
    let condition = Box::new(alloc, TwoTracked)?;
    let crashes = late_beside(alloc, window)?;
    let run = run_with(alloc, engine, three(alloc)?, condition, crashes);
    assert!(rt;
        comes_to(
            run,
            1,
            &[
                &[1, 0, 0, 3, 78],
                &[0, 0, 1, 3, 1, 16, 1, 26, 1, 36, 45],
                &[2, 1, 0, 3, 1, 14, 1, 24, 1, 34, 1, 44, 53],
            ]
        )
    );
    Ok(())
}

#[test]
fn crashes_and_polls_again_and_again(rt: HostRuntime) -> Result<(), Fail> {
    let alloc = rt.alloc();
    let engine = Recorder {
        alone: true,
        first_at: 1000,
        second_at: 1000,
    };
    let condition = Box::new(alloc, ProcessedHeightAtLeast::new(14))?;
    let run = run_with(alloc, engine, one(alloc)?, condition, every_20(alloc)?);
    assert!(rt; comes_to(run, 4, &[&[0, 0, 4, 3, 14]]));
    Ok(())
}
