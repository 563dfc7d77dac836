//! Worked cases of the parts.

ghost use Rattle.std.specs.Prelude.{◌≡◌, IfOk};
ghost use Rattle.simulate_parts.specs.Engine.{DistinctPeers};

use ledger_codec::{List, OutOfMemory};
use rand_core::SeedableRng;
use rand_pcg::Pcg32;
use simulate_parts::{
    Activity, EngineDefinition, FaultConfig, FinalizationUpdate, Fraction, InitContext,
    MonitorReporter, ObserveFault, Peer, ProgressTracker, Reporter, Round, SimLink, StepEvent,
    StepOut, Team, dkg, draw, orchestrator, probe,
};
use std::alloc::Global;
use std::num::NonZeroU32;
use std::test::Fail;

/// A report: peer, epoch, view, height, and the one byte that stands three times in its digest.
type Case = (u64, u64, u64, u64, u8);

fn report(alloc: Global, case: Case) -> Result<FinalizationUpdate, OutOfMemory> {
    let mut digest = Vec::new(alloc);
    for _ in 0..3 {
        digest.push(case.4)?;
    }
    Ok(FinalizationUpdate {
        pk: Peer(case.0),
        round: Round {
            epoch: case.1,
            view: case.2,
        },
        height: case.3,
        block_digest: List::from_vec(digest),
    })
}

fn tell(alloc: Global, tracker: &mut ProgressTracker, case: Case) -> Result<(), ObserveFault> {
    let update = report(alloc, case)?;
    tracker.observe(update)
}

#[test]
fn finds_a_fork_at_a_height(rt: HostRuntime) {
    let alloc = rt.alloc();
    let mut tracker = ProgressTracker::default(alloc);
    assert_eq!(rt; tell(alloc, &mut tracker, (1, 0, 5, 5, 5)), Ok(()));
    assert_eq!(rt; tell(alloc, &mut tracker, (1, 0, 3, 3, 1)), Ok(()));
    assert_eq!(rt; tracker.min_view(), 5);
    assert_eq!(rt;
        tell(alloc, &mut tracker, (2, 0, 3, 3, 2)),
        Err(ObserveFault::Height { height: 3 })
    );
}

#[test]
fn tells_epochs_apart(rt: HostRuntime) {
    let alloc = rt.alloc();
    let mut tracker = ProgressTracker::default(alloc);
    assert_eq!(rt; tell(alloc, &mut tracker, (1, 0, 3, 3, 1)), Ok(()));
    assert_eq!(rt; tell(alloc, &mut tracker, (2, 1, 3, 8, 2)), Ok(()));
    assert_eq!(rt; tracker.unique_digests_at(3), 1);
    assert_eq!(rt; tracker.tracked_count(), 2);
    assert_eq!(rt; tracker.max_round(), Some(Round { epoch: 1, view: 3 }));
}

#[test]
fn finds_a_fork_at_a_round(rt: HostRuntime) {
    let alloc = rt.alloc();
    let mut tracker = ProgressTracker::default(alloc);
    let round = Round { epoch: 0, view: 3 };
    assert_eq!(rt; tell(alloc, &mut tracker, (7, 0, 3, 3, 1)), Ok(()));
    assert_eq!(rt;
        tell(alloc, &mut tracker, (7, 0, 3, 4, 9)),
        Err(ObserveFault::Round { round })
    );
    assert_eq!(rt;
        tell(alloc, &mut tracker, (8, 0, 9, 4, 1)),
        Err(ObserveFault::Height { height: 4 })
    );
    assert_eq!(rt; tracker.unique_digests_at(3), 2);
}

#[test]
fn counts_validators_in_every_epoch(rt: HostRuntime) {
    let alloc = rt.alloc();
    let mut tracker = ProgressTracker::default(alloc);
    assert_eq!(rt; tell(alloc, &mut tracker, (1, 0, 10, 1, 1)), Ok(()));
    assert_eq!(rt; tell(alloc, &mut tracker, (2, 1, 10, 2, 2)), Ok(()));
    assert_eq!(rt; tracker.all_reached(2, 10), true);
    assert_eq!(rt; tracker.all_reached(1, 11), false);
}

#[test]
fn counts_by_views_alone(rt: HostRuntime) {
    let alloc = rt.alloc();
    let mut tracker = ProgressTracker::default(alloc);
    assert_eq!(rt; tell(alloc, &mut tracker, (1, 1, 1, 1, 1)), Ok(()));
    assert_eq!(rt; tell(alloc, &mut tracker, (2, 1, 2, 2, 2)), Ok(()));
    assert_eq!(rt; tracker.all_reached(1, 10), false);
}

#[test]
fn replays_a_list_of_reports(rt: HostRuntime) -> Result<(), OutOfMemory> {
    let alloc = rt.alloc();
    let mut updates = Vec::new(alloc);
    updates.push(report(alloc, (1, 0, 1, 1, 1))?)?;
    updates.push(report(alloc, (2, 0, 2, 2, 2))?)?;
    let replayed = ProgressTracker::of(alloc, updates.as_slice());
    assert_eq!(rt;
        replayed.map(|tracker| tracker.tracked_count()).ok(),
        Some(2)
    );
    updates.push(report(alloc, (3, 0, 3, 1, 3))?)?;
    let forked = ProgressTracker::of(alloc, updates.as_slice());
    assert_eq!(rt; forked.err(), Some(ObserveFault::Height { height: 1 }));
    Ok(())
}

#[test]
fn limits_payloads(rt: HostRuntime) {
    assert_eq!(rt; orchestrator::max_payload_size(100), Some(110));
    assert_eq!(rt; orchestrator::max_payload_size(usize::MAX), None);
    assert_eq!(rt; probe::max_payload_size(32, 100), Some(163));
    for (n, coefficient, scalar, signature, size) in [(4, 48, 32, 64, 240), (1, 1, 1, 64, 75)] {
        let n = NonZeroU32::new(n);
        let limit = n.and_then(|n| dkg::max_payload_size(n, coefficient, scalar, signature));
        assert_eq!(rt; limit, Some(size));
    }
}

#[test]
fn draws_delays(rt: HostRuntime) {
    let mut words = Pcg32::seed_from_u64(0);
    for (num, delay) in [(0, None), (1, Some(10))] {
        let link = SimLink {
            latency: 10,
            jitter: 0,
            success: Fraction { num, den: 1 },
        };
        assert_eq!(rt; draw(&mut words, &link), delay);
    }
}

/// Engines that do nothing, of two peers.
#[derive(Drop)]
struct Idle;

impl EngineDefinition for Idle {
    ghost use Rattle.std.specs.Prelude.{[], None, Some};

    type Engine = Peer;

    type State = bool;

    ghost peer_of = { λ _ engine. engine };

    ghost taking_part = { λ _. None };

    ghost carried_on = { λ _. Some [] };

    ghost carried_size = { λ _. Some 0 };

    ghost made = { λ _ _ _. Unit {0} };

    ghost reports = { λ _. None };

    ghost journal = { λ _. None };

    fn participants(&self, alloc: Global) -> Result<Vec<Peer>, OutOfMemory> {
        Ok(Vec::new(alloc))
    }

    fn channels(&self, alloc: Global) -> Result<Vec<u64>, OutOfMemory> {
        Ok(Vec::new(alloc))
    }

    fn max_message_size(&self) -> u32 {
        0
    }

    fn init(&self, _alloc: Global, context: &InitContext) -> Result<(Peer, bool), OutOfMemory> {
        Ok((context.public_key, context.restart > 0))
    }

    fn step(
        &self,
        _alloc: Global,
        _engine: &mut Peer,
        _state: &mut bool,
        _event: &StepEvent,
        _out: &mut StepOut,
    ) -> Result<(), OutOfMemory> {
        Ok(())
    }
}

/// Peers 1 and 2.
fn pair(alloc: Global) -> Result<Vec<Peer>, OutOfMemory>
    ensures { IfOk result (λ peers. DistinctPeers peers.items) }
{
    let mut peers = Vec::new(alloc);
    peers.push(Peer(1))?;
    peers.push(Peer(2))?;
    Ok(peers)
}

/// A listener that counts.
#[derive(Drop)]
struct Counter(u64);

impl Reporter for Counter {
    ghost use Rattle.std.specs.Prelude.{None};

    ghost told = { λ _. None };

    fn report(&mut self, _activity: &Activity) {
        self.0 = self.0.saturating_add(1);
    }
}

/// The least view that nobody has finalized.
fn view_of_nobody(alloc: Global) -> u64
    ensures { result ≡ 0 }
{
    ProgressTracker::default(alloc).min_view()
}

#[test]
fn has_no_view_at_first(rt: HostRuntime) {
    assert_eq!(rt; view_of_nobody(rt.alloc()), 0);
}

#[test]
fn monitors_tips(rt: HostRuntime) -> Result<(), Fail> {
    let alloc = rt.alloc();
    let mut monitor = MonitorReporter::new(alloc, Peer(1), Box::new(alloc, Counter(0))?);
    let tip = Activity::Tip {
        round: Round { epoch: 0, view: 1 },
        height: 1,
        digest: List::new(alloc),
    };
    assert_eq!(rt; monitor.report(tip), Ok(()));
    assert_eq!(rt; monitor.report(Activity::Block { height: 1 }), Ok(()));
    assert_eq!(rt; monitor.take().len(), 1);
    assert_eq!(rt; monitor.take().len(), 0);
    Ok(())
}

#[test]
fn crashes_and_restarts(rt: HostRuntime) -> Result<(), OutOfMemory> {
    let alloc = rt.alloc();
    let mut team = Team::new(alloc, Idle, pair(alloc)?);
    team.start(&[Peer(2)], FaultConfig { rate: None })?;
    assert_eq!(rt; team.active_keys()?.len(), 1);
    assert_eq!(rt; crash_first(&mut team), true);
    assert_eq!(rt; crash_first(&mut team), false);
    restart_first(&mut team)?;
    assert_eq!(rt; team.active_keys()?.len(), 1);
    assert_eq!(rt; team.active_states()?.len(), 1);
    Ok(())
}

/// Stops the first participant.
fn crash_first<D: EngineDefinition>(team: &mut Team<D>) -> bool {
    match team.participants().first() {
        Some(first) => {
            let pk = *first;
            team.crash(&pk)
        }
        None => false,
    }
}

/// Starts the first participant anew.
fn restart_first<D: EngineDefinition>(team: &mut Team<D>) -> Result<(), OutOfMemory> {
    match team.participants().first() {
        Some(first) => {
            let pk = *first;
            team.restart(&pk, false, FaultConfig { rate: None })
        }
        None => Ok(()),
    }
}
