//! The engines that run, by peer.
ghost use Rattle.std.specs.Prelude.{◌≡◌, IfOk, IsSome, None, Ok, OnErr, OnOk, false, is_some, option_copied, true};
ghost use Rattle.simulate_parts.specs.Engine.{no_output};
ghost use Rattle.simulate_parts.specs.Seats.{Starts, Steps, StepsSeat, active_peers, active_views, key_of, runs, runs_since, starts_in, stopped, view_of};

use crate::engine::{
    EngineDefinition, InitContext, ProcessedHeight, StateView, StepEvent, StepOut,
};
use crate::link::FaultConfig;
use crate::lists::copy_items;
use crate::peer::Peer;
use ledger_codec::{List, OutOfMemory};
use std::alloc::Global;
use std::collections::BTreeMap;

/// An engine that runs. `birth` is the number that its start was given, by which a run tells it from the
/// engines that the peer had before.
#[derive(Drop)]
pub struct Running<D: EngineDefinition> {
    pub birth: u64,
    pub engine: D::Engine,
    pub state: D::State,
}

/// How often a peer was started, and its engine while it runs.
#[derive(Drop)]
pub struct Seat<D: EngineDefinition> {
    pub starts: u32,
    pub running: Option<Running<D>>,
}

/// The peers that were started, in ascending order.
pub type Seats<D> = BTreeMap<Peer, Seat<D>>;

/// One start of a peer.
#[derive(Clone, Copy)]
pub struct Start {
    pub pk: Peer,
    pub index: usize,
    pub delayed: bool,
    pub fault: FaultConfig,
    pub birth: u64,
}

/// Makes an engine for a peer, in place of the one that it had. A refused call leaves the seats.
pub fn start_engine<D: EngineDefinition>(
    alloc: Global,
    definition: &D,
    participants: &[Peer],
    seats: &mut Seats<D>,
    start: Start,
) -> Result<(), OutOfMemory>
    ensures ok { OnOk result (Starts (D.peer_of definition.now) (D.made definition.now)
        (D.journal definition.now) participants.now start seats.old.entries seats.new.entries) }
    ensures err { OnErr result (seats.new.entries ≡ seats.old.entries) }
{
    let restart = starts_of(seats.get(&start.pk));
    let context = InitContext {
        index: start.index,
        delayed: start.delayed,
        restart,
        public_key: start.pk,
        participants: copy_items(alloc, participants)?,
        fault: start.fault,
    };
    let (engine, state) = definition.init(alloc, &context)?;
    let seat = Seat {
        starts: restart.saturating_add(1),
        running: Some(Running {
            birth: start.birth,
            engine,
            state,
        }),
    };
    seats.insert(start.pk, seat)?;
    Ok(())
}

/// How often the peer of this seat was started.
fn starts_of<D: EngineDefinition>(seat: Option<&Seat<D>>) -> u32
    ensures { result ≡ starts_in (option_copied seat.entry) }
{
    match seat {
        Some(seat) => seat.starts,
        None => 0,
    }
}

/// Stops a peer's engine, and says whether it ran.
pub fn stop_engine<D: EngineDefinition>(seats: &mut Seats<D>, pk: &Peer) -> bool
    ensures ran { result ≡ runs seats.old.entries pk.now }
    ensures after { seats.new.entries ≡ stopped seats.old.entries pk.now }
{
    match seats.get_mut(pk) {
        Some(seat) => stop_seat(seat),
        None => false,
    }
}

/// Stops the engine of a seat, and says whether it ran.
fn stop_seat<D: EngineDefinition>(seat: &mut Seat<D>) -> bool
    ensures ran { result ≡ is_some seat.old.running }
    ensures after { seat.new ≡ record seat.old { running = None } }
{
    let ran = seat.running.is_some();
    seat.running = None;
    ran
}

/// Whether a peer runs.
pub fn is_running<D: EngineDefinition>(seats: &Seats<D>, pk: &Peer) -> bool
    ensures { result ≡ runs seats.now.entries pk.now }
{
    match seats.get(pk) {
        Some(seat) => seat.running.is_some(),
        None => false,
    }
}

/// Whether the engine of a peer that was started under this number runs.
pub fn is_current<D: EngineDefinition>(seats: &Seats<D>, pk: &Peer, birth: u64) -> bool
    ensures { result ≡ runs_since seats.now.entries pk.now birth }
{
    match seats.get(pk) {
        Some(seat) => match &seat.running {
            Some(running) => running.birth == birth,
            None => false,
        },
        None => false,
    }
}

/// Steps a peer's engine with an event, where it runs, and says whether it does.
pub fn step_engine<D: EngineDefinition>(
    alloc: Global,
    definition: &D,
    seats: &mut Seats<D>,
    pk: &Peer,
    event: &StepEvent,
    out: &mut StepOut,
) -> Result<bool, OutOfMemory>
    requires { out.old ≡ no_output }
    ensures ran { IfOk result (λ ran. ran ≡ runs seats.old.entries pk.now) }
    ensures stepped { result ≡ Ok true → Steps (D.peer_of definition.now) (D.journal definition.now)
        (D.reports definition.now) pk.now event.now out.new seats.old.entries seats.new.entries }
    ensures idle { result ≡ Ok false → (seats.new.entries ≡ seats.old.entries) × (out.new ≡ no_output) }
{
    if !is_running(seats, pk) {
        return Ok(false);
    }
    match seats.get_mut(pk) {
        Some(seat) => {
            step_seat(alloc, definition, seat, event, out)?;
            Ok(true)
        }
        None => Ok(false),
    }
}

/// Steps the engine of a seat with an event.
fn step_seat<D: EngineDefinition>(
    alloc: Global,
    definition: &D,
    seat: &mut Seat<D>,
    event: &StepEvent,
    out: &mut StepOut,
) -> Result<(), OutOfMemory>
    requires empty { out.old ≡ no_output }
    requires runs { IsSome seat.old.running }
    ensures { OnOk result (StepsSeat (D.peer_of definition.now) (D.journal definition.now)
        (D.reports definition.now) event.now out.new seat.old seat.new) }
{
    match &mut seat.running {
        Some(running) => {
            definition.step(alloc, &mut running.engine, &mut running.state, event, out)?;
            Ok(())
        }
        None => Ok(()),
    }
}

/// The peer of an entry, where it runs.
fn running_peer<D: EngineDefinition>(peer: &Peer, seat: &Seat<D>) -> Option<Peer>
    ensures { result ≡ key_of (peer.now, seat.now) }
{
    match &seat.running {
        Some(_) => Some(*peer),
        None => None,
    }
}

/// The peers that run, in ascending order.
pub fn active_keys<D: EngineDefinition>(
    alloc: Global,
    seats: &Seats<D>,
) -> Result<Vec<Peer>, OutOfMemory>
    ensures { IfOk result (λ keys. keys.items ≡ active_peers seats.now.entries) }
{
    let keys = seats
        .iter()
        .filter_map(|(peer, seat)| running_peer(peer, seat))
        .collect(alloc)?;
    Ok(keys)
}

/// How checks see the state of a seat's engine, where it runs.
fn view<D: EngineDefinition>(
    alloc: Global,
    seat: &Seat<D>,
) -> Result<Option<StateView>, OutOfMemory>
    ensures { IfOk result (λ v. v ≡ view_of D.State.height_of D.State.bytes_of seat.now) }
{
    match &seat.running {
        Some(running) => Ok(Some(StateView {
            height: running.state.processed_height(),
            shown: List::from_vec(running.state.shown(alloc)?),
        })),
        None => Ok(None),
    }
}

/// How checks see the states of the engines that run, in ascending order of peers.
pub fn active_states<D: EngineDefinition>(
    alloc: Global,
    seats: &Seats<D>,
) -> Result<Vec<StateView>, OutOfMemory>
    ensures { IfOk result (λ views. views.items
        ≡ active_views D.State.height_of D.State.bytes_of seats.now.entries) }
{
    let mut views = Vec::new(alloc);
    for seat in seats.values() {
        if let Some(view) = view(alloc, seat)? {
            views.push(view)?;
        }
    }
    Ok(views)
}
