//! A team of engines.
ghost use Rattle.std.specs.Prelude.{◌≡◌, ◌<◌, ◌==◌, [], ℕ, Contains, IfOk, OnErr, OnOk, length, option_copied, option_map, option_to_list, position, slice_get, take};
ghost use Rattle.simulate_parts.specs.Engine.{DistinctPeers};
ghost use Rattle.simulate_parts.specs.Seats.{Starts, active_peers, active_views, running_at, runs, stopped};
ghost use Rattle.simulate_parts.specs.Team.{StartsAll, definition_of, names, others, participants_of, place_of, seats_of, start_of};

use crate::engine::{EngineDefinition, StateView};
use crate::link::FaultConfig;
use crate::peer::Peer;
use crate::seats::{Seats, Start, active_keys, active_states, start_engine, stop_engine};
use ledger_codec::OutOfMemory;
use std::alloc::Global;
use std::collections::BTreeMap;

/// The participants of a run, of whom some run. The participants are distinct.
#[derive(Drop)]
pub struct Team<D: EngineDefinition> {
    alloc: Global,
    definition: D,
    participants: Vec<Peer>,
    seats: Seats<D>,
}

impl<D: EngineDefinition> Team<D> {
    /// A team of which nobody runs.
    pub fn new(alloc: Global, definition: D, participants: Vec<Peer>) -> Self
        requires { DistinctPeers participants.items }
        ensures participants { participants_of result ≡ participants.items }
        ensures seats { seats_of result ≡ [] }
        ensures definition { definition_of result ≡ definition }
    {
        Team {
            alloc,
            definition,
            participants,
            seats: BTreeMap::new(alloc),
        }
    }

    /// The participants, in their order.
    pub fn participants(&self) -> &[Peer]
        ensures { result.now ≡ participants_of self.now }
    {
        self.participants.as_slice()
    }

    /// Starts a participant's engine, in place of the one that it had, and counts the start. A refused
    /// call leaves the team.
    pub fn start_one(
        &mut self,
        pk: &Peer,
        delayed: bool,
        fault: FaultConfig,
    ) -> Result<(), OutOfMemory>
        requires { Contains (participants_of self.old) pk.now }
        ensures ok { OnOk result (Starts (D.peer_of (definition_of self.old))
            (D.made (definition_of self.old)) (D.journal (definition_of self.old))
            (participants_of self.old) (start_of (participants_of self.old) delayed fault pk.now)
            (seats_of self.old) (seats_of self.new)) }
        ensures err { OnErr result (seats_of self.new ≡ seats_of self.old) }
        ensures participants { participants_of self.new ≡ participants_of self.old }
        ensures definition { definition_of self.new ≡ definition_of self.old }
    {
        let start = Start {
            pk: *pk,
            index: place(self.participants.as_slice(), pk),
            delayed,
            fault,
            birth: 0,
        };
        start_engine(
            self.alloc,
            &self.definition,
            self.participants.as_slice(),
            &mut self.seats,
            start,
        )
    }

    /// Starts a participant's engine anew, as `start_one` does.
    pub fn restart(
        &mut self,
        pk: &Peer,
        delayed: bool,
        fault: FaultConfig,
    ) -> Result<(), OutOfMemory>
        requires { Contains (participants_of self.old) pk.now }
        ensures ok { OnOk result (Starts (D.peer_of (definition_of self.old))
            (D.made (definition_of self.old)) (D.journal (definition_of self.old))
            (participants_of self.old) (start_of (participants_of self.old) delayed fault pk.now)
            (seats_of self.old) (seats_of self.new)) }
        ensures err { OnErr result (seats_of self.new ≡ seats_of self.old) }
        ensures participants { participants_of self.new ≡ participants_of self.old }
        ensures definition { definition_of self.new ≡ definition_of self.old }
    {
        self.start_one(pk, delayed, fault)
    }

    /// Starts the participants that aren't delayed, in their order. A refused call keeps those that it
    /// started.
    pub fn start(&mut self, delayed: &[Peer], fault: FaultConfig) -> Result<(), OutOfMemory>
        ensures ok { OnOk result (StartsAll (D.peer_of (definition_of self.old))
            (D.made (definition_of self.old)) (D.journal (definition_of self.old))
            (participants_of self.old) fault (others delayed.now (participants_of self.old))
            (seats_of self.old) (seats_of self.new)) }
        ensures err { OnErr result ((n : ℕ) × StartsAll (D.peer_of (definition_of self.old))
            (D.made (definition_of self.old)) (D.journal (definition_of self.old))
            (participants_of self.old) fault (others delayed.now (take n (participants_of self.old)))
            (seats_of self.old) (seats_of self.new)) }
        ensures participants { participants_of self.new ≡ participants_of self.old }
        ensures definition { definition_of self.new ≡ definition_of self.old }
    {
        for i in 0..self.participants.len() {
            match self.start_at(i, delayed, fault) {
                Ok(()) => {}
                Err(fault) => return Err(fault),
            }
        }
        Ok(())
    }

    /// Starts the participant at this place, where it isn't delayed.
    fn start_at(
        &mut self,
        i: usize,
        delayed: &[Peer],
        fault: FaultConfig,
    ) -> Result<(), OutOfMemory>
        requires { i < length (participants_of self.old) }
        ensures ok { OnOk result (StartsAll (D.peer_of (definition_of self.old))
            (D.made (definition_of self.old)) (D.journal (definition_of self.old))
            (participants_of self.old) fault (others delayed.now
            (option_to_list (slice_get (participants_of self.old) i))) (seats_of self.old)
            (seats_of self.new)) }
        ensures err { OnErr result (seats_of self.new ≡ seats_of self.old) }
        ensures participants { participants_of self.new ≡ participants_of self.old }
        ensures definition { definition_of self.new ≡ definition_of self.old }
    {
        let pk = self.participants[i];
        if is_among(delayed, &pk) {
            return Ok(());
        }
        self.start_one(&pk, false, fault)
    }

    /// Stops a participant's engine, and says whether it ran.
    pub fn crash(&mut self, pk: &Peer) -> bool
        requires { Contains (participants_of self.old) pk.now }
        ensures ran { result ≡ runs (seats_of self.old) pk.now }
        ensures after { seats_of self.new ≡ stopped (seats_of self.old) pk.now }
        ensures participants { participants_of self.new ≡ participants_of self.old }
        ensures definition { definition_of self.new ≡ definition_of self.old }
    {
        stop_engine(&mut self.seats, pk)
    }

    /// How checks see the states of the peers that run, in ascending order of peers.
    pub fn active_states(&self) -> Result<Vec<StateView>, OutOfMemory>
        ensures { IfOk result (λ views. views.items
            ≡ active_views D.State.height_of D.State.bytes_of (seats_of self.now)) }
    {
        active_states(self.alloc, &self.seats)
    }

    /// The peers that run, in ascending order.
    pub fn active_keys(&self) -> Result<Vec<Peer>, OutOfMemory>
        ensures { IfOk result (λ keys. keys.items ≡ active_peers (seats_of self.now)) }
    {
        active_keys(self.alloc, &self.seats)
    }

    /// The state of a participant, where it runs.
    pub fn active_state(&self, pk: &Peer) -> Option<&D::State>
        requires { Contains (participants_of self.now) pk.now }
        ensures { option_copied result ≡ option_map (λ r. r.state) (running_at (seats_of self.now) pk.now) }
    {
        match self.seats.get(pk) {
            Some(seat) => match &seat.running {
                Some(running) => Some(&running.state),
                None => None,
            },
            None => None,
        }
    }
}

/// The place of a peer among the participants, 0 where it is none.
fn place(participants: &[Peer], pk: &Peer) -> usize
    ensures { result ≡ place_of participants.now pk.now }
{
    match find(participants, pk) {
        Some(at) => at,
        None => 0,
    }
}

/// The first place at which a peer stands.
fn find(peers: &[Peer], pk: &Peer) -> Option<usize>
    ensures { result ≡ position (λ peer. peer.0 == pk.now.0) peers.now }
{
    peers.iter().position(|peer| *peer == *pk)
}

/// Whether a peer is among these.
pub fn is_among(peers: &[Peer], pk: &Peer) -> bool
    ensures { result ≡ names peers.now pk.now }
{
    peers.iter().any(|peer| *peer == *pk)
}
