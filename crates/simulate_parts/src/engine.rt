//! How engines are made, stepped and seen.
ghost use Rattle.std.specs.Prelude.{◌≡◌, ◌++◌, ◌∷◌, [], ℕ, All, Bool, IfOk, IfSome, List, OnErr, OnOk, Option, if◌then◌else◌};
ghost use Rattle.simulate_parts.specs.Engine.{DistinctPeers, Passes, no_output, updates_of};
ghost use Rattle.simulate_parts.specs.declared.engine.InitContext.{InitContext};
ghost use Rattle.simulate_parts.specs.declared.engine.StepEvent.{StepEvent};
ghost use Rattle.simulate_parts.specs.declared.engine.StepOut.{StepOut};
ghost use Rattle.simulate_parts.specs.declared.peer.Peer.{Peer};
ghost use Rattle.simulate_parts.specs.declared.tracker.FinalizationUpdate.{FinalizationUpdate};

use crate::link::FaultConfig;
use crate::lists::push;
use crate::peer::{Peer, Round};
use ledger_codec::{List, OutOfMemory};
use std::alloc::Global;

/// What an engine is told as it is made: its place among the participants, whether it was configured to
/// start late, how often it was started before, its name, all names, and the storage fault of now.
#[derive(Drop)]
pub struct InitContext {
    pub index: usize,
    pub delayed: bool,
    pub restart: u32,
    pub public_key: Peer,
    pub participants: List<Peer>,
    pub fault: FaultConfig,
}

/// What happens to an engine: it was started, a timer of its own ran out, or a message came.
#[derive(Drop)]
pub enum StepEvent {
    Started,
    Timer {
        at: u64,
    },
    Received {
        from: Peer,
        channel: u64,
        bytes: List<u8>,
    },
}

/// What an engine gives in a step: delays of timers in milliseconds from now, messages to peers on
/// channels, and blocks that it holds final, by round, height and digest.
#[derive(Drop)]
pub struct StepOut {
    pub timers: List<u64>,
    pub messages: List<(Peer, u64, List<u8>)>,
    pub finalized: List<(Round, u64, List<u8>)>,
}

impl StepOut {
    /// An output of nothing.
    pub fn new(alloc: Global) -> Self
        ensures { result ≡ no_output }
    {
        StepOut {
            timers: List::new(alloc),
            messages: List::new(alloc),
            finalized: List::new(alloc),
        }
    }

    /// Sets a timer. A refused call leaves the output.
    pub fn set_timer(&mut self, alloc: Global, delay: u64) -> Result<(), OutOfMemory>
        ensures ok { OnOk result (self.new ≡ record self.old { timers = self.old.timers ++ delay ∷ [] }) }
        ensures err { OnErr result (self.new ≡ self.old) }
    {
        push(alloc, &mut self.timers, delay)
    }

    /// Sends a message. A refused call leaves the output.
    pub fn send(
        &mut self,
        alloc: Global,
        to: Peer,
        channel: u64,
        bytes: List<u8>,
    ) -> Result<(), OutOfMemory>
        ensures ok { OnOk result
            (self.new ≡ record self.old { messages = self.old.messages ++ (to, channel, bytes) ∷ [] }) }
        ensures err { OnErr result (self.new ≡ self.old) }
    {
        push(alloc, &mut self.messages, (to, channel, bytes))
    }

    /// Reports a block as final. A refused call leaves the output.
    pub fn finalize(
        &mut self,
        alloc: Global,
        round: Round,
        height: u64,
        digest: List<u8>,
    ) -> Result<(), OutOfMemory>
        ensures ok { OnOk result
            (self.new
            ≡ record self.old { finalized = self.old.finalized ++ (round, height, digest) ∷ [] }) }
        ensures err { OnErr result (self.new ≡ self.old) }
    {
        push(alloc, &mut self.finalized, (round, height, digest))
    }
}

/// A state with a height, and with bytes that checks may read.
pub trait ProcessedHeight: Drop {
    ghost height_of: { Self → ℕ };

    ghost bytes_of: { Self → List ℕ };

    /// The height of the last block that was processed.
    fn processed_height(&self) -> u64
        ensures { result ≡ height_of self.now };

    /// The bytes of the state.
    fn shown(&self, alloc: Global) -> Result<Vec<u8>, OutOfMemory>
        ensures { IfOk result (λ bytes. bytes.items ≡ bytes_of self.now) };
}

impl ProcessedHeight for () {
    ghost height_of = { λ _. 0 };

    ghost bytes_of = { λ _. [] };

    fn processed_height(&self) -> u64 {
        0
    }

    fn shown(&self, alloc: Global) -> Result<Vec<u8>, OutOfMemory> {
        Ok(Vec::new(alloc))
    }
}

impl ProcessedHeight for bool {
    ghost height_of = { λ _. 0 };

    ghost bytes_of = { λ b. (if b then 1 else 0) ∷ [] };

    fn processed_height(&self) -> u64 {
        0
    }

    fn shown(&self, alloc: Global) -> Result<Vec<u8>, OutOfMemory> {
        let mut bytes = Vec::new(alloc);
        bytes.push(if *self { 1 } else { 0 })?;
        Ok(bytes)
    }
}

/// How checks see a state.
#[derive(Debug, Drop)]
pub struct StateView {
    pub height: u64,
    pub shown: List<u8>,
}

/// The engines of a run: how they are made and stepped.
///
/// Beside its calls a definition tells the peer of an engine, and it may tell contracts six things: the
/// participants, the channels, the greatest size of a message, which engine and state `init` makes of a
/// context, a test that each reported block passes, and the journal of an engine, which is the list of the
/// events that it was stepped with and of what it gave.
pub trait EngineDefinition: Drop {
    type Engine: Drop;

    type State: ProcessedHeight;

    ghost peer_of: { Self → Self.Engine → Peer };

    ghost taking_part: { Self → Option (List Peer) };

    ghost carried_on: { Self → Option (List ℕ) };

    ghost carried_size: { Self → Option ℕ };

    ghost made: { Self → InitContext → Self.Engine × Self.State → Type 0 };

    ghost reports: { Self → Option (FinalizationUpdate → Bool) };

    ghost journal: { Self → Option (Self.Engine → List (StepEvent × StepOut)) };

    /// The peers that take part, each once.
    fn participants(&self, alloc: Global) -> Result<Vec<Peer>, OutOfMemory>
        ensures distinct { IfOk result (λ peers. DistinctPeers peers.items) }
        ensures told { IfOk result (λ peers. IfSome (taking_part self.now) (λ told. peers.items ≡ told)) };

    /// The channels on which messages may be sent.
    fn channels(&self, alloc: Global) -> Result<Vec<u64>, OutOfMemory>
        ensures { IfOk result (λ channels. IfSome (carried_on self.now) (λ told. channels.items ≡ told)) };

    /// The greatest size of a message in bytes.
    fn max_message_size(&self) -> u32
        ensures { IfSome (carried_size self.now) (λ told. result ≡ told) };

    /// Makes an engine and its state.
    fn init(
        &self,
        alloc: Global,
        context: &InitContext,
    ) -> Result<(Self::Engine, Self::State), OutOfMemory>
        ensures peer { IfOk result (λ pair. peer_of self.now pair.0 ≡ context.now.public_key) }
        ensures made_of { IfOk result (λ pair. made self.now context.now pair) }
        ensures told { IfOk result (λ pair. IfSome (journal self.now) (λ told. told pair.0 ≡ [])) };

    /// Steps an engine with an event. What it gives goes into `out`.
    fn step(
        &self,
        alloc: Global,
        engine: &mut Self::Engine,
        state: &mut Self::State,
        event: &StepEvent,
        out: &mut StepOut,
    ) -> Result<(), OutOfMemory>
        requires { out.old ≡ no_output }
        ensures peer { peer_of self.now engine.new ≡ peer_of self.now engine.old }
        ensures passes { OnOk result (All (Passes (reports self.now))
            (updates_of (peer_of self.now engine.old) out.new.finalized)) }
        ensures told { OnOk result (IfSome (journal self.now)
            (λ told. told engine.new ≡ told engine.old ++ (event.now, out.new) ∷ [])) };
}
