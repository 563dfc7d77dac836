//! The request machine.
ghost use Rattle.std.specs.declared.option.Option.{Option};
ghost use Rattle.std.specs.Prelude.{ℕ, ◌≡◌, ◌++◌, ◌<◌, [], IfOk, IfSome, OnOk, OnErr, false, position, ◌==◌, option_map, length, drop};
ghost use Rattle.ledger_codec.specs.Sequences.{string_written};
ghost use Rattle.sync_net.specs.Numbered.{number_of};
ghost use Rattle.sync_net.specs.Asks.{pending_in, is_response_to, refusal_in, fault_in, replied_to};
ghost use Rattle.sync_net.specs.Asking.{Submits, Feeds, Ends, Answers, Replies, ask_frame, stopped};
ghost use Rattle.sync_net.specs.Pendings.{AreNumbered, Keeps, IsGone};
ghost use Rattle.sync_net.specs.declared.ask.Ask.TheVariants.{Operations, SyncTarget, CompactTarget as AskCompactTarget, CompactState};

use crate::ask::{Answer, Ask, Pending, Submitted};
use crate::fault::{MachineFault, SubmitRefusal};
use crate::generator::Generator;
use crate::message::Message;
use ledger_codec::{
    CodecError, FrameError, Framer, MAX_MESSAGE_SIZE, OutOfMemory, Spell, decode, encode, frame,
};
use ledger_log::CompactTarget;
use ledger_merkle::Location;
use std::alloc::Global;
use std::marker::{Model, PhantomData};
use std::num::NonZeroU64;

/// Numbers requests, and gives each answer with its request. A client sends what `submit_*` gives it,
/// feeds what comes in, and takes the answers by `next_answer`.
#[derive(Drop)]
pub struct Machine<Op> {
    alloc: Global,
    numbers: Generator,
    pending: Vec<Pending>,
    frames: Framer,
    closed: bool,
    of: PhantomData<Op>,
}

impl<Op> Model for Machine<Op> {
    ghost use Rattle.sync_net.specs.View.{MachineView};
    ghost use Rattle.sync_net.specs.Pendings.{IsReady};

    ghost Value = { MachineView };

    ghost view = { λ m. record { next = m.numbers; pending = m.pending.items; held = m.frames.bytes; closed = m.closed } };

    ghost invariant = { λ m. IsReady m.frames.limit m.numbers m.pending.items };
}

impl<Op: Spell> Machine<Op> {
    /// A machine without pending requests.
    pub fn new(alloc: Global, numbers: Generator) -> Machine<Op>
        ensures { result ≡ record { next = numbers; pending = []; held = []; closed = false } }
    {
        Machine {
            alloc,
            numbers,
            pending: Vec::new(alloc),
            frames: Framer::new(alloc, MAX_MESSAGE_SIZE),
            closed: false,
            of: PhantomData,
        }
    }

    /// Asks for operations.
    pub fn submit_operations(
        &mut self,
        op_count: Location,
        start_loc: Location,
        max_ops: NonZeroU64,
        include_pinned_nodes: bool,
    ) -> Result<Submitted, SubmitRefusal>
        ensures { Submits Op.written (Operations op_count start_loc max_ops include_pinned_nodes) result
            self.old self.new }
    {
        self.submit(Ask::Operations {
            op_count,
            start_loc,
            max_ops,
            pinned: include_pinned_nodes,
        })
    }

    /// Asks for the target.
    pub fn submit_sync_target(&mut self) -> Result<Submitted, SubmitRefusal>
        ensures { Submits Op.written SyncTarget result self.old self.new }
    {
        self.submit(Ask::SyncTarget)
    }

    /// Asks for the compact target.
    pub fn submit_compact_target(&mut self) -> Result<Submitted, SubmitRefusal>
        ensures { Submits Op.written AskCompactTarget result self.old self.new }
    {
        self.submit(Ask::CompactTarget)
    }

    /// Asks for the state of a compact target.
    pub fn submit_compact_state(
        &mut self,
        target: CompactTarget,
    ) -> Result<Submitted, SubmitRefusal>
        ensures { Submits Op.written (CompactState target) result self.old self.new }
    {
        self.submit(Ask::CompactState { target })
    }

    /// The next number, and the frame of the request under it.
    fn submit(&mut self, ask: Ask) -> Result<Submitted, SubmitRefusal>
        ensures { Submits Op.written ask result self.old self.new }
    {
        if self.closed {
            return Err(SubmitRefusal::Closed);
        }
        let Some(number) = self.numbers.peek() else {
            return Err(SubmitRefusal::Exhausted);
        };
        let frame = match frame_of::<Op>(self.alloc, number, &ask) {
            Ok(frame) => frame,
            Err(OutOfMemory) => return Err(SubmitRefusal::OutOfMemory),
        };
        match self.pending.push(Pending { number, ask }) {
            Ok(()) => {}
            Err(_) => return Err(SubmitRefusal::OutOfMemory),
        }
        let _ = self.numbers.next();
        Ok(Submitted { number, frame })
    }

    /// Appends bytes that came in.
    pub fn feed(&mut self, piece: &[u8]) -> Result<(), MachineFault>
        ensures { Feeds result self.old self.new piece.now }
    {
        if self.closed {
            return Err(MachineFault::Closed);
        }
        match self.frames.feed(piece) {
            Ok(()) => Ok(()),
            Err(OutOfMemory) => Err(MachineFault::OutOfMemory),
        }
    }

    /// Handles the next whole frame; None exactly where none and no bad length is held.
    pub fn next_answer(&mut self) -> Result<Option<Answer<Op>>, MachineFault>
        ensures answers { Answers Op.reading result self.old self.new }
        ensures once { IfOk result (λ found. IfSome found (λ answer. IsGone answer self.new.pending)) }
    {
        if self.closed {
            return Err(MachineFault::Closed);
        }
        match self.frames.peek() {
            Ok(None) => Ok(None),
            Ok(Some((body, count))) => match decode::<Message<Op>>(self.alloc, body) {
                Ok(message) => match answer_to(&mut self.pending, message) {
                    Ok(answer) => {
                        self.frames.skip(count);
                        Ok(Some(answer))
                    }
                    Err(fault) => {
                        self.close();
                        Err(fault)
                    }
                },
                Err(fault) => match fault {
                    CodecError::OutOfMemory => Err(MachineFault::OutOfMemory),
                    _ => {
                        self.close();
                        Err(MachineFault::InvalidResponse)
                    }
                },
            },
            Err(fault) => match fault {
                FrameError::OutOfMemory => Err(MachineFault::OutOfMemory),
                _ => {
                    self.close();
                    Err(MachineFault::RequestChannelClosed)
                }
            },
        }
    }

    /// The bytes ended. The machine is closed from then on.
    pub fn end(&mut self) -> Result<(), MachineFault>
        ensures { Ends result self.old self.new }
    {
        if self.closed {
            return Err(MachineFault::Closed);
        }
        self.close();
        if self.pending.len() == 0 {
            Ok(())
        } else {
            Err(MachineFault::RequestChannelClosed)
        }
    }

    /// The number of pending requests.
    pub fn pending(&self) -> usize
        ensures { result ≡ length self.now.pending }
    {
        self.pending.len()
    }

    /// Closes the machine, and gives up the bytes held.
    fn close(&mut self)
        ensures { self.new ≡ stopped self.old }
    {
        self.closed = true;
        self.frames.clear();
    }
}

/// The frame of a request.
fn frame_of<Op: Spell>(alloc: Global, number: u64, ask: &Ask) -> Result<Vec<u8>, OutOfMemory>
    ensures { IfOk result (λ bytes. bytes.items ≡ ask_frame Op.written number ask.now) }
{
    let request: Message<Op> = ask.request(number);
    let body = encode(alloc, &request)?;
    frame(alloc, &body)
}

/// The place of a pending number.
fn place_of(pending: &[Pending], number: u64) -> Option<usize>
    ensures place { result ≡ position (λ p. p.number == number) pending.now }
    ensures within { IfSome result (λ i. i < length pending.now) }
{
    pending.iter().position(|p| p.number == number)
}

/// The first pending ask of a number, and its place.
fn pending_of(pending: &[Pending], number: u64) -> Option<(usize, Pending)>
    ensures place { option_map (λ x. x.0) result ≡ position (λ p. p.number == number) pending.now }
    ensures ask { option_map (λ x. x.1) result ≡ pending_in number pending.now }
{
    match place_of(pending, number) {
        Some(place) => Some((place, pending[place])),
        None => None,
    }
}

/// Whether a message is of the response kind of an ask.
fn is_response<Op>(ask: &Ask, message: &Message<Op>) -> bool
    ensures { result ≡ is_response_to ask.now message.now }
{
    match message {
        Message::GetOperationsResponse(_) => matches!(ask, Ask::Operations { .. }),
        Message::GetSyncTargetResponse(_) => matches!(ask, Ask::SyncTarget),
        Message::GetCompactTargetResponse(_) => matches!(ask, Ask::CompactTarget),
        Message::GetCompactStateResponse(_) => matches!(ask, Ask::CompactState { .. }),
        _ => false,
    }
}

/// Why a message is no reply: the server's refusal, or another kind.
fn fault_of<Op: Drop>(number: u64, message: Message<Op>) -> MachineFault
    ensures { result ≡ fault_in number (refusal_in message) }
{
    match message {
        Message::Error(refusal) => MachineFault::Server {
            code: refusal.error_code,
            message: refusal.message,
        },
        _ => MachineFault::UnexpectedResponse { request_id: number },
    }
}

/// The answer that a message is to a pending ask, where it is known whether it is of its response kind.
fn replied<Op: Drop>(
    number: u64,
    ask: Ask,
    fits: bool,
    message: Message<Op>,
) -> Result<Answer<Op>, MachineFault>
    requires { fits ≡ is_response_to ask message }
    ensures { result ≡ replied_to number ask message }
{
    if fits {
        Ok(Answer::Reply {
            number,
            ask,
            message,
        })
    } else {
        Err(fault_of(number, message))
    }
}

/// The answer that a message is, and the asks that are pending after it.
fn answer_to<Op: Drop>(
    pending: &mut Vec<Pending>,
    message: Message<Op>,
) -> Result<Answer<Op>, MachineFault>
    ensures replies { Replies result message pending.old.items pending.new.items }
    ensures once { (next : Option ℕ) → AreNumbered next pending.old.items
        → Keeps next result pending.new.items }
{
    let number = message.request_id();
    match pending_of(pending, number) {
        None => Ok(Answer::Stray { number }),
        Some((place, found)) => {
            let fits = is_response(&found.ask, &message);
            let answer = replied(number, found.ask, fits, message)?;
            let _taken = pending.remove(place);
            Ok(answer)
        }
    }
}
