//! A log that passes share.
ghost use Rattle.std.specs.Prelude.{◌≡◌, ◌<◌, ◌≤◌, ℕ, false, IfOk, map};
ghost use Rattle.std.specs.List.{All, range_with_len};
ghost use Rattle.sync_net.specs.Messages.{MessageFits};
ghost use Rattle.turn_lock.specs.Passes.{fresh, Meets, Present};
ghost use Rattle.sync_shared.specs.Replies.{Belongs, Served, Appends, Closes};
ghost use Rattle.sync_shared.specs.Turns.{result_of};

use crate::event::{Event, EventOutcome, LogCalls};
use crate::refusal::ShareRefusal;
use crate::turns::{Answer, append_held, serve_held};
use ledger_codec::OutOfMemory;
use ledger_log::{Family, Log};
use ledger_merkle::{Location, Sha256Hasher};
use std::alloc::Global;
use std::marker::Model;
use std::sync::Wait;
use sync_net::Message;
use turn_lock::TurnLock;

/// The right to call a shared log so many times.
pub type Pass<F> = turn_lock::Pass<LogCalls<F>>;

/// What a pass had seen.
pub type Note<F> = turn_lock::Note<LogCalls<F>>;

/// One call in a history.
pub type Entry<Op> = turn_lock::Entry<Event<Op>, EventOutcome>;

/// A log that passes share. Contracts see which it is, and how many passes it has.
#[derive(Drop)]
pub struct SharedLog<F: Family> {
    lock: TurnLock<LogCalls<F>>,
}

impl<F: Family> Model for SharedLog<F> {
    ghost use Rattle.ledger_log.specs.View.{LogView};
    ghost use Rattle.turn_lock.specs.Passes.{LockValue};

    ghost Value = { LockValue (LogView F.Op) };

    ghost view = { λ a. a.lock };
}

/// A log that no pass shares any more, and the history that led to it.
#[derive(Drop)]
pub struct Closed<F: Family> {
    /// The log.
    pub log: Log<F, Sha256Hasher>,
    /// Every call with an entry, in the order in which they were answered.
    pub history: Vec<Entry<F::Op>>,
}

/// What an answer is to the caller.
fn result_of(answer: Answer) -> Result<Location, ShareRefusal>
    ensures { result ≡ result_of answer }
{
    match answer {
        Answer::Taken(size) => Ok(size),
        Answer::Refused(fault) => Err(ShareRefusal::Log(fault)),
        Answer::Starved => Err(ShareRefusal::OutOfMemory),
    }
}

impl<F: Family> SharedLog<F> {
    /// The log under a lock, and its passes, each good for so many calls. After a refusal the log is given up.
    pub fn share(
        alloc: Global,
        log: Log<F, Sha256Hasher>,
        passes: usize,
        turns: u32,
    ) -> Result<(SharedLog<F>, Vec<Pass<F>>), OutOfMemory>
        requires some { 0 < passes }
        requires few { passes ≤ 8 }
        ensures log { IfOk result (λ r. (r.0.opening ≡ log) × (r.0.passes ≡ passes)) }
        ensures passes { IfOk result (λ r. r.1.items ≡ map (fresh r.0.from turns)
            (range_with_len 0 passes)) }
    {
        let (lock, passes) = TurnLock::<LogCalls<F>>::share(alloc, log, passes, turns)?;
        Ok((SharedLog { lock }, passes))
    }

    /// The reply to a message, as a server makes it of the log at the call's point of the history. It is within the
    /// limits of a message.
    pub fn serve<R: Wait>(
        &self,
        rt: &R,
        alloc: Global,
        pass: &mut Pass<F>,
        message: Message<F::Op>,
    ) -> Result<Message<F::Op>, ShareRefusal>
        requires { Belongs self.now.from pass.old }
        ensures answer { Served F.floor_of self.now.opening F.Op.spelling pass.old message pass.new result }
        ensures limits { IfOk result (λ reply. MessageFits (λ op. Unit {0}) reply) }
    {
        if pass.is_spent() {
            return Err(ShareRefusal::PassSpent);
        }
        let mut held = self.lock.take(rt, pass);
        let caller = pass.caller();
        let reply = serve_held::<F>(alloc, &mut held, caller, message);
        self.lock.give_back(pass, held);
        match reply {
            Ok(reply) => Ok(reply),
            Err(_) => Err(ShareRefusal::OutOfMemory),
        }
    }

    /// Appends a batch to the log at the call's point of the history, or refuses it as the log does there. The
    /// answer is the new size.
    pub fn append<R: Wait>(
        &self,
        rt: &R,
        alloc: Global,
        pass: &mut Pass<F>,
        ops: &[F::Op],
    ) -> Result<Location, ShareRefusal>
        requires { Belongs self.now.from pass.old }
        ensures answer { Appends F.floor_of self.now.opening pass.old ops.now pass.new result }
    {
        if pass.is_spent() {
            return Err(ShareRefusal::PassSpent);
        }
        let mut held = self.lock.take(rt, pass);
        let caller = pass.caller();
        let answer = append_held::<F>(alloc, &mut held, caller, ops);
        self.lock.give_back(pass, held);
        result_of(answer)
    }

    /// A copy of what the pass has seen. It takes no memory.
    pub fn note(&self, pass: &mut Pass<F>) -> Note<F>
        requires { Belongs self.now.from pass.old }
        ensures same { pass.new ≡ pass.old }
        ensures table { result.table ≡ self.now.from.table }
        ensures seen { result.seen ≡ pass.old.seen }
    {
        self.lock.note(pass)
    }

    /// The pass has seen what the note has, too. It takes no memory.
    pub fn meet(&self, pass: &mut Pass<F>, note: Note<F>)
        requires pass { Belongs self.now.from pass.old }
        requires note { note.table ≡ self.now.from.table }
        ensures { Meets pass.old note.seen pass.new }
    {
        self.lock.meet(pass, note);
    }

    /// The log and the whole history, from all passes. It takes no memory.
    pub fn close(self, passes: Vec<Pass<F>>) -> Closed<F>
        requires from { All (λ p. p.from ≡ self.from) passes.items }
        requires between { All (λ p. p.within ≡ false) passes.items }
        requires all { (c : ℕ) → c < self.passes → Present c passes.items }
        ensures { Closes F.floor_of self.opening passes.items result.log result.history.items }
    {
        let SharedLog { lock } = self;
        let turn_lock::Held { value, history } = lock.close(passes);
        Closed {
            log: value,
            history,
        }
    }
}
