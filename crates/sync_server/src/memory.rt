//! A link that serves a log in memory.
ghost use Rattle.std.specs.Prelude.{◌≡◌, ◌≤◌, [], false, get_or, length};
ghost use Rattle.sync_net.specs.Service.{service_of, ServiceReceived};
ghost use Rattle.sync_server.specs.Links.{Counts, MemorySends, MemoryReceives, started, started_for, service_told};

use crate::calls::{Calls, Cuts};
use crate::framed::framed_reply;
use crate::pieces::copy_from;
use crate::sent::SentFamily;
use ledger_codec::{List, OutOfMemory, Spell};
use ledger_log::Log;
use ledger_merkle::Sha256Hasher;
use std::alloc::Global;
use std::marker::Model;
use sync_net::{Link, LinkError};

/// Serves a log to whoever holds the other end, as a server would that has no other client. It tells that
/// it serves as long as it is sent nothing but requests.
#[derive(Drop)]
pub struct MemoryLink<F: SentFamily>
where
    F::Op: Spell,
{
    alloc: Global,
    log: Log<F, Sha256Hasher>,
    order: Vec<usize>,
    begun: usize,
    delivering: List<u8>,
    at: usize,
    waiting: Vec<List<u8>>,
    lost: bool,
    cuts: Cuts,
    calls: Calls,
}

impl<F: SentFamily> Model for MemoryLink<F>
where
    F::Op: Spell,
{
    ghost use Rattle.std.specs.Prelude.{◌≤◌, ◌<◌, length, drop, All};
    ghost use Rattle.sync_server.specs.Links.{MemoryView};

    ghost Value = { MemoryView F.Op };

    ghost view = { λ l. record { log = l.log; order = l.order.items; begun = l.begun; delivering = drop l.at l.delivering; waiting = l.waiting.items; lost = l.lost; cuts = l.cuts; calls = l.calls } };

    ghost invariant = { λ l. (l.at ≤ length l.delivering) × All (λ reply. 0 < length reply) l.waiting.items };
}

impl<F: SentFamily> MemoryLink<F>
where
    F::Op: Spell,
{
    /// The link that serves `log`. The reply that is delivered next is the owed one at the next place of
    /// `order` modulo their number, in the order of the requests, and past `order` the first. `cuts` and
    /// `failing` are those of a [`crate::TapeLink`].
    pub fn new(
        alloc: Global,
        log: Log<F, Sha256Hasher>,
        order: Vec<usize>,
        cuts: Vec<usize>,
        failing: Vec<u64>,
    ) -> MemoryLink<F>
        ensures { result
            ≡ record {
              log = log;
              order = order.items;
              begun = 0;
              delivering = [];
              waiting = [];
              lost = false;
              cuts = record { cuts = cuts.items; made = 0 };
              calls = record { made = 0; failing = failing.items; faults = 0 };
            } }
    {
        MemoryLink {
            alloc,
            log,
            order,
            begun: 0,
            delivering: List::new(alloc),
            at: 0,
            waiting: Vec::new(alloc),
            lost: false,
            cuts: Cuts::new(cuts),
            calls: Calls::new(failing),
        }
    }

    /// Owes the reply to what was sent.
    fn owe(&mut self, bytes: &[u8]) -> Result<(), LinkError>
        ensures counted { Counts result self.old.calls self.new.calls }
        ensures owed { MemorySends F.Op.spelling F.floor_of result bytes.now self.old self.new }
        ensures later { self.old.calls.faults ≤ self.new.calls.faults }
    {
        if self.calls.fails() {
            return Err(LinkError::Failed);
        }
        match framed_reply::<F>(self.alloc, &self.log, bytes) {
            Ok(Some(reply)) => match self.waiting.push(reply) {
                Ok(()) => Ok(()),
                Err(_) => Err(LinkError::OutOfMemory),
            },
            Ok(None) => {
                self.lost = true;
                Ok(())
            }
            Err(OutOfMemory) => Err(LinkError::OutOfMemory),
        }
    }

    /// Gives the next bytes of the reply in delivery.
    fn deliver(&mut self, buffer: &mut [u8]) -> Result<usize, LinkError>
        ensures counted { Counts result self.old.calls self.new.calls }
        ensures delivered { MemoryReceives result buffer.new self.old self.new }
        ensures later { self.old.calls.faults ≤ self.new.calls.faults }
        ensures served { ServiceReceived
            (service_of self.old.lost (service_told F.Op.spelling F.floor_of self.old))
            (service_of self.new.lost (service_told F.Op.spelling F.floor_of self.new)) result buffer.new }
    {
        let most = self.cuts.next();
        if self.calls.fails() {
            return Err(LinkError::Failed);
        }
        self.start_for(buffer.len());
        let count = copy_from(self.delivering.as_slice(), self.at, most, buffer);
        self.at += count;
        Ok(count)
    }

    /// Begins the next delivery where there is room for some of it.
    fn start_for(&mut self, room: usize)
        ensures { self.new ≡ started_for room self.old }
    {
        if room > 0 {
            self.start();
        }
    }

    /// Begins the next delivery where none is going on.
    fn start(&mut self)
        ensures { self.new ≡ started self.old }
    {
        if self.at < self.delivering.as_slice().len() {
            return;
        }
        if self.waiting.len() == 0 {
            return;
        }
        let place = place_at(&self.order, self.begun) % self.waiting.len();
        self.delivering = self.waiting.remove(place);
        self.at = 0;
        self.begun = self.begun.saturating_add(1);
    }
}

/// The number at this place of the order, past it 0.
fn place_at(order: &[usize], place: usize) -> usize
    ensures { result ≡ get_or order.now place 0 }
{
    match order.get(place) {
        Some(number) => *number,
        None => 0,
    }
}

impl<F: SentFamily> Link for MemoryLink<F>
where
    F::Op: Spell,
{
    ghost use Rattle.std.specs.Prelude.{◌≡◌, ◌≤◌, true, None, [], length, IfOk};
    ghost use Rattle.ledger_codec.specs.Causes.{HasCauseOf};
    ghost use Rattle.sync_net.specs.declared.link.LinkError.TheVariants.{Failed};
    ghost use Rattle.sync_net.specs.Wire.{CountStays, CannotFail};
    ghost use Rattle.sync_net.specs.Service.{service_of, service_sent, ServiceReceived};
    ghost use Rattle.sync_server.specs.Links.{Counts, MemorySends, MemoryReceives, service_told};

    ghost faults = { λ l. l.calls.faults };

    ghost exact = { true };

    ghost steady = { λ l. l.calls.failing ≡ [] };

    ghost wire = { λ _. None };

    ghost service = { λ l. service_of l.lost (service_told F.Op.spelling F.floor_of l) };

    fn send(&mut self, bytes: &[u8]) -> Result<(), LinkError>
        ensures cause { HasCauseOf Failed self.old.calls.faults self.new.calls.faults result }
        ensures exact_count { CountStays self.old.calls.faults self.new.calls.faults result }
        ensures steady_on { self.old.calls.failing ≡ [] →
            (self.new.calls.failing ≡ []) × CannotFail self.old.calls.faults self.new.calls.faults result }
        ensures service_now { service_of self.new.lost (service_told F.Op.spelling F.floor_of self.new)
            ≡ service_sent result bytes.now
            (service_of self.old.lost (service_told F.Op.spelling F.floor_of self.old)) }
        ensures counted { Counts result self.old.calls self.new.calls }
        ensures owed { MemorySends F.Op.spelling F.floor_of result bytes.now self.old self.new }
    {
        self.owe(bytes)
    }

    fn recv(&mut self, buffer: &mut [u8]) -> Result<usize, LinkError>
        ensures bound { IfOk result (λ n. n ≤ length buffer.new) }
        ensures cause { HasCauseOf Failed self.old.calls.faults self.new.calls.faults result }
        ensures exact_count { CountStays self.old.calls.faults self.new.calls.faults result }
        ensures steady_on { self.old.calls.failing ≡ [] →
            (self.new.calls.failing ≡ []) × CannotFail self.old.calls.faults self.new.calls.faults result }
        ensures service_now { ServiceReceived
            (service_of self.old.lost (service_told F.Op.spelling F.floor_of self.old))
            (service_of self.new.lost (service_told F.Op.spelling F.floor_of self.new)) result buffer.new }
        ensures counted { Counts result self.old.calls self.new.calls }
        ensures delivered { MemoryReceives result buffer.new self.old self.new }
    {
        self.deliver(buffer)
    }
}
