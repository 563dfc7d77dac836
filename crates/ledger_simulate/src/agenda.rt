//! The events that a step makes.
ghost use Rattle.std.specs.Prelude.{◌≡◌, ◌+◌, ◌++◌, ◌∷◌, [], IfOk, OnErr, OnOk, length};

use crate::event::Event;
use ledger_codec::OutOfMemory;
use std::alloc::Global;
use std::marker::Model;

/// The events that a step has made so far, with the delays after which they are due. They take the numbers
/// from `next` on.
#[derive(Drop)]
pub struct Agenda {
    next: u64,
    events: Vec<(u64, Event)>,
}

impl Model for Agenda {
    ghost use Rattle.ledger_simulate.specs.Queue.{AgendaView};

    ghost Value = { AgendaView };

    ghost view = { λ a. record { next = a.next; events = a.events.items } };
}

impl Agenda {
    /// No events.
    pub fn new(alloc: Global, next: u64) -> Self
        ensures { result ≡ record { next = next; events = [] } }
    {
        Agenda {
            next,
            events: Vec::new(alloc),
        }
    }

    /// Makes an event that is due after a delay. A refused call makes none.
    pub fn after(&mut self, delay: u64, event: Event) -> Result<(), OutOfMemory>
        ensures ok { OnOk result
            (self.new ≡ record self.old { events = self.old.events ++ (delay, event) ∷ [] }) }
        ensures err { OnErr result (self.new ≡ self.old) }
    {
        match self.events.push((delay, event)) {
            Ok(()) => Ok(()),
            Err(_) => Err(OutOfMemory),
        }
    }

    /// The number that the next event takes. Where all numbers are taken the answer is want of memory.
    pub fn number(&self) -> Result<u64, OutOfMemory>
        ensures { IfOk result (λ n. n ≡ self.now.next + length self.now.events) }
    {
        match self.next.checked_add(self.events.len() as u64) {
            Some(number) => Ok(number),
            None => Err(OutOfMemory),
        }
    }

    /// The events with their delays.
    pub fn into_events(self) -> Vec<(u64, Event)>
        ensures { result.items ≡ self.events }
    {
        let Agenda { next: _, events } = self;
        events
    }
}
