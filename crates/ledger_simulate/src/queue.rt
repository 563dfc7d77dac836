//! The events of a run that are still to come.
ghost use Rattle.std.specs.Prelude.{◌≡◌, ◌∷◌, [], All, IfNone, IfSome, OnErr, OnOk, map};
ghost use Rattle.std.specs.BTreeMap.Range.{IsLtBy};
ghost use Rattle.ledger_simulate.specs.Queue.{NumberedBelow, first_key, key_cmp, queued, queued_all};

use crate::event::Event;
use ledger_codec::OutOfMemory;
use std::alloc::Global;
use std::collections::BTreeMap;
use std::marker::Model;

/// Events by time, then by number. Numbers are given in the order in which events are put in.
#[derive(Drop)]
pub struct Queue {
    entries: BTreeMap<(u64, u64), Event>,
    next: u64,
}

impl Model for Queue {
    ghost use Rattle.ledger_simulate.specs.Queue.{NumberedBelow, QueueView};

    ghost Value = { QueueView };

    ghost view = { λ q. record { entries = q.entries.entries; next = q.next } };

    ghost invariant = { λ q. NumberedBelow q.next q.entries.entries };
}

impl Queue {
    /// No events.
    pub fn new(alloc: Global) -> Self
        ensures { result ≡ record { entries = []; next = 0 } }
    {
        Queue {
            entries: BTreeMap::new(alloc),
            next: 0,
        }
    }

    /// The number that the next event takes.
    pub fn next(&self) -> u64
        ensures { result ≡ self.now.next }
    {
        self.next
    }

    /// The time and the number of the first event, None exactly where none is left.
    pub fn first(&self) -> Option<(u64, u64)>
        ensures { result ≡ first_key self.now }
    {
        match self.entries.first_key_value() {
            Some(entry) => {
                let key = entry.0;
                Some((key.0, key.1))
            }
            None => None,
        }
    }

    /// Takes the first event off.
    pub fn take(&mut self) -> Option<((u64, u64), Event)>
        ensures taken { IfSome result (λ e. self.old ≡ record self.new { entries = e ∷ self.new.entries }) }
        ensures least { IfSome result (λ e. All (IsLtBy key_cmp e.0) (map (λ x. x.0) self.new.entries)) }
        ensures numbered { NumberedBelow self.old.next self.old.entries }
        ensures empty { IfNone result (self.new ≡ self.old) }
        ensures none { IfNone result (self.old.entries ≡ []) }
    {
        self.entries.pop_first()
    }

    /// Puts an event in. A refused call leaves the queue; where all numbers are taken the answer is want
    /// of memory.
    pub fn add(&mut self, time: u64, event: Event) -> Result<(), OutOfMemory>
        ensures ok { OnOk result (self.new ≡ queued self.old (time, event)) }
        ensures err { OnErr result (self.new ≡ self.old) }
    {
        let Some(after) = self.next.checked_add(1) else {
            return Err(OutOfMemory);
        };
        match self.entries.insert((time, self.next), event) {
            Ok(_) => {}
            Err(_) => return Err(OutOfMemory),
        }
        self.next = after;
        Ok(())
    }

    /// Puts these events in, in order, each so long after `now`, at the end of time at the latest. A refused
    /// call keeps those that it put in.
    pub fn add_all(&mut self, now: u64, events: Vec<(u64, Event)>) -> Result<(), OutOfMemory>
        ensures { OnOk result (self.new ≡ queued_all self.old now events.items) }
    {
        for entry in events {
            let (delay, event) = entry;
            self.add(now.saturating_add(delay), event)?;
        }
        Ok(())
    }
}
