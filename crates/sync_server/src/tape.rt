//! A link that gives fixed bytes, whatever is sent.
ghost use Rattle.std.specs.Prelude.{◌≡◌, ◌≤◌, [], length, false, IfOk, IsTrue};
ghost use Rattle.sync_server.specs.Links.{Counts, TapeSends, TapeReceives, ended_after};

use crate::calls::{Calls, Cuts};
use crate::pieces::copy_from;
use std::alloc::{AllocError, Global};
use std::marker::Model;
use sync_net::{Link, LinkError};

/// Gives these bytes in pieces, and keeps what was sent. It tells both, and serves nobody.
#[derive(Debug, Drop)]
pub struct TapeLink {
    bytes: Vec<u8>,
    at: usize,
    ended: bool,
    sent: Vec<u8>,
    cuts: Cuts,
    calls: Calls,
}

impl Model for TapeLink {
    ghost use Rattle.std.specs.Prelude.{◌≡◌, ◌≤◌, take, drop, vec_len, IsTrue};
    ghost use Rattle.sync_server.specs.Links.{TapeView};

    ghost Value = { TapeView };

    ghost view = { λ t. record { given = take t.at t.bytes.items; left = drop t.at t.bytes.items; ended = t.ended; sent = t.sent.items; cuts = t.cuts; calls = t.calls } };

    ghost invariant = { λ t. (t.at ≤ vec_len t.bytes) × (IsTrue t.ended → t.at ≡ vec_len t.bytes) };
}

impl TapeLink {
    /// The link that gives `bytes`. The recv of each number, from 0, gives at most the cut of that place,
    /// and at least one byte; past the cuts it gives as many as fit. Sends and recvs are numbered together,
    /// from 0, and those in `failing` fail.
    pub fn new(alloc: Global, bytes: Vec<u8>, cuts: Vec<usize>, failing: Vec<u64>) -> TapeLink
        ensures { result
            ≡ record {
              given = [];
              left = bytes.items;
              ended = false;
              sent = [];
              cuts = record { cuts = cuts.items; made = 0 };
              calls = record { made = 0; failing = failing.items; faults = 0 };
            } }
    {
        TapeLink {
            bytes,
            at: 0,
            ended: false,
            sent: Vec::new(alloc),
            cuts: Cuts::new(cuts),
            calls: Calls::new(failing),
        }
    }

    /// The bytes of the sends that didn't fail, in order.
    pub fn sent(&self) -> &[u8]
        ensures { result.now ≡ self.now.sent }
    {
        &self.sent
    }

    fn keep(&mut self, bytes: &[u8]) -> Result<(), LinkError>
        ensures counted { Counts result self.old.calls self.new.calls }
        ensures kept { TapeSends result bytes.now self.old self.new }
        ensures later { self.old.calls.faults ≤ self.new.calls.faults }
    {
        if self.calls.fails() {
            return Err(LinkError::Failed);
        }
        match self.sent.extend_from_slice(bytes) {
            Ok(()) => Ok(()),
            Err(AllocError) => Err(LinkError::OutOfMemory),
        }
    }

    fn give(&mut self, buffer: &mut [u8]) -> Result<usize, LinkError>
        ensures counted { Counts result self.old.calls self.new.calls }
        ensures given { TapeReceives result buffer.new self.old self.new }
        ensures later { self.old.calls.faults ≤ self.new.calls.faults }
        ensures room { length buffer.new ≡ length buffer.old }
        ensures ends_again { IsTrue self.old.ended → IfOk result (λ n. n ≡ 0) }
    {
        let most = self.cuts.next();
        if self.calls.fails() {
            return Err(LinkError::Failed);
        }
        let count = copy_from(&self.bytes, self.at, most, buffer);
        self.at += count;
        self.ended = is_ended(self.ended, count, buffer);
        Ok(count)
    }
}

/// Whether the end was given, after a recv that gave so many bytes.
fn is_ended(ended: bool, count: usize, buffer: &[u8]) -> bool
    ensures { result ≡ ended_after ended count (length buffer.now) }
{
    ended || (count == 0 && 0 < buffer.len())
}

impl Link for TapeLink {
    ghost use Rattle.std.specs.Prelude.{◌≡◌, ◌≤◌, true, None, Some, [], length, IfOk, IsTrue};
    ghost use Rattle.ledger_codec.specs.Causes.{HasCauseOf};
    ghost use Rattle.sync_net.specs.declared.link.LinkError.TheVariants.{Failed};
    ghost use Rattle.sync_net.specs.Wire.{CountStays, CannotFail, wire_sent, wire_received, EndsAgain};
    ghost use Rattle.sync_server.specs.Links.{Counts, TapeSends, TapeReceives, tape_wire};

    ghost faults = { λ t. t.calls.faults };

    ghost exact = { true };

    ghost steady = { λ t. t.calls.failing ≡ [] };

    ghost wire = { λ t. Some (tape_wire t) };

    ghost service = { λ _. None };

    fn send(&mut self, bytes: &[u8]) -> Result<(), LinkError>
        ensures cause { HasCauseOf Failed self.old.calls.faults self.new.calls.faults result }
        ensures exact_count { CountStays self.old.calls.faults self.new.calls.faults result }
        ensures steady_on { self.old.calls.failing ≡ [] →
            (self.new.calls.failing ≡ []) × CannotFail self.old.calls.faults self.new.calls.faults result }
        ensures wire_now { Some (tape_wire self.new) ≡ wire_sent result bytes.now
            (Some (tape_wire self.old)) }
        ensures counted { Counts result self.old.calls self.new.calls }
        ensures kept { TapeSends result bytes.now self.old self.new }
    {
        self.keep(bytes)
    }

    fn recv(&mut self, buffer: &mut [u8]) -> Result<usize, LinkError>
        ensures bound { IfOk result (λ n. n ≤ length buffer.new) }
        ensures cause { HasCauseOf Failed self.old.calls.faults self.new.calls.faults result }
        ensures exact_count { CountStays self.old.calls.faults self.new.calls.faults result }
        ensures steady_on { self.old.calls.failing ≡ [] →
            (self.new.calls.failing ≡ []) × CannotFail self.old.calls.faults self.new.calls.faults result }
        ensures wire_now { Some (tape_wire self.new) ≡ wire_received result buffer.new
            (Some (tape_wire self.old)) }
        ensures ends_again { EndsAgain (Some (tape_wire self.old)) result }
        ensures counted { Counts result self.old.calls self.new.calls }
        ensures given { TapeReceives result buffer.new self.old self.new }
    {
        self.give(buffer)
    }
}
