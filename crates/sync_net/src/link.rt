//! A link to a peer.
ghost use Rattle.std.specs.Prelude.{◌≡◌, ◌≤◌, ℕ, Bool, length, IfOk, IsTrue};
ghost use Rattle.std.specs.declared.option.Option.{Option};
ghost use Rattle.ledger_codec.specs.Causes.{HasCause, HasCauseOf};
ghost use Rattle.sync_net.specs.Wire.{Wire, CountStays, CannotFail, wire_sent, wire_received, EndsAgain};
ghost use Rattle.sync_net.specs.Service.{Service, service_sent, ServiceReceived};
ghost use Rattle.sync_net.specs.declared.link.LinkError.TheVariants.{Failed};

/// Why a call of a link did nothing.
#[derive(Clone, Copy, Debug, PartialEq, Eq)]
pub enum LinkError {
    /// The link's own fault; its count rose.
    Failed,
    /// Want of memory.
    OutOfMemory,
}

/// A link to a peer. What it tells beside its count of faults is optional.
pub trait Link {
    /// How often a call has failed.
    ghost faults: { Self → ℕ };

    /// Whether it tells that its count rises only in a call that fails.
    ghost exact: { Bool };

    /// That none of its calls fails any more, where it tells so.
    ghost steady: { Self → Type 0 };

    /// The bytes given and sent so far, where it tells them.
    ghost wire: { Self → Option Wire };

    /// The log that it serves and the replies that it owes, where it tells them.
    ghost service: { Self → Option Service };

    /// Sends all of these bytes.
    fn send(&mut self, bytes: &[u8]) -> Result<(), LinkError>
        ensures cause { HasCauseOf Failed (faults self.old) (faults self.new) result }
        ensures exact_count { IsTrue exact → CountStays (faults self.old) (faults self.new) result }
        ensures steady_on { steady self.old → steady self.new
            × CannotFail (faults self.old) (faults self.new) result }
        ensures wire_now { wire self.new ≡ wire_sent result bytes.now (wire self.old) }
        ensures service_now { service self.new ≡ service_sent result bytes.now (service self.old) };

    /// Gives the next bytes; 0 of a buffer that isn't empty is the end.
    fn recv(&mut self, buffer: &mut [u8]) -> Result<usize, LinkError>
        ensures bound { IfOk result (λ n. n ≤ length buffer.new) }
        ensures cause { HasCauseOf Failed (faults self.old) (faults self.new) result }
        ensures exact_count { IsTrue exact → CountStays (faults self.old) (faults self.new) result }
        ensures steady_on { steady self.old → steady self.new
            × CannotFail (faults self.old) (faults self.new) result }
        ensures wire_now { wire self.new ≡ wire_received result buffer.new (wire self.old) }
        ensures ends_again { EndsAgain (wire self.old) result }
        ensures service_now { ServiceReceived (service self.old) (service self.new) result buffer.new };
}

/// A dial that failed.
#[derive(Clone, Copy, Debug, PartialEq, Eq)]
pub struct DialFailed;

/// A link that is made by dialing. A dial leaves the link's count and all that the link tells as they were.
pub trait Dialer: Link {
    /// How often a dial has failed.
    ghost dials: { Self → ℕ };

    /// From Ok on this is the link to that address.
    fn dial(&mut self, address: &str) -> Result<(), DialFailed>
        ensures cause { HasCause (dials self.old) (dials self.new) result }
        ensures faults_stay { Self.faults self.new ≡ Self.faults self.old }
        ensures steady_on { Self.steady self.old → Self.steady self.new }
        ensures wire_stays { Self.wire self.new ≡ Self.wire self.old }
        ensures service_stays { Self.service self.new ≡ Self.service self.old };
}
