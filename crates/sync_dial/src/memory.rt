//! Dialing in memory.

use sync_net::{DialFailed, Dialer, Link, LinkError};

/// A link that was there before its dial, and tells what it told.
#[derive(Debug, Drop)]
pub struct MemoryDialer<L: Link> {
    link: L,
    failing: bool,
    dials: u64,
}

impl<L: Link> MemoryDialer<L> {
    ghost use Rattle.std.specs.Prelude.{◌≡◌};
    ghost use Rattle.sync_dial.specs.Dialing.{dialed_link, is_failing, failed_dials};

    /// Each dial reaches this link, or fails where `failing`.
    pub fn new(link: L, failing: bool) -> MemoryDialer<L>
        ensures link { dialed_link result ≡ link }
        ensures failing { is_failing result ≡ failing }
        ensures dials { failed_dials result ≡ 0 }
    {
        MemoryDialer {
            link,
            failing,
            dials: 0,
        }
    }
}

impl<L: Link> Link for MemoryDialer<L> {
    ghost faults = { λ d. L.faults d.link };

    ghost exact = { L.exact };

    ghost steady = { λ d. L.steady d.link };

    ghost wire = { λ d. L.wire d.link };

    ghost service = { λ d. L.service d.link };

    fn send(&mut self, bytes: &[u8]) -> Result<(), LinkError> {
        self.link.send(bytes)
    }

    fn recv(&mut self, buffer: &mut [u8]) -> Result<usize, LinkError> {
        self.link.recv(buffer)
    }
}

impl<L: Link> Dialer for MemoryDialer<L> {
    ghost use Rattle.std.specs.Prelude.{◌≡◌, OnOk, is_err};
    ghost use Rattle.ledger_codec.specs.Causes.{HasCause};
    ghost use Rattle.sync_dial.specs.Dialing.{dialed_link, is_failing};

    ghost dials = { λ d. d.dials };

    fn dial(&mut self, _address: &str) -> Result<(), DialFailed>
        ensures cause { HasCause self.old.dials self.new.dials result }
        ensures faults_stay { L.faults self.new.link ≡ L.faults self.old.link }
        ensures steady_on { L.steady self.old.link → L.steady self.new.link }
        ensures wire_stays { L.wire self.new.link ≡ L.wire self.old.link }
        ensures service_stays { L.service self.new.link ≡ L.service self.old.link }
        ensures fails { is_err result ≡ is_failing self.old }
        ensures link { dialed_link self.new ≡ dialed_link self.old }
        ensures failing { is_failing self.new ≡ is_failing self.old }
        ensures counted { OnOk result (self.new.dials ≡ self.old.dials) }
    {
        if self.failing {
            self.dials = self.dials.saturating_add(1);
            return Err(DialFailed);
        }
        Ok(())
    }
}
