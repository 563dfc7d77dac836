//! Dialing over TCP.

use std::io::{Read, Write};
use std::net::{Net, OpenStream, TcpStream};
use sync_net::{DialFailed, Dialer, Link, LinkError};

/// Dials by the sockets of a runtime. Until a dial has succeeded, each send and recv fails.
#[derive(Drop)]
pub struct TcpDialer<R: Net> {
    net: R,
    stream: Option<R::Stream>,
    faults: u64,
    dials: u64,
}

impl<R: Net> TcpDialer<R> {
    ghost use Rattle.std.specs.Prelude.{◌≡◌, None};

    /// It dials by this runtime, and hasn't yet.
    pub fn new(net: R) -> TcpDialer<R>
        ensures runtime { result.net ≡ net }
        ensures undialed { result.stream ≡ None }
        ensures faults { result.faults ≡ 0 }
        ensures dials { result.dials ≡ 0 }
    {
        TcpDialer {
            net,
            stream: None,
            faults: 0,
            dials: 0,
        }
    }
}

impl<R: Net> Link for TcpDialer<R> {
    ghost use Rattle.std.specs.Prelude.{◌≡◌, ◌≤◌, None, false, length, IfOk, IsErr, OnOk};
    ghost use Rattle.ledger_codec.specs.Causes.{HasCauseOf};
    ghost use Rattle.sync_net.specs.declared.link.LinkError.TheVariants.{Failed};

    ghost faults = { λ d. d.faults };

    ghost exact = { false };

    ghost steady = { λ _. ⊥ };

    ghost wire = { λ _. None };

    ghost service = { λ _. None };

    fn send(&mut self, bytes: &[u8]) -> Result<(), LinkError>
        ensures cause { HasCauseOf Failed self.old.faults self.new.faults result }
        ensures undialed { self.old.stream ≡ None → IsErr result }
        ensures counted { OnOk result (self.new.faults ≡ self.old.faults) }
        ensures dials { self.new.dials ≡ self.old.dials }
    {
        let sent = match &mut self.stream {
            Some(stream) => stream.write_all(bytes).is_ok(),
            None => false,
        };
        if sent {
            return Ok(());
        }
        self.faults = self.faults.saturating_add(1);
        Err(LinkError::Failed)
    }

    fn recv(&mut self, buffer: &mut [u8]) -> Result<usize, LinkError>
        ensures bound { IfOk result (λ n. n ≤ length buffer.new) }
        ensures cause { HasCauseOf Failed self.old.faults self.new.faults result }
        ensures undialed { self.old.stream ≡ None → IsErr result }
        ensures counted { OnOk result (self.new.faults ≡ self.old.faults) }
        ensures dials { self.new.dials ≡ self.old.dials }
    {
        if let Some(stream) = &mut self.stream {
            if let Ok(count) = stream.read(buffer) {
                return Ok(count);
            }
        }
        self.faults = self.faults.saturating_add(1);
        Err(LinkError::Failed)
    }
}

impl<R: Net> Dialer for TcpDialer<R> {
    ghost use Rattle.std.specs.Prelude.{◌≡◌, IsSome, OnOk, OnErr};
    ghost use Rattle.ledger_codec.specs.Causes.{HasCause};

    ghost dials = { λ d. d.dials };

    fn dial(&mut self, address: &str) -> Result<(), DialFailed>
        ensures cause { HasCause self.old.dials self.new.dials result }
        ensures faults_stay { self.new.faults ≡ self.old.faults }
        ensures dialed { OnOk result (IsSome self.new.stream) }
        ensures stays { OnErr result (self.new.stream ≡ self.old.stream) }
        ensures counted { OnOk result (self.new.dials ≡ self.old.dials) }
    {
        match TcpStream::connect(&self.net, address) {
            Ok(stream) => {
                // A request is small and waits for its answer, so it isn't kept back for more bytes.
                let _ = stream.set_nodelay(true);
                self.stream = Some(stream);
                Ok(())
            }
            Err(_) => {
                self.dials = self.dials.saturating_add(1);
                Err(DialFailed)
            }
        }
    }
}
