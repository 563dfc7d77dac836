//! The lines of `serve`.
ghost use Rattle.std.specs.Prelude.{◌≡◌, ◌≤◌, OnOk, IfErr};
ghost use Rattle.std.specs.Io.KnownBytes.{Appends};
ghost use Rattle.ledger_program.specs.Writing.{Writes};
ghost use Rattle.ledger_serve.specs.Lines.{listening, sessions_line, fault_of, WriteFails};

use ledger_codec::{Sink, SinkError};
use ledger_program::{RunFault, decimal_digits, write_all, write_pieces};
use session_spawner::Spawner;

/// A fault of the sink as one of the run.
fn fault_of(fault: SinkError) -> RunFault
    ensures { result ≡ fault_of fault }
{
    match fault {
        SinkError::Failed => RunFault::Output,
        SinkError::OutOfMemory => RunFault::OutOfMemory,
    }
}

/// Writes that connections are accepted.
#[tactic(auto, using(crate::proofs::Texts::write_fails))]
pub(crate) fn write_listening<K: Sink>(out: &mut K) -> Result<(), RunFault>
    ensures wrote { OnOk result (Appends (K.written out.old) (K.written out.new) listening) }
    ensures fails { IfErr result (WriteFails listening (K.written out.old) (K.written out.new)
        (K.faults out.old) (K.faults out.new)) }
    ensures later { K.faults out.old ≤ K.faults out.new }
{
    match write_all(out, b"listening\n") {
        Ok(()) => Ok(()),
        Err(fault) => Err(fault_of(fault)),
    }
}

#[tactic(auto, unfolding(crate::specs::Lines::sessions_line))]
fn write_count<K: Sink>(out: &mut K, count: u64) -> Result<(), SinkError>
    ensures { Writes K.grows (K.written out.old) (K.written out.new) (K.faults out.old) (K.faults out.new)
        (sessions_line count) result }
{
    let mut digits = [0; 20];
    let count = decimal_digits(count, &mut digits);
    write_pieces(out, &[b"sessions ".as_slice(), count, b"\n".as_slice()])
}

/// Writes how many sessions there were, all of which the spawner has joined.
#[tactic(auto, using(crate::proofs::Texts::write_fails))]
pub(crate) fn write_sessions<Sp: Spawner, K: Sink>(
    spawner: &Sp,
    count: u64,
    out: &mut K,
) -> Result<(), RunFault>
    requires started { Sp.started spawner.now ≡ count }
    requires joined { Sp.joined spawner.now ≡ count }
    ensures wrote { OnOk result (Appends (K.written out.old) (K.written out.new) (sessions_line count)) }
    ensures fails { IfErr result (WriteFails (sessions_line count) (K.written out.old) (K.written out.new)
        (K.faults out.old) (K.faults out.new)) }
    ensures later { K.faults out.old ≤ K.faults out.new }
{
    match write_count(out, count) {
        Ok(()) => Ok(()),
        Err(fault) => Err(fault_of(fault)),
    }
}
