//! The line that says why nothing was synced. It needs no memory.
ghost use Rattle.std.specs.Prelude.{◌≡◌, ◌≤◌};
ghost use Rattle.std.specs.Io.KnownBytes.{Appends};
ghost use Rattle.ledger_program.specs.ErrorLines.{follow_line};
ghost use Rattle.ledger_program.specs.Follow.{fault_of_sync};
ghost use Rattle.ledger_program.specs.Run.{LineWent};
ghost use Rattle.ledger_program.specs.Writing.{AppendsFront, Writes};
ghost use Rattle.sync_program.specs.Text.{state_line, line_of};

use crate::outcome::Refusal;
use ledger_codec::{Sink, SinkError};
use ledger_program::{number_line, root_line, server_line, update_line, write_all};
use sync_client::SyncFault;
use sync_fetch::StateFault;

fn session_line<K: Sink>(out: &mut K, fault: &SyncFault) -> Result<(), SinkError>
    ensures { Writes K.grows (K.written out.old) (K.written out.new) (K.faults out.old) (K.faults out.new)
        (follow_line (fault_of_sync fault.now)) result }
{
    match fault {
        SyncFault::Network => write_all(out, b"error network\n"),
        SyncFault::RequestChannelClosed => write_all(out, b"error closed\n"),
        SyncFault::InvalidResponse => write_all(out, b"error response\n"),
        SyncFault::UnexpectedResponse { request_id } => number_line(out, "unexpected", *request_id),
        SyncFault::Server { code, message } => server_line(out, *code, message.as_str()),
        SyncFault::InvalidProof { request_id } => number_line(out, "proof", *request_id),
        SyncFault::TooManyStrays => write_all(out, b"error strays\n"),
        SyncFault::StaleUpdate { start, end } => update_line(out, start.get(), end.get()),
        SyncFault::WrongRoot { found } => root_line(out, found),
        SyncFault::Closed | SyncFault::Exhausted | SyncFault::OutOfMemory => {
            write_all(out, b"error memory\n")
        }
    }
}

fn state_line<K: Sink>(out: &mut K, fault: &StateFault) -> Result<(), SinkError>
    ensures { Writes K.grows (K.written out.old) (K.written out.new) (K.faults out.old) (K.faults out.new)
        (state_line fault.now) result }
{
    match fault {
        StateFault::Fetch(fault) => session_line(out, fault),
        StateFault::WrongState(_) => write_all(out, b"error state\n"),
    }
}

fn refusal_line<K: Sink>(out: &mut K, refusal: &Refusal) -> Result<(), SinkError>
    ensures { Writes K.grows (K.written out.old) (K.written out.new) (K.faults out.old) (K.faults out.new)
        (line_of refusal.now) result }
{
    match refusal {
        Refusal::Usage => write_all(out, b"error usage\n"),
        Refusal::Dial => write_all(out, b"error dial\n"),
        Refusal::Fetch(fault) => state_line(out, fault),
        Refusal::Output => write_all(out, b""),
        Refusal::OutOfMemory => write_all(out, b"error memory\n"),
    }
}

/// Writes the line of a refusal, as far as the sink takes it; after a failed write there is none.
pub(crate) fn write_line<K: Sink>(refusal: &Refusal, out: &mut K)
    ensures front { AppendsFront (K.written out.old) (K.written out.new) (line_of refusal.now) }
    ensures whole { LineWent K.grows (K.faults out.old) (K.faults out.new)
        (Appends (K.written out.old) (K.written out.new) (line_of refusal.now)) }
    ensures later { K.faults out.old ≤ K.faults out.new }
{
    let _written = refusal_line(out, refusal);
}
