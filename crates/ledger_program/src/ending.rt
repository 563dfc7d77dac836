//! The end of a run: its report's text, or the line that says why there is none, and the outcome.
ghost use Rattle.std.specs.Prelude.{◌≡◌, ◌≤◌, List, ℕ, Some, None, IfErr, IfSome, OnOk, string_bytes};
ghost use Rattle.std.specs.Io.KnownBytes.{Appends};
ghost use Rattle.ledger_codec.specs.Causes.{Rose};
ghost use Rattle.ledger_program.specs.ErrorLines.{line_of};
ghost use Rattle.ledger_program.specs.Run.{status_of, Wrote, WroteText, LineWent, LineOut, LineBehind, WriteFails, IsEarly, IsLate};
ghost use Rattle.ledger_program.specs.Writing.{AppendsFront};
ghost use Rattle.ledger_program.specs.declared.outcome.RunFault.TheVariants.{Output, OutOfMemory};

use crate::error_line::error_line;
use crate::outcome::{Outcome, RunFault, status_of};
use crate::writing::write_all;
use ledger_codec::{Sink, SinkError};
use ledger_settling::Report;
use ledger_transfers::Sequenced;

/// Writes a text.
fn write_text<K: Sink>(text: &str, out: &mut K) -> Result<(), RunFault>
    ensures wrote { OnOk result (Appends (K.written out.old) (K.written out.new) text.now) }
    ensures fails { IfErr result (WriteFails (K.written out.old) (K.written out.new) text.now
        (K.faults out.old) (K.faults out.new)) }
    ensures later { K.faults out.old ≤ K.faults out.new }
{
    match write_all(out, text.as_bytes()) {
        Ok(()) => Ok(()),
        Err(SinkError::Failed) => Err(RunFault::Output),
        Err(SinkError::OutOfMemory) => Err(RunFault::OutOfMemory),
    }
}

/// Writes the line of a fault, as far as the sink takes it.
pub fn write_line<K: Sink>(fault: &RunFault, out: &mut K)
    ensures front { AppendsFront (K.written out.old) (K.written out.new) (line_of fault.now) }
    ensures whole { LineWent K.grows (K.faults out.old) (K.faults out.new)
        (Appends (K.written out.old) (K.written out.new) (line_of fault.now)) }
    ensures later { K.faults out.old ≤ K.faults out.new }
{
    let _written = error_line(out, fault);
}

/// The outcome of a run without a report, with the line of its fault.
pub fn refused<K: Sink>(fault: RunFault, out: &mut K) -> Outcome
    requires { IsEarly fault }
    ensures status { result.status ≡ status_of (Some fault) }
    ensures report { result.report ≡ None }
    ensures fault { result.fault ≡ Some fault }
    ensures wrote { Wrote (K.written out.old) (K.written out.new) None (Some fault) }
    ensures line { LineOut K.grows (K.written out.old) (K.written out.new) (K.faults out.old)
        (K.faults out.new) None fault }
{
    write_line(&fault, out);
    Outcome {
        status: status_of(&fault),
        report: None,
        fault: Some(fault),
    }
}

/// The outcome where there was no memory for the words themselves, with its line: for who collects them.
pub fn starved<K: Sink>(out: &mut K) -> Outcome
    ensures status { result.status ≡ status_of (Some OutOfMemory) }
    ensures fault { result.fault ≡ Some OutOfMemory }
    ensures line { LineOut K.grows (K.written out.old) (K.written out.new) (K.faults out.old)
        (K.faults out.new) None OutOfMemory }
{
    refused(RunFault::OutOfMemory, out)
}

/// The outcome of a run with a report for whose text there was no memory.
pub fn unprinted<K: Sink>(report: Report<Sequenced>, out: &mut K) -> Outcome
    ensures status { result.status ≡ status_of (Some OutOfMemory) }
    ensures report { result.report ≡ Some report }
    ensures fault { result.fault ≡ Some OutOfMemory }
    ensures wrote { (text : List ℕ) → WroteText (K.written out.old) (K.written out.new) text
        (Some OutOfMemory) }
    ensures line { (text : List ℕ) → LineBehind K.grows (K.written out.old) (K.written out.new)
        (K.faults out.old) (K.faults out.new) text OutOfMemory }
{
    write_line(&RunFault::OutOfMemory, out);
    Outcome {
        status: status_of(&RunFault::OutOfMemory),
        report: Some(report),
        fault: Some(RunFault::OutOfMemory),
    }
}

/// The outcome of a run with a report, whose text is written.
pub fn printed<K: Sink>(report: Report<Sequenced>, text: &str, out: &mut K) -> Outcome
    ensures status { result.status ≡ status_of result.fault }
    ensures report { result.report ≡ Some report }
    ensures fault { IfSome result.fault IsLate }
    ensures wrote { WroteText (K.written out.old) (K.written out.new) text.now result.fault }
    ensures output { result.fault ≡ Some Output → Rose (K.faults out.old) (K.faults out.new) }
    ensures line { IfSome result.fault (LineBehind K.grows (K.written out.old) (K.written out.new)
        (K.faults out.old) (K.faults out.new) text.now) }
{
    let fault = match write_text(text, out) {
        Ok(()) => {
            return Outcome {
                status: 0,
                report: Some(report),
                fault: None,
            };
        }
        Err(fault) => fault,
    };
    write_line(&fault, out);
    Outcome {
        status: status_of(&fault),
        report: Some(report),
        fault: Some(fault),
    }
}
