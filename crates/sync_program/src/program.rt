//! The call that syncs as the words say, over a dialer and a sink that is written to.
ghost use Rattle.std.specs.Prelude.{◌≡◌, ◌==◌, ◌≤◌, Some, None, true, not, map, is_some, IfOk, IfErr, string_bytes};
ghost use Rattle.ledger_sync.specs.Brought.{link_over};
ghost use Rattle.ledger_sync.specs.Forms.{form_of};
ghost use Rattle.sync_program.specs.Run.{Arrives, Refused, OnlyRare, Prints, Lined, Printed, Ended, Completes};
ghost use Rattle.sync_program.specs.Run.{sink_over, outcome_of, is_status, has_fault};

use crate::lines::write_line;
use crate::outcome::{Refusal, SyncOutcome, outcome_of, refusal_of};
use crate::text::write_synced;
use ledger_codec::{Sink, SinkError};
use ledger_sync::{Synced, bring, sync_form};
use std::alloc::Global;
use sync_net::{DialFailed, Dialer};

/// The address among the words, where there is one.
fn address_of(words: &[String]) -> &str {
    match words {
        [_, address, ..] => address.as_str(),
        _ => "",
    }
}

/// What the log shows of itself that the words ask for, brought over the link to the address.
fn attempt<D: Dialer>(alloc: Global, words: &[String], dialer: &mut D) -> Result<Synced, Refusal>
    ensures arrives { IfOk result (Arrives (form_of (map string_bytes words.now))
        (link_over (D.service dialer.old) (D.wire dialer.old) (D.wire dialer.new) (D.faults dialer.old)
        (D.faults dialer.new))) }
    ensures refused { IfErr result (Refused (form_of (map string_bytes words.now))
        (D.dials dialer.old) (D.dials dialer.new)
        (link_over (D.service dialer.old) (D.wire dialer.old) (D.wire dialer.new) (D.faults dialer.old)
        (D.faults dialer.new))) }
    ensures rare { IfErr result (OnlyRare (form_of (map string_bytes words.now)) (D.service dialer.old)) }
    ensures undialed { form_of (map string_bytes words.now) ≡ None → dialer.new ≡ dialer.old }
{
    let Some(form) = sync_form(words) else {
        return Err(Refusal::Usage);
    };
    match dialer.dial(address_of(words)) {
        Ok(()) => {}
        Err(DialFailed) => return Err(Refusal::Dial),
    }
    match bring(alloc, &form, dialer) {
        Ok(synced) => Ok(synced),
        Err(fault) => Err(refusal_of(fault)),
    }
}

/// Writes the lines of a log, and says why they weren't written whole.
fn print<K: Sink>(synced: &Synced, out: &mut K) -> Result<(), Refusal>
    ensures prints { Prints result synced.now
        (sink_over K.grows (K.written out.old) (K.written out.new) (K.faults out.old) (K.faults out.new)) }
    ensures later { K.faults out.old ≤ K.faults out.new }
{
    match write_synced(out, synced) {
        Ok(()) => Ok(()),
        Err(SinkError::Failed) => Err(Refusal::Output),
        Err(SinkError::OutOfMemory) => Err(Refusal::OutOfMemory),
    }
}

/// The outcome of a log that was synced, whose lines are written.
fn printed<K: Sink>(synced: &Synced, out: &mut K) -> SyncOutcome
    ensures { Printed synced.now (sink_over K.grows (K.written out.old) (K.written out.new)
        (K.faults out.old) (K.faults out.new)) result }
{
    match print(synced, out) {
        Ok(()) => SyncOutcome {
            status: 0,
            fault: None,
        },
        Err(refusal) => {
            write_line(&refusal, out);
            outcome_of(refusal)
        }
    }
}

/// The outcome of a refusal, whose line is written.
fn refused<K: Sink>(refusal: Refusal, out: &mut K) -> SyncOutcome
    ensures outcome { result ≡ outcome_of (Some refusal) }
    ensures lined { Lined refusal
        (sink_over K.grows (K.written out.old) (K.written out.new) (K.faults out.old) (K.faults out.new)) }
{
    write_line(&refusal, out);
    outcome_of(refusal)
}

/// Syncs as the words say: dials their address, asks the peer what it serves, brings a log of their family and in
/// their mode to that root, and prints what the log shows of itself, or the line that says why there is none. Words
/// that are no form leave the dialer as it was. Request numbers begin at 1.
pub fn run_sync<D: Dialer, K: Sink>(
    alloc: Global,
    words: &[String],
    dialer: &mut D,
    out: &mut K,
) -> SyncOutcome
    ensures ended { Ended (form_of (map string_bytes words.now)) (D.dials dialer.old) (D.dials dialer.new)
        (link_over (D.service dialer.old) (D.wire dialer.old) (D.wire dialer.new) (D.faults dialer.old)
        (D.faults dialer.new)) (sink_over K.grows (K.written out.old) (K.written out.new) (K.faults out.old)
        (K.faults out.new)) result }
    ensures complete { Completes (form_of (map string_bytes words.now)) (D.dials dialer.old)
        (D.dials dialer.new) (link_over (D.service dialer.old) (D.wire dialer.old) (D.wire dialer.new)
        (D.faults dialer.old) (D.faults dialer.new))
        (sink_over K.grows (K.written out.old) (K.written out.new) (K.faults out.old) (K.faults out.new))
        result.status }
    ensures statuses { is_status result.status ≡ true }
    ensures usage { (result.status == 2) ≡ not (is_some (form_of (map string_bytes words.now))) }
    ensures fault { is_some result.fault ≡ has_fault result.status }
    ensures undialed { form_of (map string_bytes words.now) ≡ None → dialer.new ≡ dialer.old }
{
    match attempt(alloc, words, dialer) {
        Ok(synced) => printed(&synced, out),
        Err(refusal) => refused(refusal, out),
    }
}
