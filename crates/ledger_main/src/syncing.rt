//! `sync`: a database is brought to what a server tells.
ghost use Rattle.std.specs.Prelude.{◌≡◌, ◌==◌, not, map, is_some, string_bytes};
ghost use Rattle.std.specs.Process.{exit_status};
ghost use Rattle.ledger_sync.specs.Brought.{link_over};
ghost use Rattle.ledger_sync.specs.Forms.{form_of};
ghost use Rattle.sync_program.specs.Run.{Completes, sink_over};

use ledger_codec::Sink;
use std::alloc::Global;
use std::process::ExitCode;
use sync_net::Dialer;
use sync_program::run_sync;

/// Syncs as the words say, and ends with the status of the outcome.
pub fn ended<D: Dialer, K: Sink>(
    alloc: Global,
    words: &[String],
    dialer: &mut D,
    out: &mut K,
) -> ExitCode
    ensures usage { (exit_status result == 2) ≡ not (is_some (form_of (map string_bytes words.now))) }
    ensures complete { Completes (form_of (map string_bytes words.now)) (D.dials dialer.old)
        (D.dials dialer.new) (link_over (D.service dialer.old) (D.wire dialer.old) (D.wire dialer.new)
        (D.faults dialer.old) (D.faults dialer.new))
        (sink_over K.grows (K.written out.old) (K.written out.new) (K.faults out.old) (K.faults out.new))
        (exit_status result) }
{
    let outcome = run_sync(alloc, words, dialer, out);
    ExitCode::from(outcome.status)
}
