//! `local` and `follow`: a job's log is followed and its blocks are settled.
ghost use Rattle.std.specs.Prelude.{◌≡◌, ◌==◌, Option, not, map, is_some, IfSome, string_bytes};
ghost use Rattle.std.specs.Process.{exit_status};
ghost use Rattle.ledger_program.specs.Forms.{form_of};
ghost use Rattle.ledger_program.specs.Peer.{link_over};
ghost use Rattle.ledger_program.specs.Run.{Caused, Completes, status_of};
ghost use Rattle.ledger_program.specs.declared.outcome.RunFault.{RunFault};

use ledger_codec::{Sink, Source};
use ledger_program::run;
use std::alloc::Global;
use std::process::ExitCode;
use std::random::RandomSource;
use std::thread::Threads;
use sync_net::Dialer;

/// Does what the words say, and ends with the status of the outcome.
pub fn ended<R: RandomSource + Threads + Sync, S: Source, D: Dialer, K: Sink>(
    rt: &R,
    alloc: Global,
    words: &[String],
    job: &mut S,
    dialer: &mut D,
    out: &mut K,
) -> ExitCode
    ensures usage { (exit_status result == 2) ≡ not (is_some (form_of (map string_bytes words.now))) }
    ensures complete { Completes (form_of (map string_bytes words.now)) (S.left job.old) (S.faults job.old)
        (S.faults job.new) (K.faults out.old) (K.faults out.new) (D.dials dialer.old) (D.dials dialer.new)
        (link_over (D.service dialer.old) (D.wire dialer.old) (D.wire dialer.new) (D.faults dialer.old)
        (D.faults dialer.new)) (exit_status result) }
    ensures status { (fault : Option RunFault) × (exit_status result ≡ status_of fault)
        × IfSome fault (Caused (form_of (map string_bytes words.now)) (S.left job.old) (S.faults job.old)
        (S.faults job.new) (K.faults out.old) (K.faults out.new) (D.dials dialer.old) (D.dials dialer.new)
        (link_over (D.service dialer.old) (D.wire dialer.old) (D.wire dialer.new) (D.faults dialer.old)
        (D.faults dialer.new))) }
{
    let outcome = run(rt, alloc, words, job, dialer, out);
    ExitCode::from(outcome.status)
}
