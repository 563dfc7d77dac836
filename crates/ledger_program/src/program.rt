//! The call that does what the words say, over a job that is read, a dialer and a sink that is written to.
ghost use Rattle.std.specs.Prelude.{◌≡◌, ◌≤◌, ◌==◌, ◌⊎◌, Option, Some, None, true, false, not, map, is_some, IfOk, IfErr, IfSome, IsSome, OnOk, string_bytes};
ghost use Rattle.std.specs.Io.KnownBytes.{IsAtEnd};
ghost use Rattle.ledger_codec.specs.Causes.{Rose};
ghost use Rattle.ledger_job.specs.Places.{lacks_target};
ghost use Rattle.ledger_job.specs.declared.kind.JobKind.TheVariants.{Local as local_kind, Follow as follow_kind};
ghost use Rattle.ledger_program.specs.Forms.{form_of};
ghost use Rattle.ledger_program.specs.Peer.{link_over};
ghost use Rattle.ledger_program.specs.Run.{status_of, IsJob, ReadFails, Reports, JobFails, Attempted, Followed, Wrote, LineOut, IsEarly, IsLate, Caused, Completes, has_report, is_read, is_undialed};
ghost use Rattle.ledger_program.specs.declared.outcome.RunFault.TheVariants.{Output};

use crate::ending::{printed, refused, unprinted};
use crate::local::follow_local;
use crate::outcome::{Outcome, RunFault};
use crate::peer::follow_peer;
use crate::reading::{ReadFault, read_all};
use crate::report_text::report_text;
use crate::words::{address_of, form_of, workers_in};
use ledger_codec::{Sink, Source};
use ledger_job::{Job, JobFault, JobKind, parse_job};
use ledger_settling::Report;
use ledger_strategy::{Sequential, Strategy, Workers};
use ledger_transfers::Sequenced;
use std::alloc::Global;
use std::random::RandomSource;
use std::thread::Threads;
use sync_net::Dialer;

/// The greatest number of bytes of a job.
const MAX_JOB: usize = 67_108_864;

/// The job of this kind that a source holds.
fn read_job<S: Source>(alloc: Global, kind: JobKind, source: &mut S) -> Result<Job, RunFault>
    ensures job { IfOk result (λ job. IfSome (S.left source.old) (λ text. IsJob kind text job)) }
    ensures targeted { IfOk result (λ job. lacks_target kind (is_some job.target) ≡ false) }
    ensures ended { OnOk result (IsAtEnd (S.left source.new)) }
    ensures fails { IfErr result (ReadFails kind (S.left source.old) (S.faults source.old)
        (S.faults source.new)) }
    ensures read { IfErr result (λ fault. is_read (Some fault) ≡ true → IsAtEnd (S.left source.new)) }
    ensures later { S.faults source.old ≤ S.faults source.new }
{
    let text = match read_all(alloc, source, MAX_JOB) {
        Ok(text) => text,
        Err(ReadFault::Failed) => return Err(RunFault::JobRead),
        Err(ReadFault::TooLarge) => return Err(RunFault::JobTooLarge),
        Err(ReadFault::OutOfMemory) => return Err(RunFault::OutOfMemory),
    };
    match parse_job(alloc, kind, &text) {
        Ok(job) => Ok(job),
        Err(JobFault::BadLine(line)) => Err(RunFault::BadJob { line }),
        Err(JobFault::OutOfMemory) => Err(RunFault::OutOfMemory),
    }
}

/// Follows a job of this kind: over its own log, or over the link to the address.
fn follow_by<R: RandomSource + Threads + Sync, D: Dialer, St: Strategy>(
    rt: &R,
    alloc: Global,
    kind: JobKind,
    job: Job,
    address: &str,
    dialer: &mut D,
    strategy: &St,
) -> Result<Report<Sequenced>, RunFault>
    requires { lacks_target kind (is_some job.target) ≡ false }
    ensures reports { IfOk result (Reports kind job (link_over (D.service dialer.old) (D.wire dialer.old)
        (D.wire dialer.new) (D.faults dialer.old) (D.faults dialer.new))) }
    ensures fails { IfErr result (JobFails kind job
        (link_over (D.service dialer.old) (D.wire dialer.old) (D.wire dialer.new) (D.faults dialer.old)
        (D.faults dialer.new)) (D.dials dialer.old) (D.dials dialer.new)) }
    ensures undialed { kind ≡ local_kind → dialer.new ≡ dialer.old }
{
    match kind {
        JobKind::Local => follow_local(rt, alloc, job, strategy),
        JobKind::Follow => follow_peer(rt, alloc, job, address, dialer, strategy),
    }
}

/// The same by so many workers, or on the caller.
fn follow_job<R: RandomSource + Threads + Sync, D: Dialer>(
    rt: &R,
    alloc: Global,
    kind: JobKind,
    job: Job,
    address: &str,
    dialer: &mut D,
    workers: Option<Workers>,
) -> Result<Report<Sequenced>, RunFault>
    requires { lacks_target kind (is_some job.target) ≡ false }
    ensures reports { IfOk result (Reports kind job (link_over (D.service dialer.old) (D.wire dialer.old)
        (D.wire dialer.new) (D.faults dialer.old) (D.faults dialer.new))) }
    ensures fails { IfErr result (JobFails kind job
        (link_over (D.service dialer.old) (D.wire dialer.old) (D.wire dialer.new) (D.faults dialer.old)
        (D.faults dialer.new)) (D.dials dialer.old) (D.dials dialer.new)) }
    ensures undialed { kind ≡ local_kind → dialer.new ≡ dialer.old }
{
    match workers {
        Some(workers) => follow_by(rt, alloc, kind, job, address, dialer, &workers),
        None => follow_by(rt, alloc, kind, job, address, dialer, &Sequential),
    }
}

/// Reads the job and follows it, where the words are a form of the program.
fn attempt<R: RandomSource + Threads + Sync, S: Source, D: Dialer>(
    rt: &R,
    alloc: Global,
    words: &[String],
    source: &mut S,
    dialer: &mut D,
) -> Result<Report<Sequenced>, RunFault>
    ensures form { OnOk result (is_some (form_of (map string_bytes words.now)) ≡ true) }
    ensures followed { IfOk result (Followed (form_of (map string_bytes words.now)) (S.left source.old)
        (link_over (D.service dialer.old) (D.wire dialer.old) (D.wire dialer.new) (D.faults dialer.old)
        (D.faults dialer.new))) }
    ensures ended { OnOk result (IsAtEnd (S.left source.new)) }
    ensures fails { IfErr result (Attempted (form_of (map string_bytes words.now)) (S.left source.old)
        (S.faults source.old) (S.faults source.new) (D.dials dialer.old) (D.dials dialer.new)
        (link_over (D.service dialer.old) (D.wire dialer.old) (D.wire dialer.new) (D.faults dialer.old)
        (D.faults dialer.new))) }
    ensures read { IfErr result (λ fault. is_read (Some fault) ≡ true → IsAtEnd (S.left source.new)) }
    ensures unread { form_of (map string_bytes words.now) ≡ None → source.new ≡ source.old }
    ensures undialed { (form_of (map string_bytes words.now) ≡ Some follow_kind → ⊥)
        → dialer.new ≡ dialer.old }
    ensures early { IfErr result (λ fault. is_undialed (Some fault) ≡ true → dialer.new ≡ dialer.old) }
{
    let Some(kind) = form_of(words) else {
        return Err(RunFault::Usage);
    };
    let job = match read_job(alloc, kind, source) {
        Ok(job) => job,
        Err(fault) => return Err(fault),
    };
    let address = address_of(words);
    match follow_job(rt, alloc, kind, job, address, dialer, workers_in(words)) {
        Ok(report) => Ok(report),
        Err(fault) => Err(fault),
    }
}

/// The outcome of a run with a report, which is printed.
fn reported<K: Sink>(alloc: Global, report: Report<Sequenced>, out: &mut K) -> Outcome
    ensures status { result.status ≡ status_of result.fault }
    ensures report { result.report ≡ Some report }
    ensures fault { IfSome result.fault IsLate }
    ensures wrote { Wrote (K.written out.old) (K.written out.new) (Some report) result.fault }
    ensures output { result.fault ≡ Some Output → Rose (K.faults out.old) (K.faults out.new) }
    ensures line { IfSome result.fault (LineOut K.grows (K.written out.old) (K.written out.new)
        (K.faults out.old) (K.faults out.new) (Some report)) }
{
    match report_text(alloc, &report) {
        Ok(text) => printed(report, text.as_str(), out),
        Err(_) => unprinted(report, out),
    }
}

/// Does what the words say, over the job that is read, and prints the report, or the line that says why
/// there is none.
fn act<R: RandomSource + Threads + Sync, S: Source, D: Dialer, K: Sink>(
    rt: &R,
    alloc: Global,
    words: &[String],
    job: &mut S,
    dialer: &mut D,
    out: &mut K,
) -> Outcome
    ensures status { result.status ≡ status_of result.fault }
    ensures followed { IfSome result.report (Followed (form_of (map string_bytes words.now))
        (S.left job.old) (link_over (D.service dialer.old) (D.wire dialer.old) (D.wire dialer.new)
        (D.faults dialer.old) (D.faults dialer.new))) }
    ensures reported { has_report result.fault ≡ true → IsSome result.report }
    ensures unreported { IfSome result.fault (λ fault. IsEarly fault → (result.status ≡ 11)
        ⊎ (result.report ≡ None)) }
    ensures caused { IfSome result.fault (Caused (form_of (map string_bytes words.now)) (S.left job.old)
        (S.faults job.old) (S.faults job.new) (K.faults out.old) (K.faults out.new) (D.dials dialer.old)
        (D.dials dialer.new) (link_over (D.service dialer.old) (D.wire dialer.old) (D.wire dialer.new)
        (D.faults dialer.old) (D.faults dialer.new))) }
    ensures read { is_read result.fault ≡ true → IsAtEnd (S.left job.new) }
    ensures wrote { Wrote (K.written out.old) (K.written out.new) result.report result.fault }
    ensures line { IfSome result.fault (LineOut K.grows (K.written out.old) (K.written out.new)
        (K.faults out.old) (K.faults out.new) result.report) }
    ensures unread { form_of (map string_bytes words.now) ≡ None → job.new ≡ job.old }
    ensures undialed { (form_of (map string_bytes words.now) ≡ Some follow_kind → ⊥)
        → dialer.new ≡ dialer.old }
    ensures early { is_undialed result.fault ≡ true → dialer.new ≡ dialer.old }
{
    match attempt(rt, alloc, words, job, dialer) {
        Ok(report) => reported(alloc, report, out),
        Err(fault) => refused(fault, out),
    }
}

/// Does what the words say, over the job that is read, and prints the report, or the line that says why
/// there is none. Words that are no form leave the job unread. The dialer is called with `follow` alone, and only once
/// its job was read and is right.
pub fn run<R: RandomSource + Threads + Sync, S: Source, D: Dialer, K: Sink>(
    rt: &R,
    alloc: Global,
    words: &[String],
    job: &mut S,
    dialer: &mut D,
    out: &mut K,
) -> Outcome
    ensures status { result.status ≡ status_of result.fault }
    ensures usage { (result.status == 2) ≡ not (is_some (form_of (map string_bytes words.now))) }
    ensures complete { Completes (form_of (map string_bytes words.now)) (S.left job.old) (S.faults job.old)
        (S.faults job.new) (K.faults out.old) (K.faults out.new) (D.dials dialer.old) (D.dials dialer.new)
        (link_over (D.service dialer.old) (D.wire dialer.old) (D.wire dialer.new) (D.faults dialer.old)
        (D.faults dialer.new)) result.status }
    ensures followed { IfSome result.report (Followed (form_of (map string_bytes words.now))
        (S.left job.old) (link_over (D.service dialer.old) (D.wire dialer.old) (D.wire dialer.new)
        (D.faults dialer.old) (D.faults dialer.new))) }
    ensures reported { has_report result.fault ≡ true → IsSome result.report }
    ensures unreported { IfSome result.fault (λ fault. IsEarly fault → (result.status ≡ 11)
        ⊎ (result.report ≡ None)) }
    ensures caused { IfSome result.fault (Caused (form_of (map string_bytes words.now)) (S.left job.old)
        (S.faults job.old) (S.faults job.new) (K.faults out.old) (K.faults out.new) (D.dials dialer.old)
        (D.dials dialer.new) (link_over (D.service dialer.old) (D.wire dialer.old) (D.wire dialer.new)
        (D.faults dialer.old) (D.faults dialer.new))) }
    ensures read { is_read result.fault ≡ true → IsAtEnd (S.left job.new) }
    ensures wrote { Wrote (K.written out.old) (K.written out.new) result.report result.fault }
    ensures line { IfSome result.fault (LineOut K.grows (K.written out.old) (K.written out.new)
        (K.faults out.old) (K.faults out.new) result.report) }
    ensures unread { form_of (map string_bytes words.now) ≡ None → job.new ≡ job.old }
    ensures undialed { (form_of (map string_bytes words.now) ≡ Some follow_kind → ⊥)
        → dialer.new ≡ dialer.old }
    ensures early { is_undialed result.fault ≡ true → dialer.new ≡ dialer.old }
{
    act(rt, alloc, words, job, dialer, out)
}
