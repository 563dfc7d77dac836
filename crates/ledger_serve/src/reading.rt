//! The accounts of the job that is served.
ghost use Rattle.std.specs.Prelude.{◌≡◌, ◌≤◌, IfOk, IfErr, IfSome};
ghost use Rattle.ledger_serve.specs.Serving.{IsJob, ReadFails};

use ledger_codec::Source;
use ledger_job::{JobFault, Open};
use ledger_program::{ReadFault, RunFault, read_all};
use serve_parts::parse_accounts;
use std::alloc::Global;

/// The greatest number of bytes of a job.
const MAX_JOB: usize = 67_108_864;

/// The accounts of the job that a source holds, in the order of their lines.
pub(crate) fn read_accounts<S: Source>(alloc: Global, source: &mut S) -> Result<Vec<Open>, RunFault>
    ensures job { IfOk result (λ accounts. IfSome (S.left source.old) (λ text. IsJob text accounts.items)) }
    ensures fails { IfErr result (ReadFails (S.left source.old) (S.faults source.old)
        (S.faults source.new)) }
{
    let text = match read_all(alloc, source, MAX_JOB) {
        Ok(text) => text,
        Err(ReadFault::Failed) => return Err(RunFault::JobRead),
        Err(ReadFault::TooLarge) => return Err(RunFault::JobTooLarge),
        Err(ReadFault::OutOfMemory) => return Err(RunFault::OutOfMemory),
    };
    match parse_accounts(alloc, &text) {
        Ok(accounts) => Ok(accounts),
        Err(JobFault::BadLine(line)) => Err(RunFault::BadJob { line }),
        Err(JobFault::OutOfMemory) => Err(RunFault::OutOfMemory),
    }
}
