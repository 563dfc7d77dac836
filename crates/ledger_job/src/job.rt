//! A job, read from its text.
ghost use Rattle.std.specs.Prelude.{◌≡◌, ℕ, IfOk, IsErrOf, Ok, Err, false, is_some};
ghost use Rattle.ledger_job.specs.Gathered.{seen};
ghost use Rattle.ledger_job.specs.Gathering.{Gathers, Offends};
ghost use Rattle.ledger_job.specs.Jobs.{job_of};
ghost use Rattle.ledger_job.specs.Places.{lacks_target};
ghost use Rattle.ledger_job.specs.declared.job.JobFault.TheVariants.{BadLine, OutOfMemory};

use crate::block::Block;
use crate::build::Gathered;
use crate::kind::JobKind;
use crate::limits::JobLimits;
use crate::line::{Open, parse_line};
use crate::payment::Payment;
use crate::split::{all_lines, cut};
use ledger_codec::List;
use ledger_log::Target;
use std::alloc::{AllocError, AllocFailed, Global};

/// What a text asks for.
#[derive(Debug, Drop)]
pub struct Job {
    /// The accounts that the served log opens with, in the order of their lines.
    pub opens: List<Open>,
    /// The range of the peer's log, which a job that follows one has, and no other.
    pub target: Option<Target>,
    /// The later targets, at most 8, each as an answer on what is named next.
    pub updates: List<Option<Target>>,
    /// How the log is fetched; 50 operations and one request at a time where the text doesn't say.
    pub limits: JobLimits,
    /// The blocks to settle, in order.
    pub blocks: List<Block<Payment>>,
}

/// Why a job wasn't read.
#[derive(Clone, Copy, Debug, PartialEq, Eq)]
pub enum JobFault {
    /// The least offending line, counted from 1.
    BadLine(u64),
    /// Want of memory.
    OutOfMemory,
}

impl From<AllocError> for JobFault {
    ghost from_gives = { λ _ e. e ≡ OutOfMemory };

    fn from(_: AllocError) -> Self {
        JobFault::OutOfMemory
    }
}

impl From<ledger_codec::OutOfMemory> for JobFault {
    ghost from_gives = { λ _ e. e ≡ OutOfMemory };

    fn from(_: ledger_codec::OutOfMemory) -> Self {
        JobFault::OutOfMemory
    }
}

impl<T: Drop> From<AllocFailed<T>> for JobFault {
    ghost from_gives = { λ _ e. e ≡ OutOfMemory };

    fn from(_: AllocFailed<T>) -> Self {
        JobFault::OutOfMemory
    }
}

/// The lines of a job, gathered as far as each may stand where it stands. Where the target is missing, the line
/// behind the last one is the first that can't.
fn gather(alloc: Global, kind: JobKind, text: &[u8]) -> Result<Gathered, JobFault>
    ensures stands { IfOk result (λ gathered. Gathers kind text.now (seen gathered)) }
    ensures bad { (n : ℕ) → IsErrOf result (BadLine n) → Offends kind text.now n }
    ensures targeted { IfOk result (λ gathered. lacks_target kind (is_some gathered.target) ≡ false) }
{
    let mut gathered = Gathered::new(alloc);
    let mut number = 0;
    let mut left = all_lines(text);
    'each: while let Some(rest) = left {
        let (bytes, more) = cut(rest, b'\n');
        number += 1;
        let Some(line) = parse_line(bytes) else {
            return Err(JobFault::BadLine(number));
        };
        if !gathered.takes(kind, &line) {
            return Err(JobFault::BadLine(number));
        }
        gathered.push(alloc, line)?;
        left = more;
    }
    if gathered.lacks_target(kind) {
        return Err(JobFault::BadLine(number + 1));
    }
    Ok(gathered)
}

/// The job of this kind that a text spells, or its least offending line.
pub fn parse_job(alloc: Global, kind: JobKind, text: &[u8]) -> Result<Job, JobFault>
    ensures job { IfOk result (λ job. job_of kind text.now ≡ Ok job) }
    ensures bad { (n : ℕ) → IsErrOf result (BadLine n) → job_of kind text.now ≡ Err n }
    ensures targeted { IfOk result (λ job. lacks_target kind (is_some job.target) ≡ false) }
{
    let gathered = match gather(alloc, kind, text) {
        Ok(gathered) => gathered,
        Err(fault) => return Err(fault),
    };
    Ok(gathered.into_job(alloc)?)
}
