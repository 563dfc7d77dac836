//! What a job is for.
ghost use Rattle.std.specs.Prelude.{◌≡◌};
ghost use Rattle.ledger_job.specs.Kinds.{is_local, is_follow};

/// Whose log a job settles on, which decides what lines it may have.
#[derive(Clone, Copy, Debug, PartialEq, Eq)]
pub enum JobKind {
    /// The log of the job's own `open` lines.
    Local,
    /// The log of a peer, of which the job's `target` line tells.
    Follow,
}

impl JobKind {
    pub(crate) fn is_local(self) -> bool
        ensures { result ≡ is_local self }
    {
        matches!(self, JobKind::Local)
    }

    pub(crate) fn is_follow(self) -> bool
        ensures { result ≡ is_follow self }
    {
        matches!(self, JobKind::Follow)
    }
}
