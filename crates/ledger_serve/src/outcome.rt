//! What serving answers.

/// The end of a run of `serve`.
#[derive(Clone, Copy, PartialEq, Eq, Debug)]
pub struct ServeOutcome {
    /// 0, or the status of the fault: 2 for words that are no form, 3 for a job that offends, 4 where its source
    /// failed, 5 where it is too large, 6 where an accept failed, 10 where the sink did, 11 for want of memory.
    pub status: u8,
    /// The least offending line of the job, counted from 1: there exactly with status 3.
    pub line: Option<u64>,
}
