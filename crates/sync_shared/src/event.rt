//! The calls on a log, and their outcomes.
use ledger_codec::List;
use ledger_log::{Family, Log, LogFault};
use ledger_merkle::{Location, Sha256Hasher};
use std::marker::PhantomData;
use sync_net::Message;
use turn_lock::Guarded;

/// What was asked of the log.
#[derive(Drop)]
pub enum Event<Op> {
    /// The reply to a message.
    Request(Message<Op>),
    /// To append a batch.
    Batch(List<Op>),
}

/// How the log answered. A size is the log's then.
#[derive(Clone, Copy, PartialEq, Eq, Debug)]
pub enum EventOutcome {
    /// By the reply of the core over the log of this size.
    Replied { size: Location },
    /// By taking the batch, with which it has this size.
    Appended { size: Location },
    /// By refusing the batch.
    Refused(LogFault),
}

/// The calls on the log of a family.
pub struct LogCalls<F> {
    family: PhantomData<F>,
}

impl<F: Family> Guarded for LogCalls<F> {
    ghost use Rattle.sync_shared.specs.Calls.{after_call, Answers};

    type Value = Log<F, Sha256Hasher>;

    type Event = Event<F::Op>;

    type Outcome = EventOutcome;

    ghost after = { after_call };

    ghost Answers = { Answers F.floor_of };
}
