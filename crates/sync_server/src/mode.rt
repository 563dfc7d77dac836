//! What a server answers.
ghost use Rattle.std.specs.Prelude.{◌≡◌, IfOk};
ghost use Rattle.sync_net.specs.declared.message.Message.{Message};
ghost use Rattle.sync_net.specs.Messages.{MessageFits};

use ledger_codec::OutOfMemory;
use ledger_log::Family;
use std::alloc::Global;
use sync_net::Message;

/// The greatest number of operations of an answer.
pub const MAX_BATCH_SIZE: u64 = 100;

/// Which messages of a client are served, and what is answered to each, over a database of a family.
pub trait ServeMode<F: Family, DB> {
    /// The reply to a message, which depends on the database and the message alone.
    ghost answer: { DB → Message F.Op → Message F.Op };

    /// The reply to any message, which may be sent. A message that isn't served gets an `Error` with its
    /// number.
    fn reply(alloc: Global, db: &DB, message: Message<F::Op>) -> Result<Message<F::Op>, OutOfMemory>
        ensures answer { IfOk result (λ reply. reply ≡ answer db.now message) }
        ensures limits { IfOk result (λ reply. MessageFits (λ op. Unit {0}) reply) };
}

/// Serves the operations of a log, with their proofs, and the target to sync to.
pub struct FullMode;
