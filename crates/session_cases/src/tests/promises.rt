//! What sessions and shared logs promise under a premise: of a link that tells its bytes, of a pass that saw a legal
//! history, and of callers that no pass has.
ghost use Rattle.std.specs.Prelude.{◌≡◌, [], IfSome};
ghost use Rattle.session_cases.specs.Told.{IsAnswered};
ghost use Rattle.sync_sessions.specs.declared.ending.SessionEnd.TheVariants as ending;
ghost use Rattle.sync_shared.specs.Replies.{Belongs};
ghost use Rattle.turn_lock.specs.History.{calls};

use super::ends::{AROUND, REPLIES, one_shared, tape};
use super::shared::size_told;
use super::{digest_of, is_sent, three};
use ledger_codec::Digest;
use ledger_log::AnyFamily;
use std::alloc::Global;
use std::sync::Wait;
use std::test::Fail;
use sync_server::TapeLink;
use sync_sessions::{OpenGate, SessionEnd, run_session};
use sync_shared::{Closed, Pass, SharedLog};

/// How a session over a fresh tape ends, by a pass that saw nothing yet. Where the tape ended, all that it gave are whole
/// frames, the messages among them got the replies that were sent, and the pass saw a legal history.
fn answered<R: Wait>(
    rt: &R,
    alloc: Global,
    shared: &SharedLog<AnyFamily>,
    pass: &mut Pass<AnyFamily>,
    link: &mut TapeLink,
) -> SessionEnd
    requires belongs { Belongs shared.now.from pass.old }
    requires unseen { pass.old.seen ≡ [] }
    requires given { link.old.given ≡ [] }
    requires sent { link.old.sent ≡ [] }
    ensures { result ≡ ending.Done
        → IsAnswered shared.now.opening pass.old.caller pass.new.seen link.new.given link.new.sent }
{
    run_session(rt, alloc, shared, pass, link, &OpenGate, 0)
}

/// The log that one caller shared and asked for its target, and its history: nobody else has a call in it.
fn closed<R: Wait>(rt: &R, alloc: Global) -> Option<Closed<AnyFamily>>
    ensures { IfSome result (λ closed. calls 1 closed.history.items ≡ []) }
{
    let log = three(alloc)?;
    let (shared, mut pass) = one_shared(alloc, log, 2)?;
    let _size = size_told(rt, alloc, &shared, &mut pass);
    let mut passes = Vec::new(alloc);
    passes.push(pass).ok()?;
    Some(shared.close(passes))
}

/// The digest of what a session over these bytes sends, None where its link didn't end.
fn sent_over<R: Wait>(rt: &R, alloc: Global, bytes: &[u8]) -> Option<Digest> {
    let log = three(alloc)?;
    let mut link = tape(alloc, bytes, 9)?;
    let (shared, mut pass) = one_shared(alloc, log, 2)?;
    let end = answered(rt, alloc, &shared, &mut pass, &mut link);
    if end == SessionEnd::Done {
        Some(digest_of(link.sent()))
    } else {
        None
    }
}

/// The calls and the size of a log that is closed.
fn left<R: Wait>(rt: &R, alloc: Global) -> Option<(usize, u64)> {
    let closed = closed(rt, alloc)?;
    Some((closed.history.len(), closed.log.size().get()))
}

#[test]
fn a_session_that_is_done_answered_all(rt: HostRuntime) -> Result<(), Fail> {
    let sent = sent_over(&rt, rt.alloc(), &AROUND);
    assert!(rt; is_sent(&sent, &REPLIES));
    Ok(())
}

#[test]
fn a_closed_log_has_no_other_calls(rt: HostRuntime) {
    assert_eq!(rt; left(&rt, rt.alloc()), Some((1, 3)));
}
