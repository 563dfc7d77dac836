//! What a session over a tape sends, and how it ends.
ghost use Rattle.std.specs.Prelude.{◌≡◌, [], IfSome};
ghost use Rattle.sync_shared.specs.Replies.{Belongs};

use super::{digest_of, is_sent, three};
use ledger_codec::{Digest, Spell};
use ledger_log::{Family, Log};
use ledger_merkle::Sha256Hasher;
use std::alloc::Global;
use std::sync::Wait;
use std::test::Fail;
use sync_server::TapeLink;
use sync_sessions::{OpenGate, ServedFamily, SessionEnd, run_session};
use sync_shared::{Pass, SharedLog};

/// The frame of a request for the target.
const REQUEST: [u8; 10] = [9, 2, 0, 0, 0, 0, 0, 0, 0, 1];

/// Two such frames, of numbers 1 and 2, with one of three bytes between them that is no message.
pub(super) const AROUND: [u8; 24] = [
    9, 2, 0, 0, 0, 0, 0, 0, 0, 1, 3, 250, 251, 252, 9, 2, 0, 0, 0, 0, 0, 0, 0, 2,
];

/// The SHA-256 of the two replies' frames.
pub(super) const REPLIES: Digest = [
    39, 76, 70, 198, 150, 127, 54, 33, 126, 231, 110, 100, 166, 231, 102, 124, 169, 248, 120, 168,
    230, 137, 39, 149, 202, 243, 16, 56, 105, 26, 80, 158,
];

/// A log that is shared by one pass of so many turns.
pub(super) fn one_shared<F: Family>(
    alloc: Global,
    log: Log<F, Sha256Hasher>,
    turns: u32,
) -> Option<(SharedLog<F>, Pass<F>)>
    ensures belongs { IfSome result (λ r. Belongs r.0.from r.1) }
    ensures unseen { IfSome result (λ r. r.1.seen ≡ []) }
    ensures caller { IfSome result (λ r. r.1.caller ≡ 0) }
    ensures passes { IfSome result (λ r. r.0.passes ≡ 1) }
{
    let (shared, mut passes) = SharedLog::share(alloc, log, 1, turns).ok()?;
    let pass = passes.pop()?;
    Some((shared, pass))
}

/// A tape of these bytes, whose call of this number fails.
pub(super) fn tape(alloc: Global, bytes: &[u8], failing: u64) -> Option<TapeLink>
    ensures given { IfSome result (λ link. link.given ≡ []) }
    ensures sent { IfSome result (λ link. link.sent ≡ []) }
{
    let bytes = Vec::from_slice(alloc, bytes).ok()?;
    let failing = Vec::from_slice(alloc, &[failing]).ok()?;
    Some(TapeLink::new(alloc, bytes, Vec::new(alloc), failing))
}

/// How a session ends over a tape.
fn end_over<R: Wait, F: ServedFamily>(
    rt: &R,
    alloc: Global,
    shared: &SharedLog<F>,
    pass: Pass<F>,
    link: &mut TapeLink,
) -> SessionEnd
where
    F::Op: Spell,
    requires { Belongs shared.now.from pass }
{
    let mut pass = pass;
    run_session(rt, alloc, shared, &mut pass, link, &OpenGate, 0)
}

/// How a session over the log of three operations ends over a tape of these bytes, whose call of this number fails,
/// by a pass of so many turns, and what it sent.
fn ended<R: Wait>(
    rt: &R,
    alloc: Global,
    bytes: &[u8],
    failing: u64,
    turns: u32,
) -> Option<(SessionEnd, TapeLink)> {
    let log = three(alloc)?;
    let mut link = tape(alloc, bytes, failing)?;
    let (shared, pass) = one_shared(alloc, log, turns)?;
    let end = end_over(rt, alloc, &shared, pass, &mut link);
    Some((end, link))
}

/// Whether a session ends so, after so many bytes.
fn ends<R: Wait>(
    rt: &R,
    alloc: Global,
    bytes: &[u8],
    failing: u64,
    wanted: SessionEnd,
    count: usize,
) -> bool {
    match ended(rt, alloc, bytes, failing, 1) {
        Some((end, link)) => end == wanted && link.sent().len() == count,
        None => false,
    }
}

#[test]
fn a_link_that_ends_behind_a_frame_is_done(rt: HostRuntime) -> Result<(), Fail> {
    assert!(rt; ends(&rt, rt.alloc(), &[], 9, SessionEnd::Done, 0));
    assert!(rt; ends(&rt, rt.alloc(), &REQUEST, 9, SessionEnd::Done, 44));
    Ok(())
}

#[test]
fn a_frame_that_breaks_off_ends_a_session(rt: HostRuntime) -> Result<(), Fail> {
    assert!(rt;
        ends(
            &rt,
            rt.alloc(),
            &[9, 2, 0, 0, 0],
            9,
            SessionEnd::BrokenFrame,
            0
        )
    );
    assert!(rt;
        ends(
            &rt,
            rt.alloc(),
            &[129, 128, 128, 5],
            9,
            SessionEnd::BrokenFrame,
            0
        )
    );
    Ok(())
}

#[test]
fn a_call_that_fails_ends_a_session(rt: HostRuntime) -> Result<(), Fail> {
    assert!(rt; ends(&rt, rt.alloc(), &REQUEST, 0, SessionEnd::Network, 0));
    assert!(rt; ends(&rt, rt.alloc(), &REQUEST, 1, SessionEnd::Network, 0));
    Ok(())
}

#[test]
fn a_pass_has_so_many_turns(rt: HostRuntime) -> Result<(), Fail> {
    assert!(rt; ends(&rt, rt.alloc(), &AROUND, 9, SessionEnd::PassSpent, 44));
    Ok(())
}

/// The digest of what a session sent that has turns enough.
fn sent_digest<R: Wait>(rt: &R, alloc: Global, bytes: &[u8]) -> Option<Digest> {
    let (_, link) = ended(rt, alloc, bytes, 9, 2)?;
    Some(digest_of(link.sent()))
}

#[test]
fn each_message_gets_its_reply(rt: HostRuntime) -> Result<(), Fail> {
    let sent = sent_digest(&rt, rt.alloc(), &AROUND);
    assert!(rt; is_sent(&sent, &REPLIES));
    Ok(())
}
