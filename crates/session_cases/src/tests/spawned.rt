//! Sessions that a spawner runs.
ghost use Rattle.std.specs.Prelude.{◌≡◌, IfSome};

use super::kept::{Kept, link_of, sent_is};
use super::started::{run_two, two_sessions};
use super::three;
use ledger_codec::Digest;
use ledger_log::{KeylessFamily, Log};
use ledger_merkle::Sha256Hasher;
use session_spawner::{CallerSpawner, Spawner, ThreadSpawner};
use std::alloc::Global;
use std::sync::{Arc, Wait};
use std::test::Fail;
use std::thread::Threads;
use sync_sessions::{CompactSession, OpenGate};

/// The frame of a request for the target.
const TARGET_REQUEST: [u8; 10] = [9, 2, 0, 0, 0, 0, 0, 0, 0, 1];

/// The frame of a request for the compact target.
const COMPACT_REQUEST: [u8; 10] = [9, 4, 0, 0, 0, 0, 0, 0, 0, 1];

/// The SHA-256 of the frame of the target of three operations under number 1.
const TARGET: Digest = [
    238, 252, 94, 171, 70, 199, 228, 135, 143, 58, 16, 136, 87, 24, 141, 62, 243, 205, 168, 25,
    137, 164, 245, 142, 177, 251, 229, 188, 211, 146, 172, 221,
];

/// The SHA-256 of the frame of the compact target of a fresh log of the family keyless under number 1.
const COMPACT: Digest = [
    157, 21, 201, 152, 26, 162, 165, 46, 189, 248, 244, 128, 206, 183, 11, 48, 142, 193, 44, 86,
    178, 128, 101, 142, 142, 56, 5, 111, 59, 217, 80, 118,
];

/// Whether each of two sessions over the log of three operations, on whose links the target is asked for, sent it.
fn two_send<R: Threads + Wait + Copy + Send + 'static, Sp: Spawner>(
    rt: &R,
    alloc: Global,
    spawner: &mut Sp,
) -> Option<(bool, bool)>
    requires { Sp.started spawner.old ≡ 0 }
{
    let log = three(alloc)?;
    let gate = Arc::new(alloc, OpenGate).ok()?;
    let (one, sent_one) = link_of(rt, alloc, &TARGET_REQUEST)?;
    let (two, sent_two) = link_of(rt, alloc, &TARGET_REQUEST)?;
    let (one, two) = two_sessions(alloc, log, 1, (one, two), &gate)?;
    run_two(rt, spawner, one, two);
    let first = sent_is(rt, &sent_one, &TARGET);
    let second = sent_is(rt, &sent_two, &TARGET);
    Some((first, second))
}

/// A session over a fresh log of the family keyless.
fn compact_over<L: Drop>(
    alloc: Global,
    link: L,
) -> Option<CompactSession<KeylessFamily, Log<KeylessFamily, Sha256Hasher>, L, OpenGate>>
    ensures { IfSome result (λ session. session.number ≡ 0) }
{
    let log = Log::fresh(alloc).ok()?;
    let log = Arc::new(alloc, log).ok()?;
    let gate = Arc::new(alloc, OpenGate).ok()?;
    Some(CompactSession::new(alloc, log, link, gate, 0))
}

/// Whether a session over a fresh log of the family keyless, on whose link the compact target is asked for, sent it.
fn compact_sends<R: Threads + Wait + Copy + Send + 'static, Sp: Spawner>(
    rt: &R,
    alloc: Global,
    spawner: &mut Sp,
) -> Option<bool>
    requires { Sp.started spawner.old ≡ 0 }
{
    let (link, sent) = link_of(rt, alloc, &COMPACT_REQUEST)?;
    let job = compact_over::<Kept<R>>(alloc, link)?;
    spawner.start_compact(rt, job);
    spawner.join_all(rt);
    Some(sent_is(rt, &sent, &COMPACT))
}

#[test]
fn the_caller_runs_each_session(rt: HostRuntime) -> Result<(), Fail> {
    let mut spawner = CallerSpawner::new();
    let sent = two_send(&rt, rt.alloc(), &mut spawner);
    assert_eq!(rt; sent, Some((true, true)));
    Ok(())
}

#[test]
fn threads_run_each_session(rt: HostRuntime) -> Result<(), Fail> {
    let mut spawner = ThreadSpawner::new();
    let sent = two_send(&rt, rt.alloc(), &mut spawner);
    assert_eq!(rt; sent, Some((true, true)));
    Ok(())
}

#[test]
fn a_thread_runs_a_compact_session(rt: HostRuntime) -> Result<(), Fail> {
    let mut spawner = ThreadSpawner::new();
    let sent = compact_sends(&rt, rt.alloc(), &mut spawner);
    assert_eq!(rt; sent, Some(true));
    Ok(())
}
