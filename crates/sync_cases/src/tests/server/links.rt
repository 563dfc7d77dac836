//! What links give, keep and fail.

use super::{digest_of, three};
use ledger_codec::Digest;
use ledger_log::AnyFamily;
use std::alloc::Global;
use std::test::Fail;
use sync_net::*;
use sync_server::*;

/// The tape of five bytes.
fn tape(alloc: Global, cuts: &[usize], failing: &[u64]) -> Option<TapeLink> {
    let bytes = Vec::from_slice(alloc, &[1, 2, 3, 4, 5]).ok()?;
    let cuts = Vec::from_slice(alloc, cuts).ok()?;
    let failing = Vec::from_slice(alloc, failing).ok()?;
    Some(TapeLink::new(alloc, bytes, cuts, failing))
}

/// The link that serves the log of three operations.
fn memory(
    alloc: Global,
    order: &[usize],
    cuts: &[usize],
    failing: &[u64],
) -> Option<MemoryLink<AnyFamily>> {
    let log = three(alloc)?;
    let order = Vec::from_slice(alloc, order).ok()?;
    let cuts = Vec::from_slice(alloc, cuts).ok()?;
    let failing = Vec::from_slice(alloc, failing).ok()?;
    Some(MemoryLink::new(alloc, log, order, cuts, failing))
}

/// The frame of a request for the target, under a number below 256.
fn target_frame(number: u8) -> [u8; 10] {
    [9, 2, 0, 0, 0, 0, 0, 0, 0, number]
}

/// How many bytes the next recv gives, of at most three; 9 where it fails.
fn count<L: Link>(link: &mut L) -> usize {
    match link.recv(&mut [0; 3]) {
        Ok(count) => count,
        Err(_) => 9,
    }
}

/// The digest of the first `size` bytes that the link gives, in pieces of at most `piece`.
fn given<L: Link>(alloc: Global, link: &mut L, size: usize) -> Option<Digest> {
    let mut bytes = Vec::new(alloc);
    let mut buffer = [0; 32];
    for _ in 0..size {
        let count = link.recv(&mut buffer).ok()?;
        bytes.extend_from_slice(&buffer[..count]).ok()?;
    }
    Some(digest_of(&bytes))
}

#[test]
fn a_tape_is_cut(rt: HostRuntime) -> Result<(), Fail> {
    let mut link = tape(rt.alloc(), &[1, 0, 7], &[]).ok_or("there is memory")?;
    assert_eq!(rt; count(&mut link), 1);
    assert_eq!(rt; count(&mut link), 1);
    assert_eq!(rt; count(&mut link), 3);
    assert_eq!(rt; count(&mut link), 0);
    assert_eq!(rt; count(&mut link), 0);
    Ok(())
}

#[test]
fn a_tape_keeps_what_is_sent(rt: HostRuntime) -> Result<(), Fail> {
    let mut link = tape(rt.alloc(), &[], &[1, 3]).ok_or("there is memory")?;
    assert_eq!(rt; link.send(&[8]), Ok(()));
    assert_eq!(rt; link.send(&[7]), Err(LinkError::Failed));
    assert_eq!(rt; link.send(&[6, 5]), Ok(()));
    assert_eq!(rt; count(&mut link), 9);
    assert_eq!(rt; count(&mut link), 3);
    assert!(rt; link.sent() == [8, 6, 5].as_slice());
    Ok(())
}

#[test]
fn replies_come_in_the_order_given(rt: HostRuntime) -> Result<(), Fail> {
    let mut link = memory(rt.alloc(), &[4], &[], &[]).ok_or("there is memory")?;
    assert_eq!(rt; link.send(&target_frame(1)), Ok(()));
    assert_eq!(rt; link.send(&target_frame(2)), Ok(()));
    assert_eq!(rt; link.send(&target_frame(3)), Ok(()));
    let expected = [
        4, 69, 151, 229, 209, 53, 123, 252, 105, 131, 21, 6, 71, 9, 77, 94, 17, 99, 49, 42, 153,
        30, 50, 23, 196, 180, 233, 17, 238, 220, 13, 115,
    ];
    assert_eq!(rt; given(rt.alloc(), &mut link, 6), Some(expected));
    assert_eq!(rt; count(&mut link), 0);
    Ok(())
}

#[test]
fn replies_are_cut(rt: HostRuntime) -> Result<(), Fail> {
    let mut link = memory(rt.alloc(), &[], &[1, 0, 2], &[4]).ok_or("there is memory")?;
    assert_eq!(rt; link.send(&target_frame(1)), Ok(()));
    assert_eq!(rt; count(&mut link), 1);
    assert_eq!(rt; count(&mut link), 1);
    assert_eq!(rt; count(&mut link), 2);
    assert_eq!(rt; count(&mut link), 9);
    assert_eq!(rt; count(&mut link), 3);
    Ok(())
}

#[test]
fn nothing_is_owed_for_other_bytes(rt: HostRuntime) -> Result<(), Fail> {
    let mut link = memory(rt.alloc(), &[], &[], &[1]).ok_or("there is memory")?;
    assert_eq!(rt; link.send(&[1, 9]), Ok(()));
    assert_eq!(rt; link.send(&target_frame(1)), Err(LinkError::Failed));
    assert_eq!(rt; count(&mut link), 0);
    Ok(())
}
