//! One log over links that answer in another order, in pieces, more than once, and not at all.

use super::vectors::{ROOT_FOUR, ROOT_PAID};
use super::{Told, body, digest_of, followed, log_of, target, value_of};
use ledger_job::Payment;
use ledger_log::AnyOp;
use ledger_merkle::Location;
use std::alloc::Global;
use std::random::RandomSource;
use std::thread::Threads;
use sync_client::Limits;
use sync_net::{Link, LinkError};
use sync_server::MemoryLink;

/// The operations of a log of four accounts.
fn four() -> [AnyOp; 6] {
    [
        AnyOp::CommitFloor(None, Location::ZERO),
        AnyOp::Update([1; 32], value_of(10, 1)),
        AnyOp::Update([2; 32], value_of(20, 2)),
        AnyOp::Update([3; 32], value_of(30, 3)),
        AnyOp::Update([4; 32], value_of(40, 4)),
        AnyOp::CommitFloor(None, Location::ZERO),
    ]
}

/// The payment of 1 from the first account to the second.
const PAYMENT: Payment = Payment {
    from: [1; 32],
    to: [2; 32],
    amount: 1,
    nonce: 1,
};

/// What is told over a link, by two operations a request, three requests at once, and one payment.
fn paid<R: RandomSource + Threads + Sync + AllocGlobal, L: Link>(
    rt: &R,
    link: &mut L,
) -> Option<Told> {
    let target = target(ROOT_FOUR, 0, 6)?;
    let limits = Limits::new(2, 3)?;
    let blocks = body(rt.alloc(), &[PAYMENT])?;
    Some(followed(rt, &target, &limits, &blocks, link))
}

/// The report of all six operations and the payment: two changes, the two other accounts, and a commit.
fn report() -> Option<Told> {
    Some(Told::Report(6, 4, 11, digest_of(ROOT_PAID)?))
}

/// What a link says that answers in this order and in pieces of these lengths, and fails these calls.
fn answered<R: RandomSource + Threads + Sync + AllocGlobal>(
    rt: &R,
    order: &[usize],
    cuts: Vec<usize>,
    failing: &[u64],
) -> Option<Told> {
    let alloc = rt.alloc();
    let log = log_of(alloc, &four())?;
    let order = Vec::from_slice(alloc, order).ok()?;
    let failing = Vec::from_slice(alloc, failing).ok()?;
    let mut link = MemoryLink::new(alloc, log, order, cuts, failing);
    paid(rt, &mut link)
}

#[test]
fn the_order_of_the_answers_is_free(rt: HostRuntime) {
    let none = Vec::new(rt.alloc());
    assert_eq!(rt; answered(&rt, &[0, 0, 0], none, &[]), report());
    let none = Vec::new(rt.alloc());
    assert_eq!(rt; answered(&rt, &[2, 1, 0], none, &[]), report());
}

/// So many cuts of one byte.
fn bytewise(alloc: Global, count: usize) -> Option<Vec<usize>> {
    let mut cuts = Vec::new(alloc);
    for _ in 0..count {
        cuts.push(1).ok()?;
    }
    Some(cuts)
}

#[test]
fn the_pieces_of_the_answers_are_free(rt: HostRuntime) {
    let cuts = bytewise(rt.alloc(), 1000);
    let told = cuts.and_then(|cuts| answered(&rt, &[2, 1, 0], cuts, &[]));
    assert_eq!(rt; told, report());
}

/// Whether each of the first `count` calls gives Network where it fails.
fn each_fails<R: RandomSource + Threads + Sync + AllocGlobal>(rt: &R, count: u64) -> bool {
    for number in 0..count {
        let none = Vec::new(rt.alloc());
        if answered(rt, &[2, 1, 0], none, &[number]) != Some(Told::Network) {
            return false;
        }
    }
    true
}

#[test]
fn each_call_may_fail_in_turn(rt: HostRuntime) {
    // Three sends, and a recv for each of their answers.
    assert!(rt; each_fails(&rt, 6));
    let none = Vec::new(rt.alloc());
    assert_eq!(rt; answered(&rt, &[2, 1, 0], none, &[6]), report());
}

/// Gives so many more messages under the number 1 before its link's second piece.
#[derive(Drop)]
struct Repeating<L> {
    link: L,
    received: u64,
    again: u64,
}

impl<L: Link> Link for Repeating<L> {
    ghost use Rattle.std.specs.Prelude.{◌≡◌, None, false};

    ghost faults = { λ r. L.faults r.link };

    ghost exact = { false };

    ghost steady = { λ _. ⊥ };

    ghost wire = { λ _. None };

    ghost service = { λ _. None };

    fn send(&mut self, bytes: &[u8]) -> Result<(), LinkError> {
        self.link.send(bytes)
    }

    fn recv(&mut self, buffer: &mut [u8]) -> Result<usize, LinkError> {
        if self.received == 0 || self.again == 0 || buffer.len() < 10 {
            self.received = 1;
            return self.link.recv(buffer);
        }
        self.again -= 1;
        buffer[..10].copy_from_slice(&[9, 2, 0, 0, 0, 0, 0, 0, 0, 1]);
        Ok(10)
    }
}

/// What a link says that repeats the first number so often.
fn repeated<R: RandomSource + Threads + Sync + AllocGlobal>(rt: &R, again: u64) -> Option<Told> {
    let alloc = rt.alloc();
    let link = super::serving(alloc, log_of(alloc, &four())?);
    let mut link = Repeating {
        link,
        received: 0,
        again,
    };
    paid(rt, &mut link)
}

#[test]
fn strays_are_counted(rt: HostRuntime) {
    assert_eq!(rt; repeated(&rt, 1), report());
    assert_eq!(rt; repeated(&rt, 1024), report());
    assert_eq!(rt; repeated(&rt, 1025), Some(Told::TooManyStrays));
}
