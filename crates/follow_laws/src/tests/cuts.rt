//! One stream of bytes, given in pieces of one length and of another: both runs come to one answer, whatever it is. It
//! answers three asks, the last two for a target that is named after the first answer.
ghost use Rattle.std.specs.Prelude.{◌≡◌, [], IfSome};
ghost use Rattle.follow_laws.specs.Alike.{IsAlike};
ghost use Rattle.follow_laws.specs.Cut.{Gives};
ghost use Rattle.ledger_managed.specs.SpelledProofs.{sequenced_same};

use super::digest_of;
use super::rows::{OPENED, PAID, is_whole};
use crate::{Runs, follow_twice};
use ledger_job::{Block, Payment};
use ledger_log::Target;
use ledger_merkle::Location;
use ledger_strategy::Sequential;
use ledger_transfers::Sequenced;
use std::alloc::Global;
use std::marker::Model;
use std::random::RandomSource;
use std::thread::Threads;
use sync_client::{Limits, ListTargets};
use sync_net::{Link, LinkError};
use sync_server::TapeLink;

/// Two operations of the opened log, and four of the paid one.
const STREAM: [u8; 379] = [
    115, 1, 0, 0, 0, 0, 0, 0, 0, 1, 3, 0, 1, 166, 242, 7, 57, 181, 119, 117, 4, 63, 253, 184, 149,
    68, 79, 208, 52, 95, 84, 169, 37, 145, 210, 119, 113, 42, 210, 13, 228, 240, 86, 21, 118, 2, 2,
    0, 0, 0, 97, 108, 105, 99, 101, 0, 0, 0, 0, 0, 0, 0, 0, 0, 0, 0, 0, 0, 0, 0, 0, 0, 0, 0, 0, 0,
    0, 0, 0, 0, 0, 0, 0, 0, 0, 0, 0, 0, 0, 10, 0, 0, 0, 0, 0, 0, 0, 0, 0, 0, 0, 0, 0, 0, 0, 0, 0,
    0, 0, 0, 0, 0, 0, 0, 1, 0, 146, 1, 1, 0, 0, 0, 0, 0, 0, 0, 2, 6, 0, 2, 155, 61, 91, 88, 55, 52,
    255, 82, 224, 66, 214, 38, 254, 200, 142, 87, 95, 99, 174, 28, 43, 198, 147, 91, 64, 172, 35,
    250, 114, 235, 169, 81, 214, 151, 87, 15, 138, 129, 28, 119, 85, 53, 226, 177, 15, 23, 52, 112,
    124, 210, 104, 224, 129, 32, 251, 173, 239, 151, 155, 150, 127, 170, 21, 167, 2, 2, 0, 0, 0,
    97, 108, 105, 99, 101, 0, 0, 0, 0, 0, 0, 0, 0, 0, 0, 0, 0, 0, 0, 0, 0, 0, 0, 0, 0, 0, 0, 0, 0,
    0, 0, 0, 0, 0, 0, 0, 0, 0, 0, 4, 0, 0, 0, 0, 0, 0, 0, 1, 0, 0, 0, 0, 0, 0, 0, 0, 0, 0, 0, 0, 0,
    0, 0, 0, 0, 114, 1, 0, 0, 0, 0, 0, 0, 0, 3, 6, 0, 1, 182, 17, 58, 220, 165, 42, 223, 85, 12,
    113, 137, 205, 208, 77, 194, 226, 34, 155, 222, 39, 243, 0, 76, 88, 60, 169, 121, 221, 231,
    142, 161, 105, 2, 0, 98, 111, 98, 0, 0, 0, 0, 0, 0, 0, 0, 0, 0, 0, 0, 0, 0, 0, 0, 0, 0, 0, 0,
    0, 0, 0, 0, 0, 0, 0, 0, 0, 0, 0, 0, 0, 0, 0, 0, 6, 0, 0, 0, 0, 0, 0, 0, 0, 0, 0, 0, 0, 0, 0, 0,
    0, 0, 0, 0, 0, 0, 0, 0, 0, 2, 0, 3, 0,
];

/// A tape of the stream, whose type says that it has no other bytes.
#[derive(Drop)]
struct Cut {
    tape: TapeLink,
}

impl Model for Cut {
    ghost use Rattle.follow_laws.specs.Cut.{Gives};
    ghost use Rattle.follow_laws.specs.declared.tests.cuts.TheConstants.{STREAM};
    ghost use Rattle.sync_server.specs.Links.{TapeView};

    ghost Value = { TapeView };

    ghost view = { λ c. c.tape };

    ghost invariant = { λ c. Gives STREAM c.tape };
}

impl Cut {
    /// A tape that gives the stream in pieces of these lengths, None where memory is wanting.
    fn new(alloc: Global, cuts: Vec<usize>) -> Option<Cut>
        ensures { IfSome result (λ cut. cut.given ≡ []) }
    {
        let Ok(bytes) = Vec::from_slice(alloc, &STREAM) else {
            return None;
        };
        let tape = TapeLink::new(alloc, bytes, cuts, Vec::new(alloc));
        Some(Cut { tape })
    }

    /// It gave the beginning of the stream.
    fn see(&self)
        ensures { Gives STREAM self.now }
    {
        let _ = &self.tape;
    }
}

impl Link for Cut {
    ghost use Rattle.std.specs.Prelude.{◌≡◌, true, None, Some, []};
    ghost use Rattle.sync_server.specs.Links.{tape_wire};

    ghost faults = { λ c. c.calls.faults };

    ghost exact = { true };

    ghost steady = { λ c. c.calls.failing ≡ [] };

    ghost wire = { λ c. Some (tape_wire c) };

    ghost service = { λ _. None };

    fn send(&mut self, bytes: &[u8]) -> Result<(), LinkError> {
        self.tape.send(bytes)
    }

    fn recv(&mut self, buffer: &mut [u8]) -> Result<usize, LinkError> {
        self.tape.recv(buffer)
    }
}

/// These answers on later targets, None where memory is wanting.
fn named(alloc: Global, later: &[Option<Target>]) -> Option<ListTargets>
    ensures { IfSome result (λ targets. targets ≡ later.now) }
{
    match Vec::from_slice(alloc, later) {
        Ok(later) => Some(ListTargets::new(later)),
        Err(_) => None,
    }
}

/// What following one target gives over two links that give the stream, with the same answers on later targets: one
/// answer, but for want of memory and failed calls.
fn cut_twice<R: RandomSource + Threads + Sync + AllocGlobal>(
    rt: &R,
    target: &Target,
    limits: &Limits,
    blocks: &[Block<Payment>],
    updates: &mut ListTargets,
    link: &mut Cut,
    others: &mut ListTargets,
    other: &mut Cut,
) -> Runs<Sequenced>
    requires same { updates.old ≡ others.old }
    requires one { link.old.given ≡ [] }
    requires two { other.old.given ≡ [] }
    ensures { IsAlike sequenced_same result.one result.other }
{
    let runs = follow_twice::<
        R,
        Payment,
        Sequenced,
        Cut,
        Cut,
        Sequential,
        Sequential,
        ListTargets,
        ListTargets,
    >(
        rt,
        rt.alloc(),
        target,
        limits,
        blocks,
        updates,
        link,
        &Sequential,
        others,
        other,
        &Sequential,
    );
    link.see();
    other.see();
    runs
}

/// The same over links that give the stream in pieces of these lengths, None where memory is wanting for the links.
fn over_cuts<R: RandomSource + Threads + Sync + AllocGlobal>(
    rt: &R,
    target: &Target,
    limits: &Limits,
    later: &[Option<Target>],
    cuts: Vec<usize>,
    others: Vec<usize>,
) -> Option<Runs<Sequenced>>
    ensures { IfSome result (λ runs. IsAlike sequenced_same runs.one runs.other) }
{
    let alloc = rt.alloc();
    let mut updates = named(alloc, later)?;
    let mut again = named(alloc, later)?;
    let mut link = Cut::new(alloc, cuts)?;
    let mut other = Cut::new(alloc, others)?;
    Some(cut_twice(
        rt,
        target,
        limits,
        &[],
        &mut updates,
        &mut link,
        &mut again,
        &mut other,
    ))
}

/// Whether both runs give the paid log, whose first three operations are the target, byte by byte and at once.
fn is_one<R: RandomSource + Threads + Sync + AllocGlobal>(rt: &R) -> Option<bool> {
    let alloc = rt.alloc();
    let target = Target::new(digest_of(OPENED)?, Location::ZERO, Location::new(3)?)?;
    let later = Target::new(digest_of(PAID)?, Location::ZERO, Location::new(6)?)?;
    let limits = Limits::new(2, 1)?;
    let mut bytewise = Vec::new(alloc);
    for _ in 0..STREAM.len() {
        bytewise.push(1).ok()?;
    }
    let runs = over_cuts(
        rt,
        &target,
        &limits,
        &[Some(later)],
        bytewise,
        Vec::new(alloc),
    )?;
    match (&runs.one, &runs.other) {
        (Ok(one), Ok(other)) => Some(is_whole(one, 6) && is_whole(other, 6)),
        _ => Some(false),
    }
}

#[test]
fn a_stream_has_one_answer(rt: HostRuntime) {
    assert_eq!(rt; is_one(&rt), Some(true));
}
