//! The steps of a session: a machine that numbers asks, and a collector that keeps answers.
ghost use Rattle.std.specs.Prelude.{◌≡◌, ◌-◌, ◌<◌, ◌≤◌, ◌^◌};
ghost use Rattle.sha2.specs.Sha256.{sha256};
ghost use Rattle.sync_client.specs.Asking.{judged_by};
ghost use Rattle.sync_client.specs.Collected.{ranges_of, IsOutstanding};
ghost use Rattle.sync_client.specs.Seen.{Paired, beside, range_of as range_seen};
ghost use Rattle.sync_client.specs.Session.{rules_for};
ghost use Rattle.sync_client.specs.Steps.{AsksNext, TakesTarget, Heeds, TakesReply, TakesNext};
ghost use Rattle.sync_client.specs.Tiles.{Tiles};

use crate::collector::Collector;
use crate::fault::{CollectFault, SyncFault};
use crate::targets::Targets;
use ledger_codec::{OutOfMemory, Spell};
use ledger_log::Target;
use ledger_merkle::{Leaf, Location};
use std::num::NonZeroU64;
use std::ops::Range;
use sync_net::{Answer, Ask, GetOperationsResponse, Machine, MachineFault, Message, SubmitRefusal};

/// How many messages under numbers that aren't pending a session lets through.
pub const MAX_STRAYS: u32 = 1024;

/// The number of places of a range.
fn count_of(range: &Range<Location>) -> NonZeroU64
    requires { range.now.start < range.now.end }
    ensures { result.value ≡ range.now.end - range.now.start }
{
    match NonZeroU64::new(range.end.get() - range.start.get()) {
        Some(count) => count,
        None => unreachable!(),
    }
}

/// The frame of the next ask, which carries the current target's end; None where none may be sent.
pub(crate) fn ask<Op: Leaf + Spell + Copy>(
    machine: &mut Machine<Op>,
    collector: &mut Collector<Op>,
) -> Result<Option<Vec<u8>>, SyncFault>
    requires paired { Paired machine.old collector.old }
    ensures asks { AsksNext result Op.written machine.old machine.new collector.old collector.new }
    ensures tiles { Tiles collector.new }
    ensures plan { collector.new.plan ≡ collector.old.plan }
    ensures kept { collector.new.kept ≡ collector.old.kept }
{
    let target = collector.target();
    let range = match collector.next_ask() {
        Ok(Some(range)) => range,
        Ok(None) => return Ok(None),
        Err(OutOfMemory) => return Err(SyncFault::OutOfMemory),
    };
    let count = count_of(&range);
    let pinned = range.start.get() == target.start.get();
    match machine.submit_operations(target.end, range.start, count, pinned) {
        Ok(submitted) => Ok(Some(submitted.frame)),
        Err(SubmitRefusal::Closed) => Err(SyncFault::Closed),
        Err(SubmitRefusal::Exhausted) => Err(SyncFault::Exhausted),
        Err(SubmitRefusal::OutOfMemory) => Err(SyncFault::OutOfMemory),
    }
}

/// The range of a request for operations.
fn range_of(ask: &Ask) -> Range<Location>
    requires { (range_seen ask.now).end ≤ 2 ^ 62 }
    ensures { result ≡ range_seen ask.now }
{
    match ask {
        Ask::Operations {
            start_loc,
            max_ops,
            ..
        } => Range {
            start: *start_loc,
            end: start_loc.plus(max_ops.get()),
        },
        Ask::SyncTarget => no_range(),
        Ask::CompactTarget => no_range(),
        Ask::CompactState { .. } => no_range(),
    }
}

/// The range of a request for something else.
fn no_range() -> Range<Location>
    ensures { (result.start ≡ 0) × (result.end ≡ 0) }
{
    Range {
        start: Location::ZERO,
        end: Location::ZERO,
    }
}

/// Takes a later target that was named, or tells that it is stale.
fn take_target<Op: Leaf + Spell + Copy>(
    collector: &mut Collector<Op>,
    target: Target,
) -> Result<(), SyncFault>
    requires { collector.old.plan.taken < 8 }
    ensures takes { TakesTarget result target collector.old collector.new }
    ensures tiles { Tiles collector.new }
{
    let start = target.start;
    let end = target.end;
    match collector.retarget(target) {
        Ok(()) => Ok(()),
        Err(_) => Err(SyncFault::StaleUpdate { start, end }),
    }
}

/// Heeds the next answer on a later target: it is asked for once after a good answer that leaves something to
/// fetch, while fewer than [`MAX_UPDATES`](crate::MAX_UPDATES) were taken.
fn heed<Op: Leaf + Spell + Copy, Ts: Targets>(
    collector: &mut Collector<Op>,
    updates: &mut Ts,
) -> Result<(), SyncFault>
    ensures heeds { Heeds result collector.old collector.new (Ts.answers updates.old)
        (Ts.answers updates.new) }
    ensures tiles { Tiles collector.new }
{
    if collector.is_settled() {
        return Ok(());
    }
    match updates.next() {
        None => Ok(()),
        Some(target) => take_target(collector, target),
    }
}

/// Takes an answer to what was asked under a number, and then heeds the next answer on a later target.
fn take_reply<Op: Leaf + Spell + Copy, Ts: Targets>(
    collector: &mut Collector<Op>,
    asked: Range<Location>,
    number: u64,
    response: GetOperationsResponse<Op>,
    updates: &mut Ts,
) -> Result<(), SyncFault>
    requires { IsOutstanding asked (ranges_of collector.old.pending) }
    ensures replies { TakesReply result (judged_by sha256 Op.spelling) asked number response
        collector.old collector.new (Ts.answers updates.old) (Ts.answers updates.new) }
    ensures tiles { Tiles collector.new }
{
    match collector.accept(asked, number, response) {
        Ok(()) => heed(collector, updates),
        Err(CollectFault::InvalidProof { request_id }) => Err(SyncFault::InvalidProof {
            request_id,
        }),
        Err(CollectFault::OutOfMemory) => Err(SyncFault::OutOfMemory),
        Err(_) => unreachable!(),
    }
}

/// Takes the next whole frame that the machine holds; false where it holds none.
pub(crate) fn take_next<Op: Leaf + Spell + Copy, Ts: Targets>(
    machine: &mut Machine<Op>,
    collector: &mut Collector<Op>,
    strays: &mut u32,
    updates: &mut Ts,
) -> Result<bool, SyncFault>
    requires tiles { Tiles collector.old }
    requires paired { Paired machine.old collector.old }
    ensures takes { TakesNext result (rules_for Op.reading Op.written Op.spelling)
        machine.old machine.new collector.old collector.new
        (beside strays.old (Ts.answers updates.old)) (beside strays.new (Ts.answers updates.new)) }
    ensures tiles { Tiles collector.new }
{
    match machine.next_answer() {
        Ok(None) => Ok(false),
        Ok(Some(answer)) => match answer {
            Answer::Stray { number: _ } => {
                if *strays >= MAX_STRAYS {
                    return Err(SyncFault::TooManyStrays);
                }
                *strays += 1;
                Ok(true)
            }
            Answer::Reply {
                number,
                ask,
                message,
            } => match message {
                Message::GetOperationsResponse(response) => {
                    match take_reply(collector, range_of(&ask), number, response, updates) {
                        Ok(()) => Ok(true),
                        Err(fault) => Err(fault),
                    }
                }
                _ => unreachable!(),
            },
        },
        Err(MachineFault::InvalidResponse) => Err(SyncFault::InvalidResponse),
        Err(MachineFault::UnexpectedResponse { request_id }) => {
            Err(SyncFault::UnexpectedResponse { request_id })
        }
        Err(MachineFault::Server { code, message }) => Err(SyncFault::Server { code, message }),
        Err(MachineFault::RequestChannelClosed) => Err(SyncFault::RequestChannelClosed),
        Err(MachineFault::Closed) => Err(SyncFault::Closed),
        Err(MachineFault::OutOfMemory) => Err(SyncFault::OutOfMemory),
    }
}
