//! The session over a link: asks go out, answers come in, until the range is whole.
ghost use Rattle.std.specs.Prelude.{◌≡◌, ◌-◌, ◌<◌, ◌≤◌, ◌^◌, ◌++◌, ℕ, [], List, length, IfOk, OnOk, IsTrue, false, true};
ghost use Rattle.std.specs.declared.option.Option.{Option};
ghost use Rattle.sync_client.specs.Asking.{first_plan};
ghost use Rattle.sync_client.specs.Collected.{is_complete};
ghost use Rattle.sync_client.specs.Counts.{CountKept, NeverNetwork};
ghost use Rattle.sync_client.specs.Ending.{Origin, origin_of, handled, Came, Ended};
ghost use Rattle.sync_client.specs.Parts.{IsPartOf, IsHashed, synced_part};
ghost use Rattle.sync_client.specs.Seen.{Beside, beside, seen, Paired};
ghost use Rattle.sync_client.specs.Runs.{SessionLaws};
ghost use Rattle.sync_client.specs.Session.{Nothing, ask_next, is_whole, rules_for, started};
ghost use Rattle.sync_client.specs.Tiles.{Tiles};
ghost use Rattle.sync_client.specs.Turns.{Filled, Handled, Collects};
ghost use Rattle.sync_client.specs.Updates.{TakesUpdates, targets_in};
ghost use Rattle.ledger_log.specs.declared.target.Target.{Target};
ghost use Rattle.sync_net.specs.Core.{LogData};
ghost use Rattle.sync_client.specs.Serving.{Serves, HasLater};
ghost use Rattle.sync_client.specs.Owing.{AreSent, IsServed, Serving, ServesOn, Begins, Fetches};

use crate::collector::Collector;
use crate::fault::{CollectFault, SyncFault};
use crate::hashed::HashedPart;
use crate::limits::Limits;
use crate::receiving::receive;
use crate::steps::{ask, take_next};
use crate::targets::Targets;
use ledger_codec::Spell;
use ledger_log::Target;
use ledger_merkle::{Leaf, Part};
use std::alloc::Global;
use sync_net::{Link, LinkError, Machine};

/// How many bytes are asked of the link at once.
const BUFFER_SIZE: usize = 4096;

/// Sends each ask that may be sent.
fn fill<Op: Leaf + Spell + Copy, L: Link>(
    machine: &mut Machine<Op>,
    collector: &mut Collector<Op>,
    link: &mut L,
) -> Result<(), SyncFault>
    requires paired { Paired machine.old collector.old }
    requires tiles { Tiles collector.old }
    ensures paired { OnOk result (Paired machine.new collector.new) }
    ensures tiles { Tiles collector.new }
    ensures plan { collector.new.plan ≡ collector.old.plan }
    ensures kept { collector.new.kept ≡ collector.old.kept }
    ensures exact { IsTrue L.exact → CountKept result (L.faults link.old) (L.faults link.new) }
    ensures steady { L.steady link.old →
        L.steady link.new × NeverNetwork result (L.faults link.old) (L.faults link.new) }
    ensures filled { (o : Origin Op) (b : Beside)
        → o.rules ≡ rules_for Op.reading Op.written Op.spelling
        → Came o (seen machine.old collector.old b)
        machine.old.held machine.old.closed (L.wire link.old) (L.faults link.old)
        → Filled result o (seen machine.new collector.new b)
        machine.new b.updates (L.wire link.new) (L.faults link.new) }
    ensures nothing { OnOk result ((b : Beside) → ask_next (seen machine.new collector.new b) ≡ Nothing) }
    ensures serving { (held : LogData) (first : Target) (left : List (Option Target)) (b : Beside)
        → AreSent Op.reading Op.written Op.spelling Op.Spell.sound
        → (h : Serves Op.written Op.Spell.sound held first)
        → IsServed Op.written held h.log left (seen machine.old collector.old b)
        machine.old.held machine.old.closed (L.service link.old)
        → Serving Op.written held h.log left (seen machine.new collector.new b) result
        machine.new.held machine.new.closed (L.service link.new) }
{
    loop {
        let frame = match ask(machine, collector) {
            Ok(Some(frame)) => frame,
            Ok(None) => return Ok(()),
            Err(fault) => return Err(fault),
        };
        match link.send(&frame) {
            Ok(()) => {}
            Err(LinkError::Failed) => return Err(SyncFault::Network),
            Err(LinkError::OutOfMemory) => return Err(SyncFault::OutOfMemory),
        }
    }
}

/// Takes the next whole frame, received as far as it isn't held.
fn handle<Op: Leaf + Spell + Copy, L: Link, Ts: Targets>(
    machine: &mut Machine<Op>,
    collector: &mut Collector<Op>,
    strays: &mut u32,
    updates: &mut Ts,
    link: &mut L,
    buffer: &mut [u8],
) -> Result<(), SyncFault>
    requires room { 0 < length buffer.old }
    requires most { length buffer.old ≤ 4096 }
    requires tiles { Tiles collector.old }
    requires paired { Paired machine.old collector.old }
    ensures paired { OnOk result (Paired machine.new collector.new) }
    ensures tiles { Tiles collector.new }
    ensures rises { OnOk result
        (handled (seen machine.old collector.old (beside strays.old (Ts.answers updates.old)))
        < handled (seen machine.new collector.new (beside strays.new (Ts.answers updates.new)))) }
    ensures strays { OnOk result (strays.old ≤ 1024 → strays.new ≤ 1024) }
    ensures fewer { length (Ts.answers updates.new) ≤ length (Ts.answers updates.old) }
    ensures exact { IsTrue L.exact → CountKept result (L.faults link.old) (L.faults link.new) }
    ensures steady { L.steady link.old →
        L.steady link.new × NeverNetwork result (L.faults link.old) (L.faults link.new) }
    ensures handled { (o : Origin Op)
        → o.rules ≡ rules_for Op.reading Op.written Op.spelling
        → Came o
        (seen machine.old collector.old (beside strays.old (Ts.answers updates.old)))
        machine.old.held machine.old.closed (L.wire link.old) (L.faults link.old)
        → ask_next
        (seen machine.old collector.old (beside strays.old (Ts.answers updates.old))) ≡ Nothing
        → is_whole
        (seen machine.old collector.old (beside strays.old (Ts.answers updates.old))) ≡ false
        → Handled result o (seen machine.new collector.new (beside strays.new (Ts.answers updates.new)))
        machine.new (Ts.answers updates.new) (L.wire link.new) (L.faults link.new) }
    ensures serving { (held : LogData) (first : Target) (left : List (Option Target))
        → AreSent Op.reading Op.written Op.spelling Op.Spell.sound
        → (h : Serves Op.written Op.Spell.sound held first)
        → length left ≤ length (Ts.answers updates.new)
        → IsServed Op.written held h.log left
        (seen machine.old collector.old (beside strays.old (Ts.answers updates.old)))
        machine.old.held machine.old.closed (L.service link.old)
        → ask_next
        (seen machine.old collector.old (beside strays.old (Ts.answers updates.old))) ≡ Nothing
        → is_whole
        (seen machine.old collector.old (beside strays.old (Ts.answers updates.old))) ≡ false
        → Serving Op.written held h.log left
        (seen machine.new collector.new (beside strays.new (Ts.answers updates.new))) result
        machine.new.held machine.new.closed (L.service link.new) }
{
    loop {
        match take_next(machine, collector, strays, updates) {
            Ok(true) => return Ok(()),
            Ok(false) => {}
            Err(fault) => return Err(fault),
        }
        match receive(machine, link, buffer) {
            Ok(()) => {}
            Err(fault) => return Err(fault),
        }
    }
}

/// Asks and takes frames until the range is whole.
fn collect<Op: Leaf + Spell + Copy, L: Link, Ts: Targets>(
    machine: &mut Machine<Op>,
    collector: &mut Collector<Op>,
    updates: &mut Ts,
    link: &mut L,
) -> Result<(), SyncFault>
    requires paired { Paired machine.old collector.old }
    requires tiles { Tiles collector.old }
    ensures paired { OnOk result (Paired machine.new collector.new) }
    ensures complete { OnOk result (is_complete collector.new ≡ true) }
    ensures tiles { Tiles collector.new }
    ensures exact { IsTrue L.exact → CountKept result (L.faults link.old) (L.faults link.new) }
    ensures steady { L.steady link.old →
        L.steady link.new × NeverNetwork result (L.faults link.old) (L.faults link.new) }
    ensures collects { (o : Origin Op)
        → o.rules ≡ rules_for Op.reading Op.written Op.spelling
        → Came o (seen machine.old collector.old (beside 0 (Ts.answers updates.old)))
        machine.old.held machine.old.closed (L.wire link.old) (L.faults link.old)
        → Collects result o
        machine.new collector.new (Ts.answers updates.new) (L.wire link.new) (L.faults link.new) }
    ensures serving { (held : LogData) (first : Target) (left : List (Option Target))
        → AreSent Op.reading Op.written Op.spelling Op.Spell.sound
        → (h : Serves Op.written Op.Spell.sound held first) → length left ≤ length (Ts.answers updates.new)
        → IsServed Op.written held h.log left
        (seen machine.old collector.old (beside 0 (Ts.answers updates.old))) machine.old.held
        machine.old.closed (L.service link.old)
        → ServesOn Op.written held h.log left result machine.new collector.new (Ts.answers updates.new)
        (L.service link.new) }
{
    let mut buffer = [0; BUFFER_SIZE];
    let mut strays = 0;
    match fill(machine, collector, link) {
        Ok(()) => {}
        Err(fault) => return Err(fault),
    }
    while !collector.is_complete() {
        match handle(machine, collector, &mut strays, updates, link, &mut buffer) {
            Ok(()) => {}
            Err(fault) => return Err(fault),
        }
        match fill(machine, collector, link) {
            Ok(()) => {}
            Err(fault) => return Err(fault),
        }
    }
    Ok(())
}

/// Fetches the target's range over a link, by a machine without pending requests, which owns the numbers. After
/// each good answer that leaves something to fetch, while fewer than [`MAX_UPDATES`](crate::MAX_UPDATES) were
/// taken, `updates` may name a later target, up to whose end is asked from then on. The answer is the target that
/// was synced, which has the first one's start and the root and end of the last one taken, and its part.
/// The machine's held bytes stay with it between two calls. Network says that a call of the link failed,
/// StaleUpdate that a later target was named that begins below the current one or doesn't end behind it,
/// WrongRoot that all was proved and yet has another root; the other faults are those of the first frame
/// that offends, after which nothing is sent or read.
pub fn sync_full<Op: Leaf + Spell + Copy, L: Link, Ts: Targets>(
    alloc: Global,
    target: &Target,
    updates: &mut Ts,
    limits: &Limits,
    machine: &mut Machine<Op>,
    link: &mut L,
) -> Result<(Target, Part<Op>), SyncFault>
    requires { machine.old.pending ≡ [] }
    ensures ended { Ended result
        (origin_of Op.reading Op.written Op.spelling target.now (Ts.answers updates.old)
        limits.now machine.old (L.wire link.old) (L.faults link.old))
        machine.new (Ts.answers updates.new) (L.wire link.new) (L.faults link.new) }
    ensures took { TakesUpdates result target.now (Ts.answers updates.old) (Ts.answers updates.new) }
    ensures exact { IsTrue L.exact → CountKept result (L.faults link.old) (L.faults link.new) }
    ensures steady { L.steady link.old →
        L.steady link.new × NeverNetwork result (L.faults link.old) (L.faults link.new) }
    ensures part { IfOk result (λ synced. IsPartOf Op.spelling synced.0 synced.1) }
    ensures laws { SessionLaws (rules_for Op.reading Op.written Op.spelling)
        (started (first_plan target.now limits.now) machine.old.next (Ts.answers updates.old)) }
    ensures serving { (held : LogData) (took : List (Option Target))
        → AreSent Op.reading Op.written Op.spelling Op.Spell.sound
        → (h : Serves Op.written Op.Spell.sound held target.now)
        → Begins held machine.old (L.service link.old)
        → Ts.answers updates.old ≡ took ++ Ts.answers updates.new
        → HasLater Op.written h.log target.now (targets_in took)
        → Fetches Op.written held h.log result machine.new (L.service link.new) }
{
    match sync_hashed(alloc, target, updates, limits, machine, link) {
        Ok(synced) => Ok((synced.0, synced.1.part)),
        Err(fault) => Err(fault),
    }
}

/// What [`sync_full`] answers, with the leaves that the part's root was worked out from: for who opens a log of
/// it.
pub fn sync_hashed<Op: Leaf + Spell + Copy, L: Link, Ts: Targets>(
    alloc: Global,
    target: &Target,
    updates: &mut Ts,
    limits: &Limits,
    machine: &mut Machine<Op>,
    link: &mut L,
) -> Result<(Target, HashedPart<Op>), SyncFault>
    requires { machine.old.pending ≡ [] }
    ensures ended { Ended (synced_part result)
        (origin_of Op.reading Op.written Op.spelling target.now (Ts.answers updates.old)
        limits.now machine.old (L.wire link.old) (L.faults link.old))
        machine.new (Ts.answers updates.new) (L.wire link.new) (L.faults link.new) }
    ensures took { TakesUpdates result target.now (Ts.answers updates.old) (Ts.answers updates.new) }
    ensures exact { IsTrue L.exact → CountKept result (L.faults link.old) (L.faults link.new) }
    ensures steady { L.steady link.old →
        L.steady link.new × NeverNetwork result (L.faults link.old) (L.faults link.new) }
    ensures part { IfOk result (λ synced. IsPartOf Op.spelling synced.0 synced.1.part) }
    ensures leaves { IfOk result (λ synced. IsHashed Op.spelling synced.1) }
    ensures laws { SessionLaws (rules_for Op.reading Op.written Op.spelling)
        (started (first_plan target.now limits.now) machine.old.next (Ts.answers updates.old)) }
    ensures serving { (held : LogData) (took : List (Option Target))
        → AreSent Op.reading Op.written Op.spelling Op.Spell.sound
        → (h : Serves Op.written Op.Spell.sound held target.now)
        → Begins held machine.old (L.service link.old)
        → Ts.answers updates.old ≡ took ++ Ts.answers updates.new
        → HasLater Op.written h.log target.now (targets_in took)
        → Fetches Op.written held h.log (synced_part result) machine.new (L.service link.new) }
{
    let _batch = limits.batch();
    let _outstanding = limits.outstanding();
    let mut collector = Collector::new(alloc, *target, *limits);
    match collect(machine, &mut collector, updates, link) {
        Ok(()) => {}
        Err(fault) => return Err(fault),
    }
    let synced = collector.target();
    match collector.finish_hashed() {
        Ok(hashed) => Ok((synced, hashed)),
        Err(CollectFault::WrongRoot { found }) => Err(SyncFault::WrongRoot { found }),
        Err(CollectFault::OutOfMemory) => Err(SyncFault::OutOfMemory),
        Err(CollectFault::InvalidProof { request_id: _ }) => unreachable!(),
        Err(CollectFault::StaleUpdate { start: _, end: _ }) => unreachable!(),
    }
}
