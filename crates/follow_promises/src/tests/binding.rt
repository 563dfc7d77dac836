//! Two parts that were accepted for one target are equal, or two inputs of one digest are in hand: what the clauses
//! of `sync_full` and `collision` say together, whatever the links are.
ghost use Rattle.std.specs.Prelude.{◌≡◌, MatchOption, IfOk};
ghost use Rattle.sha2.specs.Sha256.{sha256};
ghost use Rattle.ledger_merkle.specs.Collision.{Collides};
ghost use Rattle.sync_client.specs.Parts.{IsPartOf};

use super::four::{link_to, log};
use super::target;
use super::vectors::ROOT_FOUR;
use ledger_codec::{OutOfMemory, Spell};
use ledger_log::{AnyOp, Target};
use ledger_merkle::{Leaf, Part, Sha256Hasher, collision};
use std::alloc::Global;
use sync_client::{Limits, NoTargets, SyncFault, sync_full};
use sync_net::{Generator, Link, Machine};

/// The part of the target that a link gives.
fn fetched<Op: Leaf + Spell + Copy, L: Link>(
    alloc: Global,
    target: &Target,
    limits: &Limits,
    link: &mut L,
) -> Result<Part<Op>, SyncFault>
    ensures part { IfOk result (IsPartOf Op.spelling target.now) }
{
    let mut machine = Machine::<Op>::new(alloc, Generator::new());
    Ok(sync_full(alloc, target, &mut NoTargets, limits, &mut machine, link)?.1)
}

/// Two parts of one target, the place behind them, and what they hand out.
#[derive(Drop)]
struct Both<Op> {
    one: Part<Op>,
    other: Part<Op>,
    end: u64,
    met: Option<(Vec<u8>, Vec<u8>)>,
}

/// Two links on one target: either both gave the same part, or they gave a collision of the digest function.
fn bound<Op: Leaf + Spell + Copy, L: Link, M: Link>(
    alloc: Global,
    target: &Target,
    limits: &Limits,
    link: &mut L,
    other: &mut M,
) -> Result<Both<Op>, SyncFault>
    ensures { IfOk result (λ bound.
        MatchOption bound.met (bound.one ≡ bound.other)
        (λ pair. Collides sha256 pair.0.items pair.1.items)) }
{
    let end = target.end.get();
    let one = fetched::<Op, L>(alloc, target, limits, link)?;
    let other = fetched::<Op, M>(alloc, target, limits, other)?;
    match collision::<Sha256Hasher, Op>(alloc, &one, &other) {
        Ok(met) => Ok(Both {
            one,
            other,
            end,
            met,
        }),
        Err(OutOfMemory) => Err(SyncFault::OutOfMemory),
    }
}

/// Whether two links that serve the log of four accounts give the same part of it.
fn agree(alloc: Global) -> Option<bool> {
    let target = target(ROOT_FOUR, 6)?;
    let limits = Limits::new(4, 2)?;
    let mut link = link_to(alloc, log(alloc)?);
    let mut other = link_to(alloc, log(alloc)?);
    let bound = bound::<AnyOp, _, _>(alloc, &target, &limits, &mut link, &mut other).ok()?;
    let is_whole = bound.end == 6 && bound.one.ops.as_slice().len() == 6;
    Some(is_whole && bound.met.is_none() && bound.one.ops.as_slice() == bound.other.ops.as_slice())
}

#[test]
fn two_links_give_one_part(rt: HostRuntime) {
    assert_eq!(rt; agree(rt.alloc()), Some(true));
}
