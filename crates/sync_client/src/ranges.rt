//! Lists of ranges, and of what was asked.
ghost use Rattle.std.specs.Prelude.{◌≡◌, ◌+◌, ◌-◌, ◌<◌, ◌≤◌, ◌∷◌, ◌++◌, ◌&&◌, [], length, position, IfOk, IfSome, OnErr, min, nat_lt, nat_le};
ghost use Rattle.sync_client.specs.Collected.{same_range, place_in, without, target_or};
ghost use Rattle.std.specs.Prelude.{option_and_then, slice_get};

use crate::asked::Asked;
use ledger_codec::OutOfMemory;
use ledger_log::Target;
use ledger_merkle::Location;
use std::ops::Range;

/// Whether two ranges are one.
fn is_same(a: &Range<Location>, b: &Range<Location>) -> bool
    ensures { result ≡ same_range a.now b.now }
{
    a.start.get() == b.start.get() && a.end.get() == b.end.get()
}

/// Puts the first rest behind what is pending, for this target.
pub(crate) fn move_first(
    rests: &mut Vec<Range<Location>>,
    pending: &mut Vec<Asked>,
    target: &Target,
) -> Result<Range<Location>, OutOfMemory>
    requires { 0 < length rests.old.items }
    ensures ok { IfOk result (λ r.
        (rests.old.items ≡ r ∷ rests.new.items)
        × (pending.new.items ≡ pending.old.items ++ record { range = r; target = target.now } ∷ [])) }
    ensures err { OnErr result ((rests.new.items ≡ rests.old.items)
        × (pending.new.items ≡ pending.old.items)) }
{
    let start = rests[0].start;
    let end = rests[0].end;
    pending.push(Asked {
        range: Range { start, end },
        target: *target,
    })?;
    Ok(rests.remove(0))
}

/// The end of the batch from a place on.
pub(crate) fn end_of_batch(at: Location, batch: u64, end: Location) -> Location
    requires { at < end }
    ensures { result ≡ min (at + batch) end }
{
    if batch >= end.get() - at.get() {
        end
    } else {
        at.plus(batch)
    }
}

/// Drops a range that was asked.
pub(crate) fn forget(asked: &mut Vec<Asked>, range: &Range<Location>)
    ensures { asked.new.items ≡ without range.now asked.old.items }
{
    match place_of(asked, range) {
        Some(place) => {
            let _asked = asked.remove(place);
        }
        None => {}
    }
}

/// The place at which a range was asked.
fn place_of(asked: &[Asked], range: &Range<Location>) -> Option<usize>
    ensures place { result ≡ place_in range.now asked.now }
    ensures within { IfSome result (λ i. i < length asked.now) }
{
    asked.iter().position(|a| is_same(&a.range, range))
}

/// The target for which a range was asked, or else this one.
pub(crate) fn target_for(asked: &[Asked], range: &Range<Location>, target: &Target) -> Target
    ensures { result
        ≡ target_or target.now
        (option_and_then (λ i. slice_get asked.now i) (place_in range.now asked.now)) }
{
    match place_of(asked, range) {
        Some(place) => asked[place].target,
        None => *target,
    }
}

/// Whether the number of operations fits the range.
pub(crate) fn fits(asked: &Range<Location>, count: usize) -> bool
    requires { asked.now.start < asked.now.end }
    ensures { result ≡ (nat_lt 0 count && nat_le count (asked.now.end - asked.now.start)) }
{
    count > 0 && count as u64 <= asked.end.get() - asked.start.get()
}
