//! Which operations of a log still count.
ghost use Rattle.std.specs.Prelude.{◌≡◌, ◌+◌, ◌-◌, ◌<◌, ◌≤◌, ◌^◌, ◌++◌, ◌∷◌, List as Items, length, map, take, drop, option_map, option_to_list, IsOkUnless, IfOk, OnOk};
ghost use Rattle.ledger_log.specs.View.{log_size};
ghost use Rattle.ledger_log.specs.Index.{IsIndex, last_write, end_after};
ghost use Rattle.ledger_log.specs.Active.{living, living_from, active_from};

use crate::index::{Index, end_of, index_of};
use crate::{Key, KeyedFamily, Log, LogFault};
use ledger_codec::OutOfMemory;
use ledger_merkle::{Hasher, Location};
use std::alloc::Global;

impl<F: KeyedFamily, H: Hasher> Log<F, H> {
    /// The first `limit` places at or above `loc` of retained operations that leave a value which nothing later
    /// changes, in ascending order. It costs what it gives and skips. Refused for want of memory alone.
    pub fn active_from(&self, loc: Location, limit: usize) -> Result<Vec<Location>, LogFault>
        ensures may { IsOkUnless result LogFault.OutOfMemory }
        ensures ok { IfOk result (λ places. places.items
            ≡ take limit (active_from F.write_of self.now loc)) }
    {
        let _size = self.size();
        let found = self.living_behind(&[], loc, limit)?;
        Ok(places_of(self.alloc, found.as_slice())?)
    }

    /// The first `limit` operations at or above `loc` that would count with these behind the log, each with its
    /// place, in ascending order. It costs what it gives and skips, and what it is given. Refused for want of
    /// memory alone.
    pub fn living_behind(
        &self,
        more: &[F::Op],
        loc: Location,
        limit: usize,
    ) -> Result<Vec<(Location, F::Op)>, LogFault>
        requires { log_size self.now + length more.now ≤ 2 ^ 62 }
        ensures may { IsOkUnless result LogFault.OutOfMemory }
        ensures ok { IfOk result (λ found. found.items
            ≡ take limit (living_from F.write_of self.now more.now loc)) }
    {
        let later = index_of::<F>(self.alloc, more, self.size().get())?;
        let end = self.size().get() + more.len() as u64;
        let mut found = Vec::new(self.alloc);
        let mut at = loc.get().max(self.front().get());
        while found.len() < limit && at < end {
            self.find_at(more, &later, at, &mut found)?;
            at += 1;
        }
        Ok(found)
    }

    /// Puts the operation at this place behind those that were found, if it counts.
    fn find_at(
        &self,
        more: &[F::Op],
        later: &Index,
        at: u64,
        found: &mut Vec<(Location, F::Op)>,
    ) -> Result<(), OutOfMemory>
        requires least { self.now.front ≤ at }
        requires most { at < log_size self.now + length more.now }
        requires room { log_size self.now + length more.now ≤ 2 ^ 62 }
        requires later { IsIndex F.write_of later.now (log_size self.now) more.now }
        ensures all { OnOk result (found.new.items
            ++ living F.write_of (at + 1) (drop (at + 1 - self.now.front) (self.now.ops ++ more.now))
            ≡ found.old.items
            ++ living F.write_of at (drop (at - self.now.front) (self.now.ops ++ more.now))) }
        ensures few { OnOk result (length found.new.items ≤ length found.old.items + 1) }
    {
        if let Some(op) = self.living_at(more, later, at) {
            found.push((Location::ZERO.plus(at), op))?;
        }
        Ok(())
    }

    /// The operation at this place, if it counts with these behind the log, of whose index `later` is.
    fn living_at(&self, more: &[F::Op], later: &Index, at: u64) -> Option<F::Op>
        requires least { self.now.front ≤ at }
        requires most { at < log_size self.now + length more.now }
        requires room { log_size self.now + length more.now ≤ 2 ^ 62 }
        requires later { IsIndex F.write_of later.now (log_size self.now) more.now }
        ensures { living F.write_of at (drop (at - self.now.front) (self.now.ops ++ more.now))
            ≡ option_to_list (option_map (λ op. (at, op)) result)
            ++ living F.write_of (at + 1) (drop (at + 1 - self.now.front) (self.now.ops ++ more.now)) }
    {
        let place = (at - self.list.front().get()) as usize;
        let op = pick(self.ops.as_slice(), more, place);
        let key = F::written_key(op)?;
        F::written_value(op)?;
        if self.end_behind(later, &key) == at + 1 {
            Some(*op)
        } else {
            None
        }
    }

    /// The place behind the key's last operation among the log's and those behind it, of which `later` is the
    /// index, 0 where there is none.
    fn end_behind(&self, later: &Index, key: &Key) -> u64
        ensures { (more : Items F.Op) →
            IsIndex F.write_of later.now (log_size self.now) more →
            result ≡ end_after self.now.front 0 (last_write F.write_of key.now (self.now.ops ++ more)) }
    {
        let end = end_of(later, key);
        if self.list.size().get() < end {
            return end;
        }
        let end = end_of(&self.index, key);
        if end <= self.list.front().get() {
            0
        } else {
            end
        }
    }
}

/// The places of what was found.
fn places_of<T: Copy>(alloc: Global, found: &[(Location, T)]) -> Result<Vec<Location>, OutOfMemory>
    ensures { IfOk result (λ places. places.items ≡ map (λ e. e.0) found.now) }
{
    Ok(found.iter().map(|entry| entry.0).collect(alloc)?)
}

/// The item at this place of two lists, one behind the other.
fn pick<'a, T: Copy>(first: &'a [T], second: &'a [T], place: usize) -> &'a T
    requires { place < length first.now + length second.now }
    ensures { drop place (first.now ++ second.now)
        ≡ result.now ∷ drop (place + 1) (first.now ++ second.now) }
{
    if place < first.len() {
        &first[place]
    } else {
        &second[place - first.len()]
    }
}
