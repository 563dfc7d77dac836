//! A keeper asked three times, whose second sync fails.
use crate::{CountingKeeper, Keeper};
use std::alloc::Global;

/// Whether the first and the third sync are kept, by any keeper.
fn asked<K: Keeper>(keeper: &mut K) -> [bool; 3] {
    let first = keeper.sync().is_ok();
    let second = keeper.sync().is_ok();
    let third = keeper.sync().is_ok();
    [first, second, third]
}

/// What a keeper answers whose second sync fails, and how many syncs it kept.
fn answered(alloc: Global) -> Option<([bool; 3], u64)> {
    let failing = Vec::from_slice(alloc, &[1]).ok()?;
    let mut keeper = CountingKeeper::new(failing);
    let answers = asked(&mut keeper);
    Some((answers, keeper.kept()))
}

#[test]
fn listed_syncs_fail(rt: HostRuntime) {
    assert_eq!(rt; answered(rt.alloc()), Some(([true, false, true], 2)));
}
