//! A compact state, made, written and read again.

use ledger_codec::{Digest, List, decode, encode};
use ledger_log::{CompactState, KeylessOp};
use ledger_merkle::{Location, Proof};
use std::alloc::Global;
use std::test::*;
use sync_net::*;

/// These digests as a list.
fn list(alloc: Global, digests: &[Digest]) -> Option<List<Digest>> {
    Some(List::from_vec(Vec::from_slice(alloc, digests).ok()?))
}

/// The state of a log of 11 operations, whose last one is a commit.
fn state(alloc: Global) -> Option<CompactState<KeylessOp>> {
    let eleven = Location::new(11)?;
    Some(CompactState {
        leaf_count: eleven,
        pinned_nodes: list(alloc, &[[1; 32], [2; 32]])?,
        last_commit_op: KeylessOp::Commit(None, Location::ZERO),
        last_commit_proof: Proof {
            leaves: eleven,
            inactive_peaks: 0,
            digests: list(alloc, &[[3; 32]])?,
        },
    })
}

/// Whether a state is the one above.
fn is_state(state: &CompactState<KeylessOp>) -> bool {
    state.leaf_count.get() == 11
        && state.pinned_nodes.as_slice() == [[1; 32], [2; 32]].as_slice()
        && state.last_commit_op == KeylessOp::Commit(None, Location::ZERO)
        && state.last_commit_proof.leaves.get() == 11
        && state.last_commit_proof.digests.as_slice() == [[3; 32]].as_slice()
}

/// Whether the state is read again as it was written.
fn comes_again(alloc: Global) -> Option<bool> {
    let state = state(alloc)?;
    if state.pinned_nodes.as_slice().len() > 64 {
        return None;
    }
    if state.last_commit_proof.digests.as_slice().len() > 10_000 {
        return None;
    }
    let answer = GetCompactStateResponse {
        request_id: 258,
        state,
    };
    let bytes = encode(alloc, &answer).ok()?;
    let again = decode::<GetCompactStateResponse<KeylessOp>>(alloc, &bytes).ok()?;
    Some(again.request_id == 258 && is_state(&again.state))
}

#[test]
fn a_state_is_read_as_it_was_written(rt: HostRuntime) {
    assert_eq!(rt; comes_again(rt.alloc()), Some(true));
}
