//! The database of the family immutable without its operations.

use crate::state_sync::StateSyncDb;
use ledger_compact::CompactLog;
use ledger_log::{CompactTarget, ImmutableFamily, ImmutableOp};
use ledger_merkle::Sha256Hasher;
use std::alloc::Global;
use sync_client::Limits;
use sync_fetch::{StateFault, fetch_compact};
use sync_net::{Link, Machine};

impl StateSyncDb for CompactLog<ImmutableFamily, Sha256Hasher> {
    ghost use Rattle.std.specs.Prelude.{◌≡◌};
    ghost use Rattle.sha2.specs.Sha256.{sha256};
    ghost use Rattle.ledger_log.specs.Immutable.{immutable_spelling, immutable_floor};
    ghost use Rattle.ledger_log.specs.Spellings.{immutable_at};
    ghost use Rattle.ledger_compact.specs.View.{compact_root};
    ghost use Rattle.sync_fetch.specs.States.{CompactFetched};

    type Op = ImmutableOp;

    ghost Syncs = { λ target _ result. CompactFetched sha256 immutable_spelling immutable_floor target result immutable_at immutable_spelling };

    ghost IsSyncedTo = { λ log target. (compact_root sha256 log ≡ target.root) × (log.size ≡ target.leaf_count) };

    fn sync_db<L: Link>(
        alloc: Global,
        target: CompactTarget,
        _limits: &Limits,
        machine: &mut Machine<ImmutableOp>,
        link: &mut L,
    ) -> Result<CompactLog<ImmutableFamily, Sha256Hasher>, StateFault> {
        fetch_compact::<ImmutableFamily, L>(alloc, &target, machine, link)
    }
}
