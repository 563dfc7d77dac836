//! The peer: a log of wallets, and the link that serves it.
ghost use Rattle.std.specs.Prelude.{◌≡◌};

use example_accounts::Wallet;
use ledger_log::{AnyFamily, AnyOp, Key, Log, LogFault, Target};
use ledger_managed::AccountValue;
use ledger_merkle::{Location, Sha256Hasher};
use std::alloc::Global;
use sync_server::MemoryLink;

pub const ANN: Key = [b'a'; 32];

pub const BOB: Key = [b'b'; 32];

pub const SHOP: Key = [b's'; 32];

type WalletLog = Log<AnyFamily, Sha256Hasher>;

/// What writes a wallet.
fn opened(key: Key, coins: u64, points: u64) -> AnyOp {
    AnyOp::Update(key, Wallet { coins, points }.to_value())
}

/// A log of three wallets.
pub fn wallets(alloc: Global) -> Result<WalletLog, LogFault> {
    let mut log = WalletLog::fresh(alloc)?;
    log.append_batch(&[
        opened(ANN, 100, 0),
        opened(BOB, 50, 3),
        opened(SHOP, 20, 0),
        AnyOp::CommitFloor(None, Location::ZERO),
    ])?;
    Ok(log)
}

/// The whole log as a target: what a client has to know of it.
pub fn target_of(log: &WalletLog) -> Target {
    let _behind_front = log.floor();
    match Target::new(log.root(), log.front(), log.size()) {
        Some(target) => target,
        None => unreachable!(),
    }
}

/// A link that serves the log, each reply whole and in its turn.
pub fn link_to(alloc: Global, log: WalletLog) -> MemoryLink<AnyFamily> {
    let order = Vec::new(alloc);
    let cuts = Vec::new(alloc);
    let failing = Vec::new(alloc);
    MemoryLink::new(alloc, log, order, cuts, failing)
}
