//! What a log keeps of its keys, which no call shows. The other worked cases are those of log_cases.
ghost use Rattle.std.specs.Prelude.{◌≡◌, ◌≤◌, ◌^◌};

use crate::{AnyFamily, AnyOp, Log, LogFault};
use ledger_merkle::{Location, Sha256Hasher};

fn at(value: u64) -> Location
    requires { value ≤ 2 ^ 62 }
    ensures { result ≡ value }
{
    Location::ZERO.plus(value)
}

fn commit(floor: u64) -> AnyOp
    requires { floor ≤ 2 ^ 62 }
{
    AnyOp::CommitFloor(None, at(floor))
}

#[test]
fn forgets_the_keys_below_its_front(rt: HostRuntime) -> Result<(), LogFault> {
    let (a, b) = ([1; 32], [2; 32]);
    let mut log = Log::<AnyFamily, Sha256Hasher>::fresh(rt.alloc())?;
    log.append_batch(&[AnyOp::Update(a, a), AnyOp::Update(b, a), commit(2)])?;
    assert_eq!(rt; log.entry_count(), 2);
    log.prune(at(2))?;
    assert_eq!(rt; log.entry_count(), 1);
    log.append_batch(&[AnyOp::Update(b, b), AnyOp::Delete(a), commit(4)])?;
    log.prune(at(4))?;
    assert_eq!(rt; log.entry_count(), 2);
    log.append_batch(&[commit(7)])?;
    log.prune(at(7))?;
    assert_eq!(rt; log.entry_count(), 0);
    Ok(())
}
