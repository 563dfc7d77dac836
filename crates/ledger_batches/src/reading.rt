//! Over which databases a batch is read.
ghost use Rattle.std.specs.Prelude.{◌≡◌, Err, MatchOption, IsOk, IfOk};
ghost use Rattle.ledger_chain.specs.Chain.{state_of, missing};
ghost use Rattle.ledger_chain.specs.Faults.{stale_read};

use ledger_chain::{Chain, Link, ManagedFault, state_of};
use ledger_log::{Family, Log};
use ledger_merkle::Hasher;

/// The ancestors that the database lacks. Refused exactly where it is in no state of the chain. It takes no memory.
pub(crate) fn lacking<'a, F: Family, H: Hasher>(
    chain: &'a Chain<F>,
    db: &Log<F, H>,
) -> Result<&'a [Link<F>], ManagedFault>
    ensures refusal { MatchOption (stale_read chain.now (state_of H.digest F.Op.spelling db.now))
        (IsOk result) (λ fault. result ≡ Err fault) }
    ensures ok { IfOk result (λ links. links.now ≡ missing chain.now
        (state_of H.digest F.Op.spelling db.now)) }
{
    let state = state_of(db);
    match chain.lacking(&state) {
        Some(links) => Ok(links),
        None => Err(ManagedFault::StaleRead {
            size: state.size,
            root: state.root,
        }),
    }
}
