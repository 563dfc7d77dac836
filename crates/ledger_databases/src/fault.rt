//! Why no database is made.

use ledger_codec::OutOfMemory;

/// Why no database is made.
#[derive(Clone, Copy, PartialEq, Eq, Debug)]
pub enum InitFault<T> {
    /// Another target was expected than that of a fresh database, which is this one.
    Mismatch { found: T },
    /// Want of memory.
    OutOfMemory,
}

impl<T> From<OutOfMemory> for InitFault<T> {
    ghost use Rattle.std.specs.Prelude.{◌≡◌};
    ghost use Rattle.ledger_databases.specs.declared.fault.InitFault.TheVariants.{OutOfMemory as out_of_memory};

    ghost from_gives = { λ _ e. e ≡ out_of_memory };

    fn from(_e: OutOfMemory) -> InitFault<T> {
        InitFault::OutOfMemory
    }
}
