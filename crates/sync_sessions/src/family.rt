//! Families whose logs sessions serve.

use ledger_activity::CurrentFamily;
use ledger_codec::Spell;
use ledger_log::{AnyFamily, Family, ImmutableFamily, KeylessFamily};

/// A family whose operations may stand in any message: none is too long for it.
pub trait ServedFamily: Family
where
    Self::Op: Spell,
{
    // Each operation is within its limits.
    ghost within: { (op : Self.Op) → Self.Op.fits op };
}

impl ServedFamily for AnyFamily {
    ghost within = { λ op. tt };
}

impl ServedFamily for CurrentFamily {
    ghost within = { λ op. tt };
}

impl ServedFamily for ImmutableFamily {
    ghost within = { λ op. tt };
}

impl ServedFamily for KeylessFamily {
    ghost within = { λ op. tt };
}
