//! Families whose logs are served.
ghost use Rattle.std.specs.Prelude.{◌≡◌};

use ledger_codec::Spell;
use ledger_log::{AnyFamily, Family, ImmutableFamily, KeylessFamily};

/// A family whose operations are sent as they are hashed, and are never too long for it.
pub trait SentFamily: Family
where
    Self::Op: Spell,
{
    // An operation's bytes in a message are its leaf bytes.
    ghost same: { (op : Self.Op) → Self.Op.written op ≡ Self.Op.spelling op };

    // Each operation is within its limits.
    ghost within: { (op : Self.Op) → Self.Op.fits op };
}

impl SentFamily for AnyFamily {
    ghost use Rattle.std.specs.Prelude.{refl};

    ghost same = { λ op. refl };

    ghost within = { λ op. tt };
}

impl SentFamily for ImmutableFamily {
    ghost use Rattle.std.specs.Prelude.{refl};

    ghost same = { λ op. refl };

    ghost within = { λ op. tt };
}

impl SentFamily for KeylessFamily {
    ghost use Rattle.std.specs.Prelude.{refl};

    ghost same = { λ op. refl };

    ghost within = { λ op. tt };
}
