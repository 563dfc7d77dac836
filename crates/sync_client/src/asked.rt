//! What was asked and isn't answered yet.
ghost use Rattle.std.specs.Prelude.{◌≡◌};

use ledger_log::Target;
use ledger_merkle::Location;
use std::ops::Range;

/// A range that was asked, with the target that was current when it was.
#[derive(Drop)]
pub struct Asked {
    /// The range.
    pub range: Range<Location>,
    /// The target: the answer is judged by its root and end.
    pub target: Target,
}
