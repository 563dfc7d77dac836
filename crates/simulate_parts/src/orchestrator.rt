//! The payload limit of the orchestrator.
ghost use Rattle.std.specs.Prelude.{◌<◌, ◌+◌, ◌^◌};
ghost use Rattle.std.specs.Option.{SomeIff};

/// The greatest payload around a consensus message of `simplex` bytes: 10 bytes are put in front of it.
/// None exactly where that passes `usize::MAX`.
pub fn max_payload_size(simplex: usize) -> Option<usize>
    ensures { SomeIff result (simplex + 10 < 2 ^ 64) (simplex + 10) }
{
    simplex.checked_add(10)
}
