//! The payload limit of distributed key generation.
ghost use Rattle.std.specs.Prelude.{◌<◌, ◌+◌, ◌*◌, ◌^◌, max};
ghost use Rattle.std.specs.Option.{SomeIff};

use std::num::NonZeroU32;

/// The size of a dealing to so many players: a tag, five bytes, a coefficient a player and a scalar.
fn dealing_size(players: usize, coefficient: usize, scalar: usize) -> Option<usize>
    ensures { SomeIff result (1 + 5 + players * coefficient + scalar < 2 ^ 64)
        (1 + 5 + players * coefficient + scalar) }
{
    let Some(coefficients) = players.checked_mul(coefficient) else {
        return None;
    };
    let Some(body) = coefficients.checked_add(scalar) else {
        return None;
    };
    body.checked_add(6)
}

/// The greatest payload of a key generation among `n` players: 10 bytes in front of the longer of a
/// dealing and an acknowledgement, which is a tag and a signature. None exactly where that passes
/// `usize::MAX`.
pub fn max_payload_size(
    n: NonZeroU32,
    coefficient: usize,
    scalar: usize,
    signature: usize,
) -> Option<usize>
    ensures { let size = 10 + max (1 + 5 + n.value * coefficient + scalar) (1 + signature) in SomeIff result
        (size < 2 ^ 64) size }
{
    let Some(dealing) = dealing_size(n.get() as usize, coefficient, scalar) else {
        return None;
    };
    let Some(acknowledgement) = signature.checked_add(1) else {
        return None;
    };
    dealing.max(acknowledgement).checked_add(10)
}
