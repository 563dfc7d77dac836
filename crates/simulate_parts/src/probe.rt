//! The payload limit of the probe.
ghost use Rattle.std.specs.Prelude.{◌<◌, ◌+◌, ◌^◌};
ghost use Rattle.std.specs.Option.{SomeIff};

/// The greatest payload of a probe: a tag of one byte, 30 bytes of numbers, a commitment and a
/// certificate. None exactly where that passes `usize::MAX`.
pub fn max_payload_size(commitment: usize, certificate: usize) -> Option<usize>
    ensures { SomeIff result (1 + 30 + commitment + certificate < 2 ^ 64)
        (1 + 30 + commitment + certificate) }
{
    let Some(body) = commitment.checked_add(certificate) else {
        return None;
    };
    body.checked_add(31)
}
