//! Pieces of bytes.
ghost use Rattle.std.specs.Prelude.{◌≡◌, ◌≤◌, ◌-◌, length, min, take, drop};

/// Copies bytes from this place on, as many as there is room for and as are allowed, and answers how many.
pub(crate) fn copy_from(from: &[u8], at: usize, most: usize, buffer: &mut [u8]) -> usize
    requires { at ≤ length from.now }
    ensures count { result ≡ min most (min (length from.now - at) (length buffer.old)) }
    ensures bytes { take result buffer.new ≡ take result (drop at from.now) }
    ensures room { length buffer.new ≡ length buffer.old }
{
    let rest = &from[at..];
    let count = most.min(rest.len().min(buffer.len()));
    buffer[..count].copy_from_slice(&rest[..count]);
    count
}
