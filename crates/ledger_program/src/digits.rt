//! The digits of a number, written into a place of their own, so that no memory is wanted.
ghost use Rattle.std.specs.Prelude.{◌≡◌, ◌≤◌, length, take};
ghost use Rattle.std.specs.Fmt.{decimal};

/// Writes the digits of a number from the front on, and tells how many.
fn put_digits(number: u64, out: &mut [u8; 20]) -> usize
    ensures count { result ≡ length (decimal number) }
    ensures digits { take result out.new ≡ decimal number }
{
    if number < 10 {
        out[0] = b'0' + number as u8;
        return 1;
    }
    let len = put_digits(number / 10, out);
    out[len] = b'0' + (number % 10) as u8;
    len + 1
}

/// The digits of a number, in `out`.
pub fn decimal_digits(number: u64, out: &mut [u8; 20]) -> &[u8]
    ensures { result.now ≡ decimal number }
{
    let len = put_digits(number, out);
    &out[..len]
}
