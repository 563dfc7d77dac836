//! Decimal numbers without a sign and without leading zeros.
ghost use Rattle.std.specs.Prelude.{◌≡◌};
ghost use Rattle.std.specs.Char.{is_ascii_digit};
ghost use Rattle.std.specs.List.{list_all};
ghost use Rattle.ledger_job.specs.Number.{has_plain_start, is_plain_decimal, number_of};

/// Whether a text has at least one byte, and no zero before another.
fn has_plain_start(text: &[u8]) -> bool
    ensures { result ≡ has_plain_start text.now }
{
    match text {
        [] => false,
        [_] => true,
        [first, ..] => *first > b'0',
    }
}

/// Whether a text is digits alone.
fn all_digits(text: &[u8]) -> bool
    ensures { result ≡ list_all is_ascii_digit text.now }
{
    text.iter().all(|byte| byte.is_ascii_digit())
}

/// Whether a text is digits, at least one, with no zero before another digit.
#[tactic(auto, unfolding(crate::specs::Number::is_plain_decimal))]
fn is_plain_decimal(text: &[u8]) -> bool
    ensures { result ≡ is_plain_decimal text.now }
{
    has_plain_start(text) && all_digits(text)
}

/// The number of 64 bits that a text spells.
pub fn parse_number(text: &[u8]) -> Option<u64>
    ensures { result ≡ number_of text.now }
{
    if !is_plain_decimal(text) {
        return None;
    }
    match str::from_utf8(text) {
        Ok(digits) => digits.parse().ok(),
        Err(_) => None,
    }
}
