//! Keys: names filled with zero bytes, or 64 hexadecimal digits behind `0x`.
ghost use Rattle.std.specs.Prelude.{◌≡◌, ◌≤◌, length, IsTrue};
ghost use Rattle.std.specs.List.{list_all};
ghost use Rattle.ledger_job.specs.Keys.{is_name_byte, has_name_length, is_name, filled, hex_key, digest_of, key_of};

use ledger_log::Key;

/// The key that a field spells.
#[tactic(auto, unfolding(crate::specs::Keys::key_of))]
pub(crate) fn parse_key(text: &[u8]) -> Option<Key>
    ensures { result ≡ key_of text.now }
{
    if is_name(text) {
        Some(filled(text))
    } else {
        parse_hex_key(text)
    }
}

/// A name, filled with zero bytes to 32.
pub fn filled(name: &[u8]) -> Key
    requires { length name.now ≤ 32 }
    ensures { result ≡ filled name.now }
{
    let mut key = [0u8; 32];
    key[..name.len()].copy_from_slice(name);
    key
}

/// Whether a text is a name of 1 to 32 characters.
#[tactic(auto, unfolding(crate::specs::Keys::is_name))]
pub fn is_name(text: &[u8]) -> bool
    ensures value { result ≡ is_name text.now }
    ensures bound { IsTrue result → length text.now ≤ 32 }
{
    has_name_length(text) && all_name_bytes(text)
}

fn all_name_bytes(text: &[u8]) -> bool
    ensures { result ≡ list_all is_name_byte text.now }
{
    text.iter().all(|byte| is_name_byte(*byte))
}

fn has_name_length(text: &[u8]) -> bool
    ensures { result ≡ has_name_length text.now }
{
    !text.is_empty() && text.len() <= 32
}

fn is_name_byte(byte: u8) -> bool
    ensures { result ≡ is_name_byte byte }
{
    matches!(byte, b'a'..=b'z' | b'0'..=b'9' | b'-' | b'_')
}

/// The key that `0x` and 64 hexadecimal digits of either case spell.
fn parse_hex_key(text: &[u8]) -> Option<Key>
    ensures { result ≡ hex_key text.now }
{
    match text {
        [b'0', b'x', digits @ ..] => parse_digest(digits),
        _ => None,
    }
}

/// The 32 bytes that 64 hexadecimal digits of either case spell.
#[tactic(auto, unfolding(crate::specs::Keys::digest_of))]
pub(crate) fn parse_digest(digits: &[u8]) -> Option<Key>
    ensures { result ≡ digest_of digits.now }
{
    let mut bytes = [0u8; 32];
    match hex::decode_to_slice(digits, &mut bytes) {
        Ok(()) => Some(bytes),
        Err(_) => None,
    }
}
