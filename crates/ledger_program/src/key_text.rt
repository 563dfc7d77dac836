//! The printed text of a key.
ghost use Rattle.std.specs.Prelude.{◌≡◌, ◌<◌, ◌++◌, ◌==◌, codes, length, position, IfSome, IfOk, IsTrue, string_bytes};
ghost use Rattle.hex.specs.Hex.{encode_lower};
ghost use Rattle.ledger_job.specs.Keys.{is_name};
ghost use Rattle.ledger_program.specs.Text.{name_of, is_filled_name, key_text};

use ledger_job::{filled, is_name};
use ledger_log::Key;
use std::alloc::{AllocError, Global};

/// Where the first zero byte of a key stands.
fn zero_at(key: &[u8]) -> Option<usize>
    ensures value { result ≡ position (λ b. b == 0) key.now }
    ensures within { IfSome result (λ n. n < length key.now) }
{
    key.iter().position(|byte| *byte == 0)
}

/// What stands before the first zero byte of a key.
pub(crate) fn name_of(key: &[u8]) -> &[u8]
    ensures { result.now ≡ name_of key.now }
{
    match zero_at(key) {
        Some(len) => &key[..len],
        None => key,
    }
}

/// Whether a key is a name that is filled with zero bytes.
#[tactic(auto, unfolding(crate::specs::Text::is_filled_name))]
pub(crate) fn is_filled_name(key: &Key) -> bool
    ensures value { result ≡ is_filled_name key.now }
    ensures name { IsTrue result → IsTrue (is_name (name_of key.now)) }
{
    let name = name_of(key);
    is_name(name) && filled(name) == *key
}

/// The text of a key: the name that it is filled from, else its digits behind `0x`.
#[tactic(auto, unfolding(crate::specs::Text::key_text))]
pub(crate) fn key_text(alloc: Global, key: &Key) -> Result<String, AllocError>
    ensures { IfOk result (λ text. string_bytes text ≡ key_text key.now) }
{
    if is_filled_name(key) {
        name_text(alloc, name_of(key))
    } else {
        hex_text(alloc, key)
    }
}

fn name_text(alloc: Global, name: &[u8]) -> Result<String, AllocError>
    requires { IsTrue (is_name name.now) }
    ensures { IfOk result (λ text. string_bytes text ≡ name.now) }
{
    let mut text = String::new(alloc);
    'bytes: for byte in name {
        text.push(char::from(*byte))?;
    }
    Ok(text)
}

fn hex_text(alloc: Global, key: &Key) -> Result<String, AllocError>
    ensures { IfOk result (λ text. string_bytes text ≡ codes "0x" ++ encode_lower key.now) }
{
    let digits = hex::encode(alloc, key)?;
    format!(in alloc; "0x{digits}")
}

/// The 64 digits of 32 bytes, in lower case.
pub fn hex_digits(bytes: &[u8; 32]) -> [u8; 64]
    ensures { result ≡ encode_lower bytes.now }
{
    let mut digits = [0; 64];
    match hex::encode_to_slice(bytes, &mut digits) {
        Ok(()) => digits,
        Err(_) => unreachable!(),
    }
}

/// The digits of a key behind `0x`.
pub(crate) fn hex_key(key: &Key) -> [u8; 66]
    ensures { result ≡ codes "0x" ++ encode_lower key.now }
{
    let mut text = [0; 66];
    text[..2].copy_from_slice(b"0x");
    text[2..].copy_from_slice(&hex_digits(key));
    text
}
