//! A reader over bytes.
ghost use Rattle.std.specs.Prelude.{◌≡◌, ◌≤◌, length, IfOk, IfErr, OnOk, true};
ghost use Rattle.std.specs.Str.{is_utf8};
ghost use Rattle.ledger_codec.specs.Parsing.{Gives, GivesExactly, Reads, ReadsExactly, ReadsAs};
ghost use Rattle.ledger_codec.specs.Numbers.{byte_at, bytes_at, digest_at, number_at, varint_from, varint32_at, varint64_at};
ghost use Rattle.ledger_codec.specs.Sequences.{count_at, string_at, text_at, MayBeNoText};

use crate::fault::CodecError;
use crate::text::Text;
use std::alloc::Global;
use std::marker::Model;

/// Reads values from the front of bytes. Contracts see the bytes that are left. A refused read leaves
/// the reader where it stood.
#[derive(Drop)]
pub struct Reader<'a> {
    left: &'a [u8],
}

impl<'a> Model for Reader<'a> {
    ghost use Rattle.std.specs.Prelude.{List, ℕ};

    ghost Value = { List ℕ };

    ghost view = { λ r. r.left.now };
}

impl<'a> Reader<'a> {
    /// A reader at the first byte.
    pub fn new(bytes: &'a [u8]) -> Reader<'a>
        ensures { result ≡ bytes.now }
    {
        Reader { left: bytes }
    }

    /// A second reader at the same place. A value of several parts is read by a fork, which takes the
    /// reader's place once all parts are there.
    pub fn fork(&self) -> Reader<'a>
        ensures { result ≡ self.now }
    {
        Reader { left: self.left }
    }

    /// The bytes that are left.
    pub fn left(&self) -> &'a [u8]
        ensures { result.now ≡ self.now }
    {
        self.left
    }

    /// The number of bytes not yet read.
    pub fn rest(&self) -> usize
        ensures { result ≡ length self.now }
    {
        self.left.len()
    }

    /// One byte, else `EndOfBuffer`.
    pub fn read_u8(&mut self) -> Result<u8, CodecError>
        ensures reads { Reads result self.old self.new (byte_at self.old) }
        ensures exact { ReadsExactly result self.old self.new (byte_at self.old) }
    {
        let (byte, rest) = first_byte(self.left)?;
        self.left = rest;
        Ok(byte)
    }

    /// Eight bytes, the greatest first, else `EndOfBuffer`.
    pub fn read_u64(&mut self) -> Result<u64, CodecError>
        ensures reads { Reads result self.old self.new (number_at self.old) }
        ensures exact { ReadsExactly result self.old self.new (number_at self.old) }
    {
        let (number, rest) = first_number(self.left)?;
        self.left = rest;
        Ok(number)
    }

    /// A varint of at most 5 bytes and 32 bits, else `EndOfBuffer` or `InvalidVarint`.
    pub fn read_varint32(&mut self) -> Result<u32, CodecError>
        ensures reads { Reads result self.old self.new (varint32_at self.old) }
        ensures exact { ReadsExactly result self.old self.new (varint32_at self.old) }
    {
        let (number, rest) = first_varint(u64::from(u32::MAX), 5, true, self.left)?;
        self.left = rest;
        Ok(number as u32)
    }

    /// A varint of at most 10 bytes and 64 bits, else `EndOfBuffer` or `InvalidVarint`.
    pub fn read_varint64(&mut self) -> Result<u64, CodecError>
        ensures reads { Reads result self.old self.new (varint64_at self.old) }
        ensures exact { ReadsExactly result self.old self.new (varint64_at self.old) }
    {
        let (number, rest) = first_varint(u64::MAX, 10, true, self.left)?;
        self.left = rest;
        Ok(number)
    }

    /// 32 bytes, else `EndOfBuffer`.
    pub fn read_digest(&mut self) -> Result<[u8; 32], CodecError>
        ensures reads { Reads result self.old self.new (digest_at self.old) }
        ensures exact { ReadsExactly result self.old self.new (digest_at self.old) }
    {
        let (digest, rest) = first_digest(self.left)?;
        self.left = rest;
        Ok(digest)
    }

    /// A length or a count, else `EndOfBuffer`, `InvalidVarint`, or `InvalidLength` exactly above `limit`.
    pub(crate) fn read_count(&mut self, limit: u64) -> Result<u32, CodecError>
        ensures reads { Reads result self.old self.new (count_at limit self.old) }
        ensures exact { ReadsExactly result self.old self.new (count_at limit self.old) }
    {
        let mut at = self.fork();
        let count = at.read_varint32()?;
        if u64::from(count) > limit {
            return Err(CodecError::InvalidLength {
                found: u64::from(count),
                limit,
            });
        }
        *self = at;
        Ok(count)
    }

    /// A length of at most `limit` and its bytes. Memory is taken only for bytes that are there.
    pub fn read_bytes(&mut self, alloc: Global, limit: u64) -> Result<Vec<u8>, CodecError>
        ensures { ReadsAs (λ bytes. bytes.items) result self.old self.new (string_at limit self.old) }
    {
        let (bytes, rest) = first_string(limit, self.left)?;
        let bytes = Vec::from_slice(alloc, bytes)?;
        self.left = rest;
        Ok(bytes)
    }

    /// A length of at most `limit` and its bytes, else `Invalid` exactly where these aren't UTF-8.
    #[tactic(auto, unfolding(crate::specs::Sequences::text_at))]
    pub fn read_text(&mut self, alloc: Global, limit: u64) -> Result<Text, CodecError>
        ensures { Reads result self.old self.new (text_at limit self.old) }
    {
        let (bytes, rest) = first_string(limit, self.left)?;
        let text = text_of_bytes(alloc, bytes)?;
        self.left = rest;
        Ok(text)
    }
}

/// The bytes as a text, else `Invalid`.
fn text_of_bytes(alloc: Global, bytes: &[u8]) -> Result<Text, CodecError>
    ensures ok { IfOk result (λ text. text ≡ bytes.now) }
    ensures utf8 { OnOk result (is_utf8 bytes.now ≡ true) }
    ensures err { IfErr result (λ fault. MayBeNoText fault bytes.now) }
{
    match str::from_utf8(bytes) {
        Ok(text) => Ok(Text::from_string(String::from_str(alloc, text)?)),
        Err(_) => Err(CodecError::Invalid),
    }
}

/// A length of at most `limit`, its bytes, and the bytes after them.
#[tactic(auto, unfolding(crate::specs::Sequences::string_at))]
fn first_string(limit: u64, bytes: &[u8]) -> Result<(&[u8], &[u8]), CodecError>
    ensures { GivesExactly (λ x. (x.0.now, x.1.now)) result (string_at limit bytes.now) }
{
    let mut at = Reader::new(bytes);
    let length = at.read_count(limit)?;
    first_bytes(length as usize, at.left)
}

/// The first byte and those after it.
fn first_byte(bytes: &[u8]) -> Result<(u8, &[u8]), CodecError>
    ensures { GivesExactly (λ x. (x.0, x.1.now)) result (byte_at bytes.now) }
{
    match bytes {
        [] => Err(CodecError::EndOfBuffer),
        [byte, rest @ ..] => Ok((*byte, rest)),
    }
}

/// The first `count` bytes and those after them.
fn first_bytes(count: usize, bytes: &[u8]) -> Result<(&[u8], &[u8]), CodecError>
    ensures { GivesExactly (λ x. (x.0.now, x.1.now)) result (bytes_at count bytes.now) }
{
    if bytes.len() < count {
        return Err(CodecError::EndOfBuffer);
    }
    Ok(bytes.split_at(count))
}

/// The number of the first eight bytes, and the bytes after them.
fn first_number(bytes: &[u8]) -> Result<(u64, &[u8]), CodecError>
    ensures { GivesExactly (λ x. (x.0, x.1.now)) result (number_at bytes.now) }
{
    if bytes.len() < 8 {
        return Err(CodecError::EndOfBuffer);
    }
    let (front, rest) = bytes.split_at(8);
    let number = u64::from_be_bytes([
        front[0], front[1], front[2], front[3], front[4], front[5], front[6], front[7],
    ]);
    Ok((number, rest))
}

/// The first 32 bytes and those after them.
fn first_digest(bytes: &[u8]) -> Result<([u8; 32], &[u8]), CodecError>
    ensures { GivesExactly (λ x. (x.0, x.1.now)) result (digest_at bytes.now) }
{
    if bytes.len() < 32 {
        return Err(CodecError::EndOfBuffer);
    }
    let (front, rest) = bytes.split_at(32);
    let mut digest = [0; 32];
    digest.copy_from_slice(front);
    Ok((digest, rest))
}

/// The rest of a varint, of which so many bytes may still come, and the bytes after it.
#[tactic(auto, unfolding(crate::specs::Numbers::varint_from))]
fn first_varint(max: u64, left: u8, first: bool, bytes: &[u8]) -> Result<(u64, &[u8]), CodecError>
    requires { 127 ≤ max }
    ensures exact { GivesExactly (λ x. (x.0, x.1.now)) result (varint_from max left first bytes.now) }
    ensures bound { IfOk result (λ x. x.0 ≤ max) }
{
    if left == 0 {
        return Err(CodecError::InvalidVarint);
    }
    match bytes {
        [] => Err(CodecError::EndOfBuffer),
        [byte, rest @ ..] => {
            if *byte < 128 {
                if *byte == 0 && !first {
                    return Err(CodecError::InvalidVarint);
                }
                return Ok((u64::from(*byte), rest));
            }
            let (high, rest) = first_varint(max, left - 1, false, rest)?;
            let low = u64::from(*byte - 128);
            if high > (max - low) / 128 {
                return Err(CodecError::InvalidVarint);
            }
            Ok((low + 128 * high, rest))
        }
    }
}
