//! Values that have a spelling.
ghost use Rattle.std.specs.Prelude.{◌≡◌, ◌≤◌, ◌^◌, ◌-◌, ◌++◌, List as Items, ℕ, length, OnOk, OnErr, IfOk, All};
ghost use Rattle.ledger_codec.specs.Parsing.{Parsed, Gives, Reads, ReadsAs};
ghost use Rattle.ledger_codec.specs.Sequences.{items_at, list_at, all_of, list_written, string_written, size_of, ListFits};
ghost use Rattle.ledger_codec.specs.Spelling.{SpellLaws, IsReadAgain, IsAlone, Grows};

use crate::digest::Digest;
use crate::fault::CodecError;
use crate::limits::MAX_MESSAGE_SIZE;
use crate::memory::OutOfMemory;
use crate::reader::Reader;
use crate::text::Text;
use crate::writer::{Writer, size_of_varint};
use std::alloc::Global;

/// A value that is written as bytes and read from them.
pub trait Spell: Drop {
    /// What is read at the front of bytes: a value and the bytes after it, or the first offence.
    ghost reading: { Items ℕ → Parsed Self };

    /// The written spelling.
    ghost written: { Self → Items ℕ };

    /// What every value of the type is.
    ghost sound: { Self → Type 0 };

    /// Each list and text in the value is within its limit.
    ghost fits: { Self → Type 0 };

    /// The number of bytes of the written spelling, at most `usize::MAX`.
    fn size(&self) -> usize
        requires { fits self.now }
        ensures { result ≡ size_of (written self.now) };

    /// Appends the written spelling. After a refusal a beginning of it may have been appended.
    fn spell(&self, out: &mut Writer) -> Result<(), OutOfMemory>
        requires { fits self.now }
        ensures ok { OnOk result (out.new ≡ out.old ++ written self.now) }
        ensures err { OnErr result (Grows out.old out.new) };

    /// Reads a value. A refused read leaves the reader where it stood.
    fn read(alloc: Global, from: &mut Reader<'_>) -> Result<Self, CodecError>
        ensures { Reads result from.old from.new (reading from.old) };

    /// What was written is read again, whatever follows, and no spelling begins another.
    ghost laws: { SpellLaws reading written sound fits };
}

impl<'a> Reader<'a> {
    /// A count of at most `limit` and so many values. Memory grows with the values that are there, so
    /// a count alone reserves none.
    #[tactic(auto, unfolding(crate::specs::Sequences::list_at))]
    pub fn read_vec<T: Spell>(&mut self, alloc: Global, limit: u64) -> Result<Vec<T>, CodecError>
        ensures { ReadsAs (λ values. values.items) result self.old self.new
            (list_at limit T.reading self.old) }
    {
        let mut at = self.fork();
        let count = at.read_count(limit)?;
        let values = read_values(alloc, count, &mut at)?;
        *self = at;
        Ok(values)
    }
}

/// Reads so many values, one after another.
fn read_values<T: Spell>(
    alloc: Global,
    count: u32,
    from: &mut Reader<'_>,
) -> Result<Vec<T>, CodecError>
    ensures { Gives (λ values. (values.items, from.new)) result (items_at T.reading count from.old) }
{
    let mut values = Vec::new(alloc);
    for _ in 0..count {
        values.push(T::read(alloc, from)?)?;
    }
    Ok(values)
}

impl Writer {
    /// Appends a length and these bytes.
    pub fn write_bytes(&mut self, bytes: &[u8]) -> Result<(), OutOfMemory>
        requires { length bytes.now ≤ 2 ^ 32 - 1 }
        ensures ok { OnOk result (self.new ≡ self.old ++ string_written bytes.now) }
        ensures err { OnErr result (Grows self.old self.new) }
    {
        self.write_varint32(bytes.len() as u32)?;
        self.write_slice(bytes)
    }

    /// Appends a count and these values.
    pub fn write_vec<T: Spell>(&mut self, values: &[T]) -> Result<(), OutOfMemory>
        requires { ListFits (2 ^ 32 - 1) T.fits values.now }
        ensures ok { OnOk result (self.new ≡ self.old ++ list_written T.written values.now) }
        ensures err { OnErr result (Grows self.old self.new) }
    {
        self.write_varint32(values.len() as u32)?;
        for value in values {
            value.spell(self)?;
        }
        Ok(())
    }
}

/// The number of bytes of a length and so many bytes.
pub fn size_of_bytes(bytes: &[u8]) -> usize
    requires { length bytes.now ≤ 2 ^ 32 - 1 }
    ensures { result ≡ size_of (string_written bytes.now) }
{
    size_of_varint(bytes.len() as u64).saturating_add(bytes.len())
}

/// The number of bytes of a count and so many values, at most `usize::MAX`.
pub fn size_of_vec<T: Spell>(values: &[T]) -> usize
    requires { ListFits (2 ^ 32 - 1) T.fits values.now }
    ensures { result ≡ size_of (list_written T.written values.now) }
{
    let mut total = size_of_varint(values.len() as u64);
    for value in values {
        total = total.saturating_add(value.size());
    }
    total
}

/// The written spelling of a value.
pub fn encode<T: Spell>(alloc: Global, value: &T) -> Result<Vec<u8>, OutOfMemory>
    requires { T.fits value.now }
    ensures written { IfOk result (λ bytes. bytes.items ≡ T.written value.now) }
    ensures again { IfOk result (λ bytes. T.sound value.now → IsReadAgain T.reading value.now bytes.items) }
{
    let mut out = Writer::with_capacity(alloc, value.size())?;
    value.spell(&mut out)?;
    Ok(out.into_bytes())
}

/// The value whose spelling is all of the bytes, else the first offence in reading order. `ExtraData`
/// comes exactly where a value was read and bytes are left.
#[tactic(auto, unfolding(crate::specs::Sequences::all_of))]
pub fn decode<T: Spell>(alloc: Global, bytes: &[u8]) -> Result<T, CodecError>
    ensures value { Gives (λ value. value) result (all_of T.reading bytes.now) }
    ensures alone { IfOk result (λ value. IsAlone T.reading bytes.now) }
{
    let mut from = Reader::new(bytes);
    let value = T::read(alloc, &mut from)?;
    let rest = from.rest();
    if rest > 0 {
        return Err(CodecError::ExtraData { rest });
    }
    Ok(value)
}

/// A digest is its 32 bytes.
impl Spell for Digest {
    ghost use Rattle.std.specs.Prelude.{◌≡◌, length};
    ghost use Rattle.ledger_codec.specs.Numbers.{digest_at};
    ghost use Rattle.ledger_codec.specs.Laws.{digest_laws};

    ghost reading = { digest_at };

    ghost written = { λ digest. digest };

    ghost sound = { λ digest. length digest ≡ 32 };

    ghost fits = { λ _. Unit {0} };

    ghost laws = { digest_laws };

    fn size(&self) -> usize {
        32
    }

    fn spell(&self, out: &mut Writer) -> Result<(), OutOfMemory> {
        out.write_slice(self)
    }

    fn read(_alloc: Global, from: &mut Reader<'_>) -> Result<Digest, CodecError> {
        from.read_digest()
    }
}

/// A text is a length of at most `MAX_MESSAGE_SIZE` and its bytes in UTF-8.
impl Spell for Text {
    ghost use Rattle.std.specs.Prelude.{◌≤◌, length};
    ghost use Rattle.std.specs.Str.{IsUtf8};
    ghost use Rattle.std.proofs.Common.{lit≤};
    ghost use Rattle.ledger_codec.specs.Sequences.{text_at, string_written};
    ghost use Rattle.ledger_codec.specs.Laws.{text_laws};

    ghost reading = { text_at 10485760 };

    ghost written = { string_written };

    ghost sound = { IsUtf8 };

    ghost fits = { λ text. length text ≤ 10485760 };

    ghost laws = { text_laws 10485760 (lit≤ tt) };

    fn size(&self) -> usize {
        size_of_bytes(self.as_str().as_bytes())
    }

    fn spell(&self, out: &mut Writer) -> Result<(), OutOfMemory> {
        out.write_bytes(self.as_str().as_bytes())
    }

    fn read(alloc: Global, from: &mut Reader<'_>) -> Result<Text, CodecError> {
        from.read_text(alloc, u64::from(MAX_MESSAGE_SIZE))
    }
}
