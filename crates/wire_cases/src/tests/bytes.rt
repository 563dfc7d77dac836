//! Tables of bytes, from the format's page and from tries by hand.

use ledger_codec::*;
use std::alloc::Global;
use std::test::*;

/// What a varint of 32 bits reads as.
fn varint32(bytes: &[u8]) -> Result<u32, CodecError> {
    Reader::new(bytes).read_varint32()
}

/// What a varint of 64 bits reads as.
fn varint64(bytes: &[u8]) -> Result<u64, CodecError> {
    Reader::new(bytes).read_varint64()
}

#[test]
fn varints_of_32_bits(rt: HostRuntime) {
    assert_eq!(rt; varint32(&[0]), Ok(0));
    assert_eq!(rt; varint32(&[0xac, 0x02]), Ok(300));
    assert_eq!(rt; varint32(&[0xff, 0xff, 0xff, 0xff, 0x0f]), Ok(u32::MAX));
    assert_eq!(rt; varint32(&[0x80, 0x00]), Err(CodecError::InvalidVarint));
    assert_eq!(rt;
        varint32(&[0xff, 0xff, 0xff, 0xff, 0x1f]),
        Err(CodecError::InvalidVarint)
    );
    assert_eq!(rt;
        varint32(&[0x80, 0x80, 0x80, 0x80, 0x80]),
        Err(CodecError::InvalidVarint)
    );
    assert_eq!(rt; varint32(&[0x80, 0x80]), Err(CodecError::EndOfBuffer));
    assert_eq!(rt; varint32(&[]), Err(CodecError::EndOfBuffer));
}

#[test]
fn varints_of_64_bits(rt: HostRuntime) {
    let most = [0xff, 0xff, 0xff, 0xff, 0xff, 0xff, 0xff, 0xff, 0xff, 0x01];
    let more = [0xff, 0xff, 0xff, 0xff, 0xff, 0xff, 0xff, 0xff, 0xff, 0x02];
    assert_eq!(rt; varint64(&most), Ok(u64::MAX));
    assert_eq!(rt; varint64(&more), Err(CodecError::InvalidVarint));
    assert_eq!(rt;
        varint64(&[0x80, 0x80, 0x80, 0x00]),
        Err(CodecError::InvalidVarint)
    );
    assert_eq!(rt; varint64(&most[..9]), Err(CodecError::EndOfBuffer));
}

/// The bytes of some numbers, one after another.
fn numbers_written(alloc: Global) -> Result<Vec<u8>, OutOfMemory> {
    let mut out = Writer::new(alloc);
    out.write_u8(7)?;
    out.write_u64(258)?;
    out.write_varint32(300)?;
    out.write_varint64(1 << 62)?;
    out.write_bytes(&[5, 6])?;
    Ok(out.into_bytes())
}

#[test]
fn numbers_are_written(rt: HostRuntime) -> Result<(), Fail> {
    let bytes = numbers_written(rt.alloc()).ok().ok_or("there is memory")?;
    let expected = [
        7, 0, 0, 0, 0, 0, 0, 1, 2, 0xac, 0x02, 0x80, 0x80, 0x80, 0x80, 0x80, 0x80, 0x80, 0x80,
        0x40, 2, 5, 6,
    ];
    assert_eq!(rt; bytes.as_slice(), expected.as_slice());
    Ok(())
}

/// What a list of at most `limit` digests reads as: its length, or why it is refused.
fn digests(alloc: Global, limit: u64, bytes: &[u8]) -> Result<usize, CodecError> {
    let mut from = Reader::new(bytes);
    Ok(from.read_vec::<Digest>(alloc, limit)?.len())
}

// Values are read one at a time and kept as they come, so this count reserves nothing.
#[test]
fn a_count_without_its_digests(rt: HostRuntime) {
    let mut bytes = [0; 20];
    bytes[0] = 0x90;
    bytes[1] = 0x4e;
    assert_eq!(rt;
        digests(rt.alloc(), 10_000, &bytes),
        Err(CodecError::EndOfBuffer)
    );
    assert_eq!(rt;
        digests(rt.alloc(), 9_999, &bytes),
        Err(CodecError::InvalidLength {
            found: 10_000,
            limit: 9_999
        })
    );
}

#[test]
fn lists_up_to_their_limit(rt: HostRuntime) {
    let mut bytes = [3; 66];
    bytes[0] = 2;
    assert_eq!(rt; digests(rt.alloc(), 2, &bytes), Ok(2));
    assert_eq!(rt;
        digests(rt.alloc(), 1, &bytes),
        Err(CodecError::InvalidLength { found: 2, limit: 1 })
    );
    assert_eq!(rt;
        digests(rt.alloc(), 2, &bytes[..64]),
        Err(CodecError::EndOfBuffer)
    );
}

/// How many bytes stand behind a length, and how many after them, or why they are refused.
fn bytes_of(alloc: Global, limit: u64, bytes: &[u8]) -> Result<(usize, usize), CodecError> {
    let mut from = Reader::new(bytes);
    let read = from.read_bytes(alloc, limit)?;
    Ok((read.len(), from.rest()))
}

#[test]
fn bytes_up_to_their_limit(rt: HostRuntime) {
    assert_eq!(rt; bytes_of(rt.alloc(), 2, &[2, 8, 9, 1, 1, 1]), Ok((2, 3)));
    assert_eq!(rt;
        bytes_of(rt.alloc(), 1, &[2, 8, 9]),
        Err(CodecError::InvalidLength { found: 2, limit: 1 })
    );
    assert_eq!(rt;
        bytes_of(rt.alloc(), 2, &[2, 8]),
        Err(CodecError::EndOfBuffer)
    );
}

/// The length of the text that all of the bytes spell, or why they are refused.
fn text_of(alloc: Global, bytes: &[u8]) -> Result<usize, CodecError> {
    Ok(decode::<Text>(alloc, bytes)?.as_str().len())
}

#[test]
fn texts(rt: HostRuntime) {
    assert_eq!(rt; text_of(rt.alloc(), &[2, 0xc3, 0xa9]), Ok(2));
    assert_eq!(rt;
        text_of(rt.alloc(), &[2, 0xc3, 0x28]),
        Err(CodecError::Invalid)
    );
    assert_eq!(rt;
        text_of(rt.alloc(), &[1, 0x61, 0x62, 0x63]),
        Err(CodecError::ExtraData { rest: 2 })
    );
    assert_eq!(rt;
        text_of(rt.alloc(), &[3, 0x61]),
        Err(CodecError::EndOfBuffer)
    );
}

/// A text's bytes and its size.
fn text_written(alloc: Global) -> Result<(Vec<u8>, usize), OutOfMemory> {
    let text = Text::from_string(String::from_str(alloc, "ok")?);
    let size = text.size();
    Ok((encode(alloc, &text)?, size))
}

#[test]
fn a_text_is_written(rt: HostRuntime) -> Result<(), Fail> {
    let written = text_written(rt.alloc()).ok().ok_or("there is memory")?;
    assert_eq!(rt; written.0.as_slice(), [2, 0x6f, 0x6b].as_slice());
    assert_eq!(rt; written.1, 3);
    Ok(())
}

/// The length of the next frame's body, and how many bytes are held behind it.
fn next_of(alloc: Global, limit: u32, bytes: &[u8]) -> Result<(Option<usize>, usize), FrameError> {
    let mut framer = Framer::new(alloc, limit);
    if framer.feed(bytes).is_err() {
        return Err(FrameError::OutOfMemory);
    }
    let body = framer.next_frame()?;
    Ok((body.map(|body| body.len()), framer.rest()))
}

#[test]
fn frames(rt: HostRuntime) {
    assert_eq!(rt; next_of(rt.alloc(), 9, &[0]), Ok((Some(0), 0)));
    assert_eq!(rt; next_of(rt.alloc(), 9, &[2, 7, 8, 1]), Ok((Some(2), 1)));
    assert_eq!(rt; next_of(rt.alloc(), 9, &[2, 7]), Ok((None, 2)));
    assert_eq!(rt; next_of(rt.alloc(), 9, &[0x80]), Ok((None, 1)));
    assert_eq!(rt;
        next_of(rt.alloc(), 9, &[0x80, 0x00]),
        Err(FrameError::BadLength)
    );
    assert_eq!(rt;
        next_of(rt.alloc(), 9, &[10]),
        Err(FrameError::TooLong { found: 10 })
    );
    assert_eq!(rt;
        next_of(rt.alloc(), MAX_MESSAGE_SIZE, &[0x81, 0x80, 0x80, 0x05]),
        Err(FrameError::TooLong { found: 10_485_761 })
    );
}

/// The frame of a body, and how many frames come out of it fed byte by byte.
fn by_bytes(alloc: Global) -> Result<(Vec<u8>, usize), OutOfMemory> {
    let bytes = frame(alloc, &[4, 5, 6])?;
    let mut framer = Framer::new(alloc, 3);
    let mut whole: usize = 0;
    for byte in &bytes {
        framer.feed(&[*byte])?;
        if let Ok(Some(_)) = framer.next_frame() {
            whole = whole.saturating_add(1);
        }
    }
    Ok((bytes, whole))
}

#[test]
fn a_frame_byte_by_byte(rt: HostRuntime) -> Result<(), Fail> {
    let fed = by_bytes(rt.alloc()).ok().ok_or("there is memory")?;
    assert_eq!(rt; fed.0.as_slice(), [3, 4, 5, 6].as_slice());
    assert_eq!(rt; fed.1, 1);
    Ok(())
}
