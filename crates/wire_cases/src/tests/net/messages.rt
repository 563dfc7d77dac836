//! Each kind of message, read, written again and cut.

use ledger_codec::{CodecError, Spell, decode, encode};
use ledger_log::KeylessOp;
use std::alloc::{AllocError, Global};
use std::test::*;
use sync_net::*;

/// A message about a keyless log.
type Said = Message<KeylessOp>;

/// GetOperationsRequest 1, of 300 leaves, from 0 on, at most 50 operations, with pinned nodes.
const OPERATIONS: [u8; 21] = [
    0, 0, 0, 0, 0, 0, 0, 0, 1, 0xac, 0x02, 0, 0, 0, 0, 0, 0, 0, 0, 0x32, 1,
];

/// What follows a message's number, by its tag, after the format's page.
fn fields(out: &mut Vec<u8>, tag: u8) -> Result<(), AllocError> {
    match tag {
        0 => out.extend_from_slice(&OPERATIONS[9..]),
        1 => {
            out.extend_from_slice(&[3, 0, 1])?;
            out.extend_from_slice(&[0x11; 32])?;
            out.extend_from_slice(&[2, 0])?;
            out.extend_from_slice(&[0x22; 32])?;
            out.extend_from_slice(&[1, 0, 5, 1, 1])?;
            out.extend_from_slice(&[0x33; 32])
        }
        3 => {
            out.extend_from_slice(&[0x44; 32])?;
            out.extend_from_slice(&[2, 0xac, 0x02])
        }
        5 | 6 => {
            out.extend_from_slice(&[0x55; 32])?;
            out.extend_from_slice(&[5])
        }
        7 => {
            out.extend_from_slice(&[11, 2])?;
            out.extend_from_slice(&[0x66; 64])?;
            out.extend_from_slice(&[1, 0, 0, 11, 0, 1])?;
            out.extend_from_slice(&[0x77; 32])
        }
        8 => out.extend_from_slice(&[3, 2, 0x6e, 0x6f]),
        _ => Ok(()),
    }
}

/// The bytes of a message of this tag under the number 258.
fn sample(alloc: Global, tag: u8) -> Result<Vec<u8>, AllocError> {
    let mut out = Vec::from_slice(alloc, &[tag, 0, 0, 0, 0, 0, 0, 1, 2])?;
    fields(&mut out, tag)?;
    Ok(out)
}

/// Whether the bytes are read as a message under the number 258.
fn is_read(alloc: Global, bytes: &[u8]) -> bool {
    match decode::<Said>(alloc, bytes) {
        Ok(message) => message.request_id() == 258,
        Err(_) => false,
    }
}

/// The first number of bytes at which a message's beginning is read as a message.
fn first_read(alloc: Global, bytes: &[u8]) -> Option<usize> {
    for end in 0..bytes.len() {
        if is_read(alloc, &bytes[..end]) {
            return Some(end);
        }
    }
    None
}

/// Whether a sample is read, and no beginning of it.
fn stands_whole(alloc: Global, tag: u8) -> bool {
    match sample(alloc, tag) {
        Ok(bytes) => is_read(alloc, &bytes) && first_read(alloc, &bytes).is_none(),
        Err(_) => false,
    }
}

#[test]
fn each_kind_is_read_whole_alone(rt: HostRuntime) {
    for tag in 0..9 {
        assert!(rt; stands_whole(rt.alloc(), tag), "tag {tag}");
    }
}

/// Why all of the bytes are no message, None where they are one.
fn fault(alloc: Global, bytes: &[u8]) -> Option<CodecError> {
    decode::<Said>(alloc, bytes).err()
}

#[test]
fn first_offences(rt: HostRuntime) {
    assert_eq!(rt;
        fault(rt.alloc(), &[9]),
        Some(CodecError::InvalidEnum { tag: 9 })
    );
    assert_eq!(rt; fault(rt.alloc(), &[]), Some(CodecError::EndOfBuffer));
    let longer = [2, 0, 0, 0, 0, 0, 0, 0, 1, 7];
    assert_eq!(rt;
        fault(rt.alloc(), &longer),
        Some(CodecError::ExtraData { rest: 1 })
    );
    let mut none = OPERATIONS;
    none[19] = 0;
    assert_eq!(rt; fault(rt.alloc(), &none), Some(CodecError::Invalid));
    assert_eq!(rt;
        fault(rt.alloc(), &[8, 0, 0, 0, 0, 0, 0, 0, 1, 6]),
        Some(CodecError::InvalidEnum { tag: 6 })
    );
}

/// Whether the bytes are read as this request for operations.
fn is_request(alloc: Global, bytes: &[u8]) -> bool {
    match decode::<GetOperationsRequest>(alloc, bytes) {
        Ok(request) => {
            request.request_id == 1
                && request.op_count.get() == 300
                && request.start_loc.get() == 0
                && request.max_ops.get() == 50
                && request.include_pinned_nodes
                && request.validate().is_ok()
        }
        Err(_) => false,
    }
}

// A flag is set where its byte isn't 0.
#[test]
fn a_flag_of_another_byte(rt: HostRuntime) {
    let mut seven = OPERATIONS;
    seven[20] = 7;
    assert!(rt; is_request(rt.alloc(), &OPERATIONS[1..]));
    assert!(rt; is_request(rt.alloc(), &seven[1..]));
    seven[20] = 0;
    assert!(rt; !is_request(rt.alloc(), &seven[1..]));
}

/// Whether a request is written as these bytes.
fn request_is_written(alloc: Global) -> Option<bool> {
    let request = decode::<GetOperationsRequest>(alloc, &OPERATIONS[1..]).ok()?;
    let bytes = encode(alloc, &request).ok()?;
    Some(bytes.as_slice() == &OPERATIONS[1..] && request.size() == 20)
}

#[test]
fn a_request_is_written_again(rt: HostRuntime) {
    assert_eq!(rt; request_is_written(rt.alloc()), Some(true));
}
