//! A text that a peer sent, as far as it may be printed.
ghost use Rattle.std.specs.Prelude.{◌≡◌, ◌<◌, ◌≤◌, ◌+◌, ◌-◌, ◌++◌, length, take, drop};
ghost use Rattle.ledger_program.specs.ErrorLines.{printed_byte, printable};
ghost use Rattle.ledger_program.specs.Writing.{Writes};

use crate::writing::write_all;
use ledger_codec::{Sink, SinkError};

/// Puts what a byte prints as behind the first `count` bytes, and gives the place behind it.
fn put_printed(buffer: &mut [u8; 256], count: usize, byte: u8) -> usize
    requires { count < 256 }
    ensures least { result ≤ count + 1 }
    ensures bytes { take result buffer.new ≡ take count buffer.old ++ printed_byte byte }
{
    if 128 <= byte && byte <= 191 {
        return count;
    }
    buffer[count] = if 32 <= byte && byte <= 126 {
        byte
    } else {
        b'?'
    };
    count + 1
}

/// Fills the front of a buffer with what bytes print as, and gives its length.
fn put_all_printed(buffer: &mut [u8; 256], text: &[u8]) -> usize
    requires { length text.now ≤ 256 }
    ensures most { result ≤ length text.now }
    ensures bytes { take result buffer.new ≡ printable text.now }
{
    let mut count = 0;
    'each: for byte in text {
        count = put_printed(buffer, count, *byte);
    }
    count
}

/// Writes what a piece of a text prints as.
fn write_printed_piece<K: Sink>(
    out: &mut K,
    text: &[u8],
    first: usize,
    end: usize,
) -> Result<(), SinkError>
    requires order { first ≤ end }
    requires within { end ≤ length text.now }
    requires short { end ≤ first + 256 }
    ensures { Writes K.grows (K.written out.old) (K.written out.new) (K.faults out.old) (K.faults out.new)
        (printable (take (end - first) (drop first text.now))) result }
{
    let mut buffer = [0; 256];
    let count = put_all_printed(&mut buffer, &text[first..end]);
    write_all(out, &buffer[..count])
}

/// Where the piece of a text ends that begins at a place.
fn piece_end(first: usize, len: usize) -> usize
    requires { first < len }
    ensures more { first < result }
    ensures within { result ≤ len }
    ensures short { result ≤ first + 256 }
{
    if len - first < 256 { len } else { first + 256 }
}

/// Writes what a text prints as, in pieces that need no memory.
pub(crate) fn write_printed<K: Sink>(out: &mut K, text: &[u8]) -> Result<(), SinkError>
    ensures { Writes K.grows (K.written out.old) (K.written out.new) (K.faults out.old) (K.faults out.new)
        (printable text.now) result }
{
    let mut done = 0;
    'pieces: while done < text.len() {
        let end = piece_end(done, text.len());
        match write_printed_piece(out, text, done, end) {
            Ok(()) => done = end,
            Err(fault) => return Err(fault),
        }
    }
    Ok(())
}
