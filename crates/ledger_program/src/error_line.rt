//! The line that says why a run failed, written piece by piece: it needs no memory.
ghost use Rattle.std.specs.Prelude.{◌≡◌, ◌++◌, ◌∷◌, [], codes, if◌then◌else◌};
ghost use Rattle.std.specs.Fmt.{decimal};
ghost use Rattle.std.specs.List.{concat};
ghost use Rattle.hex.specs.Hex.{encode_lower};
ghost use Rattle.ledger_program.specs.ErrorLines.{number_line, key_line, rejection_line, code_number, printable, server_start, server_line, update_line, root_line, follow_line, line_of};
ghost use Rattle.ledger_program.specs.Text.{key_text};
ghost use Rattle.ledger_program.specs.Writing.{Writes};

use crate::digits::decimal_digits;
use crate::fault::Fault;
use crate::key_text::{hex_digits, hex_key, is_filled_name, name_of};
use crate::outcome::RunFault;
use crate::printable::write_printed;
use crate::writing::{write_all, write_pieces};
use ledger_codec::{Digest, Sink, SinkError};
use ledger_log::Key;
use ledger_transfers::Rejection;
use sync_net::ErrorCode;

/// Writes a line of these words and a number.
#[tactic(auto, unfolding(crate::specs::ErrorLines::number_line))]
pub fn number_line<K: Sink>(out: &mut K, words: &str, number: u64) -> Result<(), SinkError>
    ensures { Writes K.grows (K.written out.old) (K.written out.new) (K.faults out.old) (K.faults out.new)
        (number_line words.now number) result }
{
    let mut digits = [0; 20];
    let number = decimal_digits(number, &mut digits);
    write_pieces(
        out,
        &[
            b"error ".as_slice(),
            words.as_bytes(),
            b" ".as_slice(),
            number,
            b"\n".as_slice(),
        ],
    )
}

/// The line of a word, a number, which is that of a block or a place, and a text, which is that of a key or a place.
fn text_line<K: Sink>(out: &mut K, word: &str, number: u64, text: &[u8]) -> Result<(), SinkError>
    ensures { Writes K.grows (K.written out.old) (K.written out.new) (K.faults out.old) (K.faults out.new)
        (concat (codes "error " ∷ word.now ∷ codes " " ∷ decimal number ∷ codes " " ∷ text.now ∷ codes "\n"
        ∷ [])) result }
{
    let mut digits = [0; 20];
    let number = decimal_digits(number, &mut digits);
    write_pieces(
        out,
        &[
            b"error ".as_slice(),
            word.as_bytes(),
            b" ".as_slice(),
            number,
            b" ".as_slice(),
            text,
            b"\n".as_slice(),
        ],
    )
}

#[tactic(auto, unfolding(crate::specs::ErrorLines::key_line, crate::specs::Text::key_text))]
fn key_line<K: Sink>(out: &mut K, word: &str, block: usize, key: &Key) -> Result<(), SinkError>
    ensures { Writes K.grows (K.written out.old) (K.written out.new) (K.faults out.old) (K.faults out.new)
        (key_line word.now block key.now) result }
{
    if is_filled_name(key) {
        text_line(out, word, block as u64, name_of(key))
    } else {
        let digits = hex_key(key);
        text_line(out, word, block as u64, &digits)
    }
}

fn rejection_line<K: Sink>(
    out: &mut K,
    block: usize,
    rejection: &Rejection<Key>,
) -> Result<(), SinkError>
    ensures { Writes K.grows (K.written out.old) (K.written out.new) (K.faults out.old) (K.faults out.new)
        (rejection_line block rejection.now) result }
{
    match rejection {
        Rejection::Refused(key) => key_line(out, "refused", block, key),
        Rejection::Insufficient(key) => key_line(out, "insufficient", block, key),
        Rejection::Overflow(key) => key_line(out, "overflow", block, key),
    }
}

/// The number that stands for a code in a message.
fn code_number(code: ErrorCode) -> u64
    ensures { result ≡ code_number code }
{
    match code {
        ErrorCode::InvalidRequest => 0,
        ErrorCode::DatabaseError => 1,
        ErrorCode::NetworkError => 2,
        ErrorCode::StaleTarget => 3,
        ErrorCode::Timeout => 4,
        ErrorCode::InternalError => 5,
    }
}

/// What stands before a server's text.
#[tactic(auto, unfolding(crate::specs::ErrorLines::server_start))]
fn server_start<K: Sink>(out: &mut K, code: ErrorCode) -> Result<(), SinkError>
    ensures { Writes K.grows (K.written out.old) (K.written out.new) (K.faults out.old) (K.faults out.new)
        (server_start code) result }
{
    let mut digits = [0; 20];
    let number = decimal_digits(code_number(code), &mut digits);
    write_pieces(out, &[b"error server ".as_slice(), number, b" ".as_slice()])
}

/// Writes the line of a server's refusal, whose text is whatever the peer sent.
pub fn server_line<K: Sink>(out: &mut K, code: ErrorCode, message: &str) -> Result<(), SinkError>
    ensures { Writes K.grows (K.written out.old) (K.written out.new) (K.faults out.old) (K.faults out.new)
        (server_line code message.now) result }
{
    match server_start(out, code) {
        Ok(()) => {}
        Err(fault) => return Err(fault),
    }
    match write_printed(out, message.as_bytes()) {
        Ok(()) => {}
        Err(fault) => return Err(fault),
    }
    write_all(out, b"\n")
}

/// Writes the line of a later target that isn't taken.
#[tactic(auto, unfolding(crate::specs::ErrorLines::update_line))]
pub fn update_line<K: Sink>(out: &mut K, start: u64, end: u64) -> Result<(), SinkError>
    ensures { Writes K.grows (K.written out.old) (K.written out.new) (K.faults out.old) (K.faults out.new)
        (update_line start end) result }
{
    let mut digits = [0; 20];
    let end = decimal_digits(end, &mut digits);
    text_line(out, "update", start, end)
}

fn digits_line<K: Sink>(out: &mut K, digits: &[u8]) -> Result<(), SinkError>
    ensures { Writes K.grows (K.written out.old) (K.written out.new) (K.faults out.old) (K.faults out.new)
        (concat (codes "error root " ∷ digits.now ∷ codes "\n" ∷ [])) result }
{
    write_pieces(out, &[b"error root ".as_slice(), digits, b"\n".as_slice()])
}

/// Writes the line of a root that isn't that of the synced target.
#[tactic(auto, unfolding(crate::specs::ErrorLines::root_line))]
pub fn root_line<K: Sink>(out: &mut K, found: &Digest) -> Result<(), SinkError>
    ensures { Writes K.grows (K.written out.old) (K.written out.new) (K.faults out.old) (K.faults out.new)
        (root_line found.now) result }
{
    let digits = hex_digits(found);
    digits_line(out, &digits)
}

fn follow_line<K: Sink>(out: &mut K, fault: &Fault) -> Result<(), SinkError>
    ensures { Writes K.grows (K.written out.old) (K.written out.new) (K.faults out.old) (K.faults out.new)
        (follow_line fault.now) result }
{
    match fault {
        Fault::Network => write_all(out, b"error network\n"),
        Fault::RequestChannelClosed => write_all(out, b"error closed\n"),
        Fault::InvalidResponse => write_all(out, b"error response\n"),
        Fault::UnexpectedResponse { request_id } => number_line(out, "unexpected", *request_id),
        Fault::Server { code, message } => server_line(out, *code, message.as_str()),
        Fault::InvalidProof { request_id } => number_line(out, "proof", *request_id),
        Fault::TooManyStrays => write_all(out, b"error strays\n"),
        Fault::StaleUpdate { start, end } => update_line(out, start.get(), end.get()),
        Fault::WrongRoot { found } => root_line(out, found),
        Fault::BadLog { location } => number_line(out, "log", location.get()),
        Fault::BadValue { location } => number_line(out, "value", location.get()),
        Fault::Rejected { block, rejection } => rejection_line(out, *block, rejection),
        Fault::Full { block } => number_line(out, "full", *block as u64),
        Fault::OutOfMemory => write_all(out, b"error memory\n"),
    }
}

/// Writes the line of a fault, with its line feed; nothing after a failed write.
pub(crate) fn error_line<K: Sink>(out: &mut K, fault: &RunFault) -> Result<(), SinkError>
    ensures { Writes K.grows (K.written out.old) (K.written out.new) (K.faults out.old) (K.faults out.new)
        (line_of fault.now) result }
{
    match fault {
        RunFault::Usage => write_all(out, b"error usage\n"),
        RunFault::BadJob { line } => number_line(out, "job line", *line),
        RunFault::JobRead => write_all(out, b"error job read\n"),
        RunFault::JobTooLarge => write_all(out, b"error job too large\n"),
        RunFault::Dial => write_all(out, b"error dial\n"),
        RunFault::Follow(fault) => follow_line(out, fault),
        RunFault::Output => write_all(out, b""),
        RunFault::OutOfMemory => write_all(out, b"error memory\n"),
    }
}
