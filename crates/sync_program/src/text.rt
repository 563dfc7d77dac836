//! The lines of a log that was synced.
ghost use Rattle.std.specs.Prelude.{◌≡◌};
ghost use Rattle.sync_program.specs.Text.{full_text, compact_text, synced_text};
ghost use Rattle.ledger_program.specs.Writing.{Writes};
ghost use Rattle.std.specs.Fmt.{decimal};

use ledger_codec::{Sink, SinkError};
use ledger_program::{decimal_digits, hex_digits, write_pieces};
use ledger_sync::Synced;

#[tactic(auto, unfolding(crate::specs::Text::full_text))]
fn write_full<K: Sink>(
    out: &mut K,
    family: &str,
    start: u64,
    size: u64,
    floor: u64,
    digits: &[u8],
) -> Result<(), SinkError>
    ensures { Writes K.grows (K.written out.old) (K.written out.new) (K.faults out.old) (K.faults out.new)
        (full_text family.now start size floor digits.now) result }
{
    let mut starts = [0; 20];
    let start = decimal_digits(start, &mut starts);
    let mut sizes = [0; 20];
    let size = decimal_digits(size, &mut sizes);
    let mut floors = [0; 20];
    let floor = decimal_digits(floor, &mut floors);
    write_pieces(
        out,
        &[
            b"synced ".as_slice(),
            family.as_bytes(),
            b" full\nstart ".as_slice(),
            start,
            b"\nsize ".as_slice(),
            size,
            b"\nfloor ".as_slice(),
            floor,
            b"\nroot ".as_slice(),
            digits,
            b"\n".as_slice(),
        ],
    )
}

#[tactic(auto, unfolding(crate::specs::Text::compact_text))]
fn write_compact<K: Sink>(
    out: &mut K,
    family: &str,
    size: &[u8],
    floor: &[u8],
    digits: &[u8],
) -> Result<(), SinkError>
    ensures { Writes K.grows (K.written out.old) (K.written out.new) (K.faults out.old) (K.faults out.new)
        (compact_text family.now size.now floor.now digits.now) result }
{
    write_pieces(
        out,
        &[
            b"synced ".as_slice(),
            family.as_bytes(),
            b" compact\nsize ".as_slice(),
            size,
            b"\nfloor ".as_slice(),
            floor,
            b"\nroot ".as_slice(),
            digits,
            b"\n".as_slice(),
        ],
    )
}

fn compact_lines<K: Sink>(
    out: &mut K,
    family: &str,
    size: u64,
    floor: u64,
    digits: &[u8],
) -> Result<(), SinkError>
    ensures { Writes K.grows (K.written out.old) (K.written out.new) (K.faults out.old) (K.faults out.new)
        (compact_text family.now (decimal size) (decimal floor) digits.now) result }
{
    let mut sizes = [0; 20];
    let size = decimal_digits(size, &mut sizes);
    let mut floors = [0; 20];
    let floor = decimal_digits(floor, &mut floors);
    write_compact(out, family, size, floor, digits)
}

/// Writes the lines of a log that was synced. It takes no memory of its own.
pub(crate) fn write_synced<K: Sink>(out: &mut K, synced: &Synced) -> Result<(), SinkError>
    ensures { Writes K.grows (K.written out.old) (K.written out.new) (K.faults out.old) (K.faults out.new)
        (synced_text synced.now) result }
{
    let digits = hex_digits(&synced.root);
    let family = synced.family.as_str();
    let size = synced.size.get();
    let floor = synced.floor.get();
    match synced.start {
        Some(start) => write_full(out, family, start.get(), size, floor, &digits),
        None => compact_lines(out, family, size, floor, &digits),
    }
}
