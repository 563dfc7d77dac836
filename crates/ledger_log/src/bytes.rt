//! Writing the leaf bytes of operations.
ghost use Rattle.std.specs.Prelude.{◌≡◌, ℕ, ◌+◌, ◌≤◌, ◌++◌, length, take};
ghost use Rattle.ledger_codec.specs.Numbers.{varint};
ghost use Rattle.ledger_log.specs.Spelling.{commit_spelling, Is32Bytes, IsSoundCommit};

use crate::Value;
use ledger_merkle::Location;

/// Writes the bytes from this place on, and gives the place behind them.
pub(crate) fn put(out: &mut [u8; 96], at: usize, bytes: &[u8]) -> usize
    requires { at + length bytes.now ≤ 96 }
    ensures end { result ≡ at + length bytes.now }
    ensures bytes { take result out.new ≡ take at out.old ++ bytes.now }
{
    let end = at + bytes.len();
    out[at..end].copy_from_slice(bytes);
    end
}

/// Writes 32 bytes from this place on, and gives the place behind them.
pub(crate) fn put_value(out: &mut [u8; 96], at: usize, value: Value) -> usize
    requires { at ≤ 64 }
    ensures end { result ≡ at + length value }
    ensures sound { Is32Bytes value }
    ensures bytes { take result out.new ≡ take at out.old ++ value }
{
    put(out, at, &value)
}

/// Writes the number from this place on, and gives the place behind it.
pub(crate) fn put_varint(out: &mut [u8; 96], at: usize, value: u64) -> usize
    requires { at ≤ 86 }
    ensures end { result ≡ at + length (varint value) }
    ensures most { result ≤ at + 10 }
    ensures bytes { take result out.new ≡ take at out.old ++ varint value }
{
    let mut end = at;
    let mut rest = value;
    while rest >= 128 {
        out[end] = (rest % 128) as u8 + 128;
        end += 1;
        rest /= 128;
    }
    out[end] = rest as u8;
    end + 1
}

/// Writes what follows a commit's tag from this place on, and gives the place behind it.
pub(crate) fn put_commit(
    out: &mut [u8; 96],
    at: usize,
    metadata: &Option<Value>,
    floor: Location,
) -> usize
    requires { at ≤ 50 }
    ensures end { result ≡ at + length (commit_spelling metadata.now floor) }
    ensures most { result ≤ 96 }
    ensures sound { IsSoundCommit metadata.now floor }
    ensures bytes { take result out.new ≡ take at out.old ++ commit_spelling metadata.now floor }
{
    match metadata {
        None => {
            let flag_end = put(out, at, &[0]);
            put_varint(out, flag_end, floor.get())
        }
        Some(metadata) => {
            let flag_end = put(out, at, &[1]);
            let metadata_end = put_value(out, flag_end, *metadata);
            put_varint(out, metadata_end, floor.get())
        }
    }
}
