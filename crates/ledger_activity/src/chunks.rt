//! Bits as chunks of 32 bytes, and the roots over them.
ghost use Rattle.std.specs.Prelude.{◌≡◌, ◌+◌, ◌*◌, ◌<◌, ◌≤◌, ◌^◌, ◌++◌, IfOk, false, length, replicate};
ghost use Rattle.ledger_activity.specs.Chunks.{bit_of, byte_of, chunk_of, bits_root, canonical_root};

use ledger_codec::{Digest, OutOfMemory};
use ledger_merkle::{Hasher, Peaks, hash_item};
use std::alloc::Global;

/// The bits of a chunk.
const CHUNK_BITS: usize = 256;

/// The root over the chunks of the bits, each as one leaf: `front` of which none is set, and these behind them.
pub(crate) fn root_of_bits<H: Hasher>(
    alloc: Global,
    front: usize,
    bits: &[bool],
) -> Result<Digest, OutOfMemory>
    requires { front + length bits.now ≤ 2 ^ 62 }
    ensures { IfOk result (λ root. root ≡ bits_root H.digest (replicate front false ++ bits.now)) }
{
    let count = (front + bits.len()).div_ceil(CHUNK_BITS);
    let mut peaks = Peaks::<H>::new(alloc);
    for index in 0..count {
        let chunk = chunk_at(front, bits, CHUNK_BITS * index);
        let digest = hash_item::<H, [u8; 32]>(peaks.size(), &chunk);
        peaks.push(digest)?;
    }
    Ok(peaks.root())
}

/// The 32 bytes of the bits from this place on.
fn chunk_at(front: usize, bits: &[bool], at: usize) -> [u8; 32]
    requires { at < 2 ^ 63 }
    ensures { result ≡ chunk_of (replicate front false ++ bits.now) at }
{
    let mut chunk = [0; 32];
    for index in 0..32 {
        chunk[index] = byte_at(front, bits, at + 8 * index);
    }
    chunk
}

/// The byte of the bits from this place on, the first as its top bit.
fn byte_at(front: usize, bits: &[bool], at: usize) -> u8
    requires { at < 2 ^ 63 + 256 }
    ensures { result ≡ byte_of (replicate front false ++ bits.now) at }
{
    128 * bit_at(front, bits, at)
        + 64 * bit_at(front, bits, at + 1)
        + 32 * bit_at(front, bits, at + 2)
        + 16 * bit_at(front, bits, at + 3)
        + 8 * bit_at(front, bits, at + 4)
        + 4 * bit_at(front, bits, at + 5)
        + 2 * bit_at(front, bits, at + 6)
        + bit_at(front, bits, at + 7)
}

/// The bit at this place as a number, 0 before `front` and past the end.
#[tactic(auto, using(crate::proofs::Cut::low_bit, crate::proofs::Cut::high_bit))]
fn bit_at(front: usize, bits: &[bool], at: usize) -> u8
    ensures bit { result ≡ bit_of (replicate front false ++ bits.now) at }
    ensures most { result ≤ 1 }
{
    if at < front {
        0
    } else {
        own_bit_at(bits, at - front)
    }
}

/// The bit at this place of these as a number, 0 past the end.
fn own_bit_at(bits: &[bool], at: usize) -> u8
    ensures bit { result ≡ bit_of bits.now at }
    ensures most { result ≤ 1 }
{
    if at < bits.len() && bits[at] { 1 } else { 0 }
}

/// The canonical root: a byte 3, the operations root, the bits root.
#[tactic(auto, unfolding(crate::specs::Chunks::canonical_root))]
pub(crate) fn hash_canonical<H: Hasher>(ops_root: &Digest, root_of_bits: &Digest) -> Digest
    ensures { result ≡ canonical_root H.digest ops_root.now root_of_bits.now }
{
    let mut hasher = H::new();
    hasher.update(&[3]);
    hasher.update(ops_root);
    hasher.update(root_of_bits);
    hasher.finish()
}
