//! Locations and proofs as bytes.

use crate::{Location, Proof};
use ledger_codec::{
    CodecError, Digest, List, MAX_DIGESTS, OutOfMemory, Reader, Spell, Writer, size_of_varint,
    size_of_vec,
};
use std::alloc::Global;

/// A location is a varint of 64 bits, else `Invalid` above `MAX_LEAVES`.
impl Spell for Location {
    ghost use Rattle.ledger_codec.specs.Numbers.{varint};
    ghost use Rattle.ledger_merkle.specs.Spellings.{location_at, IsSoundLocation, location_laws};

    ghost reading = { location_at };

    ghost written = { varint };

    ghost sound = { IsSoundLocation };

    ghost fits = { λ _. Unit {0} };

    ghost laws = { location_laws };

    fn size(&self) -> usize {
        size_of_varint(self.get())
    }

    fn spell(&self, out: &mut Writer) -> Result<(), OutOfMemory> {
        out.write_varint64(self.get())
    }

    #[tactic(auto, unfolding(crate::specs::Spellings::location_at))]
    fn read(_alloc: Global, from: &mut Reader<'_>) -> Result<Location, CodecError> {
        let mut at = from.fork();
        let number = at.read_varint64()?;
        match Location::new(number) {
            Some(location) => {
                *from = at;
                Ok(location)
            }
            None => Err(CodecError::Invalid),
        }
    }
}

/// A proof is its leaves, its inactive peaks and at most `MAX_DIGESTS` digests.
impl Spell for Proof {
    ghost use Rattle.std.specs.Prelude.{◌≤◌, length};
    ghost use Rattle.ledger_merkle.specs.Spellings.{proof_at, proof_written, IsSoundProof, proof_laws};

    ghost reading = { proof_at };

    ghost written = { proof_written };

    ghost sound = { IsSoundProof };

    ghost fits = { λ proof. length proof.digests ≤ 10000 };

    ghost laws = { proof_laws };

    fn size(&self) -> usize {
        self.leaves
            .size()
            .saturating_add(size_of_varint(self.inactive_peaks))
            .saturating_add(size_of_vec(self.digests.as_slice()))
    }

    fn spell(&self, out: &mut Writer) -> Result<(), OutOfMemory> {
        self.leaves.spell(out)?;
        out.write_varint64(self.inactive_peaks)?;
        out.write_vec(self.digests.as_slice())
    }

    #[tactic(auto, unfolding(crate::specs::Spellings::proof_at))]
    fn read(alloc: Global, from: &mut Reader<'_>) -> Result<Proof, CodecError> {
        let mut at = from.fork();
        let leaves = Location::read(alloc, &mut at)?;
        let inactive_peaks = at.read_varint64()?;
        let digests = List::from_vec(at.read_vec::<Digest>(alloc, MAX_DIGESTS)?);
        *from = at;
        Ok(Proof {
            leaves,
            inactive_peaks,
            digests,
        })
    }
}
