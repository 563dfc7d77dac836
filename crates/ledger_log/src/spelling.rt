//! Operations, targets and states as bytes. An operation's spelling is its leaf bytes.
ghost use Rattle.std.specs.Prelude.{◌≡◌, ◌++◌, OnOk, OnErr};
ghost use Rattle.ledger_codec.specs.Parsing.{Reads};
ghost use Rattle.ledger_codec.specs.Sequences.{size_of};
ghost use Rattle.ledger_log.specs.Spellings.{metadata_at};

use crate::{AnyOp, CompactState, CompactTarget, ImmutableOp, KeylessOp, Target, Value};
use ledger_codec::{
    CodecError, Digest, List, MAX_PINNED_NODES, OutOfMemory, Reader, Spell, Writer, size_of_vec,
};
use ledger_merkle::{Leaf, Location, Proof};
use std::alloc::Global;

/// The number of an operation's leaf bytes.
fn leaf_size<T: Leaf>(op: &T) -> usize
    ensures { result ≡ size_of (T.spelling op.now) }
{
    op.leaf_bytes(&mut [0; 96])
}

/// Appends an operation's leaf bytes.
fn write_leaf<T: Leaf>(op: &T, out: &mut Writer) -> Result<(), OutOfMemory>
    ensures ok { OnOk result (out.new ≡ out.old ++ T.spelling op.now) }
    ensures err { OnErr result (out.new ≡ out.old) }
{
    let mut bytes = [0; 96];
    let end = op.leaf_bytes(&mut bytes);
    out.write_slice(&bytes[..end])
}

/// Reads a flag that is 0 or 1, else `InvalidEnum`, and metadata where it is 1.
#[tactic(auto, unfolding(crate::specs::Spellings::metadata_at))]
fn read_metadata(from: &mut Reader<'_>) -> Result<Option<Value>, CodecError>
    ensures { Reads result from.old from.new (metadata_at from.old) }
{
    let mut at = from.fork();
    let flag = at.read_u8()?;
    let metadata = match flag {
        0 => None,
        1 => Some(at.read_digest()?),
        _ => return Err(CodecError::InvalidEnum { tag: flag }),
    };
    *from = at;
    Ok(metadata)
}

/// An operation of the families any and current is its tag and its parts.
impl Spell for AnyOp {
    ghost use Rattle.ledger_log.specs.Any.{any_spelling, IsSoundAny};
    ghost use Rattle.ledger_log.specs.Spellings.{any_at, any_laws};

    ghost reading = { any_at };

    ghost written = { any_spelling };

    ghost sound = { IsSoundAny };

    ghost fits = { λ _. Unit {0} };

    ghost laws = { any_laws };

    fn size(&self) -> usize {
        leaf_size(self)
    }

    fn spell(&self, out: &mut Writer) -> Result<(), OutOfMemory> {
        write_leaf(self, out)
    }

    #[tactic(auto, unfolding(crate::specs::Spellings::any_at))]
    fn read(alloc: Global, from: &mut Reader<'_>) -> Result<AnyOp, CodecError> {
        let mut at = from.fork();
        let tag = at.read_u8()?;
        let op = match tag {
            0 => AnyOp::Update(at.read_digest()?, at.read_digest()?),
            1 => AnyOp::Delete(at.read_digest()?),
            2 => AnyOp::CommitFloor(read_metadata(&mut at)?, Location::read(alloc, &mut at)?),
            _ => return Err(CodecError::InvalidEnum { tag }),
        };
        *from = at;
        Ok(op)
    }
}

/// An operation of the family immutable is its tag and its parts.
impl Spell for ImmutableOp {
    ghost use Rattle.ledger_log.specs.Immutable.{immutable_spelling, IsSoundImmutable};
    ghost use Rattle.ledger_log.specs.Spellings.{immutable_at, immutable_laws};

    ghost reading = { immutable_at };

    ghost written = { immutable_spelling };

    ghost sound = { IsSoundImmutable };

    ghost fits = { λ _. Unit {0} };

    ghost laws = { immutable_laws };

    fn size(&self) -> usize {
        leaf_size(self)
    }

    fn spell(&self, out: &mut Writer) -> Result<(), OutOfMemory> {
        write_leaf(self, out)
    }

    #[tactic(auto, unfolding(crate::specs::Spellings::immutable_at))]
    fn read(alloc: Global, from: &mut Reader<'_>) -> Result<ImmutableOp, CodecError> {
        let mut at = from.fork();
        let tag = at.read_u8()?;
        let op = match tag {
            0 => ImmutableOp::Set(at.read_digest()?, at.read_digest()?),
            1 => ImmutableOp::Commit(read_metadata(&mut at)?, Location::read(alloc, &mut at)?),
            _ => return Err(CodecError::InvalidEnum { tag }),
        };
        *from = at;
        Ok(op)
    }
}

/// An operation of the family keyless is its tag and its parts.
impl Spell for KeylessOp {
    ghost use Rattle.ledger_log.specs.Keyless.{keyless_spelling, IsSoundKeyless};
    ghost use Rattle.ledger_log.specs.Spellings.{keyless_at, keyless_laws};

    ghost reading = { keyless_at };

    ghost written = { keyless_spelling };

    ghost sound = { IsSoundKeyless };

    ghost fits = { λ _. Unit {0} };

    ghost laws = { keyless_laws };

    fn size(&self) -> usize {
        leaf_size(self)
    }

    fn spell(&self, out: &mut Writer) -> Result<(), OutOfMemory> {
        write_leaf(self, out)
    }

    #[tactic(auto, unfolding(crate::specs::Spellings::keyless_at))]
    fn read(alloc: Global, from: &mut Reader<'_>) -> Result<KeylessOp, CodecError> {
        let mut at = from.fork();
        let tag = at.read_u8()?;
        let op = match tag {
            0 => KeylessOp::Append(at.read_digest()?),
            1 => KeylessOp::Commit(read_metadata(&mut at)?, Location::read(alloc, &mut at)?),
            _ => return Err(CodecError::InvalidEnum { tag }),
        };
        *from = at;
        Ok(op)
    }
}

/// A target is its root, its start and its end, else `Invalid` where the range is empty.
impl Spell for Target {
    ghost use Rattle.ledger_log.specs.Spellings.{target_at, target_written, IsSoundTarget, target_laws};

    ghost reading = { target_at };

    ghost written = { target_written };

    ghost sound = { IsSoundTarget };

    ghost fits = { λ _. Unit {0} };

    ghost laws = { target_laws };

    fn size(&self) -> usize {
        self.root
            .size()
            .saturating_add(self.start.size())
            .saturating_add(self.end.size())
    }

    fn spell(&self, out: &mut Writer) -> Result<(), OutOfMemory> {
        self.root.spell(out)?;
        self.start.spell(out)?;
        self.end.spell(out)
    }

    #[tactic(auto, unfolding(crate::specs::Spellings::target_at))]
    fn read(alloc: Global, from: &mut Reader<'_>) -> Result<Target, CodecError> {
        let mut at = from.fork();
        let root = at.read_digest()?;
        let start = Location::read(alloc, &mut at)?;
        let end = Location::read(alloc, &mut at)?;
        match Target::new(root, start, end) {
            Some(target) => {
                *from = at;
                Ok(target)
            }
            None => Err(CodecError::Invalid),
        }
    }
}

/// A compact target is its root and its number of operations.
impl Spell for CompactTarget {
    ghost use Rattle.ledger_log.specs.Spellings.{compact_target_at, compact_target_written, IsSoundCompactTarget, compact_target_laws};

    ghost reading = { compact_target_at };

    ghost written = { compact_target_written };

    ghost sound = { IsSoundCompactTarget };

    ghost fits = { λ _. Unit {0} };

    ghost laws = { compact_target_laws };

    fn size(&self) -> usize {
        self.root.size().saturating_add(self.leaf_count.size())
    }

    fn spell(&self, out: &mut Writer) -> Result<(), OutOfMemory> {
        self.root.spell(out)?;
        self.leaf_count.spell(out)
    }

    #[tactic(auto, unfolding(crate::specs::Spellings::compact_target_at))]
    fn read(alloc: Global, from: &mut Reader<'_>) -> Result<CompactTarget, CodecError> {
        let mut at = from.fork();
        let root = at.read_digest()?;
        let leaf_count = Location::read(alloc, &mut at)?;
        *from = at;
        Ok(CompactTarget { root, leaf_count })
    }
}

/// A compact state is its number of operations, at most `MAX_PINNED_NODES` nodes, its last commit and the
/// proof of it.
impl<Op: Spell> Spell for CompactState<Op> {
    ghost use Rattle.ledger_log.specs.Spellings.{compact_state_at, compact_state_written, IsSoundCompactState, CompactStateFits, compact_state_laws};

    ghost reading = { compact_state_at Op.reading };

    ghost written = { compact_state_written Op.written };

    ghost sound = { IsSoundCompactState Op.sound };

    ghost fits = { CompactStateFits Op.fits };

    ghost laws = { compact_state_laws Op.reading Op.written Op.sound Op.fits Op.laws };

    fn size(&self) -> usize {
        self.leaf_count
            .size()
            .saturating_add(size_of_vec(self.pinned_nodes.as_slice()))
            .saturating_add(self.last_commit_op.size())
            .saturating_add(self.last_commit_proof.size())
    }

    fn spell(&self, out: &mut Writer) -> Result<(), OutOfMemory> {
        self.leaf_count.spell(out)?;
        out.write_vec(self.pinned_nodes.as_slice())?;
        self.last_commit_op.spell(out)?;
        self.last_commit_proof.spell(out)
    }

    #[tactic(auto, unfolding(crate::specs::Spellings::compact_state_at))]
    fn read(alloc: Global, from: &mut Reader<'_>) -> Result<CompactState<Op>, CodecError> {
        let mut at = from.fork();
        let leaf_count = Location::read(alloc, &mut at)?;
        let pinned_nodes = List::from_vec(at.read_vec::<Digest>(alloc, MAX_PINNED_NODES)?);
        let last_commit_op = Op::read(alloc, &mut at)?;
        let last_commit_proof = Proof::read(alloc, &mut at)?;
        *from = at;
        Ok(CompactState {
            leaf_count,
            pinned_nodes,
            last_commit_op,
            last_commit_proof,
        })
    }
}
