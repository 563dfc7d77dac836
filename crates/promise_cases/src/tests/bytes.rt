//! What is promised of spellings, frames and sinks.
ghost use Rattle.std.specs.Prelude.{◌≡◌, ◌<◌, ◌++◌, ◌∷◌, [], IfOk, IsErrOf, None, Ok};
ghost use Rattle.ledger_codec.specs.Frames.{Whole, front};
ghost use Rattle.ledger_codec.specs.Sequences.{all_of};
ghost use Rattle.ledger_codec.specs.Spelling.{IsReadAgain};
ghost use Rattle.ledger_codec.specs.declared.sink.SinkError.TheVariants.{OutOfMemory as Starved};
ghost use Rattle.ledger_log.specs.Spellings.{any_at};
ghost use Rattle.ledger_log.specs.declared.any.AnyOp.{AnyOp};
ghost use Rattle.ledger_log.specs.declared.any.AnyOp.TheVariants.{CommitFloor};

use ledger_codec::{
    CodecError, MemorySink, OutOfMemory, Sink, SinkError, Writing, decode, encode, frame,
};
use ledger_log::AnyOp;
use ledger_merkle::Location;
use std::alloc::Global;
use std::io::Write;

/// The frame of one byte: a reader cuts off that byte, also where another one follows.
fn framed(alloc: Global) -> Result<Vec<u8>, OutOfMemory>
    ensures { IfOk result (λ bytes. front 10485760 (bytes.items ++ 5 ∷ []) ≡ Whole (7 ∷ []) (5 ∷ [])) }
{
    frame(alloc, &[7])
}

/// The spelling of a commit, which is read as that commit whatever follows.
fn spelled(alloc: Global) -> Result<Vec<u8>, OutOfMemory>
    ensures { IfOk result (λ bytes. IsReadAgain any_at (CommitFloor None 0) bytes.items) }
{
    encode(alloc, &AnyOp::CommitFloor(None, Location::ZERO))
}

/// The operation whose spelling these bytes are: with a byte more they are none.
fn read(alloc: Global, bytes: &[u8]) -> Result<AnyOp, CodecError>
    ensures { IfOk result (λ _. (other : AnyOp) → all_of any_at (bytes.now ++ 0 ∷ []) ≡ Ok other → ⊥) }
{
    decode(alloc, bytes)
}

/// How many of two bytes a sink in memory takes: some, unless its call fails.
fn written(alloc: Global) -> Result<usize, SinkError>
    ensures { IfOk result (λ count. 0 < count) }
{
    let mut sink = MemorySink::new(alloc, Vec::new(alloc));
    sink.write(&[1, 2])
}

/// How many of two bytes a writer takes: no memory is wanting, as the sink over it takes none.
fn taken<W: Write>(sink: &mut Writing<W>) -> Result<usize, SinkError>
    ensures { IsErrOf result Starved → ⊥ }
{
    sink.write(&[1, 2])
}

#[test]
fn bytes_are_read_as_they_were_written(rt: HostRuntime) {
    let alloc = rt.alloc();
    assert!(rt; framed(alloc).is_ok_and(|bytes| bytes.as_slice() == [1, 7].as_slice()));
    assert!(rt; spelled(alloc).is_ok_and(|bytes| bytes.as_slice() == [2, 0, 0].as_slice()));
    assert!(rt; read(alloc, &[2, 0, 0]).is_ok());
    assert!(rt; written(alloc).is_ok_and(|count| count == 2));
    let mut sink = Writing::new(Vec::<u8>::new(alloc));
    assert!(rt; taken(&mut sink).is_ok_and(|count| count == 2));
}
