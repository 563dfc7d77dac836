//! What every crate of the ledger stands on: want of memory, lists and texts that contracts see, digests,
//! the two ends of a stream of bytes, and the spelling of values in it.
//!
//! ```text
//!   Source  --read-->  bytes  ...  bytes  --write-->  Sink
//!
//!   bytes  --Framer-->  bodies  --decode-->  values  --encode-->  bodies  --frame-->  bytes
//! ```
//!
//! A `Source` and a `Sink` count their failed calls, so that a caller can say in its contract that it
//! answered a fault only where one came. What they hold is told by the forms in memory and left open by
//! the adapters over std, which are the trusted edge.
//!
//! A type's spelling has two sides: a function that reads a value at the front of bytes, and the bytes
//! that are written for a value. What was written is read again, whatever follows it, and no spelling
//! begins another; each type proves this as a law of `Spell`.
#![tactic(auto)]

mod digest;
mod fault;
mod framer;
mod framing;
mod limits;
mod list;
mod memory;
mod reader;
mod sink;
mod source;
mod spell;
mod text;
mod writer;

pub use digest::Digest;
pub use fault::CodecError;
pub use framer::Framer;
pub use framing::{FrameError, frame, frame_at, split_frame};
pub use limits::{MAX_DIGESTS, MAX_MESSAGE_SIZE, MAX_PINNED_NODES};
pub use list::List;
pub use memory::OutOfMemory;
pub use reader::Reader;
pub use sink::{MemorySink, Sink, SinkError, Writing};
pub use source::{MemorySource, Reading, Source, SourceFailed};
pub use spell::{Spell, decode, encode, size_of_bytes, size_of_vec};
pub use text::Text;
pub use writer::{Writer, size_of_varint};
